// What `check` says of manifests without fault.
ghost use Rattle.std.specs.Prelude.{◌≡◌, ◌++◌, string_bytes, IfOk, OnOk};
ghost use Rattle.mesh_cli.specs.Counts.{count_text, counts_text};

use mesh_policy::Bundle;
use mesh_text::Memory;
use std::alloc::Global;

/// How many items of each kind were read, and how many others were passed over.
#[tactic(auto, unfolding(crate::specs::Counts::counts_text))]
pub fn counts_text(alloc: Global, bundle: &Bundle) -> Result<String, Memory>
    ensures { IfOk result (λ s. string_bytes s ≡ counts_text bundle.now) }
{
    let mut text = String::from_str(alloc, "accepted:")?;
    push_count(&mut text, "pods", bundle.pods.len())?;
    push_count(&mut text, "services", bundle.services.len())?;
    push_count(&mut text, "authorization", bundle.authorization.len())?;
    push_count(&mut text, "peer", bundle.peers.len())?;
    push_count(&mut text, "request", bundle.requests.len())?;
    push_count(&mut text, "mesh", bundle.mesh_items as usize)?;
    push_count(&mut text, "other", bundle.others as usize)?;
    Ok(text)
}

fn push_count(text: &mut String, name: &str, count: usize) -> Result<(), Memory>
    ensures { OnOk result (string_bytes text.new ≡ string_bytes text.old ++ count_text name.now count) }
{
    write!(text, " {name} {count}")?;
    Ok(())
}
