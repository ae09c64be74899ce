// The text of a workload's listener.
ghost use Rattle.std.specs.Prelude.{◌≡◌, string_bytes, IfOk};
ghost use Rattle.chain_build.specs.Buildable.{IsBuildable};
ghost use Rattle.mesh_cli.specs.Headline.{Enforces};
ghost use Rattle.mesh_cli.specs.Text as told;

use chain_build::build;
use envoy_types::written_spells;
use listener_writer::to_value;
use mesh_select::Workload;
use mesh_text::Memory;
use std::alloc::Global;

/// The listener that enforces the policies of a workload, as compact JSON text.
pub fn listener_text(alloc: Global, workload: &Workload) -> Result<String, Memory>
    requires { IsBuildable workload.now }
    ensures text { IfOk result (λ s. string_bytes s ≡ told.listener_text workload.now) }
    ensures enforces { IfOk result (λ s. Enforces workload.now (string_bytes s)) }
{
    written_spells();
    let listener = build(alloc, workload)?;
    let value = to_value(alloc, &listener)?;
    let text = value.to_string(alloc)?;
    let _bytes = text.as_str();
    Ok(text)
}
