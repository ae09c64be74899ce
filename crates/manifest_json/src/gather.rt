// The bundle that items make.
ghost use Rattle.std.specs.Prelude.{◌≡◌, ◌+◌, ◌<◌, ◌≤◌, ◌^◌, ◌∷◌, [], length, IfOk, OnOk};
ghost use Rattle.manifest_json.specs.Gather as gather;

use crate::items::Item;
use mesh_policy::{Bundle, MeshConfig, ROOT_NAMESPACE};
use mesh_text::{List, Memory, Text};
use std::alloc::Global;

/// The bundle of the items, each kind in their order. Without a MeshConfig its mesh has the defaults.
#[tactic(auto, using(crate::proofs::Bundles::one_by_one, crate::proofs::Bundles::and_nothing))]
pub(crate) fn gather(alloc: Global, items: List<Item>) -> Result<Bundle, Memory>
    requires { length items < 2 ^ 31 }
    ensures { IfOk result (λ b. b ≡ gather.bundle_of items) }
{
    let mut bundle = no_items(alloc)?;
    for item in items.into_vec() {
        add(&mut bundle, item)?;
    }
    Ok(bundle)
}

fn no_items(alloc: Global) -> Result<Bundle, Memory>
    ensures { IfOk result (λ b. b ≡ gather.no_items) }
{
    Ok(Bundle {
        pods: List::new(alloc),
        services: List::new(alloc),
        authorization: List::new(alloc),
        peers: List::new(alloc),
        requests: List::new(alloc),
        mesh: MeshConfig {
            root: Text::of(alloc, ROOT_NAMESPACE)?,
            providers: List::new(alloc),
        },
        mesh_items: 0,
        others: 0,
    })
}

// Behind those of its kind.
fn add(bundle: &mut Bundle, item: Item) -> Result<(), Memory>
    requires mesh_items { bundle.old.mesh_items + 1 < 2 ^ 32 }
    requires others { bundle.old.others + 1 < 2 ^ 32 }
    ensures added { OnOk result (bundle.new ≡ gather.bundle_with bundle.old (item ∷ [])) }
    ensures mesh_items { OnOk result (bundle.new.mesh_items ≤ bundle.old.mesh_items + 1) }
    ensures others { OnOk result (bundle.new.others ≤ bundle.old.others + 1) }
{
    match item {
        Item::Pod(pod) => bundle.pods.push(pod),
        Item::Service(service) => bundle.services.push(service),
        Item::Authorization(policy) => bundle.authorization.push(policy),
        Item::Peer(policy) => bundle.peers.push(policy),
        Item::Request(policy) => bundle.requests.push(policy),
        Item::Mesh(mesh) => {
            bundle.mesh = mesh;
            bundle.mesh_items += 1;
            Ok(())
        }
        Item::Other => {
            bundle.others += 1;
            Ok(())
        }
    }
}
