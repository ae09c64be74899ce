// What no two items of a document share.
ghost use Rattle.std.specs.Prelude.{◌≡◌, ◌++◌, ◌∷◌, [], not, IfOk, IsTrue};
ghost use Rattle.std.specs.List.{list_any};
ghost use Rattle.manifest_json.specs.Key.{same_key};

use crate::seen::Seen;
use mesh_text::{Memory, Text};
use std::alloc::Global;

/// The kinds of items. A policy is of one kind in all its API versions.
#[derive(Clone, Copy, PartialEq, Eq, Hash)]
pub enum Kind {
    Pod,
    Service,
    Authorization,
    Peer,
    Request,
    Mesh,
    /// None of these. Such an item is passed over.
    Other,
}

/// The kind, namespace and name of an item.
#[derive(Drop, PartialEq, Eq, Hash)]
pub struct ItemKey {
    pub kind: Kind,
    pub namespace: Text,
    pub name: Text,
}

impl ItemKey {
    pub(crate) fn of(
        alloc: Global,
        kind: Kind,
        namespace: &str,
        name: &str,
    ) -> Result<ItemKey, Memory>
        ensures { IfOk result (λ key. key ≡ record { kind = kind; namespace = namespace.now; name = name.now }) }
    {
        Ok(ItemKey {
            kind,
            namespace: Text::of(alloc, namespace)?,
            name: Text::of(alloc, name)?,
        })
    }
}

/// Whether the key is new. It has been seen from now on.
pub(crate) fn note_item(seen: &mut Seen<ItemKey>, key: ItemKey) -> Result<bool, Memory>
    ensures new { IfOk result (λ is_new. is_new ≡ not (list_any (same_key key) seen.old)) }
    ensures kept { IfOk result (λ is_new. IsTrue is_new → seen.new ≡ seen.old ++ key ∷ []) }
{
    seen.note(key)
}
