// Lists that a list of parts makes.
ghost use Rattle.std.specs.Prelude.{◌≡◌, IfOk};
ghost use Rattle.manifest_json.specs.Flat as flat;

use mesh_text::{List, Memory};
use std::alloc::Global;

/// Those of the entries that are there, in their order.
pub(crate) fn kept<T: Drop>(alloc: Global, entries: List<Option<T>>) -> Result<List<T>, Memory>
    ensures { IfOk result (λ l. l ≡ flat.kept entries) }
{
    let mut all = List::new(alloc);
    for entry in entries.into_vec() {
        if let Some(value) = entry {
            all.push(value)?;
        }
    }
    Ok(all)
}

/// The lists one behind the other.
pub(crate) fn joined<T: Drop>(alloc: Global, lists: List<List<T>>) -> Result<List<T>, Memory>
    ensures { IfOk result (λ l. l ≡ flat.joined lists) }
{
    let mut all = List::new(alloc);
    for list in lists.into_vec() {
        all.append(list)?;
    }
    Ok(all)
}
