//! Objects whose keys are data.
ghost use Rattle.std.specs.Prelude.{List, ℕ, []};
ghost use Rattle.std.specs.BTreeMap.{IsOrdered};
ghost use Rattle.std.specs.String.{string_cmp};
ghost use Rattle.serde_json.specs.Data.{Data};
ghost use Rattle.serde_json.specs.View.{view, members_view};
ghost use Rattle.mesh_doc.specs.Faults.{Check, Reads};
ghost use Rattle.mesh_doc.specs.Maps as maps;

use crate::{DocError, Reason, Spot};
use mesh_text::List as Items;
use serde_json::{Map, Value};
use std::alloc::Global;

/// A form of the members of an object whose keys are data: as a `Form`, with the key beside the value.
pub trait Entry {
    type Out: Drop;

    ghost faults: { List ℕ → Check };

    ghost value: { List ℕ → Data → Self.Out };

    /// What the member `key` with the value `v` at `at` means, or its first fault.
    fn read(alloc: Global, key: &str, v: &Value, at: &Spot) -> Result<Self::Out, DocError>
        ensures { Reads result (faults key.now (view v.now) at.now) (value key.now (view v.now)) };
}

/// The members of the object `v` at `at`, in byte order of their keys. WrongType where it is no object, and else
/// the first fault of its members.
#[tactic(auto, unfolding(crate::specs::Maps::map_of, crate::specs::Maps::map_in, crate::specs::Kinds::object_faults))]
pub fn members<E: Entry>(alloc: Global, v: &Value, at: &Spot) -> Result<Items<E::Out>, DocError>
    ensures { Reads result
        (maps.map_of E.faults (view v.now) at.now)
        (maps.map_in E.value (view v.now)) }
{
    match v {
        Value::Object(fields) => unique_members::<E>(alloc, fields, at),
        _ => Err(at.refuse(alloc, Reason::WrongType)),
    }
}

// A map has each key once.
fn unique_members<E: Entry>(
    alloc: Global,
    fields: &Map<String, Value>,
    at: &Spot,
) -> Result<Items<E::Out>, DocError>
    ensures { let members = maps.unique_besides [] (members_view fields.now.entries) in
        Reads result
        (maps.each_member_faults E.faults members at.now)
        (maps.each_member_in E.value members) }
{
    each_member::<E>(alloc, fields, at)
}

fn each_member<E: Entry>(
    alloc: Global,
    fields: &Map<String, Value>,
    at: &Spot,
) -> Result<Items<E::Out>, DocError>
    ensures reads { Reads result
        (maps.each_member_faults E.faults (members_view fields.now.entries) at.now)
        (maps.each_member_in E.value (members_view fields.now.entries)) }
    ensures ordered { IsOrdered string_cmp fields.now }
{
    let mut all = Items::new(alloc);
    for (key, v) in fields.iter() {
        all.push(E::read(alloc, key.as_str(), v, &Spot::key(at, key.as_str()))?)?;
    }
    Ok(all)
}
