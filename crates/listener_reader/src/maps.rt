//! Objects whose keys are names, read from a listener's JSON: their entries stand in byte order of distinct names.
ghost use Rattle.std.specs.Prelude.{IsTrue, OnOk};
ghost use Rattle.serde_json.specs.View.{members_view, view};
ghost use Rattle.mesh_doc.specs.Faults.{Reads};
ghost use Rattle.mesh_doc.specs.Fields as fields;
ghost use Rattle.mesh_doc.specs.Maps.{map_in, map_of};
ghost use Rattle.listener_reader.specs.Keys.{are_rising, keys_in, keys_of_members};

use mesh_doc::{DocError, Entry, Spot, members, written};
use mesh_text::List;
use serde_json::{Map, Value};
use std::alloc::Global;

/// The members of the object in the field `name` of the object `v` at `at`, which has to be there.
#[tactic(auto, unfolding(mesh_doc::specs::Fields::required_written, mesh_doc::specs::Fields::required_written_in))]
pub(crate) fn required_members<E: Entry>(
    alloc: Global,
    v: &Value,
    name: &str,
    at: &Spot,
) -> Result<List<E::Out>, DocError>
    ensures reads { Reads result
        (fields.required_written name.now (map_of E.faults) (view v.now) at.now)
        (fields.required_written_in name.now (map_in E.value) (view v.now)) }
    ensures rising { OnOk result (IsTrue (are_rising (fields.required_written_in name.now keys_in (view v.now)))) }
{
    match written(v, name) {
        Some(found) => {
            keys_rise(found);
            members::<E>(alloc, found, &Spot::key(at, name))
        }
        None => Err(at.missing(alloc, name)),
    }
}

// The keys of an object stand in order.
#[tactic(auto, unfolding(crate::specs::Keys::keys_in, crate::specs::Keys::keys_of_members, mesh_doc::specs::Maps::map_in))]
fn keys_rise(v: &Value)
    ensures { IsTrue (are_rising (keys_in (view v.now))) }
{
    match v {
        Value::Object(fields) => keys_ascend(fields),
        _ => (),
    }
}

// The keys of a map ascend, as its iterator promises.
fn keys_ascend(fields: &Map<String, Value>)
    ensures { IsTrue (are_rising (keys_of_members (members_view fields.now.entries))) }
{
    let _ = fields.iter();
}
