//! The names of the alternatives of a tree, and the first field that has another.
ghost use Rattle.std.specs.Prelude.{◌≡◌};
ghost use Rattle.serde_json.specs.View.{members_view};
ghost use Rattle.mesh_doc.specs.Faults.{Reads};
ghost use Rattle.mesh_doc.specs.Known.{is_known, unknown_in};
ghost use Rattle.envoy_types.specs.TreeForms.{known_names};

use crate::form::Form;
use mesh_doc::{DocError, Reason, Spot};
use serde_json::{Map, Value};
use std::alloc::Global;

/// Whether the fields of the object at `at` are alternatives: else UnknownField at the first other one.
pub(crate) fn only_alternatives<L: Form>(
    alloc: Global,
    members: &Map<String, Value>,
    at: &Spot,
) -> Result<(), DocError>
    ensures { Reads result (unknown_in (known_names L.form) (members_view members.now.entries) at.now) tt }
{
    for (name, _) in members.iter() {
        if !is_alternative::<L>(name.as_str()) {
            return Err(Spot::key(at, name.as_str()).refuse(alloc, Reason::UnknownField));
        }
    }
    Ok(())
}

fn is_alternative<L: Form>(name: &str) -> bool
    ensures { result ≡ is_known (known_names L.form) name.now }
{
    L::known().split(' ').any(|word| word == name)
}
