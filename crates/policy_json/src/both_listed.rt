// A list of values in one field, and its negative list in the field beside it.
ghost use Rattle.serde_json.specs.View.{view};
ghost use Rattle.mesh_doc.specs.Faults.{Reads};
ghost use Rattle.policy_json.specs.BothListed as lists;

use mesh_doc::{DocError, Form, Spot, listed};
use mesh_policy::MOST_ENTRIES;
use mesh_text::List;
use serde_json::Value;
use std::alloc::Global;

/// The values of a field, and those of its negative field.
#[derive(Drop)]
pub struct ValueLists<T> {
    pub values: List<T>,
    pub not_values: List<T>,
}

/// The lists in the fields `name` and `not_name` of the object `v` at `at`. One that is not there is as an empty list.
#[tactic(auto, unfolding(crate::specs::BothListed::both_listed))]
pub(crate) fn both_listed<F: Form>(
    alloc: Global,
    v: &Value,
    name: &str,
    not_name: &str,
    at: &Spot,
) -> Result<ValueLists<F::Out>, DocError>
    ensures { Reads result
        (lists.both_listed name.now not_name.now F.faults (view v.now) at.now)
        (lists.both_listed_in name.now not_name.now F.value (view v.now)) }
{
    let values = listed::<F>(alloc, v, name, MOST_ENTRIES, at)?;
    let not_values = listed::<F>(alloc, v, not_name, MOST_ENTRIES, at)?;
    Ok(ValueLists { values, not_values })
}
