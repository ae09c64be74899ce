// Fields of an object that say whether a listener is built for it.
ghost use Rattle.std.specs.Prelude.{◌≡◌};
ghost use Rattle.serde_json.specs.View.{items_view, view};
ghost use Rattle.mesh_doc.specs.Faults.{Reads};
ghost use Rattle.mesh_doc.specs.Fields.{required_in};
ghost use Rattle.mesh_doc.specs.Kinds.{text_in};
ghost use Rattle.policy_json.specs.TargetRefs.{has_no_entry, is_empty_list};
ghost use Rattle.kept_back.specs.Fields.{kept_unless, no_entries};

use mesh_doc::{DocError, Form, Reason, Spot, field, optional};
use serde_json::Value;
use std::alloc::Global;

/// The field `name` as a text, the empty one where it is something else.
#[tactic(auto, unfolding(mesh_doc::specs::Fields::required_in, mesh_doc::specs::Kinds::text_in))]
pub(crate) fn text_at<'a>(v: &'a Value, name: &str) -> &'a str
    ensures { result.now ≡ required_in name.now text_in (view v.now) }
{
    match field(v, name) {
        Some(Value::String(text)) => text.as_str(),
        _ => "",
    }
}

/// Tells the field `name` of the object `v` at `at` where it has an entry.
#[tactic(auto, unfolding(crate::specs::Fields::no_entries))]
pub(crate) fn no_entries(alloc: Global, v: &Value, name: &str, at: &Spot) -> Result<(), DocError>
    ensures { Reads result (no_entries name.now (view v.now) at.now) tt }
{
    optional::<EmptyList>(alloc, v, name, at)?;
    Ok(())
}

struct EmptyList;

impl Form for EmptyList {
    type Out = ();

    ghost faults = { kept_unless is_empty_list };

    ghost value = { λ _. tt };

    fn read(alloc: Global, v: &Value, at: &Spot) -> Result<(), DocError> {
        match v {
            Value::Array(entries) if has_no_entry(entries.as_slice()) => Ok(()),
            _ => Err(at.refuse(alloc, Reason::UnknownField)),
        }
    }
}

fn has_no_entry(entries: &[Value]) -> bool
    ensures { result ≡ has_no_entry (items_view entries.now) }
{
    entries.iter().next().is_none()
}
