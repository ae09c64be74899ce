//! Lists, and objects whose keys are names, of parts that have a form of their own.
ghost use Rattle.std.specs.Option.{option_copied};
ghost use Rattle.std.specs.Prelude.{◌≡◌, ◌==◌, [], ◌∷◌, Some, None, if◌then◌else◌, length, map, IfOk, OnOk};
ghost use Rattle.serde_json.specs.Data.{array, string};
ghost use Rattle.serde_json.specs.View.{items_of, view};
ghost use Rattle.envoy_types.specs.WrittenFields as form;
ghost use Rattle.leaf_json.specs.Fields.{members_of};

use leaf_json::{Fields, number_value, text_value};
use mesh_text::{Memory, Text};
use serde_json::{Map, Value};
use std::alloc::Global;

/// A part of a listener that has a form in JSON of its own.
pub(crate) trait Spelled {
    ghost use Rattle.std.specs.Prelude.{◌≡◌, IfOk};
    ghost use Rattle.serde_json.specs.Data.{Data};
    ghost use Rattle.serde_json.specs.View.{view};

    ghost written: { Self → Data };

    /// The value that spells it, with no field that has its default.
    fn to_value(&self, alloc: Global) -> Result<Value, Memory>
        ensures { IfOk result (λ v. view v ≡ written self.now) };
}

/// A part that stands in an object under its name.
pub(crate) trait Named: Spelled {
    ghost use Rattle.std.specs.Prelude.{◌≡◌, ℕ, List};

    ghost name_of: { Self → List ℕ };

    fn name(&self) -> &str
        ensures { result.now ≡ name_of self.now };
}

impl Spelled for Text {
    ghost written = { string };

    fn to_value(&self, alloc: Global) -> Result<Value, Memory> {
        text_value(alloc, self)
    }
}

impl Spelled for u16 {
    ghost written = { form.number_written };

    fn to_value(&self, alloc: Global) -> Result<Value, Memory> {
        number_value(alloc, *self)
    }
}

/// A value, if there is one.
pub(crate) fn put_optional<W: Spelled>(
    alloc: Global,
    fields: &mut Fields,
    name: &str,
    found: Option<&W>,
) -> Result<(), Memory>
    ensures { OnOk result (members_of fields.new
        ≡ form.with_field (members_of fields.old) (form.optional_field name.now W.written (option_copied found.entry))) }
{
    match found {
        None => Ok(()),
        Some(part) => {
            let value = part.to_value(alloc)?;
            fields.put(alloc, name, value)
        }
    }
}

/// A list, unless it is empty.
#[tactic(auto, unfolding(envoy_types::specs::WrittenFields::list_written))]
pub(crate) fn put_list<W: Spelled>(
    alloc: Global,
    fields: &mut Fields,
    name: &str,
    items: &[W],
) -> Result<(), Memory>
    ensures { OnOk result (members_of fields.new
        ≡ form.with_field (members_of fields.old) (form.list_field name.now W.written items.now)) }
{
    let values = values_of(alloc, items)?;
    put_values(alloc, fields, name, values)
}

/// A list of these values, unless there is none.
#[tactic(auto, unfolding(envoy_types::specs::WrittenFields::list_written))]
pub(crate) fn put_values(
    alloc: Global,
    fields: &mut Fields,
    name: &str,
    values: Vec<Value>,
) -> Result<(), Memory>
    ensures { OnOk result (members_of fields.new
        ≡ form.with_field (members_of fields.old) (form.list_field name.now view values.items)) }
{
    if values.is_empty() {
        Ok(())
    } else {
        fields.put(alloc, name, Value::Array(values))
    }
}

/// The values of the items, in their order.
pub(crate) fn values_of<W: Spelled>(alloc: Global, items: &[W]) -> Result<Vec<Value>, Memory>
    ensures { IfOk result (λ vs. map view vs.items ≡ map W.written items.now) }
{
    let mut values = Vec::new(alloc);
    for item in items {
        let value = item.to_value(alloc)?;
        serde_json::push(&mut values, value)?;
    }
    Ok(values)
}

#[tactic(auto, unfolding(envoy_types::specs::WrittenFields::list_written))]
pub(crate) fn list_value<W: Spelled>(alloc: Global, items: &[W]) -> Result<Value, Memory>
    ensures { IfOk result (λ v. view v ≡ form.list_written W.written items.now) }
{
    let values = values_of(alloc, items)?;
    Ok(Value::Array(values))
}

/// A list of this one value.
pub(crate) fn sole_entry(alloc: Global, value: Value) -> Result<Value, Memory>
    ensures { IfOk result (λ v. view v ≡ array (items_of (view value ∷ []))) }
{
    let mut values = Vec::new(alloc);
    serde_json::push(&mut values, value)?;
    Ok(Value::Array(values))
}

/// An object of the items, each under its name. They are put in from the last one on.
#[tactic(auto, unfolding(envoy_types::specs::WrittenFields::map_written))]
pub(crate) fn map_value<W: Named>(alloc: Global, items: &[W]) -> Result<Value, Memory>
    ensures { IfOk result (λ v. view v ≡ form.map_written W.name_of W.Spelled.written items.now) }
{
    let mut members = Map::new(alloc);
    let mut rest = items;
    while let Some((last, front)) = rest.split_last() {
        let value = last.to_value(alloc)?;
        serde_json::put(&mut members, alloc, last.name(), value)?;
        rest = front;
    }
    Ok(Value::Object(members))
}
