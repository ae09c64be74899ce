//! The fields of an object: one by its name, and what it means by its form.
ghost use Rattle.std.specs.Prelude.{◌≡◌, option_map};
ghost use Rattle.serde_json.specs.Data as json;
ghost use Rattle.serde_json.specs.Find.{get};
ghost use Rattle.serde_json.specs.View.{view};
ghost use Rattle.mesh_doc.specs.Faults.{Reads, Refuses, fault};
ghost use Rattle.mesh_doc.specs.Fields as fields;
ghost use Rattle.mesh_doc.specs.Places.{at_key};

use crate::{DocError, Form, Place, Reason, Spot};
use serde_json::{Map, Value};
use std::alloc::Global;

/// The field `name`, also where it is `null`. None where `v` has no such field, or is no object.
pub fn written<'a>(v: &'a Value, name: &str) -> Option<&'a Value>
    ensures { option_map (λ x. view x.now) result ≡ get name.now (view v.now) }
{
    v.get(name)
}

/// The field `name`. None where it is not written or `null`, or `v` is no object.
#[tactic(auto, unfolding(crate::specs::Fields::field_in))]
pub fn field<'a>(v: &'a Value, name: &str) -> Option<&'a Value>
    ensures { option_map (λ x. view x.now) result ≡ fields.field_in name.now (view v.now) }
{
    match v.get(name) {
        Some(Value::Null) => None,
        found => found,
    }
}

/// As `Spot::missing`, at `place`.
pub fn missing(alloc: Global, name: &str, place: &Place) -> DocError
    ensures { Refuses result (fault Reason.MissingField (at_key name.now place.now)) }
{
    Spot::of(place).missing(alloc, name)
}

impl<'a> Spot<'a> {
    /// MissingField at the field `name` of the object here, or want of memory.
    pub fn missing(&self, alloc: Global, name: &str) -> DocError
        ensures { Refuses result (fault Reason.MissingField (at_key name.now self.now)) }
    {
        Spot::key(self, name).refuse(alloc, Reason::MissingField)
    }
}

/// The field `name` of the object `v` at `at`, which has to be there: else MissingField at it.
#[tactic(auto, unfolding(crate::specs::Fields::required, crate::specs::Fields::required_in))]
pub fn required<F: Form>(
    alloc: Global,
    v: &Value,
    name: &str,
    at: &Spot,
) -> Result<F::Out, DocError>
    ensures { Reads result
        (fields.required name.now F.faults (view v.now) at.now)
        (fields.required_in name.now F.value (view v.now)) }
{
    match field(v, name) {
        Some(found) => F::read(alloc, found, &Spot::key(at, name)),
        None => Err(at.missing(alloc, name)),
    }
}

/// The field `name` of the object `v` at `at`, or None where it is not there.
#[tactic(auto, unfolding(crate::specs::Fields::optional, crate::specs::Fields::optional_in))]
pub fn optional<F: Form>(
    alloc: Global,
    v: &Value,
    name: &str,
    at: &Spot,
) -> Result<Option<F::Out>, DocError>
    ensures { Reads result
        (fields.optional name.now F.faults (view v.now) at.now)
        (fields.optional_in name.now F.value (view v.now)) }
{
    match field(v, name) {
        Some(found) => Ok(Some(F::read(alloc, found, &Spot::key(at, name))?)),
        None => Ok(None),
    }
}

/// As `required`, but a field that is `null` is there.
#[tactic(auto, unfolding(crate::specs::Fields::required_written, crate::specs::Fields::required_written_in))]
pub fn required_written<F: Form>(
    alloc: Global,
    v: &Value,
    name: &str,
    at: &Spot,
) -> Result<F::Out, DocError>
    ensures { Reads result
        (fields.required_written name.now F.faults (view v.now) at.now)
        (fields.required_written_in name.now F.value (view v.now)) }
{
    match written(v, name) {
        Some(found) => F::read(alloc, found, &Spot::key(at, name)),
        None => Err(at.missing(alloc, name)),
    }
}

/// As `optional`, but a field that is `null` is there.
#[tactic(auto, unfolding(crate::specs::Fields::optional_written, crate::specs::Fields::optional_written_in))]
pub fn optional_written<F: Form>(
    alloc: Global,
    v: &Value,
    name: &str,
    at: &Spot,
) -> Result<Option<F::Out>, DocError>
    ensures { Reads result
        (fields.optional_written name.now F.faults (view v.now) at.now)
        (fields.optional_written_in name.now F.value (view v.now)) }
{
    match written(v, name) {
        Some(found) => Ok(Some(F::read(alloc, found, &Spot::key(at, name))?)),
        None => Ok(None),
    }
}

/// The field `name` of the object `v` at `at`, or the empty object where it is not there.
#[tactic(auto, unfolding(crate::specs::Fields::or_empty, crate::specs::Fields::or_empty_in))]
pub fn or_empty<F: Form>(
    alloc: Global,
    v: &Value,
    name: &str,
    at: &Spot,
) -> Result<F::Out, DocError>
    ensures { Reads result
        (fields.or_empty name.now F.faults (view v.now) at.now)
        (fields.or_empty_in name.now F.value (view v.now)) }
{
    let empty = empty_object(alloc);
    let found = field(v, name).unwrap_or(&empty);
    F::read(alloc, found, &Spot::key(at, name))
}

/// `{}`, which takes no memory.
pub fn empty_object(alloc: Global) -> Value
    ensures { view result ≡ json.object json.no_members }
{
    Value::Object(Map::new(alloc))
}
