//! Small parts of a listener's JSON, read: objects of one field or of two alternatives, fixed texts, and filters by their names.
ghost use Rattle.std.specs.Prelude.{◌≡◌, [], ◌∷◌, is_some, unwrap_or};
ghost use Rattle.serde_json.specs.View.{view};
ghost use Rattle.mesh_doc.specs.Faults.{Reads};
ghost use Rattle.mesh_doc.specs.Fields as fields;
ghost use Rattle.envoy_types.specs.SmallForms as form;

use crate::lists::{FormWith, required_with};
use envoy_types::keys::{NAME, TYPED_CONFIG};
use leaf_json::{fixed, fixed_field, plain_config};
use mesh_doc::{DocError, Form, Spot, required_written, written};
use serde_json::Value;
use std::alloc::Global;
use std::marker::PhantomData;

/// The fixed text that is given.
pub(crate) struct Fixed<'a> {
    word: PhantomData<&'a ()>,
}

impl<'a> FormWith for Fixed<'a> {
    type Given = &'a str;

    type Out = ();

    ghost faults = { λ word. form.fixed_faults word.now };

    ghost value = { λ _. tt };

    fn read(alloc: Global, given: &&'a str, v: &Value, at: &Spot) -> Result<(), DocError> {
        fixed(alloc, v, given, at)
    }
}

/// The field `name` of the object in the field `outer` of the object `v` at `at`: both have to be there, and the inner object has
/// no other.
#[tactic(auto, unfolding(mesh_doc::specs::Fields::required_written, mesh_doc::specs::Fields::required_written_in))]
pub(crate) fn required_inside<F: FormWith>(
    alloc: Global,
    given: &F::Given,
    v: &Value,
    outer: &str,
    name: &str,
    at: &Spot,
) -> Result<F::Out, DocError>
    ensures { Reads result
        (fields.required_written outer.now (fields.strict (name.now ∷ []) (fields.required_written name.now (F.faults given.now)))
        (view v.now) at.now)
        (fields.required_written_in outer.now (fields.required_written_in name.now F.value) (view v.now)) }
{
    match written(v, outer) {
        Some(found) => only_field::<F>(alloc, given, found, name, &Spot::key(at, outer)),
        None => Err(at.missing(alloc, outer)),
    }
}

// The field of an object that has no other.
fn only_field<F: FormWith>(
    alloc: Global,
    given: &F::Given,
    v: &Value,
    name: &str,
    at: &Spot,
) -> Result<F::Out, DocError>
    ensures { Reads result
        (fields.strict (name.now ∷ []) (fields.required_written name.now (F.faults given.now)) (view v.now) at.now)
        (fields.required_written_in name.now F.value (view v.now)) }
{
    at.only_fields(alloc, v, &[name])?;
    required_with::<F>(alloc, given, v, name, at)
}

/// A filter of this name, whose configuration has no field but its type.
#[tactic(auto, unfolding(envoy_types::specs::SmallForms::named_faults, mesh_doc::specs::Fields::required_written))]
pub(crate) fn plain_filter(
    alloc: Global,
    v: &Value,
    name: &str,
    type_url: &str,
    at: &Spot,
) -> Result<(), DocError>
    ensures { Reads result (form.named_faults name.now (form.plain_config_faults type_url.now) (view v.now) at.now) tt }
{
    at.only_fields(alloc, v, &[NAME, TYPED_CONFIG])?;
    fixed_field(alloc, v, NAME, name, at)?;
    match written(v, TYPED_CONFIG) {
        Some(config) => plain_config(alloc, config, type_url, &Spot::key(at, TYPED_CONFIG)),
        None => Err(at.missing(alloc, TYPED_CONFIG)),
    }
}

/// Of two alternatives of which one is there, the second, unless the first one was found.
#[tactic(auto, unfolding(mesh_doc::specs::Fields::required_written, mesh_doc::specs::Fields::required_written_in, mesh_doc::specs::Fields::optional_written))]
pub(crate) fn or_second<F: Form>(
    alloc: Global,
    found: Option<F::Out>,
    v: &Value,
    first_name: &str,
    name: &str,
    at: &Spot,
) -> Result<F::Out, DocError>
    requires one { form.count_written (first_name.now ∷ name.now ∷ []) (view v.now) ≡ 1 }
    requires first { is_some found ≡ form.is_written first_name.now (view v.now) }
    ensures { Reads result
        (fields.optional_written name.now F.faults (view v.now) at.now)
        (unwrap_or found (fields.required_written_in name.now F.value (view v.now))) }
{
    match found {
        Some(first) => Ok(first),
        None => required_written::<F>(alloc, v, name, at),
    }
}

/// Whether an entry of a list of filters has the kind of this name.
#[tactic(auto, unfolding(envoy_types::specs::SmallForms::is_named))]
pub(crate) fn is_named(v: &Value, name: &str) -> bool
    ensures { result ≡ form.is_named name.now (view v.now) }
{
    match written(v, NAME) {
        Some(Value::String(text)) => text.as_str() == name,
        _ => false,
    }
}
