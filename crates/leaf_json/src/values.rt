//! Matchers of claims as JSON.
ghost use Rattle.std.specs.Prelude.{◌≡◌, ◌<◌, ◌^◌, IfOk, false, length, option_map, true, unwrap_or};
ghost use Rattle.serde_json.specs.Data.{Data, array};
ghost use Rattle.serde_json.specs.View.{items_view, view};
ghost use Rattle.mesh_doc.specs.Faults.{Reads};
ghost use Rattle.mesh_doc.specs.Fields.{required_written_in};
ghost use Rattle.mesh_doc.specs.Kinds.{text_faults};
ghost use Rattle.mesh_doc.specs.Lists.{each_in};
ghost use Rattle.mesh_doc.specs.Turns.{each_in_turn};
ghost use Rattle.envoy_types.specs.ValueForms as form;
ghost use Rattle.envoy_types.specs.declared.keys.TheConstants.{PATH, VALUE};

use crate::alternatives::{MOST_ENTRIES, TrueAlone, fixed_field, one_of};
use crate::fields::{Fields, sole_field, text_value};
use crate::strings::{StringForm, string_to_value};
use envoy_types::fixed::PAYLOAD;
use envoy_types::keys::{
    FILTER, KEY, LIST_MATCH, ONE_OF, PATH, PRESENT_MATCH, STRING_MATCH, VALUE,
};
use envoy_types::{JWT_NAME, StringMatcher, ValueMatcher};
use mesh_doc::{AnyText, DocError, Form, Reason, Spot, optional_written, required_written};
use mesh_text::{List, Memory, Text};
use serde_json::Value;
use std::alloc::Global;

/// A key of a path (Envoy v3 API, `type.matcher.v3.MetadataMatcher.PathSegment`); `Memory` where there is no room.
pub fn segment_value(alloc: Global, key: &str) -> Result<Value, Memory>
    ensures { IfOk result (λ v. view v ≡ form.segment_written key.now) }
{
    sole_field(alloc, KEY, text_value(alloc, key)?)
}

// `payload`, and then the keys of the claim.
#[tactic(auto, unfolding(envoy_types::specs::WrittenFields::list_written))]
fn path_value(alloc: Global, keys: &[Text]) -> Result<Value, Memory>
    ensures { IfOk result (λ v. view v ≡ form.path_written keys.now) }
{
    let mut values = Vec::new(alloc);
    serde_json::push(&mut values, segment_value(alloc, PAYLOAD)?)?;
    for key in keys {
        let value = segment_value(alloc, key)?;
        serde_json::push(&mut values, value)?;
    }
    Ok(Value::Array(values))
}

// `ValueMatcher`: what is asked of the value.
#[tactic(auto, unfolding(envoy_types::specs::ValueForms::value_written))]
fn value_value(alloc: Global, value: &ValueMatcher) -> Result<Value, Memory>
    ensures { IfOk result (λ v. view v ≡ form.value_written value.now) }
{
    match value {
        ValueMatcher::Present => sole_field(alloc, PRESENT_MATCH, Value::Bool(true)),
        ValueMatcher::Words(matcher) => {
            let inside = string_to_value(alloc, matcher)?;
            sole_field(alloc, STRING_MATCH, inside)
        }
        ValueMatcher::OneOfPresent => {
            let entry = sole_field(alloc, PRESENT_MATCH, Value::Bool(true))?;
            list_match(alloc, entry)
        }
        ValueMatcher::OneOf(matcher) => {
            let inside = string_to_value(alloc, matcher)?;
            let entry = sole_field(alloc, STRING_MATCH, inside)?;
            list_match(alloc, entry)
        }
    }
}

// `ListMatcher`: an entry of the list is as told.
fn list_match(alloc: Global, entry: Value) -> Result<Value, Memory>
    ensures { IfOk result (λ v. view v ≡ form.list_match_written (view entry)) }
{
    let inside = sole_field(alloc, ONE_OF, entry)?;
    sole_field(alloc, LIST_MATCH, inside)
}

/// A claim at a path of keys, and what is asked of it (Envoy v3 API, `type.matcher.v3.MetadataMatcher`).
#[tactic(auto, unfolding(envoy_types::specs::ValueForms::metadata_written))]
pub(crate) fn metadata_value(
    alloc: Global,
    keys: &[Text],
    value: &ValueMatcher,
) -> Result<Value, Memory>
    ensures { IfOk result (λ v. view v ≡ form.metadata_written keys.now value.now) }
{
    let mut fields = Fields::new(alloc);
    fields.put_text(alloc, FILTER, JWT_NAME)?;
    fields.put(alloc, PATH, path_value(alloc, keys)?)?;
    fields.put(alloc, VALUE, value_value(alloc, value)?)?;
    Ok(fields.into_value())
}

/// What is asked of a claim, one of `present_match`, `string_match` and `list_match` (Envoy v3 API, `ValueMatcher`).
pub(crate) struct ValueForm;

impl Form for ValueForm {
    type Out = ValueMatcher;

    ghost faults = { form.value_faults };

    ghost value = { form.value_in };

    #[tactic(auto, unfolding(envoy_types::specs::ValueForms::value_faults, envoy_types::specs::ValueForms::value_in, mesh_doc::specs::Fields::optional_written_in))]
    fn read(alloc: Global, v: &Value, at: &Spot) -> Result<ValueMatcher, DocError> {
        at.only_fields(alloc, v, &[LIST_MATCH, PRESENT_MATCH, STRING_MATCH])?;
        one_of(alloc, v, &[LIST_MATCH, PRESENT_MATCH, STRING_MATCH], at)?;
        optional_written::<TrueAlone>(alloc, v, PRESENT_MATCH, at)?;
        let matcher = optional_written::<StringForm>(alloc, v, STRING_MATCH, at)?;
        let entry = optional_written::<ListMatchForm>(alloc, v, LIST_MATCH, at)?;
        Ok(asked(matcher, entry))
    }
}

// That the value matches, that an entry of the list does, or that the value is there.
fn asked(matcher: Option<StringMatcher>, entry: Option<ValueMatcher>) -> ValueMatcher
    ensures { result ≡ unwrap_or (option_map ValueMatcher.Words matcher) (unwrap_or entry ValueMatcher.Present) }
{
    match matcher {
        Some(matcher) => ValueMatcher::Words(matcher),
        None => entry.unwrap_or(ValueMatcher::Present),
    }
}

// What is asked of an entry of a list (`ListMatcher`).
struct ListMatchForm;

impl Form for ListMatchForm {
    type Out = ValueMatcher;

    ghost faults = { form.list_match_faults };

    ghost value = { form.list_match_in };

    #[tactic(auto, unfolding(envoy_types::specs::ValueForms::list_match_faults, envoy_types::specs::ValueForms::list_match_in))]
    fn read(alloc: Global, v: &Value, at: &Spot) -> Result<ValueMatcher, DocError> {
        at.only_fields(alloc, v, &[ONE_OF])?;
        required_written::<EntryForm>(alloc, v, ONE_OF, at)
    }
}

// That an entry is there, or that it matches.
struct EntryForm;

impl Form for EntryForm {
    type Out = ValueMatcher;

    ghost faults = { form.one_of_faults };

    ghost value = { form.one_of_in };

    #[tactic(auto, unfolding(envoy_types::specs::ValueForms::one_of_faults, envoy_types::specs::ValueForms::one_of_in, mesh_doc::specs::Fields::optional_written_in))]
    fn read(alloc: Global, v: &Value, at: &Spot) -> Result<ValueMatcher, DocError> {
        at.only_fields(alloc, v, &[PRESENT_MATCH, STRING_MATCH])?;
        one_of(alloc, v, &[PRESENT_MATCH, STRING_MATCH], at)?;
        optional_written::<TrueAlone>(alloc, v, PRESENT_MATCH, at)?;
        match optional_written::<StringForm>(alloc, v, STRING_MATCH, at)? {
            Some(matcher) => Ok(ValueMatcher::OneOf(matcher)),
            None => Ok(ValueMatcher::OneOfPresent),
        }
    }
}

/// A key of a path, with any text.
pub struct SegmentForm;

impl Form for SegmentForm {
    type Out = Text;

    ghost faults = { form.segment_faults text_faults };

    ghost value = { form.segment_in };

    #[tactic(auto, unfolding(envoy_types::specs::ValueForms::segment_faults, envoy_types::specs::ValueForms::segment_in))]
    fn read(alloc: Global, v: &Value, at: &Spot) -> Result<Text, DocError> {
        at.only_fields(alloc, v, &[KEY])?;
        required_written::<AnyText>(alloc, v, KEY, at)
    }
}

// The key in front, which is `payload`.
#[tactic(auto, unfolding(envoy_types::specs::ValueForms::segment_faults))]
fn payload_segment(alloc: Global, v: &Value, at: &Spot) -> Result<(), DocError>
    ensures { Reads result (form.path_segment_faults true (view v.now) at.now) tt }
{
    at.only_fields(alloc, v, &[KEY])?;
    fixed_field(alloc, v, KEY, PAYLOAD, at)
}

/// A claim at a path of keys, and what is asked of it (Envoy v3 API, `type.matcher.v3.MetadataMatcher`).
pub(crate) struct MetadataForm;

impl Form for MetadataForm {
    type Out = (List<Text>, ValueMatcher);

    ghost faults = { form.metadata_faults };

    ghost value = { λ d. (required_written_in PATH.now form.path_in d, required_written_in VALUE.now form.value_in d) };

    #[tactic(auto, unfolding(envoy_types::specs::ValueForms::metadata_faults))]
    fn read(alloc: Global, v: &Value, at: &Spot) -> Result<(List<Text>, ValueMatcher), DocError> {
        at.only_fields(alloc, v, &[FILTER, PATH, VALUE])?;
        fixed_field(alloc, v, FILTER, JWT_NAME, at)?;
        let keys = required_written::<PathForm>(alloc, v, PATH, at)?;
        let value = required_written::<ValueForm>(alloc, v, VALUE, at)?;
        Ok((keys, value))
    }
}

// The keys behind `payload`, of which there is one at least.
struct PathForm;

impl Form for PathForm {
    type Out = List<Text>;

    ghost faults = { form.path_faults };

    ghost value = { form.path_in };

    #[tactic(auto, unfolding(envoy_types::specs::ValueForms::path_faults, envoy_types::specs::SmallForms::list_in_turn_that, envoy_types::specs::SmallForms::short_list_faults, mesh_doc::specs::Kinds::list_faults))]
    fn read(alloc: Global, v: &Value, at: &Spot) -> Result<List<Text>, DocError> {
        match v {
            Value::Array(items) => path(alloc, items.as_slice(), at),
            _ => Err(at.refuse(alloc, Reason::WrongType)),
        }
    }
}

#[tactic(auto, unfolding(envoy_types::specs::ValueForms::path_faults, envoy_types::specs::ValueForms::path_in, envoy_types::specs::SmallForms::list_in_turn_that, envoy_types::specs::SmallForms::short_list_faults, mesh_doc::specs::Kinds::list_faults, mesh_doc::specs::Kinds::length_in, mesh_doc::specs::Lists::list_in, mesh_doc::specs::Turns::list_in_turn), using(mesh_doc::proofs::Counts::count_of_items))]
fn path(alloc: Global, items: &[Value], at: &Spot) -> Result<List<Text>, DocError>
    ensures { Reads result (form.path_faults (array (items_view items.now)) at.now) (form.path_in (array (items_view items.now))) }
{
    if items.len() > MOST_ENTRIES as usize {
        return Err(at.refuse(alloc, Reason::TooMany));
    }
    let Some((first, rest)) = items.split_first() else {
        return Err(at.refuse(alloc, Reason::BadForm));
    };
    if rest.is_empty() {
        return Err(at.refuse(alloc, Reason::BadForm));
    }
    payload_segment(alloc, first, &Spot::index(at, 0))?;
    later_keys(alloc, rest, at)
}

fn later_keys(alloc: Global, items: &[Value], at: &Spot) -> Result<List<Text>, DocError>
    requires { length items.now < 2 ^ 31 }
    ensures { Reads result
        (each_in_turn form.path_segment_faults (λ is_first d. false) false 1 (items_view items.now) at.now)
        (each_in form.segment_in (items_view items.now)) }
{
    let mut keys = List::with_room(alloc, items.len())?;
    for (i, v) in items.iter().enumerate() {
        keys.push(SegmentForm::read(alloc, v, &Spot::index(at, i as u32 + 1))?)?;
    }
    Ok(keys)
}
