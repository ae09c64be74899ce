//! The small forms of a listener's JSON, read: objects of alternatives, fixed texts, `true` alone, numbers in a range, lists of
//! some length, and configurations. In all of them `null` is a value of another kind.
ghost use Rattle.std.specs.Prelude.{◌≡◌, nat_le, map};
ghost use Rattle.serde_json.specs.View.{view};
ghost use Rattle.mesh_doc.specs.Fields.{required_written};
ghost use Rattle.mesh_doc.specs.Faults.{Reads};
ghost use Rattle.mesh_doc.specs.Kinds.{number_in, truth_in};
ghost use Rattle.envoy_types.specs.SmallForms as form;

use envoy_types::keys::{NAME, TYPE, TYPED_CONFIG};
use mesh_doc::{DocError, Form as JsonForm, Reason, Spot, required_written, written};
use serde_json::Value;
use std::alloc::Global;

/// The most entries of any list but that of the filter chains.
pub const MOST_ENTRIES: u32 = 8192;

/// BadForm at `at`, unless the value `v` there has exactly one field of these names. Takes no memory but for the fault.
#[tactic(auto, unfolding(envoy_types::specs::SmallForms::one_of))]
pub fn one_of(alloc: Global, v: &Value, names: &[&str], at: &Spot) -> Result<(), DocError>
    ensures { Reads result (form.one_of (map (λ name. name.now) names.now) (view v.now) at.now) tt }
{
    if count_written(v, names) == 1 {
        Ok(())
    } else {
        Err(at.refuse(alloc, Reason::BadForm))
    }
}

/// How many fields of these names the value has. Takes no memory.
pub fn count_written(v: &Value, names: &[&str]) -> usize
    ensures { result ≡ form.count_written (map (λ name. name.now) names.now) (view v.now) }
{
    let mut count = 0;
    for name in names {
        if written(v, name).is_some() {
            count += 1;
        }
    }
    count
}

/// WrongType where `v`, which stands at `at`, is no text, and BadForm where it is another text than `word`.
#[tactic(auto, unfolding(mesh_doc::specs::Tested::tested, mesh_doc::specs::Kinds::text_faults, mesh_doc::specs::Kinds::text_in))]
pub fn fixed(alloc: Global, v: &Value, word: &str, at: &Spot) -> Result<(), DocError>
    ensures { Reads result (form.fixed_faults word.now (view v.now) at.now) tt }
{
    let Value::String(text) = v else {
        return Err(at.refuse(alloc, Reason::WrongType));
    };
    if text.as_str() == word {
        Ok(())
    } else {
        Err(at.refuse(alloc, Reason::BadForm))
    }
}

/// As `fixed`, of the field `name` of the object `v` at `at`, which has to be there.
#[tactic(auto, unfolding(mesh_doc::specs::Fields::required_written))]
pub fn fixed_field(
    alloc: Global,
    v: &Value,
    name: &str,
    word: &str,
    at: &Spot,
) -> Result<(), DocError>
    ensures { Reads result (required_written name.now (form.fixed_faults word.now) (view v.now) at.now) tt }
{
    match written(v, name) {
        Some(found) => fixed(alloc, found, word, &Spot::key(at, name)),
        None => Err(at.missing(alloc, name)),
    }
}

/// `true` alone: WrongType for a value that is no truth value, and BadForm for `false`.
pub struct TrueAlone;

impl JsonForm for TrueAlone {
    type Out = bool;

    ghost faults = { form.true_faults };

    ghost value = { truth_in };

    #[tactic(auto, unfolding(envoy_types::specs::SmallForms::true_faults, mesh_doc::specs::Kinds::truth_faults, mesh_doc::specs::Kinds::truth_in))]
    fn read(alloc: Global, v: &Value, at: &Spot) -> Result<bool, DocError> {
        match v {
            Value::Bool(true) => Ok(true),
            Value::Bool(false) => Err(at.refuse(alloc, Reason::BadForm)),
            _ => Err(at.refuse(alloc, Reason::WrongType)),
        }
    }
}

/// The whole number `v` at `at`, from `least` to `most`: WrongType for a value that is none, and BadForm out of that range.
#[tactic(auto, unfolding(envoy_types::specs::SmallForms::number_within_faults, mesh_doc::specs::Kinds::number_faults, mesh_doc::specs::Kinds::number_in))]
pub fn number_within(
    alloc: Global,
    v: &Value,
    least: u16,
    most: u16,
    at: &Spot,
) -> Result<u16, DocError>
    ensures { Reads result (form.number_within_faults least most (view v.now) at.now) (number_in (view v.now)) }
{
    let Some(number) = v.as_u64() else {
        return Err(at.refuse(alloc, Reason::WrongType));
    };
    if u64::from(least) <= number && number <= u64::from(most) {
        Ok(number as u16)
    } else {
        Err(at.refuse(alloc, Reason::BadForm))
    }
}

/// A port, or 0.
pub struct AnyPort;

impl JsonForm for AnyPort {
    type Out = u16;

    ghost faults = { form.any_port_faults };

    ghost value = { number_in };

    fn read(alloc: Global, v: &Value, at: &Spot) -> Result<u16, DocError> {
        number_within(alloc, v, 0, 65535, at)
    }
}

/// A port from 1 on.
pub struct Port;

impl JsonForm for Port {
    type Out = u16;

    ghost faults = { form.port_faults };

    ghost value = { number_in };

    fn read(alloc: Global, v: &Value, at: &Spot) -> Result<u16, DocError> {
        number_within(alloc, v, 1, 65535, at)
    }
}

/// What the configuration means of the filter, socket or matcher `v` at `at`, which has this name (Envoy v3 API,
/// `config.core.v3.TypedExtensionConfig`).
#[tactic(auto, unfolding(envoy_types::specs::SmallForms::named_faults, envoy_types::specs::SmallForms::config_in))]
pub fn named<C: JsonForm>(
    alloc: Global,
    v: &Value,
    name: &str,
    at: &Spot,
) -> Result<C::Out, DocError>
    ensures { Reads result (form.named_faults name.now C.faults (view v.now) at.now) (form.config_in C.value (view v.now)) }
{
    at.only_fields(alloc, v, &[NAME, TYPED_CONFIG])?;
    fixed_field(alloc, v, NAME, name, at)?;
    required_written::<C>(alloc, v, TYPED_CONFIG, at)
}

/// A configuration `v` at `at` of this type URL, without another field (Protocol Buffers, "JSON Mapping": `Any`).
#[tactic(auto, unfolding(envoy_types::specs::SmallForms::plain_config_faults))]
pub fn plain_config(alloc: Global, v: &Value, type_url: &str, at: &Spot) -> Result<(), DocError>
    ensures { Reads result (form.plain_config_faults type_url.now (view v.now) at.now) tt }
{
    at.only_fields(alloc, v, &[TYPE])?;
    fixed_field(alloc, v, TYPE, type_url, at)
}
