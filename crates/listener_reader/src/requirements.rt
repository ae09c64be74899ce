//! What the rules of the token filter require, read from JSON: providers by their names.
ghost use Rattle.std.specs.Prelude.{◌≡◌, ℕ, ◌<◌, ◌^◌, ◌-◌, ◌==◌, [], ◌∷◌, IfOk, length};
ghost use Rattle.serde_json.specs.Data.{array};
ghost use Rattle.serde_json.specs.View.{items_view, view};
ghost use Rattle.mesh_doc.specs.Faults.{Reads};
ghost use Rattle.mesh_doc.specs.Fields.{optional_written, optional_written_in, required_written, required_written_in};
ghost use Rattle.mesh_doc.specs.Kinds.{text_in};
ghost use Rattle.mesh_doc.specs.Lists.{each_in, list_in};
ghost use Rattle.mesh_doc.specs.Turns.{each_in_turn};
ghost use Rattle.envoy_types.specs.JwtForms as form;
ghost use Rattle.envoy_types.specs.SmallForms.{count_written};
ghost use Rattle.envoy_types.specs.declared.keys.TheConstants as keys;

use crate::lists::{FormWith, optional_with};
use crate::parts::required_inside;
use envoy_types::keys::{ALLOW_MISSING, PROVIDER_NAME, REQUIREMENTS, REQUIRES_ANY};
use envoy_types::{JwtProvider, Requirement, provider_named};
use leaf_json::{MOST_ENTRIES, one_of};
use mesh_doc::{DocError, Form, Reason, Spot, optional_written, written};
use mesh_text::{List, Memory, Text};
use serde_json::Value;
use std::alloc::Global;
use std::marker::Model;

/// The providers of a filter, in byte order of distinct names.
#[derive(Drop)]
pub(crate) struct Providers {
    pub(crate) all: List<JwtProvider>,
}

impl Model for Providers {
    ghost use Rattle.std.specs.Prelude.{IsTrue, List};
    ghost use Rattle.envoy_types.specs.Jwt.{Provider};
    ghost use Rattle.envoy_types.specs.Order.{names_rise};

    ghost Value = { List Provider };

    ghost view = { λ p. p.all };

    ghost invariant = { λ p. IsTrue (names_rise (λ provider. provider.name) p.all) };
}

/// A requirement of the providers of a filter.
pub(crate) struct RequirementForm;

impl FormWith for RequirementForm {
    type Given = Providers;

    type Out = Requirement;

    ghost faults = { λ providers. form.requirement_faults (form.provider_names providers) };

    ghost value = { form.requirement_in };

    #[tactic(auto, unfolding(envoy_types::specs::JwtForms::requirement_faults, envoy_types::specs::SmallForms::one_of))]
    fn read(
        alloc: Global,
        given: &Providers,
        v: &Value,
        at: &Spot,
    ) -> Result<Requirement, DocError> {
        at.only_fields(alloc, v, &[PROVIDER_NAME, REQUIRES_ANY])?;
        one_of(alloc, v, &[PROVIDER_NAME, REQUIRES_ANY], at)?;
        let name = optional_with::<ProviderName>(alloc, given, v, PROVIDER_NAME, at)?;
        one_or_any(alloc, name, given, v, at)
    }
}

// The provider that was found, or else several.
#[tactic(auto, unfolding(envoy_types::specs::JwtForms::requirement_in, mesh_doc::specs::Fields::required_written_in, mesh_doc::specs::Fields::optional_written_in, mesh_doc::specs::Fields::required_written, mesh_doc::specs::Fields::optional_written))]
fn one_or_any(
    alloc: Global,
    name: Option<Text>,
    given: &Providers,
    v: &Value,
    at: &Spot,
) -> Result<Requirement, DocError>
    requires one { count_written (keys.PROVIDER_NAME.now ∷ keys.REQUIRES_ANY.now ∷ []) (view v.now) ≡ 1 }
    requires found { name ≡ optional_written_in keys.PROVIDER_NAME.now text_in (view v.now) }
    ensures { Reads result
        (optional_written keys.REQUIRES_ANY.now (form.requires_any_faults (form.provider_names given.now)) (view v.now) at.now)
        (form.requirement_in (view v.now)) }
{
    match name {
        Some(name) => Ok(Requirement::One(name)),
        None => several(alloc, given, v, at),
    }
}

// Several providers, and whether a token may be missing.
#[tactic(auto, unfolding(envoy_types::specs::JwtForms::requires_any_faults, envoy_types::specs::JwtForms::requires_any_in, mesh_doc::specs::Fields::required_written_in))]
fn several(alloc: Global, given: &Providers, v: &Value, at: &Spot) -> Result<Requirement, DocError>
    ensures { Reads result
        (required_written keys.REQUIRES_ANY.now (form.requires_any_faults (form.provider_names given.now)) (view v.now) at.now)
        (required_written_in keys.REQUIRES_ANY.now form.requires_any_in (view v.now)) }
{
    let entries = required_inside::<Requirements>(alloc, given, v, REQUIRES_ANY, REQUIREMENTS, at)?;
    Ok(any_of(alloc, entries)?)
}

// The name of a provider of the filter.
struct ProviderName;

impl FormWith for ProviderName {
    type Given = Providers;

    type Out = Text;

    ghost faults = { λ providers. form.provider_name_faults (form.provider_names providers) };

    ghost value = { text_in };

    #[tactic(auto, unfolding(mesh_doc::specs::Tested::tested, mesh_doc::specs::Kinds::text_faults, mesh_doc::specs::Kinds::text_in))]
    fn read(alloc: Global, given: &Providers, v: &Value, at: &Spot) -> Result<Text, DocError> {
        let Value::String(name) = v else {
            return Err(at.refuse(alloc, Reason::WrongType));
        };
        if !is_provider(given, name.as_str()) {
            return Err(at.refuse(alloc, Reason::BadForm));
        }
        Ok(Text::of(alloc, name.as_str())?)
    }
}

// Whether it is the name of one of them, by halving.
fn is_provider(providers: &Providers, name: &str) -> bool
    ensures { result ≡ form.is_provider (form.provider_names providers.now) name.now }
{
    provider_named(&providers.all, name).is_some()
}

#[tactic(auto, using(crate::proofs::Chosen::one_more))]
fn any_of(alloc: Global, entries: List<Option<Text>>) -> Result<Requirement, Memory>
    ensures { IfOk result (λ r. r ≡ form.any_of entries) }
{
    let mut names = List::with_room(alloc, entries.len())?;
    let mut allow_missing = false;
    for entry in entries.into_vec() {
        match entry {
            Some(name) => names.push(name)?,
            None => allow_missing = true,
        }
    }
    Ok(Requirement::AnyOf {
        names,
        allow_missing,
    })
}

// Two entries at least, each a provider, or, at the end, that a token may be missing.
struct Requirements;

impl FormWith for Requirements {
    type Given = Providers;

    type Out = List<Option<Text>>;

    ghost faults = { λ providers. form.requirement_list_faults (form.provider_names providers) };

    ghost value = { list_in form.requirement_entry_in };

    #[tactic(auto, unfolding(envoy_types::specs::JwtForms::requirement_list_faults, envoy_types::specs::SmallForms::list_in_turn_that, envoy_types::specs::SmallForms::short_list_faults, mesh_doc::specs::Kinds::list_faults))]
    fn read(
        alloc: Global,
        given: &Providers,
        v: &Value,
        at: &Spot,
    ) -> Result<List<Option<Text>>, DocError> {
        let Value::Array(items) = v else {
            return Err(at.refuse(alloc, Reason::WrongType));
        };
        two_entries(alloc, given, items.as_slice(), at)
    }
}

#[tactic(auto, unfolding(envoy_types::specs::JwtForms::requirement_list_faults, envoy_types::specs::SmallForms::list_in_turn_that, envoy_types::specs::SmallForms::short_list_faults, mesh_doc::specs::Kinds::list_faults, mesh_doc::specs::Kinds::length_in, mesh_doc::specs::Turns::list_in_turn, mesh_doc::specs::Lists::list_in), using(mesh_doc::proofs::Counts::count_of_items))]
fn two_entries(
    alloc: Global,
    given: &Providers,
    items: &[Value],
    at: &Spot,
) -> Result<List<Option<Text>>, DocError>
    ensures { Reads result
        (form.requirement_list_faults (form.provider_names given.now) (array (items_view items.now)) at.now)
        (list_in form.requirement_entry_in (array (items_view items.now))) }
{
    if items.len() > MOST_ENTRIES as usize {
        return Err(at.refuse(alloc, Reason::TooMany));
    }
    if items.len() < 2 {
        return Err(at.refuse(alloc, Reason::BadForm));
    }
    each_requirement(alloc, given, items, at)
}

fn each_requirement(
    alloc: Global,
    given: &Providers,
    items: &[Value],
    at: &Spot,
) -> Result<List<Option<Text>>, DocError>
    requires { length items.now < 2 ^ 32 }
    ensures { Reads result
        (each_in_turn {S = ℕ} (λ left. form.requirement_entry_faults (form.provider_names given.now) (left == 0)) (λ left _. left - 1)
        (length items.now - 1) 0 (items_view items.now) at.now)
        (each_in form.requirement_entry_in (items_view items.now)) }
{
    let mut all = List::with_room(alloc, items.len())?;
    for (i, v) in items.iter().enumerate() {
        let is_last = i + 1 == items.len();
        let spot = Spot::index(&*at, i as u32);
        all.push(requirement_entry(alloc, &*given, is_last, v, &spot)?)?;
    }
    Ok(all)
}

// One of several: a provider, or that a token may be missing.
#[tactic(auto, unfolding(envoy_types::specs::JwtForms::requirement_entry_faults, envoy_types::specs::JwtForms::requirement_entry_in))]
fn requirement_entry(
    alloc: Global,
    given: &Providers,
    is_last: bool,
    v: &Value,
    at: &Spot,
) -> Result<Option<Text>, DocError>
    ensures { Reads result
        (form.requirement_entry_faults (form.provider_names given.now) is_last (view v.now) at.now)
        (form.requirement_entry_in (view v.now)) }
{
    at.only_fields(alloc, v, &[ALLOW_MISSING, PROVIDER_NAME])?;
    one_of(alloc, v, &[ALLOW_MISSING, PROVIDER_NAME], at)?;
    if written(v, ALLOW_MISSING).is_some() && !is_last {
        return Err(at.refuse(alloc, Reason::BadForm));
    }
    let name = optional_with::<ProviderName>(alloc, given, v, PROVIDER_NAME, at)?;
    optional_written::<Empty>(alloc, v, ALLOW_MISSING, at)?;
    Ok(name)
}

// An object without fields.
struct Empty;

impl Form for Empty {
    type Out = ();

    ghost faults = { form.empty_faults };

    ghost value = { λ _. tt };

    #[tactic(auto, unfolding(envoy_types::specs::JwtForms::empty_faults))]
    fn read(alloc: Global, v: &Value, at: &Spot) -> Result<(), DocError> {
        at.only_fields(alloc, v, &[])
    }
}
