//! Lists of a listener's JSON, read: of entries whose form leans on another value, of one entry, and of the entries before the
//! last one.
ghost use Rattle.std.specs.Prelude.{◌≡◌, ◌<◌, ◌≤◌, ◌^◌, [], ◌∷◌, ◌++◌, IfOk, length};
ghost use Rattle.serde_json.specs.Data.{array};
ghost use Rattle.serde_json.specs.Events.{items_len};
ghost use Rattle.serde_json.specs.View.{items_view, view};
ghost use Rattle.mesh_doc.specs.Faults.{Reads};
ghost use Rattle.mesh_doc.specs.Fields as fields;
ghost use Rattle.mesh_doc.specs.Kinds.{items_of, length_in, list_faults};
ghost use Rattle.mesh_doc.specs.Lists as lists;
ghost use Rattle.mesh_doc.specs.Turns.{entries_in_turn};
ghost use Rattle.envoy_types.specs.SmallForms as form;

use leaf_json::MOST_ENTRIES;
use mesh_doc::{DocError, Form, Reason, Spot, written};
use mesh_text::List;
use serde_json::Value;
use std::alloc::Global;
use std::marker::PhantomData;

/// A form that leans on a value which was read before.
pub(crate) trait FormWith {
    ghost use Rattle.serde_json.specs.Data.{Data};
    ghost use Rattle.mesh_doc.specs.Faults.{Check};

    type Given;

    type Out: Drop;

    ghost faults: { Self.Given → Check };

    ghost value: { Data → Self.Out };

    /// The value of `v`, which stands at `at`, or its first fault.
    fn read(alloc: Global, given: &Self::Given, v: &Value, at: &Spot) -> Result<Self::Out, DocError>
        ensures { Reads result (faults given.now (view v.now) at.now) (value (view v.now)) };
}

/// A form that leans on nothing.
pub(crate) struct Plain<F> {
    form: PhantomData<F>,
}

impl<F: Form> FormWith for Plain<F> {
    type Given = ();

    type Out = F::Out;

    ghost faults = { λ _. F.faults };

    ghost value = { F.value };

    fn read(alloc: Global, _given: &(), v: &Value, at: &Spot) -> Result<F::Out, DocError> {
        F::read(alloc, v, at)
    }
}

/// The field `name` of the object `v` at `at`, which has to be there.
#[tactic(auto, unfolding(mesh_doc::specs::Fields::required_written, mesh_doc::specs::Fields::required_written_in))]
pub(crate) fn required_with<F: FormWith>(
    alloc: Global,
    given: &F::Given,
    v: &Value,
    name: &str,
    at: &Spot,
) -> Result<F::Out, DocError>
    ensures { Reads result
        (fields.required_written name.now (F.faults given.now) (view v.now) at.now)
        (fields.required_written_in name.now F.value (view v.now)) }
{
    match written(v, name) {
        Some(found) => F::read(alloc, given, found, &Spot::key(at, name)),
        None => Err(at.missing(alloc, name)),
    }
}

/// The field `name` of the object `v` at `at`, or None where it is not there.
#[tactic(auto, unfolding(mesh_doc::specs::Fields::optional_written, mesh_doc::specs::Fields::optional_written_in))]
pub(crate) fn optional_with<F: FormWith>(
    alloc: Global,
    given: &F::Given,
    v: &Value,
    name: &str,
    at: &Spot,
) -> Result<Option<F::Out>, DocError>
    ensures { Reads result
        (fields.optional_written name.now (F.faults given.now) (view v.now) at.now)
        (fields.optional_written_in name.now F.value (view v.now)) }
{
    match written(v, name) {
        Some(found) => Ok(Some(F::read(alloc, given, found, &Spot::key(at, name))?)),
        None => Ok(None),
    }
}

/// The length of the list `v` at `at`: WrongType where it is none, and TooMany where it has more than `most` entries.
#[tactic(auto, unfolding(envoy_types::specs::SmallForms::short_list_faults))]
pub(crate) fn short_list(alloc: Global, v: &Value, most: u32, at: &Spot) -> Result<usize, DocError>
    ensures reads { Reads result (form.short_list_faults most (view v.now) at.now) (length_in (view v.now)) }
    ensures few { IfOk result (λ count. count ≤ most) }
{
    let count = length_of(alloc, v, at)?;
    if count > most as usize {
        return Err(at.refuse(alloc, Reason::TooMany));
    }
    Ok(count)
}

#[tactic(auto, unfolding(mesh_doc::specs::Kinds::list_faults, mesh_doc::specs::Kinds::length_in))]
fn length_of(alloc: Global, v: &Value, at: &Spot) -> Result<usize, DocError>
    ensures { Reads result (list_faults (view v.now) at.now) (length_in (view v.now)) }
{
    match v {
        Value::Array(items) => Ok(count(items.as_slice())),
        _ => Err(at.refuse(alloc, Reason::WrongType)),
    }
}

#[tactic(auto, using(mesh_doc::proofs::Counts::count_of_items))]
fn count(items: &[Value]) -> usize
    ensures { result ≡ items_len (items_view items.now) }
{
    items.len()
}

/// The entries of a list, and none of another value.
pub(crate) fn entries_of(v: &Value) -> &[Value]
    ensures { items_view result.now ≡ items_of (view v.now) }
{
    match v {
        Value::Array(items) => items.as_slice(),
        _ => &[],
    }
}

/// Each entry of the form.
pub(crate) fn each_with<F: FormWith>(
    alloc: Global,
    given: &F::Given,
    items: &[Value],
    at: &Spot,
) -> Result<List<F::Out>, DocError>
    requires { length items.now < 2 ^ 32 }
    ensures { Reads result
        (form.each_faults (F.faults given.now) (items_view items.now) at.now)
        (lists.each_in F.value (items_view items.now)) }
{
    let mut all = List::with_room(alloc, items.len())?;
    for (i, v) in items.iter().enumerate() {
        all.push(F::read(alloc, given, v, &Spot::index(at, i as u32))?)?;
    }
    Ok(all)
}

/// A list of any number of entries.
pub(crate) struct Any<F> {
    form: PhantomData<F>,
}

impl<F: FormWith> FormWith for Any<F> {
    type Given = F::Given;

    type Out = List<F::Out>;

    ghost faults = { λ given. form.any_list (F.faults given) };

    ghost value = { lists.list_in F.value };

    #[tactic(auto, unfolding(mesh_doc::specs::Lists::list_of, mesh_doc::specs::Turns::list_in_turn, mesh_doc::specs::Kinds::list_faults, mesh_doc::specs::Lists::list_in))]
    fn read(
        alloc: Global,
        given: &F::Given,
        v: &Value,
        at: &Spot,
    ) -> Result<List<F::Out>, DocError> {
        let Value::Array(items) = v else {
            return Err(at.refuse(alloc, Reason::WrongType));
        };
        few_entries::<F>(alloc, given, items.as_slice(), at)
    }
}

#[tactic(auto, using(mesh_doc::proofs::Counts::count_of_items))]
fn few_entries<F: FormWith>(
    alloc: Global,
    given: &F::Given,
    items: &[Value],
    at: &Spot,
) -> Result<List<F::Out>, DocError>
    ensures { Reads result
        (entries_in_turn {S = Unit {0}} form.most_entries (λ _. F.faults given.now) (λ seen _. seen) tt (items_view items.now) at.now)
        (lists.each_in F.value (items_view items.now)) }
{
    if items.len() > MOST_ENTRIES as usize {
        return Err(at.refuse(alloc, Reason::TooMany));
    }
    each_with::<F>(alloc, given, items, at)
}

/// A list of one entry.
pub(crate) struct Sole<F> {
    form: PhantomData<F>,
}

impl<F: FormWith> FormWith for Sole<F> {
    type Given = F::Given;

    type Out = F::Out;

    ghost faults = { λ given. form.sole_list (F.faults given) };

    ghost value = { form.sole_in F.value };

    #[tactic(auto, unfolding(envoy_types::specs::SmallForms::list_that, envoy_types::specs::SmallForms::short_list_faults, mesh_doc::specs::Kinds::list_faults))]
    fn read(alloc: Global, given: &F::Given, v: &Value, at: &Spot) -> Result<F::Out, DocError> {
        let Value::Array(items) = v else {
            return Err(at.refuse(alloc, Reason::WrongType));
        };
        sole_entry::<F>(alloc, given, items.as_slice(), at)
    }
}

#[tactic(auto, unfolding(envoy_types::specs::SmallForms::list_that, envoy_types::specs::SmallForms::short_list_faults, envoy_types::specs::SmallForms::sole_in, mesh_doc::specs::Kinds::list_faults, mesh_doc::specs::Kinds::length_in, mesh_doc::specs::Lists::list_of, mesh_doc::specs::Turns::list_in_turn), using(mesh_doc::proofs::Counts::count_of_items))]
pub(crate) fn sole_entry<F: FormWith>(
    alloc: Global,
    given: &F::Given,
    items: &[Value],
    at: &Spot,
) -> Result<F::Out, DocError>
    ensures { Reads result
        (form.sole_list (F.faults given.now) (array (items_view items.now)) at.now)
        (form.sole_in F.value (array (items_view items.now))) }
{
    if items.len() > MOST_ENTRIES as usize {
        return Err(at.refuse(alloc, Reason::TooMany));
    }
    let [item] = items else {
        return Err(at.refuse(alloc, Reason::BadForm));
    };
    F::read(alloc, given, item, &Spot::index(at, 0))
}

/// Entries of the form `F`, and behind them the last one, of the form `G`.
#[tactic(auto, unfolding(envoy_types::specs::SmallForms::ending_with, envoy_types::specs::SmallForms::front_in, envoy_types::specs::SmallForms::last_in), using(crate::proofs::Endings::endings))]
pub(crate) fn ending<F: Form, G: Form>(
    alloc: Global,
    front: &[Value],
    last: &Value,
    at: &Spot,
) -> Result<(List<F::Out>, G::Out), DocError>
    requires { length front.now < 2 ^ 32 }
    ensures { Reads result
        (form.ending_with F.faults G.faults (array (items_view (front.now ++ last.now ∷ []))) at.now) (
          form.front_in F.value (array (items_view (front.now ++ last.now ∷ []))),
          form.last_in G.value (array (items_view (front.now ++ last.now ∷ []))),
        ) }
{
    let entries = each_with::<Plain<F>>(alloc, &(), front, at)?;
    let end = G::read(alloc, last, &Spot::index(at, front.len() as u32))?;
    Ok((entries, end))
}
