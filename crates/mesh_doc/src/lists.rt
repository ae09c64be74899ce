//! Lists of entries of one form.
ghost use Rattle.serde_json.specs.View.{view};
ghost use Rattle.mesh_doc.specs.Faults.{Reads};
ghost use Rattle.mesh_doc.specs.Lists as lists;

use crate::{DocError, Form, InTurn, Spot, entries_in_turn, field, written};
use mesh_text::List;
use serde_json::Value;
use std::alloc::Global;
use std::marker::PhantomData;

/// The entries of the list `v` at `at`. WrongType where it is no list, TooMany where it has more than `most`
/// entries, and else the first fault of its entries.
#[tactic(auto, unfolding(crate::specs::Lists::list_of))]
pub fn entries<F: Form>(
    alloc: Global,
    v: &Value,
    most: u32,
    at: &Spot,
) -> Result<List<F::Out>, DocError>
    ensures { Reads result
        (lists.list_of most F.faults (view v.now) at.now)
        (lists.list_in F.value (view v.now)) }
{
    entries_in_turn::<Alone<F>>(alloc, (), v, most, at)
}

// An entry that leaves nothing for the later ones.
struct Alone<F> {
    form: PhantomData<F>,
}

impl<F: Form> InTurn for Alone<F> {
    type Out = F::Out;

    type Seen = ();

    ghost faults = { λ _. F.faults };

    ghost value = { F.value };

    ghost after = { λ seen _. seen };

    fn read(alloc: Global, _seen: &mut (), v: &Value, at: &Spot) -> Result<F::Out, DocError> {
        F::read(alloc, v, at)
    }
}

/// The entries of the list in the field `name` of the object `v` at `at`, as by `entries`. A field that is not
/// there is as an empty list.
#[tactic(auto, unfolding(crate::specs::Lists::listed, crate::specs::Lists::listed_in, crate::specs::Fields::optional))]
pub fn listed<F: Form>(
    alloc: Global,
    v: &Value,
    name: &str,
    most: u32,
    at: &Spot,
) -> Result<List<F::Out>, DocError>
    ensures { Reads result
        (lists.listed name.now most F.faults (view v.now) at.now)
        (lists.listed_in name.now F.value (view v.now)) }
{
    match field(v, name) {
        Some(found) => entries::<F>(alloc, found, most, &Spot::key(at, name)),
        None => Ok(List::new(alloc)),
    }
}

/// As `listed`, but a field that is `null` is there, and is no list.
#[tactic(auto, unfolding(crate::specs::Lists::listed_written, crate::specs::Lists::listed_written_in, crate::specs::Fields::optional_written))]
pub fn listed_written<F: Form>(
    alloc: Global,
    v: &Value,
    name: &str,
    most: u32,
    at: &Spot,
) -> Result<List<F::Out>, DocError>
    ensures { Reads result
        (lists.listed_written name.now most F.faults (view v.now) at.now)
        (lists.listed_written_in name.now F.value (view v.now)) }
{
    match written(v, name) {
        Some(found) => entries::<F>(alloc, found, most, &Spot::key(at, name)),
        None => Ok(List::new(alloc)),
    }
}
