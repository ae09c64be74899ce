//! Lists whose entries are read behind what the earlier ones left.
ghost use Rattle.std.specs.Prelude.{◌<◌, ◌^◌, ◌≡◌, OnOk, length};
ghost use Rattle.serde_json.specs.Data.{Data};
ghost use Rattle.serde_json.specs.View.{items_view, view};
ghost use Rattle.mesh_doc.specs.Faults.{Check, Reads};
ghost use Rattle.mesh_doc.specs.Lists as lists;
ghost use Rattle.mesh_doc.specs.Turns as turns;

use crate::{DocError, Reason, Spot, field};
use mesh_text::List as Entries;
use serde_json::Value;
use std::alloc::Global;

/// A form of the entries of a list of which one can be at fault for what stands before it, as a second entry of one
/// name: as a `Form`, with a state that keeps what later entries have to know of the earlier ones.
pub trait InTurn {
    type Out: Drop;

    type Seen: Drop;

    ghost faults: { Self.Seen → Check };

    ghost value: { Data → Self.Out };

    ghost after: { Self.Seen → Data → Self.Seen };

    /// The value of the entry `v` at `at`, behind those that `seen` keeps, or its first fault. A value is kept too.
    fn read(
        alloc: Global,
        seen: &mut Self::Seen,
        v: &Value,
        at: &Spot,
    ) -> Result<Self::Out, DocError>
        ensures reads { Reads result (faults seen.old (view v.now) at.now) (value (view v.now)) }
        ensures seen { OnOk result (seen.new ≡ after seen.old (view v.now)) };
}

/// The entries of the list in the field `name` of the object `v` at `at`, as by `listed`, each read behind what
/// `seen` and the entries before it have.
#[tactic(auto, unfolding(crate::specs::Turns::listed_in_turn, crate::specs::Lists::listed_in, crate::specs::Fields::optional))]
pub fn listed_in_turn<F: InTurn>(
    alloc: Global,
    seen: F::Seen,
    v: &Value,
    name: &str,
    most: u32,
    at: &Spot,
) -> Result<Entries<F::Out>, DocError>
    ensures { Reads result
        (turns.listed_in_turn name.now most F.faults F.after seen (view v.now) at.now)
        (lists.listed_in name.now F.value (view v.now)) }
{
    match field(v, name) {
        Some(found) => { entries_in_turn::<F>(alloc, seen, found, most, &Spot::key(at, name)) }
        None => Ok(Entries::new(alloc)),
    }
}

/// The entries of the list `v` at `at`, as by `entries`, each read behind what `seen` and the entries before it
/// have.
#[tactic(auto, unfolding(crate::specs::Turns::list_in_turn, crate::specs::Lists::list_in, crate::specs::Kinds::list_faults))]
pub fn entries_in_turn<F: InTurn>(
    alloc: Global,
    seen: F::Seen,
    v: &Value,
    most: u32,
    at: &Spot,
) -> Result<Entries<F::Out>, DocError>
    ensures { Reads result
        (turns.list_in_turn most F.faults F.after seen (view v.now) at.now)
        (lists.list_in F.value (view v.now)) }
{
    match v {
        Value::Array(items) => short_list::<F>(alloc, seen, items.as_slice(), most, at),
        _ => Err(at.refuse(alloc, Reason::WrongType)),
    }
}

#[tactic(auto, using(crate::proofs::Counts::count_of_items))]
fn short_list<F: InTurn>(
    alloc: Global,
    seen: F::Seen,
    items: &[Value],
    most: u32,
    at: &Spot,
) -> Result<Entries<F::Out>, DocError>
    ensures { Reads result
        (turns.entries_in_turn most F.faults F.after seen (items_view items.now) at.now)
        (lists.each_in F.value (items_view items.now)) }
{
    if items.len() > most as usize {
        return Err(at.refuse(alloc, Reason::TooMany));
    }
    each::<F>(alloc, seen, items, at)
}

fn each<F: InTurn>(
    alloc: Global,
    seen: F::Seen,
    items: &[Value],
    at: &Spot,
) -> Result<Entries<F::Out>, DocError>
    requires { length items.now < 2 ^ 32 }
    ensures { Reads result
        (turns.each_in_turn F.faults F.after seen 0 (items_view items.now) at.now)
        (lists.each_in F.value (items_view items.now)) }
{
    let mut seen = seen;
    let mut all = Entries::with_room(alloc, items.len())?;
    for (i, v) in items.iter().enumerate() {
        all.push(F::read(alloc, &mut seen, v, &Spot::index(at, i as u32))?)?;
    }
    Ok(all)
}
