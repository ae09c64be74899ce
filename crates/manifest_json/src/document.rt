// A document: a List of items, or one item alone.
ghost use Rattle.std.specs.Prelude.{◌≡◌, ◌≤◌, [], ◌∷◌, IfOk, length};
ghost use Rattle.serde_json.specs.View.{view};
ghost use Rattle.mesh_doc.specs.Faults.{Reads};
ghost use Rattle.mesh_doc.specs.Fields as fields;
ghost use Rattle.mesh_doc.specs.Lists as lists;
ghost use Rattle.mesh_doc.specs.Turns.{list_in_turn};
ghost use Rattle.mesh_policy.specs.AcceptedBundle.{AcceptedBundle};
ghost use Rattle.manifest_json.specs.Document as document;
ghost use Rattle.manifest_json.specs.Gather.{bundle_of};
ghost use Rattle.manifest_json.specs.Items.{after_item, item_faults, item_in, next_faults};
ghost use Rattle.manifest_json.specs.declared.document.TheConstants.{ITEMS};

use crate::gather::gather;
use crate::items::{Item, KIND, NextItem, read_item};
use crate::seen::Seen;
use mesh_doc::{DocError, Place, Reason, Spot, entries_in_turn, field};
use mesh_policy::{Bundle, MOST_ITEMS};
use mesh_text::List;
use serde_json::Value;
use std::alloc::Global;

const LIST: &str = "List";

const ITEMS: &str = "items";

/// The manifests of the document `v` at `place`: the items of a List (Kubernetes API Conventions, "Types (Kinds)"), or
/// the one item that it is. Its first fault in reading order is told, with its place: NotAList where it is no object or
/// its `items` are no list, TooMany for more than 4,096 items, those of each item, and then DuplicateItem. Memory is
/// the one other error. A caller's proof needs no more than these clauses.
pub fn read_bundle(alloc: Global, v: &Value, place: &Place) -> Result<Bundle, DocError>
    ensures reads { Reads result
        (document.bundle_faults (view v.now) place.now)
        (document.bundle_in (view v.now)) }
    ensures accepted { IfOk result AcceptedBundle }
{
    read_document(alloc, v, &Spot::of(place))
}

#[tactic(auto, unfolding(crate::specs::Document::bundle_faults, crate::specs::Document::bundle_in, crate::specs::Document::items_in))]
fn read_document(alloc: Global, v: &Value, at: &Spot) -> Result<Bundle, DocError>
    ensures { Reads result
        (document.bundle_faults (view v.now) at.now)
        (document.bundle_in (view v.now)) }
{
    let Value::Object(_) = v else {
        return Err(at.refuse(alloc, Reason::NotAList));
    };
    if is_list(v) {
        read_list(alloc, v, at)
    } else {
        read_alone(alloc, v, at)
    }
}

#[tactic(auto, unfolding(crate::specs::Document::is_list, mesh_doc::specs::Fields::required_in, mesh_doc::specs::Kinds::text_in))]
fn is_list(v: &Value) -> bool
    ensures { result ≡ document.is_list (view v.now) }
{
    match field(v, KIND) {
        Some(Value::String(kind)) => kind.as_str() == LIST,
        _ => false,
    }
}

#[tactic(auto, unfolding(mesh_doc::specs::Fields::optional, mesh_doc::specs::Lists::listed_in))]
fn read_list(alloc: Global, v: &Value, at: &Spot) -> Result<Bundle, DocError>
    ensures { Reads result
        (fields.optional ITEMS.now document.items_faults (view v.now) at.now)
        (bundle_of (lists.listed_in ITEMS.now item_in (view v.now))) }
{
    match field(v, ITEMS) {
        Some(items) => read_items(alloc, items, &Spot::key(at, ITEMS)),
        None => Ok(gather(alloc, List::new(alloc))?),
    }
}

#[tactic(auto, unfolding(crate::specs::Document::items_faults))]
fn read_items(alloc: Global, v: &Value, at: &Spot) -> Result<Bundle, DocError>
    ensures { Reads result
        (document.items_faults (view v.now) at.now)
        (bundle_of (lists.list_in item_in (view v.now))) }
{
    let Value::Array(_) = v else {
        return Err(at.refuse(alloc, Reason::NotAList));
    };
    let items = read_each(alloc, v, at)?;
    Ok(gather(alloc, items)?)
}

fn read_each(alloc: Global, v: &Value, at: &Spot) -> Result<List<Item>, DocError>
    ensures reads { Reads result
        (list_in_turn 4096 next_faults after_item [] (view v.now) at.now)
        (lists.list_in item_in (view v.now)) }
    ensures few { IfOk result (λ items. length items ≤ 4096) }
{
    entries_in_turn::<NextItem>(alloc, Seen::new(alloc), v, MOST_ITEMS, at)
}

// No item stands before it.
fn read_alone(alloc: Global, v: &Value, at: &Spot) -> Result<Bundle, DocError>
    ensures { Reads result
        (item_faults (view v.now) at.now)
        (bundle_of (item_in (view v.now) ∷ [])) }
{
    let mut items = List::new(alloc);
    items.push(read_item(alloc, v, at)?)?;
    Ok(gather(alloc, items)?)
}
