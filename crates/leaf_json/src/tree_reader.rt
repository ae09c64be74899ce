//! Matcher trees, read down the value itself.
ghost use Rattle.std.specs.Prelude.{◌≡◌, ◌<◌, ◌^◌, [], ◌∷◌, None, true, IfOk, length};
ghost use Rattle.serde_json.specs.Data.{array, member, no_members, object};
ghost use Rattle.serde_json.specs.View.{items_view, members_view, view};
ghost use Rattle.mesh_doc.specs.Faults.{Reads, first};
ghost use Rattle.mesh_doc.specs.Known.{is_known, unknown_in};
ghost use Rattle.envoy_types.specs.TreeForms as form;

use crate::alternatives::{MOST_ENTRIES, TrueAlone};
use crate::form::{Form, Word};
use crate::known::only_alternatives;
use envoy_types::keys::ANY;
use mesh_doc::{DocError, Form as JsonForm, Place, Reason, Spot};
use mesh_text::{Boxed, List};
use mesh_tree::{Node, Tree};
use serde_json::{Map, Value};
use std::alloc::Global;
use std::marker::PhantomData;

/// The tree that `v`, which stands at `place`, spells, or its first fault: UnknownField, MissingField, WrongType, TooMany,
/// BadForm. And and Or lists are kept as they stand.
pub fn tree_from_value<L: Form>(
    alloc: Global,
    v: &Value,
    place: &Place,
) -> Result<Tree<L>, DocError>
    ensures { Reads result (form.tree_faults L.form (view v.now) place.now) (form.tree_in L.form (view v.now)) }
{
    tree::<L>(alloc, v, &Spot::of(place))
}

/// A list of one tree at least, as policies have them.
pub struct TreeListForm<L> {
    leaves: PhantomData<L>,
}

impl<L: Form> JsonForm for TreeListForm<L> {
    type Out = List<Tree<L>>;

    ghost faults = { form.tree_list_faults L.form };

    ghost value = { form.tree_list_in L.form };

    #[tactic(auto, unfolding(envoy_types::specs::TreeForms::tree_list_faults, envoy_types::specs::TreeForms::tree_list_in))]
    fn read(alloc: Global, v: &Value, at: &Spot) -> Result<List<Tree<L>>, DocError> {
        trees::<L>(alloc, v, at)
    }
}

// An object of one alternative: first the unknown ones, then none or two of them.
#[cycle(read)]
fn tree<L: Form>(alloc: Global, v: &Value, at: &Spot) -> Result<Tree<L>, DocError>
    ensures { Reads result (form.tree_faults L.form (view v.now) at.now) (form.tree_in L.form (view v.now)) }
{
    match v {
        Value::Object(members) => one_alternative::<L>(alloc, members, at),
        _ => Err(at.refuse(alloc, Reason::WrongType)),
    }
}

#[cycle(read)]
fn one_alternative<L: Form>(
    alloc: Global,
    members: &Map<String, Value>,
    at: &Spot,
) -> Result<Tree<L>, DocError>
    ensures { Reads result
        (form.tree_faults L.form (object (members_view members.now.entries)) at.now)
        (form.tree_in L.form (object (members_view members.now.entries))) }
{
    only_alternatives::<L>(alloc, members, at)?;
    let mut entries = members.iter();
    let Some((key, v)) = entries.next() else {
        return Err(at.refuse(alloc, Reason::BadForm));
    };
    if entries.next().is_some() {
        return Err(at.refuse(alloc, Reason::BadForm));
    }
    alternative::<L>(alloc, key.as_str(), v, at)
}

// The alternative of this name.
#[cycle(read)]
#[tactic(auto, using(crate::proofs::ReadLemmas::leaf_known))]
fn alternative<L: Form>(alloc: Global, key: &str, v: &Value, at: &Spot) -> Result<Tree<L>, DocError>
    requires { is_known (form.known_names L.form) key.now ≡ true }
    ensures { Reads result
        (form.alternatives_faults L.form (member key.now (view v.now) no_members) at.now)
        (form.alternative_in L.form (member key.now (view v.now) no_members)) }
{
    let at = Spot::key(&*at, key);
    if key == L::word(Word::And) {
        Ok(Tree::from_node(Node::And(parts::<L>(alloc, v, &at)?)))
    } else if key == L::word(Word::Or) {
        Ok(Tree::from_node(Node::Or(parts::<L>(alloc, v, &at)?)))
    } else if key == L::word(Word::Not) {
        let part = tree::<L>(alloc, v, &at)?;
        Ok(Tree::not(alloc, part)?)
    } else if key == ANY {
        TrueAlone::read(alloc, v, &at)?;
        Ok(Tree::any())
    } else {
        Ok(Tree::leaf(L::read_at(alloc, key, v, &at)?))
    }
}

// The parts of an And or an Or: an object of one field.
#[cycle(read)]
#[tactic(auto, unfolding(mesh_doc::specs::Known::unknown_faults, mesh_doc::specs::Kinds::object_faults))]
fn parts<L: Form>(alloc: Global, v: &Value, at: &Spot) -> Result<List<Tree<L>>, DocError>
    ensures reads { Reads result (form.parts_faults L.form (view v.now) at.now) (form.parts_in L.form (view v.now)) }
    ensures some { IfOk result (λ trees. 0 < length trees) }
{
    at.only_fields(alloc, v, &[L::word(Word::Parts)])?;
    let Value::Object(members) = v else {
        unreachable!()
    };
    parts_field::<L>(alloc, members, at)
}

// The field, which is the first one since no other name is known.
#[cycle(read)]
#[tactic(auto, using(crate::proofs::ReadLemmas::first_of_parts))]
fn parts_field<L: Form>(
    alloc: Global,
    members: &Map<String, Value>,
    at: &Spot,
) -> Result<List<Tree<L>>, DocError>
    requires { first (unknown_in (L.form.parts_name ∷ []) (members_view members.now.entries) at.now) ≡ None }
    ensures reads { Reads result
        (form.parts_field_faults L.form (members_view members.now.entries) at.now)
        (form.parts_field_in L.form (members_view members.now.entries)) }
    ensures some { IfOk result (λ trees. 0 < length trees) }
{
    let name = L::word(Word::Parts);
    match members.iter().next() {
        Some((_, v)) => trees::<L>(alloc, v, &Spot::key(&*at, name)),
        None => Err(at.missing(alloc, name)),
    }
}

// A list of one tree at least.
#[cycle(read)]
fn trees<L: Form>(alloc: Global, v: &Value, at: &Spot) -> Result<List<Tree<L>>, DocError>
    ensures reads { Reads result (form.trees_faults L.form (view v.now) at.now) (form.trees_in L.form (view v.now)) }
    ensures some { IfOk result (λ trees. 0 < length trees) }
{
    match v {
        Value::Array(items) => some_trees::<L>(alloc, items.as_slice(), at),
        _ => Err(at.refuse(alloc, Reason::WrongType)),
    }
}

#[cycle(read)]
#[tactic(auto, using(mesh_doc::proofs::Counts::count_of_items))]
fn some_trees<L: Form>(alloc: Global, items: &[Value], at: &Spot) -> Result<List<Tree<L>>, DocError>
    ensures reads { Reads result
        (form.trees_faults L.form (array (items_view items.now)) at.now)
        (form.each_tree_in L.form (items_view items.now)) }
    ensures some { IfOk result (λ trees. 0 < length trees) }
{
    if items.len() > MOST_ENTRIES as usize {
        return Err(at.refuse(alloc, Reason::TooMany));
    }
    if items.is_empty() {
        return Err(at.refuse(alloc, Reason::BadForm));
    }
    each_tree::<L>(alloc, items, at)
}

#[cycle(read)]
fn each_tree<L: Form>(alloc: Global, items: &[Value], at: &Spot) -> Result<List<Tree<L>>, DocError>
    requires { length items.now < 2 ^ 32 }
    ensures reads { Reads result
        (form.each_tree_faults L.form 0 (items_view items.now) at.now)
        (form.each_tree_in L.form (items_view items.now)) }
    ensures count { IfOk result (λ trees. length trees ≡ length items.now) }
{
    let mut all = List::with_room(alloc, items.len())?;
    for (i, v) in items.iter().enumerate() {
        all.push(tree::<L>(alloc, v, &Spot::index(&*at, i as u32))?)?;
    }
    Ok(all)
}
