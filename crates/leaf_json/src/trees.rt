//! Matcher trees as JSON.
ghost use Rattle.std.specs.Prelude.{◌≡◌, IfOk, map};
ghost use Rattle.serde_json.specs.View.{view};
ghost use Rattle.envoy_types.specs.TreeForms.{tree_written};
ghost use Rattle.envoy_types.specs.WrittenFields.{list_written};

use crate::fields::sole_field;
use crate::form::{Form, Word};
use envoy_types::keys::ANY;
use mesh_text::Memory;
use mesh_tree::{Node, Tree};
use serde_json::Value;
use std::alloc::Global;

/// The value that spells a tree (Envoy v3 API, `config.rbac.v3.Permission` or `Principal`, as its leaves are); `Memory` where
/// there is no room. And and Or lists are written as they stand.
#[cycle(write)]
pub fn tree_to_value<L: Form>(alloc: Global, tree: &Tree<L>) -> Result<Value, Memory>
    ensures { IfOk result (λ v. view v ≡ tree_written L.form tree.now) }
{
    match tree.node() {
        Node::Any => sole_field(alloc, ANY, Value::Bool(true)),
        Node::Leaf(leaf) => leaf.write(alloc),
        Node::And(parts) => {
            let values = tree_list_value(alloc, parts)?;
            let set = sole_field(alloc, L::word(Word::Parts), values)?;
            sole_field(alloc, L::word(Word::And), set)
        }
        Node::Or(parts) => {
            let values = tree_list_value(alloc, parts)?;
            let set = sole_field(alloc, L::word(Word::Parts), values)?;
            sole_field(alloc, L::word(Word::Or), set)
        }
        Node::Not(part) => {
            let value = tree_to_value(alloc, part.get())?;
            sole_field(alloc, L::word(Word::Not), value)
        }
    }
}

/// The list of the values of some trees, in their order; `Memory` where there is no room.
#[cycle(write)]
#[tactic(auto, unfolding(envoy_types::specs::WrittenFields::list_written))]
pub fn tree_list_value<L: Form>(alloc: Global, trees: &[Tree<L>]) -> Result<Value, Memory>
    ensures { IfOk result (λ v. view v ≡ list_written (tree_written L.form) trees.now) }
{
    let mut values = Vec::new(alloc);
    for tree in trees {
        let value = tree_to_value(alloc, tree)?;
        serde_json::push(&mut values, value)?;
    }
    Ok(Value::Array(values))
}
