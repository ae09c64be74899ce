// Trees joined by and, and by or.
ghost use Rattle.std.specs.Prelude.{◌≡◌, Bool, ◌<◌, length, IfOk, IsTrue};
ghost use Rattle.std.specs.List.{flat_map, list_all, list_any};
ghost use Rattle.mesh_tree.specs.Full.{is_full};
ghost use Rattle.mesh_tree.specs.Joined.{and_entries, and_of, or_entries, or_of};
ghost use Rattle.mesh_tree.specs.Judge.{tree_holds};

use crate::{Node, Tree};
use mesh_text::{List, Memory};
use std::alloc::Global;

impl<L: Drop> Tree<L> {
    /// The tree that holds where all parts do. A single part is handed back as it is. Of several, the entries of
    /// those that are Ands stand in their places, opened no further. Without memory the parts are dropped.
    pub fn and(alloc: Global, parts: List<Tree<L>>) -> Result<Tree<L>, Memory>
        requires { 0 < length parts }
        ensures shape { IfOk result (λ t. t ≡ and_of parts) }
        ensures meaning { IfOk result (λ t. (p : L → Bool) → tree_holds p t ≡ list_all (tree_holds p) parts) }
        ensures full { IfOk result (λ t. IsTrue (list_all is_full parts) → IsTrue (is_full t)) }
    {
        and_tree(alloc, parts)
    }

    /// The tree that holds where one of the parts does. A single part is handed back as it is. Of several, the
    /// entries of those that are Ors stand in their places, opened no further. Without memory the parts are dropped.
    pub fn or(alloc: Global, parts: List<Tree<L>>) -> Result<Tree<L>, Memory>
        requires { 0 < length parts }
        ensures shape { IfOk result (λ t. t ≡ or_of parts) }
        ensures meaning { IfOk result (λ t. (p : L → Bool) → tree_holds p t ≡ list_any (tree_holds p) parts) }
        ensures full { IfOk result (λ t. IsTrue (list_all is_full parts) → IsTrue (is_full t)) }
    {
        or_tree(alloc, parts)
    }
}

fn and_tree<L: Drop>(alloc: Global, parts: List<Tree<L>>) -> Result<Tree<L>, Memory>
    ensures { IfOk result (λ t. t ≡ and_of parts) }
{
    let mut parts = parts.into_vec();
    if parts.len() == 1 {
        return Ok(parts.remove(0));
    }
    Ok(Tree {
        node: Node::And(flat_and(alloc, parts)?),
    })
}

fn or_tree<L: Drop>(alloc: Global, parts: List<Tree<L>>) -> Result<Tree<L>, Memory>
    ensures { IfOk result (λ t. t ≡ or_of parts) }
{
    let mut parts = parts.into_vec();
    if parts.len() == 1 {
        return Ok(parts.remove(0));
    }
    Ok(Tree {
        node: Node::Or(flat_or(alloc, parts)?),
    })
}

fn flat_and<L: Drop>(alloc: Global, parts: Vec<Tree<L>>) -> Result<List<Tree<L>>, Memory>
    ensures { IfOk result (λ entries. entries ≡ flat_map and_entries parts.items) }
{
    let mut entries = List::new(alloc);
    for part in parts {
        match part.node {
            Node::And(inner) => entries.append(inner)?,
            node => entries.push(Tree { node })?,
        }
    }
    Ok(entries)
}

fn flat_or<L: Drop>(alloc: Global, parts: Vec<Tree<L>>) -> Result<List<Tree<L>>, Memory>
    ensures { IfOk result (λ entries. entries ≡ flat_map or_entries parts.items) }
{
    let mut entries = List::new(alloc);
    for part in parts {
        match part.node {
            Node::Or(inner) => entries.append(inner)?,
            node => entries.push(Tree { node })?,
        }
    }
    Ok(entries)
}
