// Matcher trees, and those of one node.
ghost use Rattle.std.specs.Prelude.{◌≡◌, Bool, true, false, not, IfOk, IsTrue};
ghost use Rattle.std.specs.List.{list_all};
ghost use Rattle.mesh_tree.specs.declared.tree.Node.TheVariants as Node;
ghost use Rattle.mesh_tree.specs.Tree.{node_of, parts_of, tree_of, HasParts};
ghost use Rattle.mesh_tree.specs.Full.{is_full};
ghost use Rattle.mesh_tree.specs.Judge.{tree_holds};

use mesh_text::{Boxed, List, Memory};
use std::alloc::Global;

/// One node of a tree: true, a leaf, all of some trees, one of some trees, or not one tree.
#[cycle(tree)]
#[derive(Debug, Drop, PartialEq, Eq, Hash)]
pub enum Node<L> {
    Any,
    Leaf(L),
    And(List<Tree<L>>),
    Or(List<Tree<L>>),
    Not(Boxed<Tree<L>>),
}

/// A matcher tree over the leaves `L`.
#[cycle(tree)]
#[derive(Debug, Drop, PartialEq, Eq, Hash)]
pub struct Tree<L> {
    pub(crate) node: Node<L>,
}

impl<L> Tree<L> {
    /// The tree that always holds.
    pub fn any() -> Tree<L>
        ensures shape { result ≡ tree_of Node.Any }
        ensures meaning { (p : L → Bool) → tree_holds p result ≡ true }
        ensures full { IsTrue (is_full result) }
    {
        Tree { node: Node::Any }
    }

    /// The tree of one leaf.
    pub fn leaf(leaf: L) -> Tree<L>
        ensures shape { result ≡ tree_of (Node.Leaf leaf) }
        ensures meaning { (p : L → Bool) → tree_holds p result ≡ p leaf }
        ensures full { IsTrue (is_full result) }
    {
        Tree {
            node: Node::Leaf(leaf),
        }
    }

    /// The tree whose first node is this one, as it stands.
    pub fn from_node(node: Node<L>) -> Tree<L>
        requires { HasParts node }
        ensures shape { result ≡ tree_of node }
        ensures full { IsTrue (list_all is_full (parts_of node)) → IsTrue (is_full result) }
    {
        Tree { node }
    }

    /// The first node.
    pub fn node(&self) -> &Node<L>
        ensures { result.now ≡ node_of self.now }
    {
        &self.node
    }
}

impl<L: Drop> Tree<L> {
    /// The tree that never holds: not any.
    pub fn never(alloc: Global) -> Result<Tree<L>, Memory>
        ensures shape { IfOk result (λ t. t ≡ tree_of (Node.Not (tree_of Node.Any))) }
        ensures meaning { IfOk result (λ t. (p : L → Bool) → tree_holds p t ≡ false) }
        ensures full { IfOk result (λ t. IsTrue (is_full t)) }
    {
        Tree::not(alloc, Tree::any())
    }

    /// The tree that holds where `tree` doesn't.
    pub fn not(alloc: Global, tree: Tree<L>) -> Result<Tree<L>, Memory>
        ensures shape { IfOk result (λ t. t ≡ tree_of (Node.Not tree)) }
        ensures meaning { IfOk result (λ t. (p : L → Bool) → tree_holds p t ≡ not (tree_holds p tree)) }
        ensures full { IfOk result (λ t. IsTrue (is_full tree) → IsTrue (is_full t)) }
    {
        Ok(Tree {
            node: Node::Not(Boxed::new(alloc, tree)?),
        })
    }
}
