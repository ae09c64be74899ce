// Copies of trees.
ghost use Rattle.std.specs.Prelude.{◌≡◌, IfOk};

use crate::{Leaf, Node, Tree};
use mesh_text::{Boxed, List, Memory};
use std::alloc::Global;

impl<L: Leaf> Tree<L> {
    /// An equal tree of its own.
    #[cycle(copy)]
    pub fn copy(&self, alloc: Global) -> Result<Tree<L>, Memory>
        ensures { IfOk result (λ t. t ≡ self.now) }
    {
        let node = match &self.node {
            Node::Any => Node::Any,
            Node::Leaf(leaf) => Node::Leaf(leaf.copy(alloc)?),
            Node::And(parts) => Node::And(copy_all(alloc, parts)?),
            Node::Or(parts) => Node::Or(copy_all(alloc, parts)?),
            Node::Not(part) => Node::Not(Boxed::new(alloc, part.get().copy(alloc)?)?),
        };
        Ok(Tree { node })
    }
}

#[cycle(copy)]
fn copy_all<L: Leaf>(alloc: Global, parts: &[Tree<L>]) -> Result<List<Tree<L>>, Memory>
    ensures { IfOk result (λ copies. copies ≡ parts.now) }
{
    let mut copies = List::with_room(alloc, parts.len())?;
    for part in parts {
        copies.push(part.copy(alloc)?)?;
    }
    Ok(copies)
}
