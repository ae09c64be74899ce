// How many nodes a tree has, and how deep it is.
ghost use Rattle.std.specs.Prelude.{◌≡◌, ◌<◌, ◌≤◌, ◌^◌, map};
ghost use Rattle.mesh_tree.specs.Size.{greatest, total, tree_count, tree_depth};

use crate::{Node, Tree};

impl<L> Tree<L> {
    /// How many nodes there are, each as often as it stands in the tree. Takes no memory.
    #[cycle(count)]
    pub fn count(&self) -> u64
        requires { tree_count self.now < 2 ^ 32 }
        ensures { result ≡ tree_count self.now }
    {
        match &self.node {
            Node::Any => 1,
            Node::Leaf(_) => 1,
            Node::And(parts) => count_all(parts) + 1,
            Node::Or(parts) => count_all(parts) + 1,
            Node::Not(part) => part.get().count() + 1,
        }
    }

    /// How many nodes stand on the longest way down. Takes no memory.
    #[cycle(depth)]
    pub fn depth(&self) -> u64
        requires { tree_count self.now < 2 ^ 32 }
        ensures value { result ≡ tree_depth self.now }
        ensures bound { result ≤ tree_count self.now }
    {
        match &self.node {
            Node::Any => 1,
            Node::Leaf(_) => 1,
            Node::And(parts) => deepest(parts) + 1,
            Node::Or(parts) => deepest(parts) + 1,
            Node::Not(part) => part.get().depth() + 1,
        }
    }
}

#[cycle(count)]
fn count_all<L>(parts: &[Tree<L>]) -> u64
    requires { total (map tree_count parts.now) < 2 ^ 32 }
    ensures { result ≡ total (map tree_count parts.now) }
{
    let mut count = 0;
    for part in parts {
        count += part.count();
    }
    count
}

#[cycle(depth)]
fn deepest<L>(parts: &[Tree<L>]) -> u64
    requires { total (map tree_count parts.now) < 2 ^ 32 }
    ensures value { result ≡ greatest (map tree_depth parts.now) }
    ensures bound { result ≤ total (map tree_count parts.now) }
{
    let mut most = 0;
    for part in parts {
        most = part.depth().max(most);
    }
    most
}
