// The judge of trees.
ghost use Rattle.std.specs.Prelude.{◌≡◌};
ghost use Rattle.std.specs.List.{list_all, list_any};
ghost use Rattle.mesh_tree.specs.Judge.{tree_holds};

use crate::{Leaf, Node, Tree};

impl<L: Leaf> Tree<L> {
    /// Whether the tree holds, by what its leaves judge. Takes no memory.
    #[cycle(judge)]
    pub fn judge(&self, scene: &L::Scene, state: &L::State) -> bool
        ensures { result ≡ tree_holds (λ l. L.holds l scene.now state.now) self.now }
    {
        match &self.node {
            Node::Any => true,
            Node::Leaf(leaf) => leaf.judge(scene, state),
            Node::And(parts) => all_hold(parts, scene, state),
            Node::Or(parts) => one_holds(parts, scene, state),
            Node::Not(part) => !part.get().judge(scene, state),
        }
    }
}

#[cycle(judge)]
fn all_hold<L: Leaf>(parts: &[Tree<L>], scene: &L::Scene, state: &L::State) -> bool
    ensures { result ≡ list_all (tree_holds (λ l. L.holds l scene.now state.now)) parts.now }
{
    for part in parts {
        if !part.judge(scene, state) {
            return false;
        }
    }
    true
}

#[cycle(judge)]
fn one_holds<L: Leaf>(parts: &[Tree<L>], scene: &L::Scene, state: &L::State) -> bool
    ensures { result ≡ list_any (tree_holds (λ l. L.holds l scene.now state.now)) parts.now }
{
    for part in parts {
        if part.judge(scene, state) {
            return true;
        }
    }
    false
}
