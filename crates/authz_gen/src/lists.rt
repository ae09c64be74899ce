// Lists of match values as matcher trees.
ghost use Rattle.std.specs.Prelude.{◌≡◌, ◌++◌, IfOk, OnOk};
ghost use Rattle.authz_gen.specs.Lists as meaning;
ghost use Rattle.mesh_tree.specs.Joined.{or_of};

use mesh_text::{List, Memory};
use mesh_tree::Tree;
use std::alloc::Global;

// Adds that one of the trees holds, where there are any.
pub fn push_one_of<L: Drop>(
    alloc: Global,
    parts: &mut List<Tree<L>>,
    trees: List<Tree<L>>,
) -> Result<(), Memory>
    ensures { OnOk result (parts.new ≡ parts.old ++ meaning.if_any or_of trees) }
{
    if trees.is_empty() {
        return Ok(());
    }
    parts.push(Tree::or(alloc, trees)?)?;
    Ok(())
}

// Adds that none of the trees holds, where there are any.
pub fn push_none_of<L: Drop>(
    alloc: Global,
    parts: &mut List<Tree<L>>,
    trees: List<Tree<L>>,
) -> Result<(), Memory>
    ensures { OnOk result (parts.new ≡ parts.old ++ meaning.if_any meaning.none_of trees) }
{
    if trees.is_empty() {
        return Ok(());
    }
    let one = Tree::or(alloc, trees)?;
    parts.push(Tree::not(alloc, one)?)?;
    Ok(())
}

// The tree that holds where all parts do, and always where there are none.
pub fn all_of<L: Drop>(alloc: Global, parts: List<Tree<L>>) -> Result<Tree<L>, Memory>
    ensures { IfOk result (λ t. t ≡ meaning.all_of parts) }
{
    if parts.is_empty() {
        return Ok(Tree::any());
    }
    Tree::and(alloc, parts)
}
