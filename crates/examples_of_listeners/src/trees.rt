// Matcher trees, over leaves that hold for one number.
ghost use Rattle.std.specs.Prelude.{◌≡◌, ◌<◌, ◌^◌, ◌∷◌, [], IfOk};
ghost use Rattle.mesh_tree.specs.Size.{tree_count};
ghost use Rattle.examples_of_listeners.specs.Trees.{IsLeaf};

use call_lines::{Call, Stop};
use mesh_text::{List, Memory};
use mesh_tree::{Leaf, Tree};
use std::alloc::Global;

/// A leaf that holds where the scene is its number.
#[derive(Debug, Drop, PartialEq, Eq, Hash)]
pub struct Number {
    pub number: u64,
}

impl Leaf for Number {
    ghost use Rattle.std.specs.Prelude.{◌==◌};
    ghost use Rattle.examples_of_listeners.specs.Trees.{number_same};

    type Scene = u64;

    type State = u64;

    ghost holds = { λ leaf scene state. leaf.number == scene };

    ghost same = { number_same };

    fn judge(&self, scene: &u64, _state: &u64) -> bool {
        self.number == *scene
    }

    fn copy(&self, _alloc: Global) -> Result<Number, Memory> {
        Ok(Number {
            number: self.number,
        })
    }
}

/// The last argument is the number for which the tree is judged. `and` is that of an `and` of the first two and the third, and
/// `or` alike. `count` is of the tree that never holds, and `depth` of an `and` of `and`.
pub fn answer(alloc: Global, call: &Call) -> Result<Option<String>, Stop> {
    match call.name {
        "Tree::never" => judged(alloc, &Tree::never(alloc)?, call.number(0)?),
        "Tree::not" => judged(alloc, &Tree::not(alloc, leaf(call, 0)?)?, call.number(1)?),
        "Tree::and" => judged(alloc, &all_of(alloc, call)?, call.number(3)?),
        "Tree::or" => judged(alloc, &one_of(alloc, call)?, call.number(3)?),
        "Tree::count" => measured(alloc, &none_at_all(alloc)?, call.number(0)?),
        "Tree::depth" => measured(alloc, &all_of(alloc, call)?, call.number(3)?),
        _ => Ok(None),
    }
}

fn leaf(call: &Call, number: usize) -> Result<Tree<Number>, Stop>
    ensures { IfOk result IsLeaf }
{
    Ok(Tree::leaf(Number {
        number: call.number(number)?,
    }))
}

fn none_at_all(alloc: Global) -> Result<Tree<Number>, Stop>
    ensures { IfOk result (λ tree. tree_count tree ≡ 2) }
{
    Ok(Tree::never(alloc)?)
}

fn pair(
    alloc: Global,
    first: Tree<Number>,
    second: Tree<Number>,
) -> Result<List<Tree<Number>>, Stop>
    ensures { IfOk result (λ parts. parts ≡ first ∷ second ∷ []) }
{
    let mut parts = List::new(alloc);
    parts.push(first)?;
    parts.push(second)?;
    Ok(parts)
}

// Of leaves it has four nodes, since an `and` inside an `and` gives its parts to it.
fn all_of(alloc: Global, call: &Call) -> Result<Tree<Number>, Stop>
    ensures { IfOk result (λ tree. tree_count tree ≡ 4) }
{
    let inner = Tree::and(alloc, pair(alloc, leaf(call, 0)?, leaf(call, 1)?)?)?;
    Ok(Tree::and(alloc, pair(alloc, inner, leaf(call, 2)?)?)?)
}

fn one_of(alloc: Global, call: &Call) -> Result<Tree<Number>, Stop> {
    let inner = Tree::or(alloc, pair(alloc, leaf(call, 0)?, leaf(call, 1)?)?)?;
    Ok(Tree::or(alloc, pair(alloc, inner, leaf(call, 2)?)?)?)
}

// What the tree and a copy of it judge, and whether they are equal.
fn judged(alloc: Global, tree: &Tree<Number>, scene: u64) -> Result<Option<String>, Stop> {
    let copy = tree.copy(alloc)?;
    let same = copy == *tree;
    let holds = tree.judge(&scene, &0);
    Ok(Some(format!(in alloc; "{holds}, the same as its copy: {same}")?))
}

// What the tree judges, how many nodes it has, and how many stand on the longest way down.
fn measured(alloc: Global, tree: &Tree<Number>, scene: u64) -> Result<Option<String>, Stop>
    requires { tree_count tree.now < 2 ^ 32 }
{
    let holds = tree.judge(&scene, &0);
    let (count, depth) = (tree.count(), tree.depth());
    Ok(Some(format!(in alloc; "{holds}, count {count}, depth {depth}")?))
}
