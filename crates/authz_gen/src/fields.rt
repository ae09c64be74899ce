// Fields with a list of values, each of which is a matcher tree.
ghost use Rattle.std.specs.Prelude.{◌≡◌, ◌++◌, All, map, IfOk, OnOk};
ghost use Rattle.authz_gen.specs.Conditions.{both_lists};
ghost use Rattle.authz_gen.specs.Lists.{field_of};
ghost use Rattle.mesh_tree.specs.declared.tree.Tree.{Tree};

use crate::lists::{all_of, push_none_of, push_one_of};
use mesh_text::{List, Memory};
use mesh_tree::Tree;
use std::alloc::Global;

/// What a value of a field is, and the tree that it is matched by.
pub trait Field {
    type Value;

    type Leaf: Drop;

    ghost accepted: { Self → Self.Value → Type 0 };

    ghost tree: { Self → Self.Value → Tree Self.Leaf };

    fn make(&self, alloc: Global, value: &Self::Value) -> Result<Tree<Self::Leaf>, Memory>
        requires { accepted self.now value.now }
        ensures { IfOk result (λ t. t ≡ tree self.now value.now) };
}

/// The trees of these values, in their order.
pub fn trees_of<F: Field>(
    alloc: Global,
    field: &F,
    values: &[F::Value],
) -> Result<List<Tree<F::Leaf>>, Memory>
    requires { All (F.accepted field.now) values.now }
    ensures { IfOk result (λ ts. ts ≡ map (F.tree field.now) values.now) }
{
    let mut trees = List::with_room(alloc, values.len())?;
    for value in values {
        trees.push(field.make(alloc, value)?)?;
    }
    Ok(trees)
}

/// Adds that one of the values matches, where there are any, and none of those of the `not` field beside it.
pub fn push_field<F: Field>(
    alloc: Global,
    field: &F,
    parts: &mut List<Tree<F::Leaf>>,
    values: &[F::Value],
    not_values: &[F::Value],
) -> Result<(), Memory>
    requires values { All (F.accepted field.now) values.now }
    requires not_values { All (F.accepted field.now) not_values.now }
    ensures { OnOk result (parts.new
        ≡ parts.old ++ field_of (map (F.tree field.now) values.now) (map (F.tree field.now) not_values.now)) }
{
    let trees = trees_of(alloc, field, values)?;
    let not_trees = trees_of(alloc, field, not_values)?;
    push_one_of(alloc, parts, trees)?;
    push_none_of(alloc, parts, not_trees)
}

/// Adds the same as one part, which is there also where both lists are empty.
pub fn push_both_lists<F: Field>(
    alloc: Global,
    field: &F,
    parts: &mut List<Tree<F::Leaf>>,
    values: &[F::Value],
    not_values: &[F::Value],
) -> Result<(), Memory>
    requires values { All (F.accepted field.now) values.now }
    requires not_values { All (F.accepted field.now) not_values.now }
    ensures { OnOk result (parts.new ≡ parts.old ++ both_lists (F.tree field.now) values.now not_values.now) }
{
    let mut own = List::new(alloc);
    push_field(alloc, field, &mut own, values, not_values)?;
    parts.push(all_of(alloc, own)?)
}
