//! What a kind of leaves says of its JSON, so that trees of either kind are written and read by one code.
ghost use Rattle.std.specs.Prelude.{◌≡◌, true, IfOk};

use mesh_doc::{DocError, Place, Spot};
use mesh_text::Memory;
use mesh_tree::Leaf;
use serde_json::Value;
use std::alloc::Global;

/// The parts of a tree that have a name of their own in JSON.
#[derive(Clone, Copy, Debug, PartialEq, Eq)]
pub enum Word {
    /// All of some trees.
    And,
    /// One of some trees.
    Or,
    /// The field of an And or an Or that holds its parts.
    Parts,
    /// Not one tree.
    Not,
}

/// Leaves with their JSON (Envoy v3 API, `config.rbac.v3.Permission` and `Principal`).
pub trait Form: Leaf {
    ghost use Rattle.serde_json.specs.View.{view};
    ghost use Rattle.mesh_doc.specs.Faults.{Reads};
    ghost use Rattle.mesh_doc.specs.Known.{names_of};
    ghost use Rattle.envoy_types.specs.TreeForms.{HasOwnNames, ReadsBack, TreeForm, WritesLeaf, known_names};
    ghost use Rattle.leaf_json.specs.Form.{is_sole_leaf, sole_leaf_faults, sole_leaf_in, word_of};

    /// The words of the kind, and the form of its leaves: what is written, what can be wrong, and what it means.
    ghost form: { TreeForm Self };

    /// The names of all alternatives, parted by single spaces. Takes no memory.
    fn known() -> &'static str
        ensures { names_of result.now ≡ known_names form };

    /// The name of a part of a tree. Takes no memory.
    fn word(word: Word) -> &'static str
        ensures { result.now ≡ word_of form word };

    /// The leaf as an object with the one alternative; `Memory` where there is no room.
    fn write(&self, alloc: Global) -> Result<Value, Memory>
        ensures { IfOk result (λ v. view v ≡ form.leaf_written self.now) };

    /// The leaf that `v` spells, which stands at `at` as the alternative `key`, or its first fault.
    fn read_at(alloc: Global, key: &str, v: &Value, at: &Spot) -> Result<Self, DocError>
        ensures { Reads result (form.leaf_faults key.now (view v.now) at.now) (form.leaf_in key.now (view v.now)) };

    /// The leaf that the object `v` at `place` spells, or the first fault of its one field, which has the name of a leaf.
    fn read(alloc: Global, v: &Value, place: &Place) -> Result<Self, DocError>
        requires { is_sole_leaf form (view v.now) ≡ true }
        ensures { Reads result (sole_leaf_faults form (view v.now) place.now) (sole_leaf_in form (view v.now)) }
    {
        let Value::Object(members) = v else {
            unreachable!()
        };
        let mut entries = members.iter();
        let Some((key, found)) = entries.next() else {
            unreachable!()
        };
        let at = Spot::of(place);
        Self::read_at(alloc, key.as_str(), found, &Spot::key(&at, key.as_str()))
    }

    // The alternatives have names of their own.
    ghost own_names: { HasOwnNames form };

    // A written leaf is an object with one field, whose name is that of a leaf.
    ghost one_field: { (leaf : Self) → WritesLeaf form leaf };

    // A leaf that can be written reads back.
    ghost reads_back: { (leaf : Self) → form.leaf_is_printable leaf ≡ true → ReadsBack form leaf };
}
