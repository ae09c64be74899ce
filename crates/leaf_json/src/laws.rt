//! The law that what is written of matchers and trees is read back.
ghost use Rattle.leaf_json.specs.Laws.{StringsSpelled, TreesSpelled};

use crate::form::Form;

/// A law: what is written of a string matcher that can be written has no fault and means that matcher, and so it is with trees
/// over these leaves, of which nothing but the laws of `Form` is used. The call does nothing.
pub fn written_reads_back<L: Form>()
    ensures strings { StringsSpelled }
    ensures trees { TreesSpelled L.form }
{}
