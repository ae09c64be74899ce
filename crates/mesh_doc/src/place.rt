//! Where a value stands in a document.
ghost use Rattle.std.specs.Prelude.{◌≡◌, [], ◌∷◌, ◌++◌, IfOk};

use mesh_text::{List, Memory, Text};
use std::alloc::Global;

/// Where a value stands in a document: the steps from the whole down to it. The whole has none.
pub type Place = List<Step>;

/// One step down: to the field of an object, or to the entry of a list, counted from 0.
#[derive(Debug, Drop, PartialEq, Eq)]
pub enum Step {
    Key(Text),
    Index(u32),
}

impl Step {
    /// An equal step of its own.
    pub fn copy(&self, alloc: Global) -> Result<Step, Memory>
        ensures { IfOk result (λ s. s ≡ self.now) }
    {
        match self {
            Step::Key(name) => Ok(Step::Key(name.copy(alloc)?)),
            Step::Index(index) => Ok(Step::Index(*index)),
        }
    }
}

/// The place one step further down.
pub(crate) fn below(place: Place, step: Step) -> Result<Place, Memory>
    ensures { IfOk result (λ p. p ≡ place ++ step ∷ []) }
{
    let mut place = place;
    place.push(step)?;
    Ok(place)
}

// It has room for one step more.
pub(crate) fn copy_of(alloc: Global, place: &Place) -> Result<Place, Memory>
    ensures { IfOk result (λ p. p ≡ place.now) }
{
    let steps = place.as_slice();
    let mut copy = Vec::with_capacity(alloc, steps.len() + 1)?;
    for step in steps {
        copy.push(step.copy(alloc)?)?;
    }
    Ok(List::from_vec(copy))
}
