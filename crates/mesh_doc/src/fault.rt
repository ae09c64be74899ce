//! What a reader answers where it has no value.
ghost use Rattle.std.specs.Prelude.{◌≡◌};
ghost use Rattle.mesh_doc.specs.Faults.{Refuses, fault};

use crate::{Place, Reason, Spot};
use mesh_text::Memory;
use std::alloc::Global;

/// One fault of a document: why a value is refused, and where it stands.
#[derive(Debug, Drop, PartialEq, Eq)]
pub struct Fault {
    pub place: Place,
    pub reason: Reason,
}

/// Why a reader gives no value: a fault of the document, or want of memory.
#[derive(Debug, Drop, PartialEq, Eq)]
pub enum DocError {
    Fault(Fault),
    Memory,
}

impl From<Memory> for DocError {
    ghost use Rattle.mesh_doc.specs.declared.fault.DocError.TheVariants as error;

    ghost from_gives = { λ _ e. e ≡ error.Memory };

    fn from(_: Memory) -> DocError {
        DocError::Memory
    }
}

/// As `Spot::refuse`, at `place`.
pub fn refuse(alloc: Global, place: &Place, reason: Reason) -> DocError
    ensures { Refuses result (fault reason place.now) }
{
    Spot::of(place).refuse(alloc, reason)
}
