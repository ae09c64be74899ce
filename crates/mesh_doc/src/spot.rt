//! Where a value stands, told without memory.
ghost use Rattle.std.specs.Prelude.{◌≡◌, IfOk};
ghost use Rattle.mesh_doc.specs.Places.{at_key, at_index};
ghost use Rattle.mesh_doc.specs.Faults.{Refuses, fault};

use crate::place::{Step, below, copy_of};
use crate::{DocError, Fault, Place, Reason};
use mesh_text::{Memory, Text};
use std::alloc::Global;
use std::marker::Model;

/// Where a value stands, told step by step from the object or list around it. Contracts see the steps of the value's
/// place. It is made without memory; only a fault pays for the place itself.
#[cycle(spot)]
#[derive(Drop)]
pub struct Spot<'a> {
    step: Last<'a>,
}

#[cycle(spot)]
#[derive(Drop)]
enum Last<'a> {
    Whole(&'a Place),
    Name(&'a Spot<'a>, &'a str),
    Entry(&'a Spot<'a>, u32),
}

impl<'a> Model for Spot<'a> {
    ghost use Rattle.std.specs.Prelude.{length};
    ghost use Rattle.mesh_doc.specs.Places.{Steps};

    ghost Value = { Steps };

    ghost use Rattle.mesh_doc.specs.Spot.{steps};

    ghost view = { λ s. steps s.step };

    ghost size = { length };

    ghost use Rattle.std.proofs.Common.{arith, length-append};

    ghost size_decreases = { λ a h. Prim.grind (arith, length-append) };
}

impl<'a> Spot<'a> {
    pub fn of(place: &'a Place) -> Spot<'a>
        ensures { result ≡ place.now }
    {
        Spot {
            step: Last::Whole(place),
        }
    }

    /// The field `name` of the object at `at`.
    pub fn key(at: &'a Spot<'a>, name: &'a str) -> Spot<'a>
        ensures { result ≡ at_key name.now at.now }
    {
        Spot {
            step: Last::Name(at, name),
        }
    }

    /// The entry `index` of the list at `at`.
    pub fn index(at: &'a Spot<'a>, index: u32) -> Spot<'a>
        ensures { result ≡ at_index index at.now }
    {
        Spot {
            step: Last::Entry(at, index),
        }
    }

    pub fn place(&self, alloc: Global) -> Result<Place, Memory>
        ensures { IfOk result (λ p. p ≡ self.now) }
    {
        match &self.step {
            Last::Whole(place) => copy_of(alloc, place),
            Last::Name(at, name) => below(at.place(alloc)?, Step::Key(Text::of(alloc, name)?)),
            Last::Entry(at, index) => below(at.place(alloc)?, Step::Index(*index)),
        }
    }

    /// The fault `reason` here, or want of memory for the place.
    pub fn refuse(&self, alloc: Global, reason: Reason) -> DocError
        ensures { Refuses result (fault reason self.now) }
    {
        match self.place(alloc) {
            Ok(place) => DocError::Fault(Fault { place, reason }),
            Err(Memory) => DocError::Memory,
        }
    }
}
