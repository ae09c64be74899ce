//! The form of a value, by which readers of fields and lists are told what they read.
ghost use Rattle.serde_json.specs.Data.{Data};
ghost use Rattle.serde_json.specs.View.{view};
ghost use Rattle.mesh_doc.specs.Faults.{Check, Reads};

use crate::{DocError, Spot};
use serde_json::Value;
use std::alloc::Global;

/// A form of JSON: what can be wrong with a value, in reading order, and what a value without fault means. The
/// meaning of a value with a fault is any value.
pub trait Form {
    type Out: Drop;

    ghost faults: { Check };

    ghost value: { Data → Self.Out };

    /// The value of `v`, which stands at `at`, or its first fault.
    fn read(alloc: Global, v: &Value, at: &Spot) -> Result<Self::Out, DocError>
        ensures { Reads result (faults (view v.now) at.now) (value (view v.now)) };
}
