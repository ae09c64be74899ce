//! The kinds of JSON values (RFC 8259 section 3): whether a value is of one, and what it is.
ghost use Rattle.std.specs.Prelude.{◌≡◌, true, OnOk};
ghost use Rattle.serde_json.specs.Events.{items_len};
ghost use Rattle.serde_json.specs.View.{view, items_view};
ghost use Rattle.mesh_doc.specs.Faults.{Reads};
ghost use Rattle.mesh_doc.specs.Kinds.{is_object, object_faults, list_faults, length_in, text_faults, text_in, number_faults, number_in, truth_faults, truth_in};

use crate::{DocError, Form, Place, Reason, Spot, refuse};
use mesh_text::Text;
use serde_json::Value;
use std::alloc::Global;

/// As `Spot::object`, at `place`.
pub fn object(alloc: Global, v: &Value, place: &Place) -> Result<(), DocError>
    ensures reads { Reads result (object_faults (view v.now) place.now) tt }
    ensures object { OnOk result (is_object (view v.now) ≡ true) }
{
    Spot::of(place).object(alloc, v)
}

impl<'a> Spot<'a> {
    /// Whether `v`, which stands here, is an object: else WrongType.
    #[tactic(auto, unfolding(crate::specs::Kinds::object_faults))]
    pub fn object(&self, alloc: Global, v: &Value) -> Result<(), DocError>
        ensures reads { Reads result (object_faults (view v.now) self.now) tt }
        ensures object { OnOk result (is_object (view v.now) ≡ true) }
    {
        match v {
            Value::Object(_) => Ok(()),
            _ => Err(self.refuse(alloc, Reason::WrongType)),
        }
    }
}

/// The length of the list `v`, or WrongType.
#[tactic(auto, unfolding(crate::specs::Kinds::list_faults, crate::specs::Kinds::length_in))]
pub fn list(alloc: Global, v: &Value, place: &Place) -> Result<usize, DocError>
    ensures { Reads result (list_faults (view v.now) place.now) (length_in (view v.now)) }
{
    match v {
        Value::Array(items) => Ok(count(items.as_slice())),
        _ => Err(refuse(alloc, place, Reason::WrongType)),
    }
}

#[tactic(auto, using(crate::proofs::Counts::count_of_items))]
fn count(items: &[Value]) -> usize
    ensures { result ≡ items_len (items_view items.now) }
{
    items.len()
}

/// The text `v`, or WrongType.
pub fn text(alloc: Global, v: &Value, place: &Place) -> Result<Text, DocError>
    ensures { Reads result (text_faults (view v.now) place.now) (text_in (view v.now)) }
{
    AnyText::read(alloc, v, &Spot::of(place))
}

/// The whole number `v`, from 0 to 2^64 - 1. WrongType for every other value, a number that is written with a
/// fraction or an exponent among them.
pub fn number(alloc: Global, v: &Value, place: &Place) -> Result<u64, DocError>
    ensures { Reads result (number_faults (view v.now) place.now) (number_in (view v.now)) }
{
    AnyNumber::read(alloc, v, &Spot::of(place))
}

/// Whether `v` is `true`, or WrongType where it is neither `true` nor `false`.
pub fn truth(alloc: Global, v: &Value, place: &Place) -> Result<bool, DocError>
    ensures { Reads result (truth_faults (view v.now) place.now) (truth_in (view v.now)) }
{
    AnyTruth::read(alloc, v, &Spot::of(place))
}

/// Any text.
pub struct AnyText;

impl Form for AnyText {
    type Out = Text;

    ghost faults = { text_faults };

    ghost value = { text_in };

    #[tactic(auto, unfolding(crate::specs::Kinds::text_faults, crate::specs::Kinds::text_in))]
    fn read(alloc: Global, v: &Value, at: &Spot) -> Result<Text, DocError> {
        match v {
            Value::String(text) => Ok(Text::of(alloc, text.as_str())?),
            _ => Err(at.refuse(alloc, Reason::WrongType)),
        }
    }
}

/// Any whole number from 0 to 2^64 - 1.
pub struct AnyNumber;

impl Form for AnyNumber {
    type Out = u64;

    ghost faults = { number_faults };

    ghost value = { number_in };

    #[tactic(auto, unfolding(crate::specs::Kinds::number_faults, crate::specs::Kinds::number_in))]
    fn read(alloc: Global, v: &Value, at: &Spot) -> Result<u64, DocError> {
        match v.as_u64() {
            Some(number) => Ok(number),
            None => Err(at.refuse(alloc, Reason::WrongType)),
        }
    }
}

/// `true` or `false`.
pub struct AnyTruth;

impl Form for AnyTruth {
    type Out = bool;

    ghost faults = { truth_faults };

    ghost value = { truth_in };

    #[tactic(auto, unfolding(crate::specs::Kinds::truth_faults, crate::specs::Kinds::truth_in))]
    fn read(alloc: Global, v: &Value, at: &Spot) -> Result<bool, DocError> {
        match v {
            Value::Bool(truth) => Ok(*truth),
            _ => Err(at.refuse(alloc, Reason::WrongType)),
        }
    }
}
