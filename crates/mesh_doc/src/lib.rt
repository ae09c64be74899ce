//! What every reader of a JSON document stands on: places, reasons and faults, the checks of kinds and fields, and
//! the form in which a reader is stated. A reader answers the value of a document, or the first of all its faults
//! in reading order. `docs/READERS.md` shows how one is written.
#![tactic(auto)]

mod fault;
mod fields;
mod form;
mod kinds;
mod known;
mod laws;
mod lists;
mod maps;
mod place;
mod printed;
mod reason;
mod spot;
mod tested;
mod turns;

pub use fault::{DocError, Fault, refuse};
pub use fields::{
    empty_object, field, missing, optional, optional_written, or_empty, required, required_written,
    written,
};
pub use form::Form;
pub use kinds::{AnyNumber, AnyText, AnyTruth, list, number, object, text, truth};
pub use known::only_fields;
pub use laws::reading_order;
pub use lists::{entries, listed, listed_written};
pub use maps::{Entry, members};
pub use place::{Place, Step};
pub use printed::{fault_text, place_text};
pub use reason::Reason;
pub use spot::Spot;
pub use tested::{Tested, TextTest};
pub use turns::{InTurn, entries_in_turn, listed_in_turn};
