// One example: its name, the words of the command, the input, and how its streams behave.
use crate::input::input_of;
use crate::stop::Stop;
use crate::streams::{Streams, streams_of};
use mesh_doc::{AnyText, Place, Spot, listed, required};
use mesh_text::{List, Text};
use serde_json::Value;
use std::alloc::Global;

const FIELDS: [&str; 13] = [
    "name",
    "words",
    "input",
    "text",
    "bytes",
    "parts",
    "read_at_most",
    "failing_reads",
    "write_at_most",
    "failing_writes",
    "room",
    "flush_fails",
    "failing_notes",
];

/// The most words of a command.
const MOST_WORDS: u32 = 64;

#[derive(Drop)]
pub struct Example {
    pub name: Text,
    pub words: Vec<String>,
    pub input: Vec<u8>,
    pub streams: Streams,
}

pub fn read_example(alloc: Global, v: &Value) -> Result<Example, Stop> {
    let whole: Place = List::new(alloc);
    let at = Spot::of(&whole);
    at.only_fields(alloc, v, &FIELDS)?;
    let name = required::<AnyText>(alloc, v, "name", &at)?;
    let words = words_of(alloc, v, &at)?;
    let input = input_of(alloc, v, &at)?;
    let streams = streams_of(alloc, v, &at)?;
    Ok(Example {
        name,
        words,
        input,
        streams,
    })
}

/// The words in the field `words` of `v`, none where it has no such field.
pub fn words_of(alloc: Global, v: &Value, at: &Spot) -> Result<Vec<String>, Stop> {
    let texts = listed::<AnyText>(alloc, v, "words", MOST_WORDS, at)?;
    let mut words = Vec::new(alloc);
    for text in &texts {
        words.push(String::from_str(alloc, text.as_str())?)?;
    }
    Ok(words)
}
