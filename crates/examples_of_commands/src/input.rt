// The bytes of an example's input.
use crate::example::words_of;
use crate::running::run_example;
use crate::stop::Stop;
use crate::streams::clean;
use mesh_doc::{AnyNumber, AnyText, Reason, Spot, entries, field, optional, required, written};
use serde_json::Value;
use std::alloc::Global;

/// The most bytes in a list of bytes.
const MOST_BYTES: u32 = 4096;

/// How many copies of a repeated text are put out at once.
const BLOCK: u64 = 1024;

/// The input of the example `v`: `input` is JSON as it stands, `text` a text, `bytes` a list of bytes, `parts` a list
/// of parts that stand one behind the other. Without any of them it has no byte.
pub fn input_of(alloc: Global, v: &Value, at: &Spot) -> Result<Vec<u8>, Stop> {
    if let Some(document) = written(v, "input") {
        return bytes_of(alloc, document.to_string(alloc)?.as_str());
    }
    if let Some(text) = optional::<AnyText>(alloc, v, "text", at)? {
        return bytes_of(alloc, text.as_str());
    }
    if let Some(list) = field(v, "bytes") {
        return listed_bytes(alloc, list, &Spot::key(at, "bytes"));
    }
    match field(v, "parts") {
        Some(parts) => joined(alloc, parts, &Spot::key(at, "parts")),
        None => Ok(Vec::new(alloc)),
    }
}

fn bytes_of(alloc: Global, text: &str) -> Result<Vec<u8>, Stop> {
    Ok(text.as_bytes().to_vec(alloc)?)
}

fn listed_bytes(alloc: Global, v: &Value, at: &Spot) -> Result<Vec<u8>, Stop> {
    let numbers = entries::<AnyNumber>(alloc, v, MOST_BYTES, at)?;
    let mut bytes = Vec::new(alloc);
    for number in &numbers {
        let Ok(byte) = u8::try_from(*number) else {
            return Err(Stop::from(at.refuse(alloc, Reason::BadValue)));
        };
        bytes.push(byte)?;
    }
    Ok(bytes)
}

fn joined(alloc: Global, v: &Value, at: &Spot) -> Result<Vec<u8>, Stop> {
    let Value::Array(parts) = v else {
        return Err(Stop::from(at.refuse(alloc, Reason::WrongType)));
    };
    let mut out = String::new(alloc);
    for part in parts.as_slice() {
        push_part(alloc, &mut out, part, at)?;
    }
    bytes_of(alloc, out.as_str())
}

// A part is a text, a text many times, a text for each of some numbers, or what another command puts out.
fn push_part(alloc: Global, out: &mut String, part: &Value, at: &Spot) -> Result<(), Stop> {
    if let Value::String(text) = part {
        out.push_str(text.as_str())?;
        return Ok(());
    }
    if written(part, "repeat").is_some() {
        return push_times(alloc, out, part, at);
    }
    if written(part, "each").is_some() {
        return push_each(alloc, out, part, at);
    }
    push_output(alloc, out, part, at)
}

// The text `repeat` as often as `times` says. It goes by blocks, for inputs of some million blanks.
fn push_times(alloc: Global, out: &mut String, part: &Value, at: &Spot) -> Result<(), Stop> {
    let text = required::<AnyText>(alloc, part, "repeat", at)?;
    let times = required::<AnyNumber>(alloc, part, "times", at)?;
    let block = text.as_str().repeat(alloc, BLOCK as usize)?;
    for _ in 0..times / BLOCK {
        out.push_str(block.as_str())?;
    }
    let rest = text.as_str().repeat(alloc, (times % BLOCK) as usize)?;
    out.push_str(rest.as_str())?;
    Ok(())
}

// The text `each` once for each number of `from` to `to`, with the number in place of `#`, and `between` between two.
fn push_each(alloc: Global, out: &mut String, part: &Value, at: &Spot) -> Result<(), Stop> {
    let text = required::<AnyText>(alloc, part, "each", at)?;
    let from = required::<AnyNumber>(alloc, part, "from", at)?;
    let to = required::<AnyNumber>(alloc, part, "to", at)?;
    let between = required::<AnyText>(alloc, part, "between", at)?;
    for number in from..=to {
        if number > from {
            out.push_str(between.as_str())?;
        }
        push_numbered(out, text.as_str(), number)?;
    }
    Ok(())
}

fn push_numbered(out: &mut String, text: &str, number: u64) -> Result<(), Stop> {
    match text.split_once('#') {
        None => out.push_str(text)?,
        Some((front, back)) => write!(out, "{front}{number}{back}")?,
    }
    Ok(())
}

// The output of the command `words` to the JSON value `input`, without its newline.
fn push_output(alloc: Global, out: &mut String, part: &Value, at: &Spot) -> Result<(), Stop> {
    let words = words_of(alloc, part, at)?;
    let Some(document) = written(part, "input") else {
        return Err(Stop::from(at.missing(alloc, "input")));
    };
    let input = bytes_of(alloc, document.to_string(alloc)?.as_str())?;
    let ended = run_example(alloc, &words, input, clean(alloc))?;
    let Ok(text) = std::str::from_utf8(ended.output.taken()) else {
        return Err(Stop::from(at.refuse(alloc, Reason::BadValue)));
    };
    out.push_str(text.trim_end())?;
    Ok(())
}
