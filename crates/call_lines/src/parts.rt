// Documents in parts: texts one behind the other, in which a part may stand for many copies.
use crate::call::{number_in, text_in};
use crate::stop::Stop;
use serde_json::Value;
use std::alloc::Global;

/// The document whose text these parts are. A part is a text, `{"repeat": TEXT, "times": N}`, or
/// `{"each": TEXT, "from": A, "to": B, "between": TEXT}`.
pub fn joined(alloc: Global, parts: &[Value]) -> Result<Value, Stop> {
    let mut text = String::new(alloc);
    for part in parts {
        push_part(alloc, &mut text, part)?;
    }
    match Value::from_str(alloc, text.as_str()) {
        Ok(document) => Ok(document),
        Err(_) => Err(Stop::Arguments),
    }
}

fn push_part(alloc: Global, text: &mut String, part: &Value) -> Result<(), Stop> {
    if let Value::String(piece) = part {
        return push_times(text, piece.as_str(), 1);
    }
    match part.get("each") {
        Some(_) => push_each(alloc, text, part),
        None => push_times(text, text_in(part, "repeat")?, number_in(part, "times", 0)?),
    }
}

fn push_times(text: &mut String, piece: &str, times: u64) -> Result<(), Stop> {
    for _ in 0..times {
        text.push_str(piece)?;
    }
    Ok(())
}

// The piece once for each number, which stands in place of `#`.
fn push_each(alloc: Global, text: &mut String, part: &Value) -> Result<(), Stop> {
    let (piece, between) = (text_in(part, "each")?, text_in(part, "between")?);
    let (from, to) = (number_in(part, "from", 0)?, number_in(part, "to", 0)?);
    for number in from..=to {
        if number > from {
            text.push_str(between)?;
        }
        let digits = format!(in alloc; "{number}")?;
        let numbered = piece.replace(alloc, '#', digits.as_str())?;
        text.push_str(numbered.as_str())?;
    }
    Ok(())
}
