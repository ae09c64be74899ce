// One call: its name and its arguments.
use crate::stop::Stop;
use mesh_text::{List, Text};
use serde_json::Value;
use std::alloc::Global;

#[derive(Clone, Copy)]
pub struct Call<'a> {
    pub name: &'a str,
    pub arguments: &'a [Value],
}

/// The arguments that a text is: JSON values with commas between them.
pub fn arguments_of(alloc: Global, text: &str) -> Result<Vec<Value>, Stop> {
    let list = format!(in alloc; "[{text}]")?;
    match Value::from_str(alloc, list.as_str()) {
        Ok(Value::Array(arguments)) => Ok(arguments),
        _ => Err(Stop::Arguments),
    }
}

impl<'a> Call<'a> {
    /// The argument of that number, counted from 0.
    pub fn value(&self, number: usize) -> Result<&'a Value, Stop> {
        self.arguments.get(number).ok_or(Stop::Arguments)
    }

    pub fn text(&self, number: usize) -> Result<&'a str, Stop> {
        text_of(self.value(number)?)
    }

    pub fn number(&self, number: usize) -> Result<u64, Stop> {
        self.value(number)?.as_u64().ok_or(Stop::Arguments)
    }
}

pub fn text_of(v: &Value) -> Result<&str, Stop> {
    match v {
        Value::String(text) => Ok(text.as_str()),
        _ => Err(Stop::Arguments),
    }
}

/// The text in the field `name` of `v`.
pub fn text_in<'a>(v: &'a Value, name: &str) -> Result<&'a str, Stop> {
    text_of(v.get(name).ok_or(Stop::Arguments)?)
}

/// The number in the field `name` of `v`, or `other` where it has none.
pub fn number_in(v: &Value, name: &str, other: u64) -> Result<u64, Stop> {
    match v.get(name) {
        None => Ok(other),
        Some(number) => number.as_u64().ok_or(Stop::Arguments),
    }
}

/// Whether the field `name` of `v` is there and `true`.
pub fn is_in(v: &Value, name: &str) -> bool {
    matches!(v.get(name), Some(Value::Bool(true)))
}

/// The numbers in the field `name` of `v`, none where it has no such field.
pub fn numbers_in(alloc: Global, v: &Value, name: &str) -> Result<Vec<u64>, Stop> {
    match v.get(name) {
        None => Ok(Vec::new(alloc)),
        Some(list) => numbers_of(alloc, list),
    }
}

pub fn numbers_of(alloc: Global, v: &Value) -> Result<Vec<u64>, Stop> {
    let mut numbers = Vec::new(alloc);
    for item in items_of(v)? {
        numbers.push(item.as_u64().ok_or(Stop::Arguments)?)?;
    }
    Ok(numbers)
}

pub fn texts_of(alloc: Global, v: &Value) -> Result<List<Text>, Stop> {
    let mut texts = List::new(alloc);
    for item in items_of(v)? {
        texts.push(Text::of(alloc, text_of(item)?)?)?;
    }
    Ok(texts)
}

pub fn items_of(v: &Value) -> Result<&[Value], Stop> {
    match v {
        Value::Array(items) => Ok(items.as_slice()),
        _ => Err(Stop::Arguments),
    }
}
