// Kinds of JSON values, fields, and lists.
use crate::forms::{Distinct, Numbers, Point, Token, read_point};
use call_lines::{Call, Stop, none, quoted, refused};
use mesh_doc::{
    AnyNumber, AnyText, DocError, Form, Place, Spot, Tested, entries, entries_in_turn, field, list,
    listed, listed_in_turn, listed_written, number, object, only_fields, optional,
    optional_written, or_empty, required, required_written, text, truth, written,
};
use mesh_text::{List, Text};
use serde_json::Value;
use std::alloc::Global;

pub fn answer(alloc: Global, call: &Call) -> Result<Option<String>, Stop> {
    match call.name {
        "field" => json(alloc, field(call.value(0)?, call.text(1)?)),
        "written" => json(alloc, written(call.value(0)?, call.text(1)?)),
        "read_point" => point(alloc, call.value(0)?),
        _ => of_kind(alloc, call),
    }
}

fn json(alloc: Global, v: Option<&Value>) -> Result<Option<String>, Stop> {
    match v {
        None => none(alloc),
        Some(v) => Ok(Some(v.to_string(alloc)?)),
    }
}

// The point at the third entry of `spec`.
fn point(alloc: Global, v: &Value) -> Result<Option<String>, Stop> {
    let place: Place = List::new(alloc);
    let whole = Spot::of(&place);
    let spec = Spot::key(&whole, "spec");
    match read_point(alloc, v, &Spot::index(&spec, 2)) {
        Ok(point) => Ok(Some(shown_point(alloc, &point)?)),
        Err(error) => Ok(Some(refused(alloc, error)?)),
    }
}

fn shown_point(alloc: Global, point: &Point) -> Result<String, Stop> {
    let mut out = String::new(alloc);
    if let Some(name) = &point.name {
        write!(out, "{name} ")?;
    }
    write!(out, "{} {:?}", point.x, point.on.as_slice())?;
    if let Some(more) = &point.more {
        write!(out, " {:?}", more.as_slice())?;
    }
    Ok(out)
}

// What a value of a kind is, at the whole document.
fn of_kind(alloc: Global, call: &Call) -> Result<Option<String>, Stop> {
    let whole: Place = List::new(alloc);
    match call.name {
        "object" => nothing(alloc, object(alloc, call.value(0)?, &whole)),
        "only_fields" => {
            nothing(
                alloc,
                only_fields(alloc, call.value(0)?, call.text(1)?, &whole),
            )
        }
        "text" => text_or_fault(alloc, text(alloc, call.value(0)?, &whole)),
        "number" => number_or_fault(alloc, number(alloc, call.value(0)?, &whole)),
        "truth" => truth_or_fault(alloc, truth(alloc, call.value(0)?, &whole)),
        "list" => count_or_fault(alloc, list(alloc, call.value(0)?, &whole)),
        _ => of_list(alloc, call, &Spot::of(&whole)),
    }
}

fn of_list(alloc: Global, call: &Call, at: &Spot) -> Result<Option<String>, Stop> {
    match call.name {
        "entries" => numbers(
            alloc,
            entries::<AnyNumber>(alloc, call.value(0)?, most(call, 1)?, at),
        ),
        "entries_in_turn" => numbers(
            alloc,
            entries_in_turn::<Distinct>(
                alloc,
                List::new(alloc),
                call.value(0)?,
                most(call, 1)?,
                at,
            ),
        ),
        "members" => numbers(alloc, Numbers::read(alloc, call.value(0)?, at)),
        "or_empty" => numbers(
            alloc,
            or_empty::<Numbers>(alloc, call.value(0)?, call.text(1)?, at),
        ),
        "tested" => text_or_fault(alloc, Tested::<Token>::read(alloc, call.value(0)?, at)),
        _ => of_field(alloc, call, at),
    }
}

// What stands in the field that the second argument names.
fn of_field(alloc: Global, call: &Call, at: &Spot) -> Result<Option<String>, Stop> {
    match call.name {
        "listed" => numbers(
            alloc,
            listed::<AnyNumber>(alloc, call.value(0)?, call.text(1)?, most(call, 2)?, at),
        ),
        "listed_written" => numbers(
            alloc,
            listed_written::<AnyNumber>(alloc, call.value(0)?, call.text(1)?, most(call, 2)?, at),
        ),
        "listed_in_turn" => numbers(
            alloc,
            listed_in_turn::<Distinct>(
                alloc,
                List::new(alloc),
                call.value(0)?,
                call.text(1)?,
                most(call, 2)?,
                at,
            ),
        ),
        _ => of_text_field(alloc, call, at),
    }
}

fn of_text_field(alloc: Global, call: &Call, at: &Spot) -> Result<Option<String>, Stop> {
    match call.name {
        "required" => text_or_fault(
            alloc,
            required::<AnyText>(alloc, call.value(0)?, call.text(1)?, at),
        ),
        "required_written" => text_or_fault(
            alloc,
            required_written::<AnyText>(alloc, call.value(0)?, call.text(1)?, at),
        ),
        "optional" => text_if_any(
            alloc,
            optional::<AnyText>(alloc, call.value(0)?, call.text(1)?, at),
        ),
        "optional_written" => text_if_any(
            alloc,
            optional_written::<AnyText>(alloc, call.value(0)?, call.text(1)?, at),
        ),
        _ => Ok(None),
    }
}

fn most(call: &Call, number: usize) -> Result<u32, Stop> {
    match u32::try_from(call.number(number)?) {
        Ok(most) => Ok(most),
        Err(_) => Err(Stop::Arguments),
    }
}

fn nothing(alloc: Global, outcome: Result<(), DocError>) -> Result<Option<String>, Stop> {
    match outcome {
        Ok(()) => Ok(Some(format!(in alloc; "ok")?)),
        Err(error) => Ok(Some(refused(alloc, error)?)),
    }
}

fn text_or_fault(alloc: Global, outcome: Result<Text, DocError>) -> Result<Option<String>, Stop> {
    match outcome {
        Ok(text) => quoted(alloc, Some(text.as_str())),
        Err(error) => Ok(Some(refused(alloc, error)?)),
    }
}

fn text_if_any(
    alloc: Global,
    outcome: Result<Option<Text>, DocError>,
) -> Result<Option<String>, Stop> {
    match outcome {
        Ok(None) => none(alloc),
        Ok(Some(text)) => quoted(alloc, Some(text.as_str())),
        Err(error) => Ok(Some(refused(alloc, error)?)),
    }
}

fn number_or_fault(alloc: Global, outcome: Result<u64, DocError>) -> Result<Option<String>, Stop> {
    match outcome {
        Ok(number) => Ok(Some(format!(in alloc; "{number}")?)),
        Err(error) => Ok(Some(refused(alloc, error)?)),
    }
}

fn truth_or_fault(alloc: Global, outcome: Result<bool, DocError>) -> Result<Option<String>, Stop> {
    match outcome {
        Ok(truth) => Ok(Some(format!(in alloc; "{truth}")?)),
        Err(error) => Ok(Some(refused(alloc, error)?)),
    }
}

fn count_or_fault(alloc: Global, outcome: Result<usize, DocError>) -> Result<Option<String>, Stop> {
    match outcome {
        Ok(count) => Ok(Some(format!(in alloc; "{count} entries")?)),
        Err(error) => Ok(Some(refused(alloc, error)?)),
    }
}

fn numbers(alloc: Global, outcome: Result<List<u64>, DocError>) -> Result<Option<String>, Stop> {
    match outcome {
        Ok(numbers) => Ok(Some(format!(in alloc; "{:?}", numbers.as_slice())?)),
        Err(error) => Ok(Some(refused(alloc, error)?)),
    }
}
