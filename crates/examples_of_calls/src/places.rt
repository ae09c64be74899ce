// Places in a document, and faults at them.
use call_lines::{Call, Stop, items_of, quoted, refused, text_of};
use mesh_doc::{DocError, Place, Reason, Spot, Step, missing, place_text, refuse};
use mesh_text::{List, Text};
use serde_json::Value;
use std::alloc::Global;

pub fn answer(alloc: Global, call: &Call) -> Result<Option<String>, Stop> {
    match call.name {
        "place_text" => printed(alloc, &place_of(alloc, call.value(0)?)?),
        "Step::copy" => copied(alloc, &place_of(alloc, call.value(0)?)?),
        "Spot::place" => placed(alloc, call),
        "refuse" => told(
            alloc,
            refuse(alloc, &place_of(alloc, call.value(0)?)?, Reason::BadPort),
        ),
        "missing" => told(
            alloc,
            missing(alloc, call.text(1)?, &place_of(alloc, call.value(0)?)?),
        ),
        "Spot::refuse" => refused_below(alloc, call),
        "Spot::missing" => missing_below(alloc, call),
        _ => Ok(None),
    }
}

// The place of a list of keys and indices.
fn place_of(alloc: Global, v: &Value) -> Result<Place, Stop> {
    let mut place = List::new(alloc);
    for step in items_of(v)? {
        place.push(step_of(alloc, step)?)?;
    }
    Ok(place)
}

fn step_of(alloc: Global, v: &Value) -> Result<Step, Stop> {
    match v.as_u64() {
        None => Ok(Step::Key(Text::of(alloc, text_of(v)?)?)),
        Some(index) => match u32::try_from(index) {
            Ok(index) => Ok(Step::Index(index)),
            Err(_) => Err(Stop::Arguments),
        },
    }
}

fn printed(alloc: Global, place: &Place) -> Result<Option<String>, Stop> {
    quoted(alloc, Some(place_text(alloc, place)?.as_str()))
}

// The place made of copies of its steps.
fn copied(alloc: Global, place: &Place) -> Result<Option<String>, Stop> {
    let mut copy = List::new(alloc);
    for step in place {
        copy.push(step.copy(alloc)?)?;
    }
    printed(alloc, &copy)
}

// The place of the first entry of a field below a place.
fn placed(alloc: Global, call: &Call) -> Result<Option<String>, Stop> {
    let place = place_of(alloc, call.value(0)?)?;
    let whole = Spot::of(&place);
    let field = Spot::key(&whole, call.text(1)?);
    printed(alloc, &Spot::index(&field, 0).place(alloc)?)
}

fn refused_below(alloc: Global, call: &Call) -> Result<Option<String>, Stop> {
    let place = place_of(alloc, call.value(0)?)?;
    let whole = Spot::of(&place);
    told(alloc, Spot::index(&whole, 7).refuse(alloc, Reason::BadTime))
}

fn missing_below(alloc: Global, call: &Call) -> Result<Option<String>, Stop> {
    let place = place_of(alloc, call.value(0)?)?;
    let whole = Spot::of(&place);
    told(alloc, Spot::index(&whole, 7).missing(alloc, call.text(1)?))
}

fn told(alloc: Global, error: DocError) -> Result<Option<String>, Stop> {
    Ok(Some(refused(alloc, error)?))
}
