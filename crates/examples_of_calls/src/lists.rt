// Texts, lists and boxed values of their own.
use call_lines::{Call, Stop, numbers_of, quoted};
use mesh_text::{Boxed, List, Text};
use std::alloc::Global;

pub fn answer(alloc: Global, call: &Call) -> Result<Option<String>, Stop> {
    match call.name {
        "Text::of" => quoted(alloc, Some(Text::of(alloc, call.text(0)?)?.as_str())),
        "Text::copy" => text_copy(alloc, call.text(0)?),
        "Text::from_string" => taken_over(alloc, call.text(0)?),
        "List::push" => pushed(alloc, List::new(alloc), call),
        "List::with_room" => pushed(alloc, List::with_room(alloc, 2)?, call),
        "List::append" => appended(alloc, call),
        "List::from_vec" => from_vec(alloc, call),
        "Boxed::new" => boxed(alloc, call.number(0)?),
        _ => Ok(None),
    }
}

fn text_copy(alloc: Global, text: &str) -> Result<Option<String>, Stop> {
    let text = Text::of(alloc, text)?;
    quoted(alloc, Some(text.copy(alloc)?.as_str()))
}

fn taken_over(alloc: Global, text: &str) -> Result<Option<String>, Stop> {
    let text = Text::from_string(String::from_str(alloc, text)?);
    quoted(alloc, Some(text.as_str()))
}

// The list with the numbers at its end.
fn pushed(alloc: Global, list: List<u64>, call: &Call) -> Result<Option<String>, Stop> {
    let mut list = list;
    for number in numbers_of(alloc, call.value(0)?)? {
        list.push(number)?;
    }
    shown(alloc, &list)
}

fn appended(alloc: Global, call: &Call) -> Result<Option<String>, Stop> {
    let mut list = List::from_vec(numbers_of(alloc, call.value(0)?)?);
    list.append(List::from_vec(numbers_of(alloc, call.value(1)?)?))?;
    shown(alloc, &list)
}

fn from_vec(alloc: Global, call: &Call) -> Result<Option<String>, Stop> {
    let list = List::from_vec(numbers_of(alloc, call.value(0)?)?);
    shown(alloc, &List::from_vec(list.into_vec()))
}

fn shown(alloc: Global, list: &List<u64>) -> Result<Option<String>, Stop> {
    Ok(Some(format!(in alloc; "{:?}", list.as_slice())?))
}

fn boxed(alloc: Global, number: u64) -> Result<Option<String>, Stop> {
    let boxed = Boxed::new(alloc, number)?;
    let seen = *boxed.get();
    Ok(Some(format!(in alloc; "{seen}, {}", boxed.into_inner())?))
}
