// The lines of a table, each with the answer of its call.
use crate::call::{Call, arguments_of};
use crate::stop::Stop;
use std::alloc::Global;

/// The most bytes of a table.
pub const MOST_BYTES: usize = 16_777_216;

/// The calls that a program makes.
pub trait Calls {
    /// What the call answers, in short; None where the program has no such call.
    fn answer(&self, alloc: Global, call: &Call) -> Result<Option<String>, Stop>;
}

/// Prints each line of the table, and behind a call what `calls` answers to it.
pub fn show_lines<C: Calls>(
    rt: &impl Print,
    alloc: Global,
    table: &[u8],
    calls: &C,
) -> Result<(), Stop> {
    let Ok(lines) = std::str::from_utf8(table) else {
        return Err(Stop::Input);
    };
    for line in lines.lines() {
        show_line(rt, alloc, line, calls)?;
    }
    Ok(())
}

// An empty line and one that begins with `#` are for readers.
fn show_line<C: Calls>(rt: &impl Print, alloc: Global, line: &str, calls: &C) -> Result<(), Stop> {
    if line.is_empty() || line.starts_with('#') {
        println!(rt; "{line}")?;
        return Ok(());
    }
    let answer = answer_line(alloc, line, calls)?;
    println!(rt; "{line} => {answer}")?;
    Ok(())
}

fn answer_line<C: Calls>(alloc: Global, line: &str, calls: &C) -> Result<String, Stop> {
    let (name, rest) = line.split_once(' ').unwrap_or((line, ""));
    match make(alloc, name, rest, calls) {
        Ok(Some(answer)) => Ok(answer),
        Ok(None) => Ok(format!(in alloc; "there is no such call")?),
        Err(Stop::Arguments) => Ok(format!(in alloc; "the call has other arguments")?),
        Err(stop) => Err(stop),
    }
}

fn make<C: Calls>(
    alloc: Global,
    name: &str,
    rest: &str,
    calls: &C,
) -> Result<Option<String>, Stop> {
    let arguments = arguments_of(alloc, rest)?;
    let call = Call {
        name,
        arguments: arguments.as_slice(),
    };
    calls.answer(alloc, &call)
}
