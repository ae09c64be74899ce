//! Runs each example of its input, one JSON object a line, over a source and sinks in memory, and prints what the run
//! leaves: status, output, notes. `docs/EXAMPLES.md` has the fields of an example. It compares nothing.
#![tactic(auto)]

mod example;
mod input;
mod running;
mod shown;
mod stop;
mod streams;

use example::{Example, read_example};
use mesh_doc::fault_text;
use mesh_edge::{StdSource, read_all};
use running::run_example;
use serde_json::Value;
use shown::show;
use std::alloc::Global;
use stop::Stop;

/// The most bytes of a table.
const MOST_BYTES: usize = 16_777_216;

fn main(rt: HostRuntime) -> Result<(), Stop> {
    let alloc = rt.alloc();
    let table = read_all(alloc, &mut StdSource::new(rt.stdin()), MOST_BYTES)?;
    let Ok(lines) = std::str::from_utf8(&table) else {
        return Err(Stop::Input);
    };
    for line in lines.lines() {
        show_line(&rt, alloc, line)?;
    }
    Ok(())
}

// A line that is no example is said to be none, and the next one is shown.
fn show_line(rt: &impl Print, alloc: Global, line: &str) -> Result<(), Stop> {
    let Ok(v) = Value::from_str(alloc, line) else {
        println!(rt; "no JSON: {line}")?;
        return Ok(());
    };
    match show_example(rt, alloc, &v) {
        Err(Stop::Fault(fault)) => {
            let fault = fault_text(alloc, &fault)?;
            println!(rt; "no example: {fault}: {line}")?;
            Ok(())
        }
        ended => ended,
    }
}

fn show_example(rt: &impl Print, alloc: Global, v: &Value) -> Result<(), Stop> {
    let Example {
        name,
        words,
        input,
        streams,
    } = read_example(alloc, v)?;
    let ended = run_example(alloc, &words, input, streams)?;
    show(rt, name.as_str(), &ended)
}
