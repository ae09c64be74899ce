//! Makes each call of its input that judges a case, by a listener or by the manifests that one is built for, and prints the line
//! with the answer behind it. `docs/EXAMPLES.md` has the calls. It compares nothing.
#![tactic(auto)]

mod cases;
mod judgements;
mod verdicts;

use call_lines::{Call, Calls, MOST_BYTES, Stop, show_lines};
use mesh_edge::{StdSource, read_all};
use std::alloc::Global;

/// The calls that stand in the files of this program.
#[derive(Drop)]
struct OfVerdicts;

impl Calls for OfVerdicts {
    // The answer of the one module that has the call.
    fn answer(&self, alloc: Global, call: &Call) -> Result<Option<String>, Stop> {
        match call.name {
            "verdict" => Ok(Some(verdicts::answer(alloc, call)?)),
            _ => judgements::answer(alloc, call),
        }
    }
}

fn main(rt: HostRuntime) -> Result<(), Stop> {
    let alloc = rt.alloc();
    let table = read_all(alloc, &mut StdSource::new(rt.stdin()), MOST_BYTES)?;
    show_lines(&rt, alloc, &table, &OfVerdicts)
}
