//! Makes each call of its input that is about matcher trees and listeners, and prints the line with the answer behind it.
//! `docs/EXAMPLES.md` has the calls. It compares nothing.
#![tactic(auto)]

mod listener_rules;
mod listeners;
mod matchers;
mod peers;
mod requests;
mod token_filters;
mod trees;

use call_lines::{Call, Calls, MOST_BYTES, Stop, show_lines};
use mesh_edge::{StdSource, read_all};
use std::alloc::Global;

/// The calls that stand in the files of this program.
#[derive(Drop)]
struct OfListeners;

impl Calls for OfListeners {
    // The answer of the one module that has the call.
    fn answer(&self, alloc: Global, call: &Call) -> Result<Option<String>, Stop> {
        if let Some(answer) = trees::answer(alloc, call)? {
            return Ok(Some(answer));
        }
        if let Some(answer) = matchers::answer(alloc, call)? {
            return Ok(Some(answer));
        }
        if let Some(answer) = peers::answer(alloc, call)? {
            return Ok(Some(answer));
        }
        if let Some(answer) = requests::answer(alloc, call)? {
            return Ok(Some(answer));
        }
        listeners::answer(alloc, call)
    }
}

fn main(rt: HostRuntime) -> Result<(), Stop> {
    let alloc = rt.alloc();
    let table = read_all(alloc, &mut StdSource::new(rt.stdin()), MOST_BYTES)?;
    show_lines(&rt, alloc, &table, &OfListeners)
}
