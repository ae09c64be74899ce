//! Makes each call of its input that is about texts, streams, documents, policies and manifests, and prints the line with the
//! answer behind it. `docs/EXAMPLES.md` has the calls. It compares nothing.
#![tactic(auto)]

mod addresses;
mod authorization;
mod copies;
mod documents;
mod forms;
mod lists;
mod manifests;
mod patterns;
mod peers;
mod places;
mod requests;
mod selections;
mod shown;
mod sinks;
mod sources;
mod specs_of_policies;
mod texts;
mod tokens;

use call_lines::{Call, Calls, MOST_BYTES, Stop, show_lines};
use mesh_edge::{StdSource, read_all};
use std::alloc::Global;

/// The calls that stand in the files of this program.
#[derive(Drop)]
struct OfDocuments;

impl Calls for OfDocuments {
    // The answer of the one module that has the call.
    fn answer(&self, alloc: Global, call: &Call) -> Result<Option<String>, Stop> {
        match of_parts(alloc, call)? {
            Some(answer) => Ok(Some(answer)),
            None => of_wholes(alloc, call),
        }
    }
}

fn main(rt: HostRuntime) -> Result<(), Stop> {
    let alloc = rt.alloc();
    let table = read_all(alloc, &mut StdSource::new(rt.stdin()), MOST_BYTES)?;
    show_lines(&rt, alloc, &table, &OfDocuments)
}

fn of_parts(alloc: Global, call: &Call) -> Result<Option<String>, Stop> {
    if let Some(answer) = texts::answer(alloc, call)? {
        return Ok(Some(answer));
    }
    if let Some(answer) = lists::answer(alloc, call)? {
        return Ok(Some(answer));
    }
    if let Some(answer) = addresses::answer(alloc, call)? {
        return Ok(Some(answer));
    }
    if let Some(answer) = patterns::answer(alloc, call)? {
        return Ok(Some(answer));
    }
    if let Some(answer) = tokens::answer(alloc, call)? {
        return Ok(Some(answer));
    }
    streams_answer(alloc, call)
}

fn streams_answer(alloc: Global, call: &Call) -> Result<Option<String>, Stop> {
    match call.name {
        "read_all" => Ok(Some(sources::answer(alloc, call)?)),
        "write_all" => Ok(Some(sinks::answer(alloc, call)?)),
        _ => Ok(None),
    }
}

fn of_wholes(alloc: Global, call: &Call) -> Result<Option<String>, Stop> {
    if let Some(answer) = places::answer(alloc, call)? {
        return Ok(Some(answer));
    }
    if let Some(answer) = documents::answer(alloc, call)? {
        return Ok(Some(answer));
    }
    if let Some(answer) = specs_of_policies::answer(alloc, call)? {
        return Ok(Some(answer));
    }
    if let Some(answer) = copies::answer(alloc, call)? {
        return Ok(Some(answer));
    }
    match call.name {
        "read_bundle" => Ok(Some(manifests::answer(alloc, call)?)),
        "select" => Ok(Some(selections::answer(alloc, call)?)),
        _ => Ok(None),
    }
}
