// A run over a source and sinks in memory.
use crate::stop::Stop;
use crate::streams::Streams;
use mesh_cli::{Status, run};
use mesh_edge::{MemorySink, MemorySource};
use std::alloc::Global;

/// The room of the notes, in bytes.
const ROOM: usize = 65_536;

/// What a run leaves.
#[derive(Drop)]
pub struct Ended {
    pub status: Status,
    /// The bytes of the input that were not read.
    pub left: usize,
    pub output: MemorySink,
    pub notes: MemorySink,
    /// Whether the streams were told how to behave.
    pub is_said: bool,
}

pub fn run_example(
    alloc: Global,
    words: &Vec<String>,
    bytes: Vec<u8>,
    streams: Streams,
) -> Result<Ended, Stop> {
    let is_said = streams.is_said;
    let mut input = MemorySource::new(bytes, streams.failing_reads, streams.read_at_most.max(1));
    let mut output = MemorySink::new(
        alloc,
        streams.room,
        streams.failing_writes,
        streams.write_at_most.max(1),
        streams.flush_fails,
    )?;
    let mut notes = MemorySink::new(alloc, ROOM, streams.failing_notes, ROOM, false)?;
    let status = run(alloc, words, &mut input, &mut output, &mut notes);
    Ok(Ended {
        status,
        left: input.left().len(),
        output,
        notes,
        is_said,
    })
}
