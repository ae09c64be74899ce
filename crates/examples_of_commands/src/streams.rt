// How the source and the sinks of an example behave.
use crate::stop::Stop;
use mesh_doc::{AnyNumber, AnyTruth, Spot, field, listed, optional};
use serde_json::Value;
use std::alloc::Global;

/// The bytes that one read or write moves where an example doesn't say it.
const PIECE: u64 = 65_536;

/// The bytes that the output and the notes have room for where an example doesn't say it.
const ROOM: u64 = 1_048_576;

/// The most numbers of calls that fail.
const MOST_FAILING: u32 = 64;

#[derive(Drop)]
pub struct Streams {
    /// At least 1.
    pub read_at_most: usize,
    pub failing_reads: Vec<u64>,
    /// At least 1.
    pub write_at_most: usize,
    pub failing_writes: Vec<u64>,
    pub room: usize,
    pub flush_fails: bool,
    pub failing_notes: Vec<u64>,
    /// Whether the example says anything of its streams.
    pub is_said: bool,
}

pub fn streams_of(alloc: Global, v: &Value, at: &Spot) -> Result<Streams, Stop> {
    let read_at_most = optional::<AnyNumber>(alloc, v, "read_at_most", at)?;
    let write_at_most = optional::<AnyNumber>(alloc, v, "write_at_most", at)?;
    let room = optional::<AnyNumber>(alloc, v, "room", at)?;
    let flush_fails = optional::<AnyTruth>(alloc, v, "flush_fails", at)?;
    Ok(Streams {
        read_at_most: read_at_most.unwrap_or(PIECE) as usize,
        failing_reads: numbers_of(alloc, v, "failing_reads", at)?,
        write_at_most: write_at_most.unwrap_or(PIECE) as usize,
        failing_writes: numbers_of(alloc, v, "failing_writes", at)?,
        room: room.unwrap_or(ROOM) as usize,
        flush_fails: flush_fails.unwrap_or(false),
        failing_notes: numbers_of(alloc, v, "failing_notes", at)?,
        is_said: is_said(v),
    })
}

fn numbers_of(alloc: Global, v: &Value, name: &str, at: &Spot) -> Result<Vec<u64>, Stop> {
    let numbers = listed::<AnyNumber>(alloc, v, name, MOST_FAILING, at)?;
    Ok(numbers.into_vec())
}

fn is_said(v: &Value) -> bool {
    [
        "read_at_most",
        "failing_reads",
        "write_at_most",
        "failing_writes",
        "room",
        "flush_fails",
        "failing_notes",
    ]
    .iter()
    .any(|name| field(v, name).is_some())
}

/// Streams that take and give all bytes, and don't fail.
pub fn clean(alloc: Global) -> Streams {
    Streams {
        read_at_most: PIECE as usize,
        failing_reads: Vec::new(alloc),
        write_at_most: PIECE as usize,
        failing_writes: Vec::new(alloc),
        room: ROOM as usize,
        flush_fails: false,
        failing_notes: Vec::new(alloc),
        is_said: false,
    }
}
