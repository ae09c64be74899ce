// Sinks that take all their bytes, and sinks that fail.
use call_lines::{Call, Stop, is_in, number_in, numbers_in, text_in};
use mesh_edge::{CleanSink, MemorySink, Sink, StdSink, write_all};
use serde_json::Value;
use std::alloc::Global;
use std::io;
use std::io::{ErrorKind, Write};

// A writer of std whose flush fails.
#[derive(Drop)]
struct Unflushed;

impl Write for Unflushed {
    fn write(&mut self, buf: &[u8]) -> io::Result<usize> {
        Ok(buf.len())
    }

    fn flush(&mut self) -> io::Result<()> {
        Err(io::Error::from(ErrorKind::BrokenPipe))
    }
}

/// `write_all` of so many bytes, and then a flush, to a sink: in memory, one that never fails, one over a list of
/// std, over a slice of 3 bytes, or over a writer of std whose flush fails.
pub fn answer(alloc: Global, call: &Call) -> Result<String, Stop> {
    let v = call.value(0)?;
    let bytes = vec![in alloc; 7; number_in(v, "bytes", 0)? as usize]?;
    match text_in(v, "sink")? {
        "memory" => of_memory(alloc, &bytes, v),
        "clean" => shown(alloc, &mut CleanSink::new(), &bytes),
        "std" => of_list(alloc, &bytes),
        "full" => of_slice(alloc, &bytes),
        "unflushed" => shown(alloc, &mut StdSink::new(Unflushed), &bytes),
        _ => Err(Stop::Arguments),
    }
}

fn of_memory(alloc: Global, bytes: &[u8], v: &Value) -> Result<String, Stop> {
    let room = number_in(v, "room", 65_536)? as usize;
    let at_most = number_in(v, "at_most", 65_536)?.max(1) as usize;
    let failing = numbers_in(alloc, v, "failing")?;
    let mut sink = MemorySink::new(alloc, room, failing, at_most, is_in(v, "flush_fails"))?;
    let written = shown(alloc, &mut sink, bytes)?;
    let (taken, flushed) = (sink.taken().len(), sink.flushed());
    Ok(format!(in alloc; "{written}; {taken} taken, {flushed} flushed")?)
}

fn of_list(alloc: Global, bytes: &[u8]) -> Result<String, Stop> {
    let mut kept = Vec::new(alloc);
    let written = shown(alloc, &mut StdSink::new(&mut kept), bytes)?;
    Ok(format!(in alloc; "{written}; {} taken", kept.len())?)
}

fn of_slice(alloc: Global, bytes: &[u8]) -> Result<String, Stop> {
    let mut three = [0; 3];
    let written = shown(alloc, &mut StdSink::new(three.as_mut_slice()), bytes)?;
    Ok(format!(in alloc; "{written}; {three:?}")?)
}

// Whether the bytes were written, and whether they were flushed.
fn shown<K: Sink>(alloc: Global, sink: &mut K, bytes: &[u8]) -> Result<String, Stop> {
    let written = if write_all(sink, bytes).is_ok() {
        "written"
    } else {
        "WriteFault"
    };
    let flushed = if sink.flush().is_ok() {
        "flushed"
    } else {
        "Failed"
    };
    Ok(format!(in alloc; "{written}, {flushed}")?)
}
