// Sources that give all their bytes, and sources that fail.
use call_lines::{Call, Stop, number_in, numbers_in, text_in};
use mesh_edge::{CleanSource, MemorySource, ReadError, Source, StdSource, read_all};
use serde_json::Value;
use std::alloc::Global;
use std::io;
use std::io::{ErrorKind, Read};

/// The most bytes that are read where a call doesn't say it.
const LIMIT: u64 = 100_000;

// A reader of std that fails.
#[derive(Drop)]
struct Broken;

impl Read for Broken {
    fn read(&mut self, _buf: &mut [u8]) -> io::Result<usize> {
        Err(io::Error::from(ErrorKind::BrokenPipe))
    }
}

/// `read_all` from a source of so many bytes: in memory, one that never fails, one of std, or a broken one of std.
pub fn answer(alloc: Global, call: &Call) -> Result<String, Stop> {
    let v = call.value(0)?;
    let bytes = vec![in alloc; 7; number_in(v, "bytes", 0)? as usize]?;
    match text_in(v, "source")? {
        "memory" => of_memory(alloc, bytes, v),
        "clean" => shown(alloc, &mut CleanSource::new(bytes), v),
        "std" => shown(alloc, &mut StdSource::new(bytes.as_slice()), v),
        "broken" => shown(alloc, &mut StdSource::new(Broken), v),
        _ => Err(Stop::Arguments),
    }
}

fn of_memory(alloc: Global, bytes: Vec<u8>, v: &Value) -> Result<String, Stop> {
    let at_most = number_in(v, "at_most", 65_536)?.max(1);
    let failing = numbers_in(alloc, v, "failing")?;
    let mut source = MemorySource::new(bytes, failing, at_most as usize);
    let read = shown(alloc, &mut source, v)?;
    Ok(format!(in alloc; "{read}, {} left", source.left().len())?)
}

fn shown<S: Source>(alloc: Global, source: &mut S, v: &Value) -> Result<String, Stop> {
    let Ok(limit) = u32::try_from(number_in(v, "limit", LIMIT)?) else {
        return Err(Stop::Arguments);
    };
    match read_all(alloc, source, limit as usize) {
        Ok(bytes) => Ok(format!(in alloc; "{} bytes", bytes.len())?),
        Err(ReadError::Fault) => Ok(format!(in alloc; "Fault")?),
        Err(ReadError::TooLong) => Ok(format!(in alloc; "TooLong")?),
        Err(ReadError::Memory) => Err(Stop::Memory),
    }
}
