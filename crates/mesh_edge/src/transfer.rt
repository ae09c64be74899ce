// All bytes of a source, and all bytes to a sink.
ghost use Rattle.std.specs.Prelude.{◌+◌, ◌<◌, ◌^◌, ◌≡◌, ◌≢◌, ◌≤◌, IfOk, OnOk, length};
ghost use Rattle.mesh_edge.specs.Sink.{Adds, AddsFront, KeepsFlushed, WriteHasCause, WritesAtMost};
ghost use Rattle.mesh_edge.specs.Source.{IsSpent, NoReadFault, ReadFaulted, Takes, TakesCount, TakesSome};

use crate::{ReadError, Sink, Source, WriteFault};
use std::alloc::Global;

/// The most bytes that one read is asked for.
const CHUNK: usize = 65536;

/// Reads all bytes left, if there are at most `limit`.
/// It asks for no more than `limit` + 1 bytes in all, and its time grows with the bytes read.
pub fn read_all<S: Source>(alloc: Global, src: &mut S, limit: usize) -> Result<Vec<u8>, ReadError>
    requires { limit < 2 ^ 32 }
    ensures bytes { IfOk result (λ v. Takes (S.known src.old) (S.known src.new) v.items
        × IsSpent (S.known src.new)) }
    ensures short { IfOk result (λ v. length v.items ≤ limit) }
    ensures too_long { result ≡ Err ReadError.TooLong →
        TakesCount (S.known src.old) (S.known src.new) (limit + 1) }

    // A read that failed is told, and is not tried again.
    ensures fault { result ≡ Err ReadError.Fault → ReadFaulted (S.known src.old) (S.known src.new) }
    ensures faultless { result ≢ Err ReadError.Fault → NoReadFault (S.known src.old) (S.known src.new) }
    ensures later { (S.known src.old).faults ≤ (S.known src.new).faults }

    // No byte is lost or taken twice, whatever is answered.
    ensures prefix { TakesSome (S.known src.old) (S.known src.new) }
    ensures turns { (S.known src.new).reads ≤ (S.known src.old).reads + limit + 2 }
{
    let mut bytes = Vec::new(alloc);
    let mut chunk = [0; CHUNK];
    while bytes.len() <= limit {
        let room = CHUNK.min(limit + 1 - bytes.len());
        let Ok(count) = src.read(&mut chunk[..room]) else {
            return Err(ReadError::Fault);
        };
        if count == 0 {
            return Ok(bytes);
        }
        let Ok(()) = bytes.extend_from_slice(&chunk[..count]) else {
            return Err(ReadError::Memory);
        };
    }
    Err(ReadError::TooLong)
}

/// Writes all of `bytes`, in as many writes as the sink wants. It takes no memory, and does not flush.
pub fn write_all<S: Sink>(sink: &mut S, bytes: &[u8]) -> Result<(), WriteFault>
    ensures ok { OnOk result (Adds (S.known sink.old) (S.known sink.new) bytes.now) }
    ensures cause { WriteHasCause (S.known sink.old) (S.known sink.new) result }
    ensures front { AddsFront (S.known sink.old) (S.known sink.new) bytes.now }
    ensures flushed { KeepsFlushed (S.known sink.old) (S.known sink.new) }
    ensures turns { WritesAtMost (S.known sink.old) (S.known sink.new) (length bytes.now) }
{
    let mut at = 0;
    while at < bytes.len() {
        let Ok(count) = sink.write(&bytes[at..]) else {
            return Err(WriteFault);
        };
        at += count;
    }
    Ok(())
}
