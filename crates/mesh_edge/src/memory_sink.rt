// A sink in memory, with writes and flushes that fail, to try out what writes through it.
ghost use Rattle.std.specs.Prelude.{◌<◌, ◌≡◌, ◌≤◌, IfOk, OnOk, [], length};
ghost use Rattle.mesh_edge.specs.MemorySink.{after_flush, after_write, flush_answer, known_sink, write_answer};
ghost use Rattle.mesh_edge.specs.Sink.{AddsNone, FlushesOnce, IsFlushed, KeepsFlushed, WriteAdds, WriteHasCause, WritesAtMost};

use crate::{Failed, Sink};
use std::alloc::{AllocError, Global};
use std::marker::Model;

/// A sink that keeps what it takes, and fails at the writes it was told and where it is full.
#[derive(Debug, Drop)]
pub struct MemorySink {
    bytes: Vec<u8>,
    flushed: usize,
    room: usize,
    fails: Vec<u64>,
    most: usize,
    flush_fails: bool,
    number: u64,
    flushes: u64,
    faults: u64,
}

impl Model for MemorySink {
    ghost use Rattle.std.specs.Prelude.{◌≤◌, length, vec_capacity};
    ghost use Rattle.mesh_edge.specs.MemorySink.{MemorySinkState};

    ghost Value = { MemorySinkState };

    ghost view = { λ s. record {
      taken = s.bytes.items;
      flushed = s.flushed;
      room = s.room;
      fails = s.fails.items;
      most = s.most;
      flush_fails = s.flush_fails;
      number = s.number;
      flushes = s.flushes;
      faults = s.faults;
    } };

    // Its room is there from the start, so a write takes no memory.
    ghost invariant = { λ s. (s.flushed ≤ length s.bytes.items)
        × (length s.bytes.items ≤ s.room)
        × (s.room ≤ vec_capacity s.bytes)
        × (1 ≤ s.most) };
}

impl MemorySink {
    /// Takes `room` bytes in all, at most `most` a write. Writes are numbered from 0, and those
    /// whose number is in `fails` fail. The number stops at 2^64 - 1. Each flush fails where
    /// `flush_fails` says so. It takes its room when it is made, and fails where memory is short.
    pub fn new(
        alloc: Global,
        room: usize,
        fails: Vec<u64>,
        most: usize,
        flush_fails: bool,
    ) -> Result<MemorySink, AllocError>
        requires { 1 ≤ most }
        ensures { IfOk result (λ sink. sink ≡ record {
          taken = [];
          flushed = 0;
          room = room;
          fails = fails.items;
          most = most;
          flush_fails = flush_fails;
          number = 0;
          flushes = 0;
          faults = 0;
        }) }
    {
        Ok(MemorySink {
            bytes: Vec::with_capacity(alloc, room)?,
            flushed: 0,
            room,
            fails,
            most,
            flush_fails,
            number: 0,
            flushes: 0,
            faults: 0,
        })
    }

    /// The bytes taken.
    pub fn taken(&self) -> &[u8]
        ensures { result.now ≡ self.now.taken }
    {
        &self.bytes
    }

    /// How many of the bytes taken are flushed.
    pub fn flushed(&self) -> usize
        ensures { result ≡ self.now.flushed }
    {
        self.flushed
    }
}

impl Sink for MemorySink {
    ghost known = { known_sink };

    fn write(&mut self, piece: &[u8]) -> Result<usize, Failed>
        requires { 0 < length piece.now }
        ensures bound { IfOk result (λ n. (0 < n) × (n ≤ length piece.now)) }
        ensures bytes { WriteAdds (known_sink self.old) (known_sink self.new) result piece.now }
        ensures flushed { KeepsFlushed (known_sink self.old) (known_sink self.new) }
        ensures cause { WriteHasCause (known_sink self.old) (known_sink self.new) result }
        ensures turn { WritesAtMost (known_sink self.old) (known_sink self.new) 1 }
        ensures answer { result ≡ write_answer self.old piece.now }
        ensures after { self.new ≡ after_write self.old piece.now }
    {
        let number = self.number;
        self.number = number.saturating_add(1);
        let room = self.room - self.bytes.len();
        if room == 0 || self.fails.contains(&number) {
            self.faults = self.faults.saturating_add(1);
            return Err(Failed);
        }
        let count = self.most.min(piece.len()).min(room);
        let Ok(()) = self.bytes.extend_from_slice(&piece[..count]) else {
            unreachable!()
        };
        Ok(count)
    }

    fn flush(&mut self) -> Result<(), Failed>
        ensures bytes { AddsNone (known_sink self.old) (known_sink self.new) }
        ensures all { OnOk result (IsFlushed (known_sink self.new)) }
        ensures flushed { KeepsFlushed (known_sink self.old) (known_sink self.new) }
        ensures cause { WriteHasCause (known_sink self.old) (known_sink self.new) result }
        ensures turn { FlushesOnce (known_sink self.old) (known_sink self.new) }
        ensures answer { result ≡ flush_answer self.old }
        ensures after { self.new ≡ after_flush self.old }
    {
        self.flushes = self.flushes.saturating_add(1);
        if self.flush_fails {
            self.faults = self.faults.saturating_add(1);
            return Err(Failed);
        }
        self.flushed = self.bytes.len();
        Ok(())
    }
}
