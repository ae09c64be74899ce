// A source in memory, with reads that fail, to try out what reads through it.
ghost use Rattle.std.specs.Prelude.{◌+◌, ◌++◌, ◌<◌, ◌≡◌, ◌≤◌, IfOk, drop, length, take};
ghost use Rattle.std.specs.Io.{ReadsAtMost};
ghost use Rattle.mesh_edge.specs.MemorySource.{after_read, known_source, read_answer};
ghost use Rattle.mesh_edge.specs.Source.{ReadHasCause, ReadTakes};

use crate::copy::copy_front;
use crate::{Failed, Source};
use std::marker::Model;

/// A source that gives the bytes it was made with, and fails at the reads it was told.
#[derive(Debug, Drop)]
pub struct MemorySource {
    bytes: Vec<u8>,
    at: usize,
    fails: Vec<u64>,
    most: usize,
    number: u64,
    faults: u64,
}

impl Model for MemorySource {
    ghost use Rattle.std.specs.Prelude.{◌≤◌, drop, length};
    ghost use Rattle.mesh_edge.specs.MemorySource.{MemorySourceState};

    ghost Value = { MemorySourceState };

    ghost view = { λ s. record {
      left = drop s.at s.bytes.items;
      fails = s.fails.items;
      most = s.most;
      number = s.number;
      faults = s.faults;
    } };

    ghost invariant = { λ s. (s.at ≤ length s.bytes.items) × (1 ≤ s.most) };
}

impl MemorySource {
    /// Reads are numbered from 0, and those whose number is in `fails` fail. The number stops at
    /// 2^64 - 1. A read moves `most` bytes at most.
    pub fn new(bytes: Vec<u8>, fails: Vec<u64>, most: usize) -> MemorySource
        requires { 1 ≤ most }
        ensures { result ≡ record {
          left = bytes.items;
          fails = fails.items;
          most = most;
          number = 0;
          faults = 0;
        } }
    {
        MemorySource {
            bytes,
            at: 0,
            fails,
            most,
            number: 0,
            faults: 0,
        }
    }

    /// The bytes that no read has taken.
    pub fn left(&self) -> &[u8]
        ensures { result.now ≡ self.now.left }
    {
        &self.bytes[self.at..]
    }
}

impl Source for MemorySource {
    ghost known = { known_source };

    fn read(&mut self, buf: &mut [u8]) -> Result<usize, Failed>
        requires { 0 < length buf.old }
        ensures bound { ReadsAtMost result buf.new }
        ensures bytes { ReadTakes (known_source self.old) (known_source self.new) result buf.new }
        ensures cause { ReadHasCause (known_source self.old) (known_source self.new) result }
        ensures turn { (known_source self.new).reads ≤ (known_source self.old).reads + 1 }
        ensures answer { result ≡ read_answer self.old (length buf.old) }
        ensures after { self.new ≡ after_read self.old (length buf.old) }
        ensures filled { IfOk result (λ n. buf.new ≡ take n self.old.left ++ drop n buf.old) }
    {
        let number = self.number;
        self.number = number.saturating_add(1);
        if self.fails.contains(&number) {
            self.faults = self.faults.saturating_add(1);
            return Err(Failed);
        }
        let left = &self.bytes[self.at..];
        let count = self.most.min(buf.len()).min(left.len());
        copy_front(left, buf, count);
        self.at += count;
        Ok(count)
    }
}
