// A source and a sink that never fail.
ghost use Rattle.std.specs.Prelude.{◌+◌, ◌++◌, ◌<◌, ◌≡◌, ◌≤◌, IfOk, IsOk, OnOk, drop, length, min, take};
ghost use Rattle.std.specs.Io.{ReadsAtMost};
ghost use Rattle.mesh_edge.specs.Clean.{known_sink, known_source};
ghost use Rattle.mesh_edge.specs.Sink.{AddsNone, FlushesOnce, IsFlushed, KeepsFlushed, WriteAdds, WriteHasCause, WritesAtMost};
ghost use Rattle.mesh_edge.specs.Source.{ReadHasCause, ReadTakes};

use crate::copy::copy_front;
use crate::{Failed, Sink, Source};
use std::marker::Model;

/// A source that gives the bytes it was made with, and never fails.
#[derive(Debug, Drop)]
pub struct CleanSource {
    bytes: Vec<u8>,
    at: usize,
}

impl Model for CleanSource {
    ghost use Rattle.std.specs.Prelude.{◌≤◌, List, drop, length, ℕ};

    // The bytes left.
    ghost Value = { List ℕ };

    ghost view = { λ s. drop s.at s.bytes.items };

    ghost invariant = { λ s. s.at ≤ length s.bytes.items };
}

impl CleanSource {
    /// A source of these bytes.
    pub fn new(bytes: Vec<u8>) -> CleanSource
        ensures { result ≡ bytes.items }
    {
        CleanSource { bytes, at: 0 }
    }
}

impl Source for CleanSource {
    ghost known = { known_source };

    fn read(&mut self, buf: &mut [u8]) -> Result<usize, Failed>
        requires { 0 < length buf.old }
        ensures bound { ReadsAtMost result buf.new }
        ensures bytes { ReadTakes (known_source self.old) (known_source self.new) result buf.new }
        ensures cause { ReadHasCause (known_source self.old) (known_source self.new) result }
        ensures turn { (known_source self.new).reads ≤ (known_source self.old).reads + 1 }
        ensures answer { result ≡ Ok (min (length buf.old) (length self.old)) }
        ensures after { IfOk result (λ n. self.new ≡ drop n self.old) }
        ensures filled { IfOk result (λ n. buf.new ≡ take n self.old ++ drop n buf.old) }
    {
        let left = &self.bytes[self.at..];
        let count = buf.len().min(left.len());
        copy_front(left, buf, count);
        self.at += count;
        Ok(count)
    }
}

/// A sink that takes every piece whole, keeps nothing, and never fails. It tells no bytes.
#[derive(Clone, Copy, Debug, Default)]
pub struct CleanSink;

impl CleanSink {
    /// A sink that has taken nothing.
    pub fn new() -> CleanSink {
        CleanSink
    }
}

impl Sink for CleanSink {
    ghost known = { λ _. known_sink };

    fn write(&mut self, piece: &[u8]) -> Result<usize, Failed>
        requires { 0 < length piece.now }
        ensures bound { IfOk result (λ n. (0 < n) × (n ≤ length piece.now)) }
        ensures bytes { WriteAdds known_sink known_sink result piece.now }
        ensures flushed { KeepsFlushed known_sink known_sink }
        ensures cause { WriteHasCause known_sink known_sink result }
        ensures turn { WritesAtMost known_sink known_sink 1 }
        ensures answer { result ≡ Ok (length piece.now) }
    {
        Ok(piece.len())
    }

    fn flush(&mut self) -> Result<(), Failed>
        ensures bytes { AddsNone known_sink known_sink }
        ensures all { OnOk result (IsFlushed known_sink) }
        ensures flushed { KeepsFlushed known_sink known_sink }
        ensures cause { WriteHasCause known_sink known_sink result }
        ensures turn { FlushesOnce known_sink known_sink }
        ensures answer { IsOk result }
    {
        Ok(())
    }
}
