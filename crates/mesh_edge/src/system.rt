// std's readers and writers. What they do outside the process is trusted: no contract tells it.
ghost use Rattle.std.specs.Prelude.{◌+◌, ◌<◌, ◌≡◌, ◌≤◌, IfOk, OnErr, OnOk, length};
ghost use Rattle.std.specs.Io.{ReadsAtMost};
ghost use Rattle.mesh_edge.specs.Faults.{next_count};
ghost use Rattle.mesh_edge.specs.Sink.{AddsNone, FlushesOnce, IsFlushed, KeepsFlushed, WriteAdds, WriteHasCause, WritesAtMost};
ghost use Rattle.mesh_edge.specs.Source.{ReadHasCause, ReadTakes};

use crate::{Failed, Sink, Source};
use std::io::{Read, Write};

/// A source over a reader of std. Each `Err` of the reader counts as a fault.
#[derive(Debug, Drop)]
pub struct StdSource<R> {
    reader: R,
    faults: u64,
}

impl<R> StdSource<R> {
    ghost use Rattle.mesh_edge.specs.System.{read_faults_of, reader_of};

    /// A source of what is left in `reader`, with no fault yet.
    pub fn new(reader: R) -> StdSource<R>
        ensures reader { reader_of result ≡ reader }
        ensures faults { read_faults_of result ≡ 0 }
    {
        StdSource { reader, faults: 0 }
    }
}

impl<R: Read> Source for StdSource<R> {
    ghost use Rattle.mesh_edge.specs.System.{known_source, read_faults_of};

    ghost known = { known_source R.remaining };

    fn read(&mut self, buf: &mut [u8]) -> Result<usize, Failed>
        ensures bound { ReadsAtMost result buf.new }
        ensures bytes { ReadTakes (known_source R.remaining self.old) (known_source R.remaining self.new)
            result buf.new }
        ensures cause { ReadHasCause (known_source R.remaining self.old) (known_source R.remaining self.new)
            result }
        ensures turn { (known_source R.remaining self.new).reads
            ≤ (known_source R.remaining self.old).reads + 1 }
        ensures failed { OnErr result (read_faults_of self.new ≡ next_count (read_faults_of self.old)) }
    {
        let Ok(count) = self.reader.read(buf) else {
            self.faults = self.faults.saturating_add(1);
            return Err(Failed);
        };
        Ok(count)
    }
}

/// A sink over a writer of std. Each `Err` of the writer counts as a fault, and so does a write
/// that takes nothing of a piece. It does not tell what is flushed.
#[derive(Debug, Drop)]
pub struct StdSink<W> {
    writer: W,
    faults: u64,
}

impl<W> StdSink<W> {
    ghost use Rattle.mesh_edge.specs.System.{write_faults_of, writer_of};

    /// A sink into `writer`, with no fault yet.
    pub fn new(writer: W) -> StdSink<W>
        ensures writer { writer_of result ≡ writer }
        ensures faults { write_faults_of result ≡ 0 }
    {
        StdSink { writer, faults: 0 }
    }
}

impl<W: Write> Sink for StdSink<W> {
    ghost use Rattle.mesh_edge.specs.System.{known_sink, write_faults_of};

    ghost known = { known_sink W.contents };

    fn write(&mut self, piece: &[u8]) -> Result<usize, Failed>
        ensures bound { IfOk result (λ n. (0 < n) × (n ≤ length piece.now)) }
        ensures bytes { WriteAdds (known_sink W.contents self.old) (known_sink W.contents self.new)
            result piece.now }
        ensures flushed { KeepsFlushed (known_sink W.contents self.old) (known_sink W.contents self.new) }
        ensures cause { WriteHasCause (known_sink W.contents self.old) (known_sink W.contents self.new)
            result }
        ensures turn { WritesAtMost (known_sink W.contents self.old) (known_sink W.contents self.new) 1 }
        ensures failed { OnErr result (write_faults_of self.new ≡ next_count (write_faults_of self.old)) }
    {
        match self.writer.write(piece) {
            Ok(count) if count > 0 => Ok(count),
            _ => {
                self.faults = self.faults.saturating_add(1);
                Err(Failed)
            }
        }
    }

    fn flush(&mut self) -> Result<(), Failed>
        ensures bytes { AddsNone (known_sink W.contents self.old) (known_sink W.contents self.new) }
        ensures all { OnOk result (IsFlushed (known_sink W.contents self.new)) }
        ensures flushed { KeepsFlushed (known_sink W.contents self.old) (known_sink W.contents self.new) }
        ensures cause { WriteHasCause (known_sink W.contents self.old) (known_sink W.contents self.new)
            result }
        ensures turn { FlushesOnce (known_sink W.contents self.old) (known_sink W.contents self.new) }
        ensures failed { OnErr result (write_faults_of self.new ≡ next_count (write_faults_of self.old)) }
    {
        let Ok(()) = self.writer.flush() else {
            self.faults = self.faults.saturating_add(1);
            return Err(Failed);
        };
        Ok(())
    }
}
