// What bytes are written to.
ghost use Rattle.std.specs.Prelude.{◌<◌, ◌≤◌, IfOk, OnOk, length};
ghost use Rattle.mesh_edge.specs.Sink.{AddsNone, FlushesOnce, IsFlushed, KeepsFlushed, KnownSink, WriteAdds, WriteHasCause, WritesAtMost};

use crate::Failed;

/// A sink of bytes.
pub trait Sink {
    /// The bytes taken, how many of them are flushed, the count of faults, and the numbers of
    /// writes and flushes, as far as they are told.
    ghost known: { Self → KnownSink };

    /// Takes a front of `piece` that is not empty, and answers its length.
    /// A write that fails takes nothing.
    fn write(&mut self, piece: &[u8]) -> Result<usize, Failed>
        requires { 0 < length piece.now }
        ensures bound { IfOk result (λ n. (0 < n) × (n ≤ length piece.now)) }
        ensures bytes { WriteAdds (known self.old) (known self.new) result piece.now }
        ensures flushed { KeepsFlushed (known self.old) (known self.new) }
        ensures cause { WriteHasCause (known self.old) (known self.new) result }
        ensures turn { WritesAtMost (known self.old) (known self.new) 1 };

    /// Flushes all bytes taken. A flush takes none, also where it fails.
    fn flush(&mut self) -> Result<(), Failed>
        ensures bytes { AddsNone (known self.old) (known self.new) }
        ensures all { OnOk result (IsFlushed (known self.new)) }
        ensures flushed { KeepsFlushed (known self.old) (known self.new) }
        ensures cause { WriteHasCause (known self.old) (known self.new) result }
        ensures turn { FlushesOnce (known self.old) (known self.new) };
}
