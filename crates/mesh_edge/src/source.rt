// What bytes are read from.
ghost use Rattle.std.specs.Prelude.{◌+◌, ◌<◌, ◌≤◌, length};
ghost use Rattle.std.specs.Io.{ReadsAtMost};
ghost use Rattle.mesh_edge.specs.Source.{KnownSource, ReadHasCause, ReadTakes};

use crate::Failed;

/// A source of bytes.
pub trait Source {
    /// The bytes left, the count of faults, and the number of reads, as far as they are told.
    ghost known: { Self → KnownSource };

    /// Reads the next bytes into the front of `buf`, and answers how many. Zero means the end.
    /// A read that fails takes nothing.
    fn read(&mut self, buf: &mut [u8]) -> Result<usize, Failed>
        requires { 0 < length buf.old }
        ensures bound { ReadsAtMost result buf.new }
        ensures bytes { ReadTakes (known self.old) (known self.new) result buf.new }
        ensures cause { ReadHasCause (known self.old) (known self.new) result }
        ensures turn { (known self.new).reads ≤ (known self.old).reads + 1 };
}
