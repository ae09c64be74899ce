// Two pieces of bytes to a sink, one behind the other, with no memory taken.
ghost use Rattle.std.specs.Prelude.{◌++◌, ◌≤◌, OnOk};
ghost use Rattle.mesh_edge.specs.Sink.{Adds, AddsFront, WriteHasCause};

use mesh_edge::{Sink, WriteFault, write_all};

/// Writes two pieces, and does not flush. After a fault a front of both together was taken.
pub fn write_two<S: Sink>(sink: &mut S, first: &[u8], second: &[u8]) -> Result<(), WriteFault>
    ensures ok { OnOk result (Adds (S.known sink.old) (S.known sink.new) (first.now ++ second.now)) }
    ensures cause { WriteHasCause (S.known sink.old) (S.known sink.new) result }
    ensures front { AddsFront (S.known sink.old) (S.known sink.new) (first.now ++ second.now) }
    ensures unflushed { (S.known sink.new).flushes ≤ (S.known sink.old).flushes }
{
    write_all(sink, first)?;
    write_all(sink, second)
}
