// The one line that the notes take where a run isn't done.
ghost use Rattle.mesh_cli.specs.Notes.{Notes};

use mesh_edge::{Sink, write_all};

/// The line of wrong words.
pub const USAGE: &str =
    "usage: mesh translate|decide|explain|size NS/POD, mesh eval|check, mesh sample N\n";

/// Says a line. That the notes fail has no effect.
pub fn say<E: Sink>(notes: &mut E, line: &str)
    ensures { Notes (E.known notes.old) (E.known notes.new) line.now }
{
    let _ = write_all(notes, line.as_bytes());
}
