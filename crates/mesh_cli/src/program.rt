// The top call.
ghost use Rattle.std.specs.Prelude.{◌≡◌, ◌++◌, ◌↔◌, IfErr, IfOk, List, None, Some, OnErr, OnOk, map, string_bytes, ℕ};
ghost use Rattle.mesh_edge.specs.Sink.{Adds, IsFlushed, NoWriteFault};
ghost use Rattle.mesh_edge.specs.Source.{IsSpent};
ghost use Rattle.mesh_cli.specs.Headline.{EnforcesFor};
ghost use Rattle.mesh_cli.specs.Program as end;
ghost use Rattle.mesh_cli.specs.Refusal.{newline, writes};
ghost use Rattle.mesh_cli.specs.Words.{command_of};

use crate::answer::respond;
use crate::notes::{USAGE, say};
use crate::pieces::write_two;
use crate::refusal::{Status, Stop, refuse};
use crate::words::{Command, command_in};
use mesh_edge::{ReadError, Sink, Source, WriteFault, read_all};
use mesh_text::Text;
use std::alloc::Global;

/// The most bytes of an input.
const MAX_INPUT: usize = 8_388_608;

/// Runs the command that the words after the program's name are. `translate NS/POD` reads manifests and writes the
/// listener of that Pod, as compact JSON; `check` reads manifests and writes how many of each kind they are. A newline
/// ends each text.
///
/// What was written is flushed last. A status other than Done puts one line into the notes, whose
/// own failure changes nothing.
pub fn run<I: Source, O: Sink, E: Sink>(
    alloc: Global,
    words: &Vec<String>,
    input: &mut I,
    output: &mut O,
    notes: &mut E,
) -> Status
    ensures words { (result ≡ Status.Words) ↔ (command_of (map string_bytes words.now.items) ≡ None) }

    // What each status tells.
    ensures ends { end.Ends result (map string_bytes words.now.items)
        (record { input = I.known input.old; output = O.known output.old; notes = E.known notes.old })
        (record { input = I.known input.new; output = O.known output.new; notes = E.known notes.new }) }

    // An input that a command answers with a text has that text written, unless memory, a read or a write failed.
    ensures complete { (text : List ℕ) → end.IsAnswered (map string_bytes words.now.items) (I.known input.old) text
        → end.Completes result text
        (record { input = I.known input.old; output = O.known output.old; notes = E.known notes.old })
        (record { input = I.known input.new; output = O.known output.new; notes = E.known notes.new }) }

    // For every input that spells manifests which a listener is built for, and every Pod that selection accepts: one
    // listener is written, which gives each connection the verdict of the policies, unless memory, a read or a write
    // failed.
    ensures headline { (asked : end.IsAccepted (map string_bytes words.now.items) (I.known input.old))
        → end.Serves result asked
        (record { input = I.known input.old; output = O.known output.old; notes = E.known notes.old })
        (record { input = I.known input.new; output = O.known output.new; notes = E.known notes.new }) }
{
    let Some(command) = command_in(words.as_slice()) else {
        say(notes, USAGE);
        return Status::Words;
    };
    let text = match answer_input(alloc, &command, input) {
        Ok(text) => text,
        Err(InputStop::ReadFault) => {
            say(notes, "read fault\n");
            return Status::ReadFault;
        }
        Err(InputStop::Memory) => {
            say(notes, "out of memory\n");
            return Status::Memory;
        }
        Err(InputStop::Refused(line)) => {
            say(notes, line.as_str());
            return Status::Refused;
        }
    };
    match deliver(text.as_str(), output) {
        Ok(()) => Status::Done,
        Err(WriteFault) => {
            say(notes, "write fault\n");
            Status::WriteFault
        }
    }
}

// Why the input gives no text.
#[derive(Debug, Drop)]
enum InputStop {
    ReadFault,
    /// With the line of the notes.
    Refused(Text),
    Memory,
}

impl From<Stop> for InputStop {
    ghost use Rattle.std.specs.Prelude.{◌≡◌};
    ghost use Rattle.mesh_cli.specs.Program.{input_stop_of};

    ghost from_gives = { λ stop why. why ≡ input_stop_of stop };

    fn from(stop: Stop) -> InputStop {
        match stop {
            Stop::Refused(line) => InputStop::Refused(line),
            Stop::Memory => InputStop::Memory,
        }
    }
}

// Reads the input and answers it.
fn answer_input<I: Source>(
    alloc: Global,
    command: &Command,
    input: &mut I,
) -> Result<String, InputStop>
    ensures ok { IfOk result (λ s.
        end.Answers command.now (I.known input.old) (I.known input.new) (writes (string_bytes s))) }
    ensures at_end { OnOk result (IsSpent (I.known input.new)) }
    ensures enforces { IfOk result (λ s. (bytes : List ℕ) → (I.known input.old).left ≡ Some bytes
        → EnforcesFor command.now bytes (string_bytes s)) }
    ensures err { IfErr result (end.StopsInput command.now (I.known input.old) (I.known input.new)) }
{
    let bytes = match read_all(alloc, input, MAX_INPUT) {
        Ok(bytes) => bytes,
        Err(ReadError::Fault) => return Err(InputStop::ReadFault),
        Err(ReadError::Memory) => return Err(InputStop::Memory),
        Err(ReadError::TooLong) => return Err(InputStop::from(refuse(alloc, "input", "TooLong"))),
    };
    Ok(respond(alloc, command, bytes.as_slice())?)
}

// Writes the text and a newline, and flushes.
fn deliver<O: Sink>(text: &str, output: &mut O) -> Result<(), WriteFault>
    ensures written { OnOk result (Adds (O.known output.old) (O.known output.new) (text.now ++ newline)) }
    ensures flushed { OnOk result (IsFlushed (O.known output.new)) }
    ensures faultless { OnOk result (NoWriteFault (O.known output.old) (O.known output.new)) }
    ensures fault { OnErr result
        (end.BreaksOff (text.now ++ newline) (O.known output.old) (O.known output.new)) }
{
    write_two(output, text.as_bytes(), b"\n")?;
    match output.flush() {
        Ok(()) => Ok(()),
        Err(_) => Err(WriteFault),
    }
}
