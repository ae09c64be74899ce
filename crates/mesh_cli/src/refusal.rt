// How a run ends, and the lines of refusals.
ghost use Rattle.std.specs.Prelude.{◌≡◌, IfOk};
ghost use Rattle.mesh_doc.specs.Printed as printed;
ghost use Rattle.mesh_cli.specs.Refusal as meaning;
ghost use Rattle.mesh_cli.specs.Refusal.{Stops};

use mesh_doc::{Fault, Place, fault_text, place_text};
use mesh_text::{Memory, Text};
use std::alloc::Global;

/// How the program ends. The number is its exit status.
#[derive(Clone, Copy, Debug, PartialEq, Eq)]
pub enum Status {
    /// All was written.
    Done = 0,
    /// The input is refused, for the reason that the notes tell.
    Refused = 1,
    /// The words are no command.
    Words = 2,
    /// A read of the input failed.
    ReadFault = 3,
    /// A write or the flush of the output failed.
    WriteFault = 4,
    /// Memory ran out.
    Memory = 5,
}

/// Why there is no text.
#[derive(Debug, Drop)]
pub enum Stop {
    /// The input is refused: the line of the notes.
    Refused(Text),
    Memory,
}

impl From<Memory> for Stop {
    ghost use Rattle.std.specs.Prelude.{◌≡◌};
    ghost use Rattle.mesh_cli.specs.declared.refusal.Stop.TheVariants.{Memory as OutOfMemory};

    ghost from_gives = { λ _ stop. stop ≡ OutOfMemory };

    fn from(_: Memory) -> Stop {
        Stop::Memory
    }
}

/// The refusal for a reason at a place, or want of memory for its line.
pub fn refuse(alloc: Global, place: &str, reason: &str) -> Stop
    ensures { Stops result (meaning.refuses_at place.now reason.now) }
{
    match format!(in alloc; "refused: {place}: {reason}\n") {
        Ok(line) => Stop::Refused(Text::from_string(line)),
        Err(_) => Stop::Memory,
    }
}

/// The refusal for a reason at a place of the document, or want of memory for its line.
pub fn refuse_place(alloc: Global, place: &Place, reason: &str) -> Stop
    ensures { Stops result (meaning.refuses_at (printed.shown place.now) reason.now) }
{
    match place_text(alloc, place) {
        Ok(place) => refuse(alloc, &place, reason),
        Err(Memory) => Stop::Memory,
    }
}

/// The refusal for a fault of the input, or want of memory for its line.
pub fn refuse_fault(alloc: Global, fault: &Fault) -> Stop
    ensures { Stops result (meaning.refuses_fault fault.now) }
{
    match fault_line(alloc, fault) {
        Ok(line) => Stop::Refused(line),
        Err(Memory) => Stop::Memory,
    }
}

fn fault_line(alloc: Global, fault: &Fault) -> Result<Text, Memory>
    ensures { IfOk result (λ line. line ≡ meaning.refusal_line (printed.fault_text fault.now)) }
{
    let told = fault_text(alloc, fault)?;
    let line = format!(in alloc; "refused: {told}\n")?;
    Ok(Text::from_string(line))
}
