// What a run leaves, in lines.
use crate::running::Ended;
use crate::stop::Stop;
use mesh_cli::Status;

/// The name, and below it the status, each line of the output and the notes. Where an example says how its streams
/// behave, also how many bytes were left, taken and flushed.
pub fn show(rt: &impl Print, name: &str, ended: &Ended) -> Result<(), Stop> {
    println!(rt; "{name}")?;
    println!(rt; "  status: {}", name_of(ended.status))?;
    show_lines(rt, "output", ended.output.taken())?;
    show_lines(rt, "notes", ended.notes.taken())?;
    if ended.is_said {
        let taken = ended.output.taken().len();
        let flushed = ended.output.flushed();
        println!(rt;
            "  bytes: {} left, {taken} taken, {flushed} flushed",
            ended.left
        )?;
    }
    Ok(())
}

fn name_of(status: Status) -> &'static str {
    match status {
        Status::Done => "Done",
        Status::Refused => "Refused",
        Status::Words => "Words",
        Status::ReadFault => "ReadFault",
        Status::WriteFault => "WriteFault",
        Status::Memory => "Memory",
    }
}

fn show_lines(rt: &impl Print, label: &str, bytes: &[u8]) -> Result<(), Stop> {
    let Ok(text) = std::str::from_utf8(bytes) else {
        println!(rt; "  {label}: {bytes:?}")?;
        return Ok(());
    };
    for line in text.split_inclusive('\n') {
        match line.strip_suffix('\n') {
            Some(whole) => println!(rt; "  {label}: {whole}")?,
            None => println!(rt; "  {label} without a newline: {line}")?,
        }
    }
    Ok(())
}
