//! What the file of a kept conference says of it, after the fact.

use crate::rerun::Rerun;
use crate::telling::{Telling, add_told};
use crate::words::Saying;
use floor_kept::{Entry, File, FileFault, HeadFault, read_file};
use floor_room::{Refusal, RoomRefusal};
use floor_script::RunFault;
use std::alloc::Global;
use std::io::Write;

/// How many bytes of lines are gathered into one write.
const GATHERED: usize = 65_536;

/// Runs the journal of a file, and prints what is said of it.
pub fn run_journal<W: Write, E: Write>(
    alloc: Global,
    bytes: &[u8],
    saying: Saying,
    output: &mut W,
    errors: &mut E,
) -> Result<(), RunFault> {
    let file = file_of(alloc, bytes, output, errors)?;
    match saying {
        Saying::Told { member, as_text } => {
            let telling = Telling { member, as_text };
            print_told(alloc, file, telling, output)
        }
        Saying::Standing { at } => print_standing(alloc, file, at, output),
    }
}

/// Prints what the members were told: a line for each message, with the place of the event that called
/// for it, the number of the member, and the message.
fn print_told<W: Write>(
    alloc: Global,
    file: File,
    telling: Telling,
    output: &mut W,
) -> Result<(), RunFault> {
    let mut lines = String::new(alloc);
    let mut rerun = Rerun::new(alloc, file.config)?;
    let mut line = file.head_lines;
    for entry in file.entries {
        line = line.saturating_add(1);
        let Entry::Happened(event) = entry else {
            continue;
        };
        match rerun.run(event) {
            Ok(parcels) => {
                add_told(alloc, rerun.place(), &parcels, telling, &mut lines)?;
            }
            Err(refusal) => {
                print(lines.as_str(), output)?;
                return refused(alloc, refusal, line, &rerun, output);
            }
        }
        if lines.len() >= GATHERED {
            print(lines.as_str(), output)?;
            lines.clear();
        }
    }
    print(lines.as_str(), output)
}

/// Prints how the conference stood behind the event at this place, or behind the last.
fn print_standing<W: Write>(
    alloc: Global,
    file: File,
    at: Option<u32>,
    output: &mut W,
) -> Result<(), RunFault> {
    let mut rerun = Rerun::new(alloc, file.config)?;
    let mut line = file.head_lines;
    for entry in file.entries {
        line = line.saturating_add(1);
        if at == Some(rerun.place()) {
            break;
        }
        let Entry::Happened(event) = entry else {
            continue;
        };
        match rerun.run(event) {
            Ok(_) => {}
            Err(refusal) => {
                return refused(alloc, refusal, line, &rerun, output);
            }
        }
    }
    match rerun.standing() {
        Ok(text) => print(text.as_str(), output),
        Err(RoomRefusal::Refused(Refusal::Memory)) => Err(RunFault::Memory),
        Err(refusal) => print_line(alloc, "refused", refusal.name(), output),
    }
}

/// What the bytes of a file say. A last line that lacks its end is left out, and `errors` is told.
fn file_of<W: Write, E: Write>(
    alloc: Global,
    bytes: &[u8],
    output: &mut W,
    errors: &mut E,
) -> Result<File, RunFault> {
    match read_file(alloc, bytes) {
        Ok(file) => {
            if file.stands < bytes.len() {
                let _written = writeln!(
                    errors,
                    "floorsim: the last line lacks its end and is left out"
                );
            }
            Ok(file)
        }
        Err(FileFault::Memory) => Err(RunFault::Memory),
        Err(FileFault::BadLine(bad)) => {
            print_fault(alloc, bad.number as u64, bad.place, output)?;
            Err(RunFault::Refused)
        }
        Err(FileFault::Head(fault)) => {
            print_fault(alloc, 0, 0, output)?;
            let _written = writeln!(errors, "floorsim: {}", name_of(fault));
            Err(RunFault::Refused)
        }
    }
}

/// Why a head is refused, by name.
fn name_of(fault: HeadFault) -> &'static str {
    match fault {
        HeadFault::FirstLine => "FirstLine",
        HeadFault::Divider => "Divider",
        HeadFault::Refused(fault) => fault.name(),
        HeadFault::Conferences => "Conferences",
        HeadFault::Memory => "Memory",
    }
}

/// Tells that the event of this line isn't taken.
fn refused<W: Write>(
    alloc: Global,
    refusal: RoomRefusal,
    line: usize,
    rerun: &Rerun,
    output: &mut W,
) -> Result<(), RunFault> {
    if refusal == RoomRefusal::Refused(Refusal::Memory) {
        return Err(RunFault::Memory);
    }
    print_fault(alloc, line as u64, rerun.place().saturating_add(1), output)?;
    Err(RunFault::Refused)
}

/// Prints that a file is no journal at this line, which has the event of this place.
fn print_fault<W: Write>(
    alloc: Global,
    line: u64,
    place: u32,
    output: &mut W,
) -> Result<(), RunFault> {
    let text = format!(in alloc; "error {line} NotAJournal {place}\n")?;
    print(text.as_str(), output)
}

/// Prints two words.
fn print_line<W: Write>(
    alloc: Global,
    first: &str,
    second: &str,
    output: &mut W,
) -> Result<(), RunFault> {
    let text = format!(in alloc; "{first} {second}\n")?;
    print(text.as_str(), output)
}

/// Prints a text.
fn print<W: Write>(text: &str, output: &mut W) -> Result<(), RunFault> {
    match output.write_all(text.as_bytes()) {
        Ok(()) => Ok(()),
        Err(_) => Err(RunFault::CannotWrite),
    }
}
