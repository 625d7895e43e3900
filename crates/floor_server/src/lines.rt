//! The lines of the console as they are read, and what is printed.

ghost use Rattle.std.specs.Prelude.{◌≡◌, ◌⊎◌, IfErr, IfOk, Ok, string_bytes};
ghost use Rattle.floor_words.specs.Lines.{first_line};
ghost use Rattle.floor_console.specs.Command.{Reads, command_of};
ghost use Rattle.floor_console.specs.declared.command.Command.TheVariants.{Stop};
ghost use Rattle.floor_listen.specs.declared.ending.ServerFault.TheVariants.{CannotWrite, Memory};
ghost use Rattle.floor_server.specs.Console.{IsAskedBy};

use floor_console::{Command, ConsoleFault, parse_line};
use floor_listen::{Next, ServerFault, after_read};
use std::alloc::Global;
use std::io;
use std::io::{BufRead, Write};

/// The command of the next line, or why it is none. It is `Stop` where the input ends or can't be read.
///
/// The line is read into `piece`, whatever that had before. An `Err` is want of memory for the line: a part
/// of it may have been read, and is lost.
pub fn next_command<B: BufRead>(
    alloc: Global,
    reader: &mut B,
    piece: &mut String,
) -> Result<Result<Command, ConsoleFault>, ServerFault>
    ensures value { IfOk result (λ command. (command ≡ Ok Stop)
        ⊎ Reads (command_of (first_line (string_bytes piece.new))) command) }
    ensures memory { IfErr result (λ fault. fault ≡ Memory) }
{
    piece.clear();
    let read = reader.read_line(piece);
    command_after(alloc, read, piece.as_str())
}

/// What follows from a read of the next line into `piece`, which was empty.
fn command_after(
    alloc: Global,
    read: io::Result<usize>,
    piece: &str,
) -> Result<Result<Command, ConsoleFault>, ServerFault>
    ensures value { IsAskedBy read piece.now result }
{
    match after_read(read, piece) {
        Next::Line(line) => Ok(parse_line(alloc, line)),
        Next::Stop => Ok(Ok(Command::Stop)),
        Next::Memory => Err(ServerFault::Memory),
    }
}

/// Prints a line for a person, where there is one. Where it can't be printed it is lost.
pub fn tell<E: Write>(errors: &mut E, line: Option<String>) {
    match line {
        None => {}
        Some(line) => {
            let _written = writeln!(errors, "{}", line.as_str());
        }
    }
}

/// Prints a text at once. After an `Err` a beginning of it may have been printed.
pub fn print<O: Write>(output: &mut O, text: &str) -> Result<(), ServerFault>
    ensures { IfErr result (λ fault. fault ≡ CannotWrite) }
{
    match output.write_all(text.as_bytes()) {
        Ok(()) => {}
        Err(_) => return Err(ServerFault::CannotWrite),
    }
    match output.flush() {
        Ok(()) => Ok(()),
        Err(_) => Err(ServerFault::CannotWrite),
    }
}
