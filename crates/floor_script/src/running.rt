//! A run of a script over a reader and a writer.

ghost use Rattle.std.specs.Prelude.{◌≡◌, ℕ, List, false, Err, IfErr, IfOk, MatchResult, OnOk, string_bytes};
ghost use Rattle.std.specs.Io.KnownBytes.{Appends};
ghost use Rattle.std.specs.Option.{option_map};
ghost use Rattle.floor_config.specs.Outcome.{Fails};
ghost use Rattle.floor_script.specs.Input.{Exits, IsInput, LeavesInput, RanInput};
ghost use Rattle.floor_script.specs.Line.{Reads, command_of};
ghost use Rattle.floor_script.specs.Run.{Leaves, Ran, configurations, error_line, is_silent};
ghost use Rattle.floor_script.specs.Script.{configuration_of};
ghost use Rattle.floor_script.specs.Written.{Began};
ghost use Rattle.floor_script.specs.declared.conferences.Conferences.{Conferences as Given};
ghost use Rattle.floor_script.specs.steps.Running.{AreOpened, EndsRead, LeavesBytes, LeavesLine, LeavesText, Runs, opened_all};
ghost use Rattle.floor_script.specs.steps.Standing.{Leads};

use crate::conferences::Conferences;
use crate::fault::RunFault;
use crate::line::{LineFault, parse_line};
use crate::script::{Line, MAX_TURNS, Script};
use crate::writing::write_whole;
use floor_config::{Config, ConfigFault, read_configs};
use std::alloc::{AllocError, Global};
use std::io::{Read, Write};

/// Runs the script of `input`, prints what its lines print to `output`, and gives the exit status: 0;
/// 1 for a read or write fault or where memory ran out, after which a beginning of it is printed; 2
/// for a refused configuration or a bad line, whose fault is printed.
pub fn run<R: Read, W: Write>(alloc: Global, input: &mut R, output: &mut W) -> u8
    ensures { Exits result (R.remaining input.old) (R.remaining input.new)
        (W.contents output.old) (W.contents output.new) }
{
    match run_script(alloc, input, output) {
        Ok(()) => 0,
        Err(fault) => fault.status(),
    }
}

/// Runs the script of `input`, and prints what its lines print to `output`, that of each line at
/// once. Where the configuration or a line is refused, its fault is printed, and the answer is
/// `Refused`; after a write fault or want of memory a beginning of what the text prints is printed,
/// and nothing after a read fault.
pub fn run_script<R: Read, W: Write>(
    alloc: Global,
    input: &mut R,
    output: &mut W,
) -> Result<(), RunFault>
    ensures { MatchResult result
        (λ _. RanInput false (R.remaining input.old) (R.remaining input.new)
        (W.contents output.old) (W.contents output.new))
        (λ fault. LeavesInput fault (R.remaining input.old) (R.remaining input.new)
        (W.contents output.old) (W.contents output.new)) }
{
    match read_all(alloc, input) {
        Ok(bytes) => run_bytes(alloc, bytes.as_slice(), output),
        Err(fault) => Err(fault),
    }
}

/// All bytes of the input. An interrupted read is a fault.
fn read_all<R: Read>(alloc: Global, input: &mut R) -> Result<Vec<u8>, RunFault>
    ensures { MatchResult result
        (λ bytes. IsInput (R.remaining input.old) (R.remaining input.new) bytes.items)
        EndsRead }
{
    let mut bytes = Vec::new(alloc);
    let mut chunk = [0u8; 4096];
    for _ in 0..MAX_TURNS {
        let Ok(count) = input.read(&mut chunk) else {
            return Err(RunFault::CannotRead);
        };
        if count == 0 {
            return Ok(bytes);
        }
        bytes.extend_from_slice(&chunk[..count])?;
    }
    Err(RunFault::CannotRead)
}

/// Runs bytes as a text. Where they aren't UTF-8 nothing is printed.
fn run_bytes<W: Write>(alloc: Global, bytes: &[u8], output: &mut W) -> Result<(), RunFault>
    ensures { MatchResult result
        (λ _. Ran bytes.now false (W.contents output.old) (W.contents output.new))
        (λ fault. LeavesBytes fault bytes.now (W.contents output.old) (W.contents output.new)) }
{
    match std::str::from_utf8(bytes) {
        Ok(text) => run_text(alloc, text, output),
        Err(_) => Err(RunFault::CannotRead),
    }
}

/// Runs a text to its end, or to the first line that asks for nothing, and prints what that prints.
/// After a write fault or want of memory a beginning of it is printed.
fn run_text<W: Write>(alloc: Global, text: &str, output: &mut W) -> Result<(), RunFault>
    ensures { MatchResult result
        (λ _. Ran text.now false (W.contents output.old) (W.contents output.new))
        (λ fault. Leaves fault text.now (W.contents output.old) (W.contents output.new)) }
{
    let script = Script::of_text(text);
    let mut conferences = Conferences::new(alloc);
    match open_all(alloc, script.configuration, &mut conferences) {
        Ok(()) => {}
        Err(fault) => return refuse_configuration(alloc, fault, output),
    }
    let mut lines = script.lines;
    loop {
        match lines.cut() {
            None => return Ok(()),
            Some(line) => match run_line(alloc, line, &mut conferences, output) {
                Ok(()) => {}
                Err(fault) => return Err(fault),
            },
        }
    }
}

/// Prints the fault of a configuration. Want of memory isn't printed.
fn refuse_configuration<W: Write>(
    alloc: Global,
    fault: ConfigFault,
    output: &mut W,
) -> Result<(), RunFault>
    ensures { MatchResult result (λ _. ⊥) (λ left. (text : List ℕ)
        → Fails fault (configurations (configuration_of text))
        → Leaves left text (W.contents output.old) (W.contents output.new)) }
{
    let name = fault.name();
    match fault {
        ConfigFault::Memory => Err(RunFault::Memory),
        _ => refuse(alloc, 0, name, output),
    }
}

/// Opens the conferences of a configuration in its order, or the demonstration's where there is no
/// configuration.
fn open_all(
    alloc: Global,
    configuration: Option<&str>,
    conferences: &mut Conferences,
) -> Result<(), ConfigFault>
    ensures took { OnOk result
        (AreOpened (configurations (option_map (λ c. c.now) configuration.entry))
        conferences.old conferences.new) }
    ensures refused { IfErr result (λ fault. Fails fault
        (configurations (option_map (λ c. c.now) configuration.entry))) }
{
    match configuration {
        None => {
            let config = Config::demonstration(alloc)?;
            conferences.open(config)?;
            Ok(())
        }
        Some(text) => {
            let configs = read_configs(alloc, text)?;
            open_each(configs, conferences)?;
            Ok(())
        }
    }
}

/// Opens conferences, one after another.
fn open_each(configs: Vec<Config>, conferences: &mut Conferences) -> Result<(), AllocError>
    ensures took { OnOk result (Leads (opened_all configs.items) conferences.old conferences.new) }
{
    for config in configs {
        conferences.open(config)?;
    }
    Ok(())
}

/// Does what a line says. An empty line and one that begins with `#` say nothing.
fn run_line<W: Write>(
    alloc: Global,
    line: Line,
    conferences: &mut Conferences,
    output: &mut W,
) -> Result<(), RunFault>
    ensures { MatchResult result
        (λ _. Runs line.entry.number line.entry.text.now conferences.old conferences.new
        (W.contents output.old) (W.contents output.new))
        (λ fault. LeavesLine fault line.entry.number line.entry.text.now conferences.old
        (W.contents output.old) (W.contents output.new)) }
{
    if is_silent(line.text) {
        return Ok(());
    }
    match parse_line(alloc, line.text) {
        Ok(command) => match conferences.answer(command) {
            Ok(text) => print(text.as_str(), output),
            Err(_) => Err(RunFault::Memory),
        },
        Err(fault) => refuse_line(alloc, line, fault, output),
    }
}

/// Prints the fault of a line. Want of memory isn't printed.
fn refuse_line<W: Write>(
    alloc: Global,
    line: Line,
    fault: LineFault,
    output: &mut W,
) -> Result<(), RunFault>
    ensures { MatchResult result (λ _. ⊥) (λ left. (c : Given)
        → is_silent line.entry.text.now ≡ false
        → Reads (command_of line.entry.text.now) (Err fault)
        → LeavesLine left line.entry.number line.entry.text.now c
        (W.contents output.old) (W.contents output.new)) }
{
    let name = fault.name();
    match fault {
        LineFault::Memory => Err(RunFault::Memory),
        _ => refuse(alloc, line.number, name, output),
    }
}

/// Whether a line says nothing: it is empty, or begins with `#`.
fn is_silent(text: &str) -> bool
    ensures { result ≡ is_silent text.now }
{
    match text.as_bytes() {
        [] => true,
        [first, ..] => *first == b'#',
    }
}

/// Prints the fault of a line with this number, or of the configuration, whose number is 0.
fn refuse<W: Write>(alloc: Global, number: u64, name: &str, output: &mut W) -> Result<(), RunFault>
    ensures { MatchResult result (λ _. ⊥) (λ fault. LeavesText fault (error_line number name.now)
        (W.contents output.old) (W.contents output.new)) }
{
    let Ok(text) = error_line(alloc, number, name) else {
        return Err(RunFault::Memory);
    };
    print_refusal(text.as_str(), output)
}

/// The line of a fault.
fn error_line(alloc: Global, number: u64, name: &str) -> Result<String, AllocError>
    ensures { IfOk result (λ text. string_bytes text ≡ error_line number name.now) }
{
    format!(in alloc; "error {number} {name}\n")
}

/// Prints the line of a fault, which ends the run.
fn print_refusal<W: Write>(text: &str, output: &mut W) -> Result<(), RunFault>
    ensures { MatchResult result (λ _. ⊥) (λ fault. LeavesText fault text.now
        (W.contents output.old) (W.contents output.new)) }
{
    match print(text, output) {
        Ok(()) => Err(RunFault::Refused),
        Err(fault) => Err(fault),
    }
}

/// Prints a text.
fn print<W: Write>(text: &str, output: &mut W) -> Result<(), RunFault>
    ensures { MatchResult result
        (λ _. Appends (W.contents output.old) (W.contents output.new) text.now)
        (λ fault. (fault ≡ RunFault.CannotWrite)
        × Began (W.contents output.old) (W.contents output.new) text.now) }
{
    match write_whole(output, text.as_bytes()) {
        Ok(()) => Ok(()),
        Err(_) => Err(RunFault::CannotWrite),
    }
}
