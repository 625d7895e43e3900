//! A case: a script, and the lines that it has to print.
//!
//! - `# words` says why, and is a comment of the script.
//! - `> line` is a line of the script. In it `\s`, `\t` and `\r` are a space, a tab and a carriage
//!   return, and a `\` at its end leaves its line feed out.
//! - `< line` is a line that the script prints. Spaces between words of bytes are for reading.
//! - `>  words` and `<  words`, with two spaces, go on with the line above. An empty line says
//!   nothing.
//! - `>1024 line` and `<1024 line` stand for so many of these lines.
//! - `>> line` and `<< line` are such lines as they stand, for texts that aren't bytes.
//!
//! Bytes may stand as a shorthand.

use crate::fault::{Difference, Fault};
use crate::runner::Runner;
use crate::shorthands::spelled;
use std::alloc::Global;

/// A script, and what it has to print.
#[derive(Drop)]
pub struct Case {
    pub script: String,
    pub printed: String,
}

impl Case {
    /// The case of a script that begins with a configuration or, where that is empty, with none.
    pub fn new(alloc: Global, configuration: &str) -> Result<Case, Fault> {
        let mut script = String::new(alloc);
        if !configuration.is_empty() {
            script.push_str(configuration)?;
            script.push_str("\n---\n")?;
        }
        Ok(Case {
            script,
            printed: String::new(alloc),
        })
    }

    /// Appends the lines of a text.
    pub fn extend(&mut self, alloc: Global, text: &str) -> Result<(), Fault> {
        for line in text.split('\n') {
            self.push_line(alloc, line)?;
        }
        Ok(())
    }

    fn push_line(&mut self, alloc: Global, line: &str) -> Result<(), Fault> {
        let (mark, text) = line.split_once(' ').unwrap_or((line, ""));
        match mark {
            "#" => return push_script(alloc, &mut self.script, line),
            ">>" => return push_plain(&mut self.script, text),
            "<<" => return push_plain(&mut self.printed, text),
            _ => {}
        }
        if let Some(count) = mark.strip_prefix('>') {
            let text = spelled(alloc, text)?;
            for _ in 0..times(count)? {
                push_script(alloc, &mut self.script, text.as_str())?;
            }
            return Ok(());
        }
        if let Some(count) = mark.strip_prefix('<') {
            let text = spelled(alloc, text)?;
            for _ in 0..times(count)? {
                push_printed(&mut self.printed, text.as_str())?;
            }
            return Ok(());
        }
        if !line.is_empty() {
            return Err(Fault::Layout("no line of a case"));
        }
        Ok(())
    }

    /// Runs the script, which prints what the case says, line by line.
    pub fn check<R: Runner>(&self, runner: &mut R, alloc: Global, name: &str) -> Result<(), Fault> {
        let mut written = Vec::new(alloc);
        runner.run(alloc, self.script.as_str(), &mut written)?;
        self.compare(alloc, name, &written)
    }

    /// Compares what the script has printed with what the case says, line by line.
    pub fn compare(&self, alloc: Global, name: &str, written: &[u8]) -> Result<(), Fault> {
        let printed = std::str::from_utf8(written).unwrap_or("no UTF-8\n");
        let wanted = self.printed.as_str();
        if printed == wanted {
            Ok(())
        } else {
            Err(differing(alloc, name, wanted, printed)?)
        }
    }
}

/// Where two texts differ first.
fn differing(alloc: Global, name: &str, wanted: &str, printed: &str) -> Result<Fault, Fault> {
    let mut line = 1usize;
    for (wanted, printed) in wanted.lines().zip(printed.lines()) {
        if wanted != printed {
            break;
        }
        line = line.saturating_add(1);
    }
    Ok(Fault::Differs(Difference {
        case: String::from_str(alloc, name)?,
        line,
        wanted: String::from_str(alloc, line_of(wanted, line))?,
        printed: String::from_str(alloc, line_of(printed, line))?,
    }))
}

/// The line with a number, counted from 1, or nothing.
fn line_of(text: &str, number: usize) -> &str {
    text.lines().nth(number.saturating_sub(1)).unwrap_or("")
}

/// Appends a line as it stands.
fn push_plain(lines: &mut String, line: &str) -> Result<(), Fault> {
    lines.push_str(line)?;
    lines.push('\n')?;
    Ok(())
}

/// How often a line stands, of which a mark says so, or once where it says nothing.
fn times(count: &str) -> Result<u16, Fault> {
    if count.is_empty() {
        return Ok(1);
    }
    match count.parse() {
        Ok(times) => Ok(times),
        Err(_) => Err(Fault::Layout("no number of lines")),
    }
}

/// Appends a line of the script, or what goes on with the one above.
fn push_script(alloc: Global, script: &mut String, line: &str) -> Result<(), Fault> {
    if line.starts_with(' ') {
        let _line_feed = script.pop();
    }
    let (line, end) = match line.strip_suffix('\\') {
        None => (line, "\n"),
        Some(front) => (front, ""),
    };
    let line = line.replace(alloc, "\\s", " ")?;
    let line = line.as_str().replace(alloc, "\\t", "\t")?;
    let line = line.as_str().replace(alloc, "\\r", "\r")?;
    script.push_str(line.as_str())?;
    script.push_str(end)?;
    Ok(())
}

/// Appends a printed line, or what goes on with the one above. Bytes, which stand behind a
/// connection's number or `said`, are joined.
fn push_printed(printed: &mut String, line: &str) -> Result<(), Fault> {
    let goes_on = line.starts_with(' ');
    if goes_on {
        let _line_feed = printed.pop();
    }
    let is_parcel = goes_on
        || line.starts_with("said ")
        || line.starts_with(|c: char| c.is_ascii_digit());
    for (place, word) in line.split(' ').enumerate() {
        if (place == 1 && !goes_on) || (1 < place && !is_parcel) {
            printed.push(' ')?;
        }
        printed.push_str(word)?;
    }
    printed.push('\n')?;
    Ok(())
}
