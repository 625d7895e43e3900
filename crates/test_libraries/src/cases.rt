//! Cases that stand in one text, and texts that are told and wanted.

use floor_words::read_u16;
use std::alloc::{AllocError, Global};
use std::fmt::{Display, Write};
use std::process::Abort;

/// The cases of a text, of which something else is told than is wanted, each with what is told, and
/// how many cases the text has.
///
/// A case is what is asked, the sign, and what is wanted. Between two cases stands `between`.
pub fn differing<F: FnMut(Global, &str) -> Result<String, AllocError>>(
    alloc: Global,
    text: &str,
    between: &str,
    sign: &str,
    mut tell: F,
) -> Result<String, AllocError>
    requires { F.IsAlwaysCallable tell }
{
    let mut lines = String::new(alloc);
    let mut count = 0u32;
    for case in text.split(between) {
        let (asked, wanted) = case.split_once(sign).unwrap_or((case, ""));
        let told = tell(alloc, asked)?;
        if told.as_str() != wanted {
            write!(lines, "{case}, and not {told}\n")?;
        }
        count = count.saturating_add(1);
    }
    write!(lines, "{count} cases")?;
    Ok(lines)
}

/// A text is told, and it is the one that is wanted.
pub fn assert_told(rt: &impl Abort, told: Result<String, AllocError>, wanted: &str) {
    match told {
        Ok(told) => assert_eq!(rt; told.as_str(), wanted),
        Err(_) => assert!(rt; false, "no memory"),
    }
}

/// Appends a blank, and the value, or `-` where there is none.
pub fn push_shown<T: Display + Drop>(
    text: &mut String,
    value: Option<T>,
) -> Result<(), AllocError> {
    match value {
        None => text.push_str(" -"),
        Some(value) => write!(text, " {value}"),
    }
}

/// What stands between the bars of a case, at this place from 0.
pub fn part(case: &str, place: usize) -> &str {
    case.split('|').nth(place).unwrap_or("").trim()
}

/// The number that a word writes, or 0.
pub fn number(word: &str) -> u16 {
    read_u16(word).unwrap_or(0)
}

/// The word of a line at this place from 0.
pub fn nth_word(line: &str, place: usize) -> &str {
    line.split(' ').nth(place).unwrap_or("")
}

/// A text with a bar for each line feed.
pub fn barred(alloc: Global, text: &str) -> Result<String, AllocError> {
    let mut out = String::new(alloc);
    for character in text.chars() {
        out.push(if character == '\n' { '|' } else { character })?;
    }
    Ok(out)
}
