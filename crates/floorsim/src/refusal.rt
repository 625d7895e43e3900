//! Where a refused configuration has its fault.

use floor_diagnosis::diagnose;
use floor_words::cut_line;
use std::alloc::Global;
use std::io::Write;

/// The line that ends a configuration.
const DIVIDER: &str = "---";

/// How many lines a configuration is looked for in at most.
const MAX_LINES: u32 = 100_000_000;

/// Tells `errors` where the configuration of a text has its fault, where it has one. Without memory it tells
/// nothing: the fault's name was printed.
pub fn tell_place<E: Write>(alloc: Global, bytes: &[u8], errors: &mut E) {
    let Ok(text) = std::str::from_utf8(bytes) else {
        return;
    };
    let Some(configuration) = configuration_of(text) else {
        return;
    };
    match diagnose(alloc, configuration) {
        Ok(Some(found)) => {
            let _written = writeln!(errors, "{}", found.line.as_str());
        }
        Ok(None) | Err(_) => {}
    }
}

/// What stands before the first line that is the divider; `None` where there is none.
fn configuration_of(text: &str) -> Option<&str> {
    let mut rest = text;
    for _ in 0..MAX_LINES {
        let cut = cut_line(rest)?;
        if cut.line == DIVIDER {
            return text.get(..text.len().saturating_sub(rest.len()));
        }
        rest = cut.rest;
    }
    None
}
