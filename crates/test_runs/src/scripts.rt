//! Scripts of floorsim.

use floor_script::run;
use std::alloc::Global;
use test_cases::{Fault, Runner};

/// Runs scripts as floorsim does.
#[derive(Drop)]
pub struct Scripts;

impl Runner for Scripts {
    fn run(&mut self, alloc: Global, script: &str, printed: &mut Vec<u8>) -> Result<(), Fault> {
        let status = run(alloc, &mut script.as_bytes(), printed);
        if status == status_behind(printed) {
            Ok(())
        } else {
            Err(Fault::Wrong("another status"))
        }
    }
}

/// The status with which a script ends that has printed this.
fn status_behind(printed: &[u8]) -> u8 {
    match std::str::from_utf8(printed).unwrap_or("").lines().last() {
        Some(line) if line.starts_with("error ") => 2,
        _ => 0,
    }
}
