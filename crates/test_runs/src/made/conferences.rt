//! Many conferences, whose connections come and leave.

use crate::scripts::Scripts;
use std::alloc::{AllocError, Global};
use test_cases::{Case, Fault};

/// How many conferences are open at once.
const CONFERENCES: u32 = 1_000;

/// What a Hello's answer has behind its header.
const SUPPORTED: &str = "160f0102030405060708090a0b0c0d001414020406080a0c0e10121416181a1c1e202224";

/// Puts the lines of a connection that attaches, says Hello and, where it goes, leaves.
fn push_connection(
    alloc: Global,
    case: &mut Case,
    conference: u32,
    connection: u32,
) -> Result<(), AllocError> {
    let id = hex::encode(alloc, &conference.to_be_bytes())?;
    let id = id.as_str();
    let lines = format!(in alloc;
        "attach {conference} 10\nsend {connection} 200b0000{id}0001000a\nleave {connection}\n"
    )?;
    case.script.push_str(lines.as_str())?;
    let answers = format!(in alloc;
        "attached {connection}\n{connection} 200c0009{id}0001000a{SUPPORTED}\n"
    )?;
    case.printed.push_str(answers.as_str())
}

/// The configuration of all conferences.
fn push_configuration(alloc: Global, script: &mut String) -> Result<(), AllocError> {
    for conference in 1..CONFERENCES + 1 {
        let table = format!(in alloc;
            "[[conference]]\nid = {conference}\n[[conference.user]]\nid = 10\n"
        )?;
        script.push_str(table.as_str())?;
    }
    script.push_str("---\n")
}

/// Two connections of each conference, one after the other.
pub fn run(alloc: Global) -> Result<usize, Fault> {
    let mut case = Case::new(alloc, "")?;
    push_configuration(alloc, &mut case.script)?;
    for connection in 1..2 * CONFERENCES + 1 {
        let conference = (connection - 1) % CONFERENCES + 1;
        push_connection(alloc, &mut case, conference, connection)?;
    }
    case.check(&mut Scripts, alloc, "connections of 1,000 conferences")?;
    Ok(1)
}
