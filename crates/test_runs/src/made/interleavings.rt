//! Two interleavings that give a conference the same events, each as one whole run of the hub.

use floor_config::read_configs;
use floor_hub as hub;
use floor_hub::{Step, Transcript};
use floor_script::{Command, parse_line};
use std::alloc::Global;
use test_cases::Fault;

const CONFIGURATION: &str = "[[conference]]
id = 1
[[conference.user]]
id = 10
[[conference.user]]
id = 11
[[conference.floor]]
id = 1
[[conference]]
id = 2
[[conference.user]]
id = 10
[[conference.floor]]
id = 1
";

/// Users 10 and 11 of conference 1 ask for its floor, and 10 leaves.
const ALONE: &str = "attach 1 10
attach 1 11
send 1 20010001 00000001 0002 000a 04040001
send 2 20010001 00000001 0001 000b 04040001
leave 1";

/// The same beside conference 2, in which a message is said for a user, and which closes in the midst of another.
const BESIDE_ANOTHER: &str = "attach 2 10
say 2 10 20010001 00000002 0003 000a 04040001
attach 1 10
send 1 20010001 00000002 0001 000a 04040001
attach 1 11
piece 2 20010001 00
close 2
piece 2 000001 0002 000a 04040001
serve 2
send 3 20010001 00000001 0001 000b 04040001
leave 2";

/// What both queue to the connections of conference 1: the number of each, and all its bytes.
const QUEUED: &str = "\
1 20040007000000010002000a1e1c0001240800010a040300220800010a0403001c04000a08044000
2 20040007000000010001000b1e1c0002240800020a040201220800010a0402011c04000b08044000\
20040007000000010000000b1e1c0002240800020a040300220800010a0403001c04000b08044000
";

/// Puts the steps of a line of a script.
fn push_steps(alloc: Global, steps: &mut Vec<Step>, line: &str) -> Result<(), Fault> {
    match parse_line(alloc, line) {
        Ok(Command::Attach { conference, user }) => steps.push(Step::Attach { conference, user })?,
        Ok(Command::Piece { connection, bytes }) => steps.push(Step::Piece {
            number: connection,
            bytes,
        })?,
        Ok(Command::Serve { connection }) => steps.push(Step::Serve(connection))?,
        Ok(Command::Send { connection, bytes }) => {
            steps.push(Step::Piece {
                number: connection,
                bytes,
            })?;
            steps.push(Step::Serve(connection))?;
        }
        Ok(Command::Leave { connection }) => steps.push(Step::Leave(connection))?,
        Ok(Command::Admin { conference, act }) => steps.push(Step::Admin { conference, act })?,
        Ok(
            Command::Say {
                conference,
                user,
                message,
            },
        ) => steps.push(Step::Say {
            conference,
            user,
            message,
        })?,
        Ok(Command::Slow { .. } | Command::Fast { .. }) | Err(_) => {
            return Err(Fault::Layout("another line"));
        }
    }
    Ok(())
}

/// The steps of a script, after both conferences have opened.
fn steps_of(alloc: Global, script: &str) -> Result<Vec<Step>, Fault> {
    let mut steps = Vec::new(alloc);
    let Ok(configs) = read_configs(alloc, CONFIGURATION) else {
        return Err(Fault::Layout("no configuration"));
    };
    for config in configs {
        steps.push(Step::Open(config))?;
    }
    for line in script.lines() {
        push_steps(alloc, &mut steps, line)?;
    }
    Ok(steps)
}

/// What a transcript has queued to the connections of conference 1, a line for each.
fn queued_to_conference_1(alloc: Global, transcript: &Transcript) -> Result<String, Fault> {
    let mut text = String::new(alloc);
    for entry in transcript.queued.as_slice() {
        if entry.conference == 1 {
            let bytes = hex::encode(alloc, entry.bytes.as_slice())?;
            let line = format!(in alloc; "{} {}\n", entry.n, bytes.as_str())?;
            text.push_str(line.as_str())?;
        }
    }
    Ok(text)
}

/// Both interleavings queue the same bytes to the connections of conference 1.
pub fn run(alloc: Global) -> Result<usize, Fault> {
    check(alloc, ALONE)?;
    check(alloc, BESIDE_ANOTHER)?;
    Ok(2)
}

/// A run of a script answers each step, and queues the bytes.
fn check(alloc: Global, script: &str) -> Result<(), Fault> {
    let steps = steps_of(alloc, script)?;
    let Ok(transcript) = hub::run(alloc, &steps) else {
        return Err(Fault::Wrong("a run that ends early"));
    };
    if transcript.answers.as_slice().len() != steps.len() {
        return Err(Fault::Wrong("no answer for each step"));
    }
    let queued = queued_to_conference_1(alloc, &transcript)?;
    if queued.as_str() != QUEUED {
        return Err(Fault::Wrong("what an interleaving queues"));
    }
    Ok(())
}
