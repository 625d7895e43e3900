//! A program that takes part in a conference: a client.

use crate::conference::answers;
use crate::fault::Fault;
use floor_client::{Ask, Client, Numbers, render};
use floor_wire::Framer;
use std::alloc::Global;
use std::io::Write;

/// The priority of a floor request that says none (RFC 8855, section 5.2.4).
const NORMAL: u8 = 2;

/// User 10 of conference 1 asks for floor 1, and prints what is heard. Where a client has a socket,
/// this one has a conference beside it. That a question fits a message is asked of the caller, who
/// tests it by `ask_fits` where its texts and numbers come from elsewhere.
pub fn ask<W: Write>(alloc: Global, output: &mut W) -> Result<(), Fault> {
    let mut client = Client::new(alloc, 1, 10);
    let message = client.ask(Ask::FloorRequest {
        beneficiary: None,
        floors: Numbers::from_vec(vec![in alloc; 1]?),
        priority: NORMAL,
        info: None,
    })?;
    let mut framer = Framer::new(alloc);
    framer.push(answers(alloc, &message)?.as_slice())?;
    for _ in 0..u64::MAX {
        let Some(frame) = framer.next()? else {
            break;
        };
        let heard = client.heard(&frame)?;
        writeln!(output, "{}", render(alloc, &heard)?.as_str())?;
    }
    Ok(())
}
