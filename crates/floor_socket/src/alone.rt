//! The administrator's lines, one after another.

use floor_console::run_command;
use floor_listen::ServerFault;
use floor_poll::Server;
use floor_server::{fault_of_keeping, next_command, print, tell};
use std::alloc::Global;
use std::fs::File;
use std::io::{BufReader, Read, Write};
use std::net::Net;
use std::rt::Files;
use std::sync::Wait;
use std::thread::Threads;
use std::time::Clock;

/// Answers each line until the server has stopped. Of what is refused `errors` is told why, where there is
/// more to say than the answer does.
pub fn answer_lines<R, I: Read, O: Write, E: Write>(
    rt: R,
    alloc: Global,
    server: &mut Server<R>,
    input: &mut I,
    output: &mut O,
    errors: &mut E,
) -> Result<(), ServerFault>
where
    R: Net + Files<File = File> + AllocGlobal + Clock + Threads + Wait + Copy + Drop,
{
    let mut reader = BufReader::new(alloc, &mut *input).map_err(|_| ServerFault::Memory)?;
    let mut piece = String::new(alloc);
    for _ in rt.forever() {
        let command = next_command(alloc, &mut reader, &mut piece)?;
        let text = run_command(alloc, server, command)?;
        tell(errors, server.take_told());
        print(output, text.as_str())?;
        if let Some(fault) = server.lost() {
            return Err(fault_of_keeping(fault));
        }
        if server.outcome().is_some() {
            break;
        }
    }
    Ok(())
}
