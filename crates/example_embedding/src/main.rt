//! Programs that have a part of the server or a client in them, each to begin from: a hub of all
//! conferences, one conference's machine, and a client. Where they would have sockets, these have
//! bytes of their own, and print what is sent and heard.
#![tactic(auto)]

mod client;
mod conference;
mod fault;
mod hub;

use fault::Fault;
use std::alloc::Global;
use std::io::Write;
use std::process::ExitCode;

fn main(rt: HostRuntime) -> ExitCode {
    match show(rt.alloc(), &mut rt.stdout()) {
        Ok(()) => ExitCode::SUCCESS,
        Err(fault) => {
            let _outcome = writeln!(rt.stderr(), "example_embedding: {fault}");
            ExitCode::from(1)
        }
    }
}

/// Runs one after another.
fn show<W: Write>(alloc: Global, output: &mut W) -> Result<(), Fault> {
    hub::serve_two(alloc, output)?;
    client::ask(alloc, output)
}
