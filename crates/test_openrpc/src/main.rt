//! Writes the methods as OpenRPC describes them, once each request that the table allows was read, and each with one thing
//! wrong refused as the table says.
//!
//! docs/openrpc.json is what it writes, laid out (`.ci/documents`). Status 1 where a request is read otherwise than the
//! table says, which standard error names.
#![tactic(auto)]

mod document;
mod shapes;
mod table;
mod trying;

use std::alloc::AllocError;
use std::process::ExitCode;

fn main(rt: HostRuntime) -> ExitCode {
    match run(rt) {
        Ok(true) => ExitCode::SUCCESS,
        Ok(false) | Err(_) => ExitCode::from(1),
    }
}

/// Tries the table, and writes what it says. Says whether it is right.
fn run(rt: HostRuntime) -> Result<bool, AllocError> {
    let mut wrong = String::new(rt.alloc());
    trying::try_all(rt.alloc(), &mut wrong)?;
    let mut text = String::new(rt.alloc());
    document::write_document(rt.alloc(), &mut text)?;
    let _written = print!(rt; "{text}");
    let _told = rt.eprint(wrong.as_str());
    Ok(wrong.is_empty())
}
