//! Cases that are made by code, and what no case says: what is acknowledged by the calls of a hub,
//! readers and writers that fail, a conference that is forgotten, interleavings, refusals of the hub that no
//! line meets, and how its conferences stand.

mod acknowledgements;
mod conferences;
mod cuts;
mod faults;
mod forgotten;
mod interleavings;
mod limits;
mod long_messages;
mod refusals;
mod statuses;

use std::alloc::Global;
use std::io::Write;
use test_cases::Fault;

/// Runs all cases that are made, and prints how many of each kind there are.
pub fn run_made<W: Write>(alloc: Global, output: &mut W) -> Result<(), Fault> {
    print_count(output, "acknowledgements", acknowledgements::run(alloc)?)?;
    print_count(output, "conferences", conferences::run(alloc)?)?;
    print_count(output, "cuts", cuts::run(alloc)?)?;
    print_count(output, "faults", faults::run(alloc)?)?;
    print_count(output, "forgotten", forgotten::run(alloc)?)?;
    print_count(output, "interleavings", interleavings::run(alloc)?)?;
    print_count(output, "limits", limits::run(alloc)?)?;
    print_count(output, "long_messages", long_messages::run(alloc)?)?;
    print_count(output, "refusals", refusals::run(alloc)?)?;
    print_count(output, "statuses", statuses::run(alloc)?)
}

fn print_count<W: Write>(output: &mut W, kind: &str, count: usize) -> Result<(), Fault> {
    writeln!(output, "made/{kind} {count}")?;
    Ok(())
}
