//! Lines at random.

use crate::Scratch;
use crate::tests::lines::written;
use std::alloc::{AllocError, Global};
use std::rt::HostRuntime;

/// What lines at random are made of.
const PARTS: [&str; 40] = [
    "{",
    "}",
    "[",
    "]",
    ":",
    ",",
    "\"",
    "\\",
    "\\u00",
    "1",
    "0",
    "-",
    ".",
    "e",
    "null",
    "true",
    "false",
    " ",
    "\"id\":",
    "\"jsonrpc\":\"2.0\"",
    "\"method\":",
    "\"params\":",
    "\"conference\":",
    "\"user\":",
    "\"floors\":",
    "\"request\":",
    "\"users\":",
    "\"watch\"",
    "\"conference.open\"",
    "\"member.remove\"",
    "\"request.create\"",
    "\"word.set\"",
    "\"toml\":",
    "\"key\":",
    "\"text\":",
    "65535",
    "65536",
    "4294967296",
    "\u{e9}",
    "{\"id\":1,\"method\":\"request.create\",\"params\":{\"conference\":7,\"for\":3,\"floors\":[1]}}",
];

/// The next number of a sequence that looks like chance.
fn next(seed: u64) -> u64 {
    seed.wrapping_mul(6364136223846793005)
        .wrapping_add(1442695040888963407)
}

/// How many of so many lines at random are answered, or are asked for something.
fn read_at_random(alloc: Global, count: u32) -> Result<u32, AllocError> {
    let mut scratch = Scratch::new(alloc);
    let mut line = Vec::new(alloc);
    let mut seed = 20261129u64;
    let mut read = 0u32;
    for _ in 0..count {
        line.clear();
        seed = next(seed);
        let parts = (seed >> 33) % 16;
        for _ in 0..parts {
            seed = next(seed);
            let part = PARTS[((seed >> 33) % 40) as usize];
            line.extend_from_slice(part.as_bytes())?;
        }
        let out = written(alloc, &mut scratch, &line)?;
        if !out.is_empty() {
            read = read.saturating_add(1);
        }
    }
    Ok(read)
}

#[test]
fn each_line_at_random_is_answered(rt: HostRuntime) -> Result<(), AllocError> {
    assert_eq!(rt; read_at_random(rt.alloc(), 10_000)?, 10_000);
    Ok(())
}
