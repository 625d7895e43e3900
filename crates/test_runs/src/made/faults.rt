//! Readers and writers that fail.

use floor_script as script;
use std::alloc::Global;
use std::io;
use std::io::{Read, Write};
use test_cases::Fault;

/// Gives its bytes, and then a fault.
#[derive(Drop)]
struct FailingReader {
    bytes: &'static [u8],
}

impl Read for FailingReader {
    fn read(&mut self, buffer: &mut [u8]) -> io::Result<usize> {
        if self.bytes.is_empty() || buffer.is_empty() {
            return Err(io::ErrorKind::Other.into());
        }
        buffer[0] = self.bytes[0];
        self.bytes = &self.bytes[1..];
        Ok(1)
    }
}

/// Takes no byte.
#[derive(Drop)]
struct FailingWriter;

impl Write for FailingWriter {
    fn write(&mut self, _buffer: &[u8]) -> io::Result<usize> {
        Err(io::ErrorKind::Other.into())
    }

    fn flush(&mut self) -> io::Result<()> {
        Ok(())
    }
}

/// A reader that fails, one whose bytes are no UTF-8, and a writer that fails: each ends the run
/// with status 1, and nothing is printed.
pub fn run(alloc: Global) -> Result<usize, Fault> {
    let mut written: Vec<u8> = Vec::new(alloc);
    let mut reader = FailingReader {
        bytes: b"attach 1 10\n",
    };
    let mut not_utf8: &[u8] = b"attach 1 10\n\xff\n";
    let mut script = "attach 1 10\n".as_bytes();
    let statuses = [
        script::run(alloc, &mut reader, &mut written),
        script::run(alloc, &mut not_utf8, &mut written),
        script::run(alloc, &mut script, &mut FailingWriter),
    ];
    if statuses != [1, 1, 1] || !written.is_empty() {
        return Err(Fault::Wrong("a run whose reader or writer fails"));
    }
    Ok(statuses.len())
}
