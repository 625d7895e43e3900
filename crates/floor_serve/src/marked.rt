//! Where the loops read and write bytes, and the mark that a read or a write failed.

ghost use Rattle.std.specs.Prelude.{◌≡◌, ℕ, ◌<◌, ◌≤◌, List, length, take, Bool, true, false, Option, IfSome, IfNone};
ghost use Rattle.std.specs.Io.KnownBytes.{Appends, Consumes, IsAtEnd, Keeps};

use std::io::{Read, Write};

/// Gives bytes until it fails. A mark says whether it did.
pub trait Source {
    /// The bytes that it will give, where they are known.
    ghost remaining: { Self → Option (List ℕ) };

    ghost marked: { Self → Bool };

    /// Fills a beginning of the buffer, and gives its length, which is 0 at the end alone. `None`
    /// sets the mark.
    fn read(&mut self, buffer: &mut [u8]) -> Option<usize>
        requires unmarked { marked self.old ≡ false }
        requires room { 0 < length buffer.old }
        ensures some { IfSome result (λ count. (count ≤ length buffer.new)
            × Consumes (remaining self.old) (remaining self.new) (take count buffer.new)
            × (count ≡ 0 → IsAtEnd (remaining self.new))
            × (marked self.new ≡ false)) }
        ensures none { IfNone result (Keeps (remaining self.old) (remaining self.new)
            × (marked self.new ≡ true)) };

    /// Whether a read failed.
    fn failed(&self) -> bool
        ensures { result ≡ marked self.now };
}

/// Takes bytes until it fails. A mark says whether it did.
pub trait Sink {
    /// The bytes that it holds, where they are known.
    ghost contents: { Self → Option (List ℕ) };

    ghost marked: { Self → Bool };

    /// Writes a beginning of the bytes, and gives its length, which is 0 for no bytes alone. `None`
    /// sets the mark.
    fn write(&mut self, bytes: &[u8]) -> Option<usize>
        requires { marked self.old ≡ false }
        ensures some { IfSome result (λ count. (count ≤ length bytes.now)
            × (0 < length bytes.now → 0 < count)
            × Appends (contents self.old) (contents self.new) (take count bytes.now)
            × (marked self.new ≡ false)) }
        ensures none { IfNone result (Keeps (contents self.old) (contents self.new)
            × (marked self.new ≡ true)) };

    /// Whether a write failed.
    fn failed(&self) -> bool
        ensures { result ≡ marked self.now };
}

/// A reader or a writer, with the mark that it failed. An interrupted read or write is a failure
/// like any other, and so is a write that takes none of the bytes.
#[derive(Drop)]
pub struct Marked<W> {
    inner: W,
    failed: bool,
}

impl<W> Marked<W> {
    /// The reader or writer, which hasn't failed.
    pub fn new(inner: W) -> Marked<W>
        ensures inner { result.inner ≡ inner }
        ensures unmarked { result.failed ≡ false }
    {
        Marked {
            inner,
            failed: false,
        }
    }

    /// The reader or writer without its mark.
    pub fn into_inner(self) -> W
        ensures { result ≡ self.inner }
    {
        let Marked { inner, failed: _ } = self;
        inner
    }
}

impl<W: Read> Source for Marked<W> {
    ghost remaining = { λ m. W.remaining m.inner };

    ghost marked = { λ m. m.failed };

    fn read(&mut self, buffer: &mut [u8]) -> Option<usize> {
        match self.inner.read(buffer) {
            Ok(count) => Some(count),
            Err(_) => {
                self.failed = true;
                None
            }
        }
    }

    fn failed(&self) -> bool {
        self.failed
    }
}

impl<W: Write> Sink for Marked<W> {
    ghost contents = { λ m. W.contents m.inner };

    ghost marked = { λ m. m.failed };

    fn write(&mut self, bytes: &[u8]) -> Option<usize> {
        match self.inner.write(bytes) {
            Ok(count) if count > 0 || bytes.is_empty() => Some(count),
            Ok(_) => {
                self.failed = true;
                None
            }
            Err(_) => {
                self.failed = true;
                None
            }
        }
    }

    fn failed(&self) -> bool {
        self.failed
    }
}
