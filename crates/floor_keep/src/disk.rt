//! What is asked of a file in which a conference is kept.

use std::fs::File;
use std::io;
use std::io::{Seek, SeekFrom, Write};

/// A file that is written behind what stands in it. Its ghost members say what a call that succeeds has done, for
/// whoever is generic over it: the system says nothing of its own files.
pub trait Disk: Write {
    ghost use Rattle.std.specs.Prelude.{◌≡◌, ℕ, OnOk};

    /// What was written was asked of the disk.
    ghost is_synced: { Self → Type 0 };

    /// Nothing stands behind so many bytes.
    ghost is_cut: { ℕ → Self → Type 0 };

    /// No reader takes it for a journal that goes on.
    ghost is_spoiled: { Self → Type 0 };

    /// Asks the disk for what was written, and waits for that.
    fn sync(&mut self) -> io::Result<()>
        ensures synced { OnOk result (is_synced self.new) }
        ensures same { Self.contents self.new ≡ Self.contents self.old };

    /// Cuts all behind so many bytes off, and goes on there.
    fn cut(&mut self, len: u64) -> io::Result<()>
        ensures cut { OnOk result (is_cut len self.new) };

    /// Writes over the first byte, so that nobody takes the file for a journal that goes on. What is written
    /// behind that stands anywhere.
    fn spoil(&mut self) -> io::Result<()>
        ensures spoiled { OnOk result (is_spoiled self.new) };
}

impl Disk for File {
    ghost is_synced = { λ _. Unit {0} };

    ghost is_cut = { λ _ _. Unit {0} };

    ghost is_spoiled = { λ _. Unit {0} };

    fn sync(&mut self) -> io::Result<()> {
        self.sync_data()
    }

    fn cut(&mut self, len: u64) -> io::Result<()> {
        self.set_len(len)?;
        let _at = self.seek(SeekFrom::Start(len))?;
        Ok(())
    }

    fn spoil(&mut self) -> io::Result<()> {
        let _at = self.seek(SeekFrom::Start(0))?;
        self.write_all(b"!")
    }
}
