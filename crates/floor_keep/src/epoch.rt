//! The epoch of a folder: a number by which whoever gives the folder to another server fences the one that had it.

ghost use Rattle.std.specs.Prelude.{◌≡◌, ◌≢◌, Err, IfErr, IfOk, IfSome, IsOk, Ok, ℕ};
ghost use Rattle.std.specs.Str.Parse.{IsNumeral, digits_value};
ghost use Rattle.floor_keep.specs.Epochs.{IsEpoch, IsFirst};
ghost use Rattle.floor_keep.specs.declared.fault.KeepFault.TheVariants.{Lost};

use crate::fault::{KeepFault, fault_of};
use crate::file::check_plain;
use std::alloc::{AllocError, Global};
use std::fs::File;
use std::io::ErrorKind;
use std::os::unix::fs::{FileExt, MetadataExt};
use std::rt::Files;
use std::sync::Arc;
use std::{fs, io};

/// Behind how many bytes a file has no epoch: a number of 64 bits and a line feed have 21.
const MAX_LEN: usize = 32;

/// How often a call is made again that a signal has interrupted.
const MAX_TRIES: u32 = 100;

/// What reads an epoch as it is now.
pub(crate) trait Epoch {
    ghost use Rattle.std.specs.Prelude.{◌≢◌, IfErr, Result, ℕ};
    ghost use Rattle.floor_keep.specs.declared.fault.KeepFault.{KeepFault as Fault};
    ghost use Rattle.floor_keep.specs.declared.fault.KeepFault.TheVariants.{Lost};

    /// What it has now: an epoch, or why none can be read.
    ghost is_now: { Self → Result ℕ Fault → Type 0 };

    /// The epoch; 0 where there is no file. Refused by anything but `Lost` where it can't be read.
    fn read_epoch(&mut self) -> Result<u64, KeepFault>
        ensures value { is_now self.new result }
        ensures fenced { IfErr result (λ fault. fault ≢ Lost) };
}

/// The file that had the epoch when it was opened, and which one it is. As long as it is open no other file is this
/// one, whatever the epoch's name leads to.
#[derive(Drop)]
pub(crate) struct Held {
    file: Arc<File, Global>,
    dev: u64,
    ino: u64,
}

impl Held {
    /// The same for another loop. Takes no descriptor.
    pub(crate) fn copy(&self) -> Result<Held, AllocError> {
        Ok(Held {
            file: Arc::try_clone(&self.file)?,
            dev: self.dev,
            ino: self.ino,
        })
    }
}

/// The file of a folder's epoch. It is opened once, and again only where another file has its name.
#[derive(Drop)]
pub(crate) struct EpochFile<'a, R> {
    pub rt: &'a R,
    pub alloc: Global,
    pub path: &'a str,
    /// The file as it was read last.
    pub held: Option<Held>,
}

impl<'a, R: Files<File = File>> Epoch for EpochFile<'a, R> {
    ghost is_now = { λ _ _. Unit {0} };

    fn read_epoch(&mut self) -> Result<u64, KeepFault> {
        for _ in 0..MAX_TRIES {
            match self.read_once() {
                Ok(Some(epoch)) => return Ok(epoch),
                Ok(None) => return Err(KeepFault::CannotKeep),
                Err(error) if error.kind() == ErrorKind::Interrupted => {}
                Err(error) if error.kind() == ErrorKind::NotFound => return Ok(0),
                Err(error) => return Err(fault_of(&error)),
            }
        }
        Err(KeepFault::CannotKeep)
    }
}

impl<'a, R: Files<File = File>> EpochFile<'a, R> {
    /// The epoch, where the file has one.
    fn read_once(&mut self) -> io::Result<Option<u64>> {
        let found = fs::metadata(self.rt, self.path)?;
        match &self.held {
            Some(held) if held.dev == found.dev() && held.ino == found.ino() => {
                epoch_in(&*held.file)
            }
            _ => self.read_new(),
        }
    }

    /// The same of a file that isn't open yet, which is open then.
    fn read_new(&mut self) -> io::Result<Option<u64>> {
        check_plain(self.rt, self.path)?;
        let file = File::open(self.rt, self.path)?;
        let found = file.metadata()?;
        let epoch = epoch_in(&file);
        self.held = Some(Held {
            file: Arc::new(self.alloc, file)?,
            dev: found.dev(),
            ino: found.ino(),
        });
        epoch
    }
}

/// The epoch that a file has.
fn epoch_in(file: &File) -> io::Result<Option<u64>> {
    let mut buffer = [0u8; MAX_LEN];
    let len = file.read_at(&mut buffer, 0)?;
    if MAX_LEN <= len {
        return Ok(None);
    }
    Ok(epoch_of(buffer.get(..len).unwrap_or(&[])))
}

/// The epoch that bytes say: a decimal number of 64 bits, with a line feed or without.
pub(crate) fn epoch_of(bytes: &[u8]) -> Option<u64>
    ensures found { IfSome result (IsEpoch bytes.now) }
{
    let text = std::str::from_utf8(bytes).ok()?;
    number_of(text.strip_suffix('\n').unwrap_or(text))
}

/// The number that a word says by digits alone.
#[tactic(auto, using(crate::proofs::Epochs::bare))]
fn number_of(word: &str) -> Option<u64>
    ensures found { IfSome result (λ epoch.
        IsNumeral 10 word.now × (digits_value 10 word.now ≡ epoch)) }
{
    if word.starts_with('+') {
        return None;
    }
    word.parse::<u64>().ok()
}

/// The epoch at the start. Refused by `Lost` where it isn't the one that it has to be, and by another fault where it
/// can't be read.
pub(crate) fn first_epoch<E: Epoch>(source: &mut E, wanted: Option<u64>) -> Result<u64, KeepFault>
    ensures value { IfOk result (λ epoch. E.is_now source.new (Ok epoch) × IsFirst wanted epoch) }
    ensures lost { result ≡ Err Lost
        → (now : ℕ) × E.is_now source.new (Ok now) × ¬ (IsFirst wanted now) }
    ensures unread { IfErr result (λ fault. fault ≢ Lost → E.is_now source.new (Err fault)) }
{
    let now = source.read_epoch()?;
    match wanted {
        Some(wanted) if now != wanted => Err(KeepFault::Lost),
        _ => Ok(now),
    }
}

/// Whether the epoch is this one still, which is read anew. Refused by `Lost` where it is another one, and by another
/// fault where it can't be read.
pub(crate) fn confirm<E: Epoch>(source: &mut E, epoch: u64) -> Result<(), KeepFault>
    ensures value { IsOk result → E.is_now source.new (Ok epoch) }
    ensures lost { result ≡ Err Lost
        → (now : ℕ) × E.is_now source.new (Ok now) × (now ≢ epoch) }
    ensures unread { IfErr result (λ fault. fault ≢ Lost → E.is_now source.new (Err fault)) }
{
    let now = source.read_epoch()?;
    if now == epoch {
        Ok(())
    } else {
        Err(KeepFault::Lost)
    }
}
