//! The folder's start: it is locked, looked at, and the files of the conferences that go on are read one after another.

ghost use Rattle.std.specs.Prelude.{◌≡◌, IfOk, IfSome, None, OnErr, OnOk, [], false, is_some};
ghost use Rattle.floor_keeping.specs.Deeds.{conference_of, reads_epoch};
ghost use Rattle.floor_keeping.specs.Folder as spec;
ghost use Rattle.floor_keeping.specs.declared.folder.Stage.TheVariants as stage;

use crate::deed::Deed;
use std::alloc::{AllocError, Global};
use std::collections::VecDeque;
use std::marker::Model;

/// How far the folder's start is.
#[derive(Clone, Copy, Debug, PartialEq, Eq)]
pub(crate) enum Stage {
    /// Nothing was done.
    New,
    /// It is to be locked: that is awaited.
    Locking,
    /// It is locked for this process.
    Locked,
    /// What is in it is awaited.
    Finding,
    /// That is known.
    Found,
}

/// The folder's start.
#[derive(Drop)]
pub(crate) struct Folder {
    stage: Stage,
    /// The conferences whose files are to be read.
    unread: VecDeque<u32>,
    /// The one whose file is read. One is at a time: our choice, since a file is in memory as a whole meanwhile.
    reading: Option<u32>,
}

impl Model for Folder {
    ghost use Rattle.floor_keeping.specs.Folder.{Folder};

    ghost Value = { Folder };

    ghost view = { λ f. record { stage = f.stage; unread = f.unread.items; reading = f.reading } };
}

impl Folder {
    /// Nothing was done. Takes no memory.
    pub(crate) fn new(alloc: Global) -> Folder
        ensures value { result ≡ record { stage = stage.New; unread = []; reading = None } }
    {
        Folder {
            stage: Stage::New,
            unread: VecDeque::new(alloc),
            reading: None,
        }
    }

    /// Whether it was looked at, and all of its files were read.
    pub(crate) fn is_ready(&self) -> bool
        ensures value { result ≡ spec.is_ready self.now }
    {
        match self.stage {
            Stage::Found => self.reading.is_none() && self.unread.is_empty(),
            Stage::New | Stage::Locking | Stage::Locked | Stage::Finding => false,
        }
    }

    /// Whether it is locked for this process.
    pub(crate) fn is_locked(&self) -> bool
        ensures value { result ≡ spec.is_locked self.now.stage }
    {
        match self.stage {
            Stage::New | Stage::Locking => false,
            Stage::Locked | Stage::Finding | Stage::Found => true,
        }
    }

    /// Whether that is awaited.
    pub(crate) fn is_locking(&self) -> bool
        ensures value { result ≡ spec.is_locking self.now.stage }
    {
        match self.stage {
            Stage::Locking => true,
            Stage::New | Stage::Locked | Stage::Finding | Stage::Found => false,
        }
    }

    /// Whether what is in it is awaited.
    pub(crate) fn is_finding(&self) -> bool
        ensures value { result ≡ spec.is_finding self.now.stage }
    {
        match self.stage {
            Stage::Finding => true,
            Stage::New | Stage::Locking | Stage::Locked | Stage::Found => false,
        }
    }

    /// Whether anything is to be done of it.
    pub(crate) fn is_waiting(&self) -> bool
        ensures value { result ≡ is_some (spec.next_of self.now) }
    {
        match self.stage {
            Stage::New | Stage::Locked => true,
            Stage::Locking | Stage::Finding => false,
            Stage::Found => self.reading.is_none() && !self.unread.is_empty(),
        }
    }

    /// What is to be done of it next.
    pub(crate) fn next(&mut self) -> Option<Deed>
        ensures value { result ≡ spec.next_of self.old }
        ensures next { self.new ≡ spec.asked self.old }

        ensures of_folder { IfSome result (λ d. conference_of d ≡ None) }
        ensures behind { IfSome result (λ d. reads_epoch d ≡ false) }
    {
        match self.stage {
            Stage::New => {
                self.stage = Stage::Locking;
                Some(Deed::Lock)
            }
            Stage::Locked => {
                self.stage = Stage::Finding;
                Some(Deed::Find)
            }
            Stage::Found => self.read_next(),
            Stage::Locking | Stage::Finding => None,
        }
    }

    /// The next file is to be read, unless one is.
    fn read_next(&mut self) -> Option<Deed>
        ensures value { result ≡ spec.read_next self.old.reading self.old.unread }
        ensures next { self.old.stage ≡ stage.Found
            → self.new ≡ spec.reads_next self.old.reading self.old.unread }
    {
        if self.reading.is_some() {
            return None;
        }
        let conference = self.unread.pop_front()?;
        self.reading = Some(conference);
        Some(Deed::ReadFile(conference))
    }

    /// It is locked, where that was awaited.
    pub(crate) fn locked(&mut self)
        ensures next { self.new ≡ spec.locked self.old }
    {
        match self.stage {
            Stage::Locking => self.stage = Stage::Locked,
            Stage::New | Stage::Locked | Stage::Finding | Stage::Found => {}
        }
    }

    /// These are the conferences that go on, where that was awaited. After an error nothing has changed.
    pub(crate) fn found(&mut self, alloc: Global, conferences: &[u32]) -> Result<(), AllocError>
        ensures took { OnOk result (self.new ≡ spec.found conferences.now self.old) }
        ensures left { OnErr result (self.new ≡ self.old) }
    {
        match self.stage {
            Stage::Finding => {}
            Stage::New | Stage::Locking | Stage::Locked | Stage::Found => return Ok(()),
        }
        self.unread = queue_of(alloc, conferences)?;
        self.stage = Stage::Found;
        Ok(())
    }

    /// The file of a conference was read, or couldn't be. Says whether it was awaited.
    pub(crate) fn read(&mut self, conference: u32) -> bool
        ensures value { result ≡ spec.is_reading conference self.old }
        ensures next { self.new ≡ spec.read conference self.old }
    {
        match self.reading {
            Some(asked) if asked == conference => {
                self.reading = None;
                true
            }
            _ => false,
        }
    }
}

/// Conferences one behind another.
fn queue_of(alloc: Global, conferences: &[u32]) -> Result<VecDeque<u32>, AllocError>
    ensures value { IfOk result (λ queue. queue.items ≡ conferences.now) }
{
    let mut copy = Vec::new(alloc);
    copy.extend_from_slice(conferences)?;
    Ok(VecDeque::from(copy))
}
