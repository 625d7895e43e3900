//! The picture of a conference.

ghost use Rattle.std.specs.Prelude.{◌≡◌, OnOk};
ghost use Rattle.floor_follow.specs.Conference as spec;

use crate::change::{Change, Subject};
use crate::fact::Facts;
use floor_room::Phase;
use std::alloc::{AllocError, Global};

/// What is to be asked of a conference next.
#[derive(Clone, Copy, Debug, PartialEq, Eq)]
pub enum Stage {
    /// Its floors, with the floor requests, and the place from which it is watched.
    Floors,
    /// Its users.
    Users,
    /// Its members.
    Members,
    /// Its words.
    Words,
    /// That it be watched.
    Watch,
    /// Nothing: its live lines come.
    Followed,
    /// Its words once more: no live line tells of them.
    Again,
}

/// The picture of a conference.
#[derive(Drop)]
pub struct Conference {
    /// Its number.
    pub number: u32,
    /// Whether it runs.
    pub phase: Phase,
    /// How many events it had when it was listed last.
    pub events: u64,
    /// The place from which it is watched.
    pub from: u64,
    /// What is to be asked next.
    pub stage: Stage,
    /// Whether the list of the conferences that is being told, or was told last, has it.
    pub is_listed: bool,
    /// What is known of it.
    pub facts: Facts,
}

impl Conference {
    /// A conference that is listed for the first time. Takes no memory.
    pub(crate) fn new(alloc: Global, number: u32, phase: Phase, events: u64) -> Conference
        ensures value { result ≡ spec.listed_first number phase events }
    {
        let stage = match phase {
            Phase::Running => Stage::Floors,
            Phase::Ended | Phase::Broken => Stage::Followed,
        };
        Conference {
            number,
            phase,
            events,
            from: 1,
            stage,
            is_listed: true,
            facts: Facts::new(alloc),
        }
    }

    /// Whether all was told that is asked of a conference first.
    pub fn is_followed(&self) -> bool
        ensures value { result ≡ spec.is_followed self.now }
    {
        matches!(self.stage, Stage::Followed | Stage::Again)
    }

    /// Takes it that it is listed so.
    pub(crate) fn list(&mut self, phase: Phase, events: u64)
        ensures next { self.new ≡ spec.listed phase events self.old }
    {
        self.is_listed = true;
        self.events = events;
        match phase {
            Phase::Running => {}
            Phase::Ended | Phase::Broken => self.end(phase),
        }
    }

    /// It runs no more.
    fn end(&mut self, phase: Phase)
        ensures next { self.new ≡ spec.ended phase self.old }
    {
        self.phase = phase;
        self.facts.drop_about(Subject::Live);
    }

    /// Takes what a live line changes. After an error the picture is given up.
    pub(crate) fn change(&mut self, change: Change) -> Result<(), AllocError>
        ensures next { OnOk result (self.new ≡ spec.changed change self.old) }
    {
        match change {
            Change::About(subject, facts) => self.facts.replace(subject, facts)?,
            Change::Chair { floor, chair } => self.facts.put_chair(floor, chair),
            Change::Closed => self.end(Phase::Ended),
            Change::Broken => self.end(Phase::Broken),
            Change::Nothing => {}
        }
        Ok(())
    }

    /// Takes the answer of what was asked of it, with the next place where the answer says it. After an error
    /// the picture is given up.
    pub(crate) fn take_answer(&mut self, facts: Facts, next: Option<u64>) -> Result<(), AllocError>
        ensures next { OnOk result (self.new ≡ spec.answered facts next self.old) }
    {
        match self.stage {
            Stage::Floors => {
                self.facts.replace(Subject::Floors, facts)?;
                self.from = next.unwrap_or(1);
                self.stage = Stage::Users;
            }
            Stage::Users => {
                self.facts.replace(Subject::Users, facts)?;
                self.stage = Stage::Members;
            }
            Stage::Members => {
                self.facts.replace(Subject::Members, facts)?;
                self.stage = Stage::Words;
            }
            Stage::Words => {
                self.facts.replace(Subject::Words, facts)?;
                self.stage = Stage::Watch;
            }
            Stage::Again => {
                self.facts.replace(Subject::Words, facts)?;
                self.stage = Stage::Followed;
            }
            Stage::Watch | Stage::Followed => self.stage = Stage::Followed,
        }
        Ok(())
    }

    /// A new round begins: its words are to be asked for again, where it runs and all else was told.
    pub(crate) fn begin_round(&mut self)
        ensures next { self.new ≡ spec.due self.old }
    {
        if self.stage == Stage::Followed && self.phase == Phase::Running {
            self.stage = Stage::Again;
        }
    }
}
