//! Which connections are live in which conference, and which of them are slow.

ghost use Rattle.std.specs.Prelude.{◌≡◌, OnOk, filter, map, not};
ghost use Rattle.std.specs.List.{list_any};
ghost use Rattle.floor_script.specs.Attached.{is_numbered, paced};

use std::alloc::{AllocError, Global};
use std::collections::BTreeMap;

/// Whether what a connection is sent is taken behind each line.
#[derive(Clone, Copy, Debug, PartialEq, Eq)]
pub enum Pace {
    /// It waits.
    Slow,
    /// It is taken, as it is of a connection that no line made slow.
    Fast,
}

/// A live connection.
#[derive(Clone, Copy, Debug)]
pub struct Live {
    pub connection: u64,
    pub pace: Pace,
}

/// The conference of each connection that was ever attached, and the live connections of each
/// conference: what a line prints is looked for in its own conference alone.
#[derive(Drop)]
pub struct Attached {
    alloc: Global,
    /// The conference of each connection, in the order of their numbers, which begin at 1.
    conferences: Vec<u32>,
    /// The live connections of each conference, by ascending number.
    live: BTreeMap<u32, Vec<Live>>,
}

impl Attached {
    ghost use Rattle.std.specs.Prelude.{ℕ, None, []};
    ghost use Rattle.floor_script.specs.Attached.{Adds, PacesIn, RemovedFrom, Removes, conference_at, is_live, live_in};

    pub fn new(alloc: Global) -> Attached
        ensures conferences { (connection : ℕ) → conference_at result connection ≡ None }
        ensures lives { (conference : ℕ) → live_in result conference ≡ [] }
    {
        Attached {
            alloc,
            conferences: Vec::new(alloc),
            live: BTreeMap::new(alloc),
        }
    }

    /// The conference of a connection, live or not.
    pub fn conference_of(&self, connection: u64) -> Option<u32>
        ensures value { result ≡ conference_at self.now connection }
    {
        let place = usize::try_from(connection).ok()?.checked_sub(1)?;
        self.conferences.get(place).copied()
    }

    /// The live connections of a conference, by ascending number.
    pub fn live_in(&self, conference: u32) -> &[Live]
        ensures value { result.now ≡ live_in self.now conference }
    {
        match self.live.get(&conference) {
            Some(live) => live.as_slice(),
            None => &[],
        }
    }

    /// Takes in the connection with the next number, which is fast.
    pub fn add(&mut self, conference: u32, connection: u64) -> Result<(), AllocError>
        ensures took { OnOk result (Adds conference connection self.old self.new) }
    {
        self.conferences.push(conference)?;
        let added = Live {
            connection,
            pace: Pace::Fast,
        };
        match self.live.get_mut(&conference) {
            Some(live) => {
                live.push(added)?;
            }
            None => {
                let mut live = Vec::new(self.alloc);
                live.push(added)?;
                self.live.insert(conference, live)?;
            }
        }
        Ok(())
    }

    /// Sets the pace of a connection, and says whether it is live. Where it isn't, nothing changes.
    pub fn set_pace(&mut self, connection: u64, pace: Pace) -> bool
        ensures value { result
            ≡ is_live self.old (conference_at self.old connection) connection }
        ensures next { PacesIn (conference_at self.old connection) connection pace
            self.old self.new }
    {
        let Some(conference) = self.conference_of(connection) else {
            return false;
        };
        match self.live.get_mut(&conference) {
            Some(live) => {
                let is_live = is_among(live, connection);
                set_pace_in(live, connection, pace);
                is_live
            }
            None => false,
        }
    }

    /// Takes a connection out that has left.
    pub fn forget(&mut self, connection: u64)
        ensures { RemovedFrom (conference_at self.old connection) connection self.old self.new }
    {
        match self.conference_of(connection) {
            Some(conference) => self.remove(conference, connection),
            None => {}
        }
    }

    /// Takes a connection out of its conference.
    fn remove(&mut self, conference: u32, connection: u64)
        ensures next { Removes conference connection self.old self.new }
    {
        match self.live.get_mut(&conference) {
            Some(live) => remove_in(live, connection),
            None => {}
        }
    }
}

/// Takes a connection out of these.
fn remove_in(live: &mut Vec<Live>, connection: u64)
    ensures { live.new.items ≡ filter (λ one. not (is_numbered connection one)) live.old.items }
{
    live.retain(|one| one.connection != connection);
}

/// Whether a connection is one of these.
fn is_among(live: &[Live], connection: u64) -> bool
    ensures { result ≡ list_any (is_numbered connection) live.now }
{
    live.iter().any(|one| one.connection == connection)
}

/// Sets the pace of a connection, if it is one of these.
fn set_pace_in(live: &mut Vec<Live>, connection: u64, pace: Pace)
    ensures { live.new.items ≡ map (paced connection pace) live.old.items }
{
    for one in live.iter_mut() {
        set_pace_of(one, connection, pace);
    }
}

/// Sets the pace of a connection if it has this number.
fn set_pace_of(live: &mut Live, connection: u64, pace: Pace)
    ensures { live.new ≡ paced connection pace live.old }
{
    if live.connection == connection {
        live.pace = pace;
    }
}
