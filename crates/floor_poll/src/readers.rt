//! What a loop tells of its conferences, and its part of showing a member out and of forgetting a conference.

ghost use Rattle.std.specs.Prelude.{◌≡◌, ◌≤◌, ◌<◌, ◌+◌, ◌++◌, drop, find, flat_map, IfOk, IfSome, length, List, MatchResult, nat_eq, OnErr, OnOk, Some, string_bytes, take};
ghost use Rattle.std.specs.Option.{option_copied};
ghost use Rattle.floor_control.specs.Answer.{end_at};
ghost use Rattle.floor_control.specs.Floors.{floor_line};
ghost use Rattle.floor_control.specs.People.{member_line};
ghost use Rattle.floor_hub.specs.Connections.{connection_at};
ghost use Rattle.floor_hub.specs.Hub.{room_at};
ghost use Rattle.floor_hub.specs.Members.{AreMembers, Stands};
ghost use Rattle.floor_hub.specs.Rooms.{Forgets};
ghost use Rattle.floor_hub.specs.declared.attached.Live.{Live};
ghost use Rattle.floor_hub.specs.declared.connection.Connection.{Connection};
ghost use Rattle.floor_poll.specs.Readers.{away_seconds, floors_text, line_of, members_text, next_place};
ghost use Rattle.floor_room.specs.Room.{Room};
ghost use Rattle.floor_poll.specs.Told.{IsToldAs, broken_at, is_unkept_at, told_until};
ghost use Rattle.indexmap.specs.IndexMap.{get};
ghost use Rattle.floor_room.specs.Text.{lines};

use crate::counters::with_conference;
use crate::departure::End;
use crate::mailbox::{Answer, Lines, Question};
use crate::refusals::{ended, refusal_of, refusal_of_act};
use crate::worker::Worker;
use floor_console::{Refusal, RoomRefusal};
use floor_control::{
    ControlRefusal, MemberLine, Metrics, Standing, add_end_at, add_floor, add_member, add_user,
};
use floor_loop::{ConnNo, Floor, Live, SharedInfo, Status, User};
use floor_room::{Phase, add_lines};
use floor_server::{Did, Entry};
use std::alloc::{AllocError, Global};
use std::sync::Wait;
use std::time::Clock;

impl<R: Clock + Wait + Copy + Drop> Worker<R> {
    /// What is told, where nothing is to be done.
    pub fn answer_to(&mut self, question: Question) -> Answer
        ensures hub { self.new.hub ≡ self.old.hub }
    {
        match question {
            Question::Status { conference } => {
                Answer::Stands(self.stands(conference), self.is_unkept(conference))
            }
            Question::Journal {
                conference,
                done,
                until,
            } => {
                let until = self.until_of(conference, until);
                Answer::Lines(self.lines(conference, done, until))
            }
            Question::Users { conference } => Answer::Lines(self.users(conference)),
            Question::Members { conference } => Answer::Lines(self.members(conference)),
            Question::Floors { conference } => Answer::Lines(self.floors(conference)),
            Question::Events { conference, done } => Answer::Events(self.piece(conference, done)),
            Question::Standings { conferences } => Answer::Standings(
                self.standings(&conferences).map_err(ControlRefusal::from),
            ),
            Question::Counts => Answer::Counts(self.counts()),
        }
    }

    /// How a conference stands: as its room does, or broken off since its file has failed.
    fn stands(&self, conference: u32) -> Result<Status, ControlRefusal>
        ensures found { (r : Room) → room_at self.entry.now.hub.hub conference ≡ Some r → MatchResult result
            (IsToldAs (broken_at (get nat_eq self.entry.now.conferences conference)) r.ledger) (λ _. ⊥) }
    {
        self.standing(conference).map_err(refusal_of)
    }

    /// Up to which event a journal is told, where that many were asked for.
    fn until_of(&self, conference: u32, until: usize) -> usize
        ensures value { result ≡ told_until
            (broken_at (get nat_eq self.entry.now.conferences conference)) until }
    {
        match self.broken_at(conference) {
            Some(events) => until.min(events as usize),
            None => until,
        }
    }

    /// Some lines of a journal behind the first `done` events and up to the first `until`.
    fn lines(&self, conference: u32, done: usize, until: usize) -> Result<Lines, ControlRefusal>
        ensures front { (r : Room) → room_at self.entry.now.hub.hub conference ≡ Some r
            → IfOk result (λ found. string_bytes found.text
            ≡ lines (done + 1) (take found.added (drop done (take until r.ledger.journal)))) }
        ensures one { (r : Room) → room_at self.entry.now.hub.hub conference ≡ Some r
            → IfOk result (λ found. done < length (take until r.ledger.journal) → 1 ≤ found.added) }
    {
        let events = match self.hub.journal(conference) {
            Ok(events) => events,
            Err(refusal) => return Err(refusal_of(refusal)),
        };
        let events = events.get(..until).unwrap_or(events);
        let mut text = String::new(self.alloc);
        let added = add_lines(self.alloc, &mut text, events, done)?;
        Ok(Lines { text, added })
    }
}

impl<R: Clock + Wait + Copy + Drop> Worker<R> {
    /// How those of some conferences stand that weren't forgotten.
    fn standings(&self, conferences: &[u32]) -> Result<Vec<Standing>, AllocError> {
        let mut found = Vec::with_capacity(self.alloc, conferences.len())?;
        for conference in conferences {
            if let Ok(status) = self.standing(*conference) {
                found.push(Standing {
                    conference: *conference,
                    status,
                    is_unkept: self.is_unkept(*conference),
                })?;
            }
        }
        Ok(found)
    }

    /// What was counted.
    fn counts(&self) -> Metrics {
        let mut counts = self.counters;
        counts.connections = self.connections.len() as u64;
        for (conference, _) in self.conferences.iter() {
            if let Ok(status) = self.standing(*conference) {
                counts = with_conference(counts, status);
            }
        }
        counts
    }

    /// Whether a conference isn't kept any more that was.
    fn is_unkept(&self, conference: u32) -> bool
        ensures value { result ≡ is_unkept_at (get nat_eq self.entry.now.conferences conference) }
    {
        match self.conferences.get(&conference) {
            Some(places) => places.is_unkept,
            None => false,
        }
    }

    /// For how many seconds a member has been away, where it is.
    fn away_seconds(&self, number: ConnNo) -> Option<u64>
        ensures value { result ≡ away_seconds self.entry.now.hub self.entry.now.now number }
    {
        match self.hub.away_for(number, self.now) {
            Some(millis) => Some(millis / 1_000),
            None => None,
        }
    }

    /// Shows a member out: its member leaves, and its connection is shut down. Gives the place of that in the journal.
    pub fn show_out(&mut self, conference: u32, n: u32) -> Result<u32, ControlRefusal> {
        let number = self.connection_of(conference, n)?;
        if let Some(connection) = self.connections.get_mut(&number) {
            connection.end = Some(End::Removed);
        }
        self.end(number);
        let place = self.events_of(conference);
        self.tell(&Entry::Did {
            conference,
            act: Did::ShownOut(n),
            place,
        });
        Ok(place)
    }

    /// The connection of a live member.
    fn connection_of(&self, conference: u32, n: u32) -> Result<ConnNo, ControlRefusal>
        ensures found { (r : Room) → room_at self.entry.now.hub.hub conference ≡ Some r
            → IfOk result (λ number. (x : Connection)
            × (connection_at self.entry.now.hub.hub.connections number ≡ Some x)
            × (x.conference ≡ conference) × (x.n ≡ n)) }
    {
        match self.standing(conference) {
            Ok(status) => check_running(status.phase)?,
            Err(refusal) => return Err(refusal_of_act(refusal)),
        }
        let live = match self.hub.members(conference) {
            Ok(live) => live,
            Err(refusal) => return Err(refusal_of_act(refusal)),
        };
        match number_of(live, n) {
            Some(number) => Ok(number),
            None => Err(ControlRefusal::from(RoomRefusal::Refused(Refusal::NoMember))),
        }
    }

    /// Gives the memory of a conference back.
    pub fn forget(&mut self, conference: u32) -> Result<u32, ControlRefusal>
        ensures forgot { OnOk result (Forgets conference self.old.hub.hub self.new.hub.hub) }
        ensures left { OnErr result (self.new.hub ≡ self.old.hub) }
    {
        let events = self.events_of(conference);
        match self.hub.forget(conference) {
            Ok(()) => {}
            Err(refusal) => return Err(refusal_of(refusal)),
        }
        let _places = self.conferences.swap_remove(&conference);
        let _known = self.followed.swap_remove(&conference);
        self.counters.events = self.counters.events.saturating_add(u64::from(events));
        self.tell(&Entry::Forgotten { conference });
        Ok(events)
    }
}

/// Whether a conference in this phase takes an act; otherwise what refuses it.
fn check_running(phase: Phase) -> Result<(), ControlRefusal> {
    match phase {
        Phase::Running => Ok(()),
        Phase::Ended => Err(ended()),
        Phase::Broken => Err(ControlRefusal::from(RoomRefusal::Refused(Refusal::Broken))),
    }
}

/// The number of the live connection whose member is n.
fn number_of(live: &[Live], n: u32) -> Option<ConnNo>
    ensures found { IfSome result (λ number. Stands live.now number n) }
{
    match find_member(live, n) {
        Some(one) => Some(one.number),
        None => None,
    }
}

/// The first of live connections whose member is n.
fn find_member(live: &[Live], n: u32) -> Option<&Live>
    ensures value { option_copied result ≡ find (λ one. nat_eq one.n n) live.now }
{
    live.iter().find(|one| one.n == n)
}

impl<R: Clock + Wait + Copy + Drop> Worker<R> {
    /// The lines of a conference's users.
    fn users(&self, conference: u32) -> Result<Lines, ControlRefusal> {
        let config = self.hub.config(conference).map_err(refusal_of)?;
        let mut text = String::new(self.alloc);
        for user in config.users() {
            add_user(&mut text, user, self.port_of(conference, user))?;
        }
        add_end_at(&mut text, config.users().len(), self.next_place(conference))?;
        Ok(Lines { text, added: 0 })
    }

    /// The port of a user, which is listened on here where it is no part of the conference.
    fn port_of(&self, conference: u32, user: &User) -> Option<u16> {
        if user.port.is_some() {
            return user.port;
        }
        let places = self.conferences.get(&conference)?;
        for number in places.ports() {
            if let Some(port) = self.ports.get(number) {
                if port.place.user == user.id {
                    return Some(port.place.port);
                }
            }
        }
        None
    }

    /// The lines of a conference's live members.
    fn members(&self, conference: u32) -> Result<Lines, ControlRefusal>
        ensures found { (r : Room) → room_at self.entry.now.hub.hub conference ≡ Some r
            → IfOk result (λ found. (live : List Live) × AreMembers self.entry.now.hub.hub conference live
            × (string_bytes found.text ≡ members_text self.entry.now.hub self.entry.now.now r.ledger live)) }
    {
        match self.hub.members(conference) {
            Ok(live) => self.member_lines(conference, live),
            Err(refusal) => Err(refusal_of(refusal)),
        }
    }

    /// The lines of the members of live connections.
    fn member_lines(&self, conference: u32, live: &[Live]) -> Result<Lines, ControlRefusal>
        ensures found { (r : Room) → room_at self.entry.now.hub.hub conference ≡ Some r
            → IfOk result (λ found. string_bytes found.text ≡ members_text self.entry.now.hub self.entry.now.now r.ledger live.now) }
    {
        let mut text = String::new(self.alloc);
        self.add_members(&mut text, conference, live)?;
        add_end_at(&mut text, live.len(), self.next_place(conference))?;
        Ok(Lines { text, added: 0 })
    }

    /// Adds the lines of the members of live connections.
    fn add_members(
        &self,
        text: &mut String,
        conference: u32,
        live: &[Live],
    ) -> Result<(), ControlRefusal>
        ensures found { (r : Room) → room_at self.entry.now.hub.hub conference ≡ Some r
            → OnOk result (string_bytes text.new
            ≡ string_bytes text.old ++ flat_map
            (λ one. member_line (line_of self.entry.now.hub self.entry.now.now r.ledger one)) live.now) }
    {
        for one in live {
            let line = self.member_line(conference, one)?;
            add_member(text, line)?;
        }
        Ok(())
    }

    /// What the line of a live connection's member says.
    fn member_line(&self, conference: u32, one: &Live) -> Result<MemberLine, ControlRefusal>
        ensures found { (r : Room) → room_at self.entry.now.hub.hub conference ≡ Some r
            → IfOk result (λ line. line ≡ line_of self.entry.now.hub self.entry.now.now r.ledger one.now) }
    {
        let user = self.hub.user_of(conference, one.n).map_err(refusal_of)?;
        let behind = self.hub.backlog(conference, one.n).map_err(refusal_of)?;
        Ok(MemberLine {
            n: one.n,
            user: user.unwrap_or(0),
            behind,
            is_cut: one.is_cut,
            away: self.away_seconds(one.number),
        })
    }

    /// The lines of a conference's floors.
    fn floors(&self, conference: u32) -> Result<Lines, ControlRefusal>
        ensures found { (r : Room) → room_at self.entry.now.hub.hub conference ≡ Some r
            → IfOk result (λ found. string_bytes found.text ≡ floors_text r.ledger) }
    {
        let config = match self.hub.config(conference) {
            Ok(config) => config,
            Err(refusal) => return Err(refusal_of(refusal)),
        };
        let shown = match self.hub.shown(conference) {
            Ok(shown) => shown,
            Err(refusal) => return Err(refusal_of(refusal)),
        };
        let next = self.next_place(conference);
        Ok(floor_lines(self.alloc, config.floors(), shown, next)?)
    }

    /// The place of a conference's next event.
    fn next_place(&self, conference: u32) -> u32
        ensures value { (r : Room) → room_at self.entry.now.hub.hub conference ≡ Some r
            → result ≡ next_place r.ledger }
    {
        self.events_of(conference).saturating_add(1)
    }
}

/// The lines of floors, with the floor requests that are shown and the place of the next event.
fn floor_lines(
    alloc: Global,
    floors: &[Floor],
    shown: &[SharedInfo],
    next: u32,
) -> Result<Lines, AllocError>
    ensures { IfOk result (λ found. string_bytes found.text
        ≡ flat_map (λ f. floor_line f shown.now) floors.now ++ end_at (length floors.now) next) }
{
    let mut text = String::new(alloc);
    add_floors(&mut text, floors, shown)?;
    add_end_at(&mut text, floors.len(), next)?;
    Ok(Lines { text, added: 0 })
}

/// Adds the lines of floors, with the floor requests that are shown.
fn add_floors(text: &mut String, floors: &[Floor], shown: &[SharedInfo]) -> Result<(), AllocError>
    ensures { OnOk result (string_bytes text.new
        ≡ string_bytes text.old ++ flat_map (λ f. floor_line f shown.now) floors.now) }
{
    for floor in floors {
        add_floor(text, floor, shown)?;
    }
    Ok(())
}
