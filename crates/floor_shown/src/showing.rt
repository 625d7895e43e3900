//! What an event of a conference shows, by what it changed.

ghost use Rattle.std.specs.Prelude.{◌≡◌, IfOk};
ghost use Rattle.floor_shown.specs.Followed.{ShowsOf};
ghost use Rattle.floor_shown.specs.Requests.{AreShown};

use crate::event::{is_told_always, sender_of, what_of};
use crate::holding::Holdings;
use crate::known::Known;
use crate::request::request_shown;
use crate::time::time_where;
use crate::times::{RequestTimes, note_changed, noted, times_in};
use floor_loop::{Event, Loop};
use floor_message::{RequestStatus, SharedInfo};
use floor_rpc::{EventTold, List, MemberOf, RequestShown};
use std::alloc::{AllocError, Global};
use std::marker::Model;

/// What is known of a conference behind an event, for what the next one shows.
#[derive(Drop)]
pub struct Showing {
    alloc: Global,
    conference: u32,
    /// How many events there were.
    place: usize,
    /// The users who joined, in order: the first is member 1's.
    joiners: Vec<u16>,
    holdings: Holdings,
    requests: Vec<RequestTimes>,
}

impl Model for Showing {
    ghost use Rattle.std.specs.Prelude.{ℕ};

    ghost Value = { ℕ };

    ghost view = { λ s. s.place };
}

impl Showing {
    /// Of a conference before its first event. Takes no memory.
    pub fn new(alloc: Global, conference: u32) -> Showing
        ensures value { result ≡ 0 }
    {
        Showing {
            alloc,
            conference,
            place: 0,
            joiners: Vec::new(alloc),
            holdings: Holdings::new(alloc),
            requests: Vec::new(alloc),
        }
    }

    /// Of a conference as it stands, of which this is known.
    pub fn of_now(
        alloc: Global,
        hub: &Loop,
        conference: u32,
        known: &Known,
    ) -> Result<Showing, AllocError> {
        let events = hub.journal(conference).unwrap_or(&[]);
        let shown = hub.shown(conference).unwrap_or(&[]);
        Ok(Showing {
            alloc,
            conference,
            place: events.len(),
            joiners: joiners_of(alloc, events)?,
            holdings: Holdings::of(alloc, shown)?,
            requests: known.times(alloc)?,
        })
    }

    /// The place of the last event, 0 before the first.
    pub fn place(&self) -> usize
        ensures value { result ≡ self.now }
    {
        self.place
    }

    /// Takes the next event, which was taken at this time, with what is shown of the floor requests that it changed and the
    /// members that it cut, and gives what it shows, if anything. After an error it is of no more use.
    pub fn take(
        &mut self,
        event: &Event,
        changed: &[SharedInfo],
        cut: &[u32],
        time: Option<u64>,
    ) -> Result<Option<EventTold>, AllocError>
        ensures told { IfOk result (ShowsOf event.now changed.now self.new) }
    {
        self.place = self.place.saturating_add(1);
        if let Some(user) = event.joiner() {
            self.joiners.push(user)?;
        }
        let floors = self.hold(event, changed)?;
        let made = made_of(&self.requests, changed);
        let requests = self.requests_told(changed, time)?;
        note_changed(&mut self.requests, changed, time)?;
        if !is_told_always(event) && changed.is_empty() && cut.is_empty() {
            return Ok(None);
        }
        let what = what_of(
            self.alloc,
            event,
            number_of(self.joiners.len()),
            sender_of(&self.joiners, event),
            made,
        )?;
        let time = time_where(self.alloc, time)?;
        let cut = self.cut_told(cut)?;
        let floors = self.holdings.told(&floors)?;
        Ok(Some(EventTold {
            conference: self.conference,
            place: self.place as u64,
            time,
            what,
            requests: List::from_vec(requests),
            cut: List::from_vec(cut),
            floors: List::from_vec(floors),
        }))
    }

    /// Who holds what behind an event that changed these. Gives the floors whose holders it changed, ascending.
    fn hold(&mut self, event: &Event, changed: &[SharedInfo]) -> Result<Vec<u16>, AllocError>
        ensures same { self.new ≡ self.old }
    {
        if event.is_close() {
            return self.holdings.end();
        }
        self.holdings.change(changed)
    }

    /// The floor requests that an event changed, as they are shown. One that ended keeps its times.
    fn requests_told(
        &self,
        changed: &[SharedInfo],
        time: Option<u64>,
    ) -> Result<Vec<RequestShown>, AllocError>
        ensures value { IfOk result (λ told. AreShown changed.now told.items) }
    {
        let mut told = Vec::new(self.alloc);
        for info in changed {
            let times = times_told(&self.requests, info, time);
            told.push(request_shown(self.alloc, info.as_info(), times)?)?;
        }
        Ok(told)
    }

    /// Members that were cut, ascending, each with its user.
    fn cut_told(&self, cut: &[u32]) -> Result<Vec<MemberOf>, AllocError> {
        let mut numbers = Vec::from_slice(self.alloc, cut)?;
        numbers.sort()?;
        let mut told = Vec::new(self.alloc);
        for n in &numbers {
            told.push(MemberOf {
                member: *n,
                user: user_among(&self.joiners, *n),
            })?;
        }
        Ok(told)
    }
}

/// The users who joined, in order.
fn joiners_of(alloc: Global, events: &[Event]) -> Result<Vec<u16>, AllocError> {
    let mut joiners = Vec::new(alloc);
    for event in events {
        if let Some(user) = event.joiner() {
            joiners.push(user)?;
        }
    }
    Ok(joiners)
}

/// The user of a member, of those who joined in this order; 0 of one that never did.
pub(crate) fn user_among(joiners: &[u16], n: u32) -> u16 {
    match (n as usize).checked_sub(1) {
        Some(index) => joiners.get(index).copied().unwrap_or(0),
        None => 0,
    }
}

/// How many members there were, as a number: the last one's.
fn number_of(joins: usize) -> u32 {
    // No journal has more.
    u32::try_from(joins).unwrap_or(u32::MAX)
}

/// The times of a floor request that an event changed, at this time. One that ended keeps those that it had.
fn times_told(requests: &[RequestTimes], info: &SharedInfo, time: Option<u64>) -> RequestTimes {
    if is_over(info) {
        times_in(requests, info.as_info().request)
    } else {
        noted(requests, info, time)
    }
}

/// The floor request that an event made: the one that it changed and that wasn't there.
fn made_of(requests: &[RequestTimes], changed: &[SharedInfo]) -> Option<u16> {
    for info in changed {
        let request = info.as_info().request;
        if !requests.iter().any(|known| known.request == request) {
            return Some(request);
        }
    }
    None
}

/// Whether a floor request is shown as ended.
pub(crate) fn is_over(info: &SharedInfo) -> bool {
    match info.as_info().overall {
        Some(overall) => overall.0 > RequestStatus::Granted.number(),
        None => false,
    }
}
