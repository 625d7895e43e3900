//! What a server tells a peer unasked, one notice at a time (RFC 8855, sections 6.2, 8.2 and 8.3.1).

ghost use Rattle.std.specs.Prelude.{◌≡◌, ◌≤◌, ◌<◌, ◌^◌, ◌-◌, ◌*◌, [], ◌∷◌, ◌++◌, length, IfSome, OnOk, MatchOption, Some, option_map, position};
ghost use Rattle.floor_datagram.specs.Notices as spec;
ghost use Rattle.floor_datagram.specs.OutView.{out_of, IsOut};
ghost use Rattle.floor_datagram.specs.Pace.{due_after, later, t2_of};

use crate::kind::number_at;
use crate::numbering::steps_to;
use crate::pace::Pace;
use crate::requests::send;
use crate::written::{pieces, raise};
use bytes::Bytes;
use floor_wire::Frame;
use std::alloc::{AllocError, Global};
use std::marker::Model;

/// How often a notice is sent before its peer is lost.
const MAX_TRIES: u8 = 4;

/// How many steps ahead of a peer's request an ID is near, so that the two may meet.
const NEAR: u32 = 1024;

/// How many steps an ID that is near is passed over.
const FAR: u32 = 16_384;

/// The notices of one peer.
///
/// `tell` takes a message, `cross` an answer, `acknowledge` what acknowledges the one that is out, `begin`
/// begins one where none is out, `again` sends it once more where it is due, and `give_up` lets go of all.
/// What is to be sent is added to `down`. Times are in milliseconds. An error is want of memory: then the
/// value is of no more use.
#[derive(Drop)]
pub(crate) struct Notices {
    alloc: Global,
    next: u16,
    out: Option<Out>,
    waiting: Vec<Frame>,
    pace: Pace,
}

/// The notice that is out.
#[derive(Drop)]
pub(crate) struct Out {
    id: u16,
    datagrams: Vec<Bytes>,
    first: u64,
    tries: u8,
    t1: u32,
}

impl Model for Notices {
    ghost use Rattle.std.specs.Prelude.{option_map};
    ghost use Rattle.floor_datagram.specs.Notices.{Notices};
    ghost use Rattle.floor_datagram.specs.OutView.{out_of, IsOut};

    ghost Value = { Notices };

    ghost view = { λ n. record {
      next = n.next;
      out = option_map (λ o. out_of o) n.out;
      waiting = n.waiting.items;
      pace = n.pace;
    } };

    ghost invariant = { λ n. IsOut n.out };
}

impl Notices {
    /// None, for a peer whose first request has this Transaction ID. Takes no memory.
    pub(crate) fn new(alloc: Global, first: u16) -> Notices
        ensures value { result ≡ spec.first_notices first }
    {
        Notices {
            alloc,
            next: ((u32::from(first) + 32_768) % 65_536) as u16,
            out: None,
            waiting: Vec::new(alloc),
            pace: Pace::new(),
        }
    }

    /// Whether a notice is out.
    pub(crate) fn is_out(&self) -> bool
        ensures value { result ≡ spec.is_out self.now.out }
    {
        self.out.is_some()
    }

    /// How long an answer is kept, in milliseconds.
    pub(crate) fn t2(&self) -> u32
        ensures value { result ≡ t2_of self.now.pace.t1 }
    {
        self.pace.t2()
    }

    /// A message waits at the place of its subject, and is begun where no notice is out.
    pub(crate) fn tell(
        &mut self,
        last: Option<u16>,
        limit: usize,
        now: u64,
        message: Frame,
        down: &mut Vec<Bytes>,
    ) -> Result<(), AllocError>
        requires limit { 20 ≤ limit }
        requires small { limit < 2 ^ 32 }
        ensures next { OnOk result (self.new ≡ (spec.told self.old last limit now message).after) }
        ensures out { OnOk result (down.new.items
            ≡ down.old.items ++ (spec.told self.old last limit now message).down) }
    {
        put(&mut self.waiting, message)?;
        self.pump(last, limit, now, down)
    }

    /// An answer crosses the notice that is out: where it has a subject it waits too, since what it says
    /// is told last.
    pub(crate) fn cross(&mut self, message: &Frame) -> Result<(), AllocError>
        ensures next { OnOk result (self.new ≡ spec.crossed self.old message.now) }
    {
        if has_subject(message) && self.is_out() {
            let copy = message.copy(self.alloc)?;
            put(&mut self.waiting, copy)?;
        }
        Ok(())
    }

    /// Takes an acknowledgement with this Transaction ID. Where it is of the notice that is out, the
    /// next is begun.
    pub(crate) fn acknowledge(
        &mut self,
        last: Option<u16>,
        limit: usize,
        now: u64,
        id: u16,
        down: &mut Vec<Bytes>,
    ) -> Result<(), AllocError>
        requires limit { 20 ≤ limit }
        requires small { limit < 2 ^ 32 }
        ensures next { OnOk result
            (self.new ≡ (spec.acknowledged self.old last limit now id).after) }
        ensures out { OnOk result (down.new.items
            ≡ down.old.items ++ (spec.acknowledged self.old last limit now id).down) }
    {
        if !self.close(now, id) {
            return Ok(());
        }
        self.pump(last, limit, now, down)
    }

    /// Ends the notice that is out, where it has this Transaction ID, and says whether it has.
    fn close(&mut self, now: u64, id: u16) -> bool
        ensures value { result ≡ spec.is_out_as id self.old.out }
        ensures next { self.new ≡ spec.closed_with self.old.out self.old now id }
    {
        let Some(out) = &self.out else {
            return false;
        };
        if out.id != id {
            return false;
        }
        if out.tries == 1 {
            self.pace.measure(now.saturating_sub(out.first));
        }
        self.out = None;
        true
    }

    /// Sends the notice that is out once more, where it is due and was sent fewer than four times.
    pub(crate) fn again(&mut self, now: u64, down: &mut Vec<Bytes>) -> Result<(), AllocError>
        ensures next { OnOk result (self.new ≡ (spec.again self.old now).after) }
        ensures out { OnOk result
            (down.new.items ≡ down.old.items ++ (spec.again self.old now).down) }
    {
        let Some(out) = &self.out else {
            return Ok(());
        };
        if out.tries < MAX_TRIES && is_due(out, now) {
            send(&out.datagrams, down)?;
            count(&mut self.out);
        }
        Ok(())
    }

    /// Whether the notice that is out was sent four times, and is due again: the peer is lost.
    pub(crate) fn is_lost(&self, now: u64) -> bool
        ensures value { result ≡ spec.is_lost self.now.out now }
    {
        match &self.out {
            None => false,
            Some(out) => out.tries == MAX_TRIES && is_due(out, now),
        }
    }

    /// When the notice that is out is due, in milliseconds: to be sent again, or its peer to be lost.
    pub(crate) fn due(&self) -> Option<u64>
        ensures value { result ≡ spec.due_of self.now.out }
    {
        match &self.out {
            None => None,
            Some(out) => Some(due_at(out)),
        }
    }

    /// Nothing waits any more, and what is out is given up.
    pub(crate) fn give_up(&mut self)
        ensures next { self.new ≡ spec.given_up self.old }
    {
        self.out = None;
        self.waiting = Vec::new(self.alloc);
    }

    /// Gives up what waits and what is out, and begins a last notice.
    pub(crate) fn part(
        &mut self,
        last: Option<u16>,
        limit: usize,
        now: u64,
        message: &Frame,
        down: &mut Vec<Bytes>,
    ) -> Result<(), AllocError>
        requires limit { 20 ≤ limit }
        requires small { limit < 2 ^ 32 }
        ensures next { OnOk result
            (self.new ≡ (spec.parted self.old last limit now message.now).after) }
        ensures out { OnOk result (down.new.items
            ≡ down.old.items ++ (spec.parted self.old last limit now message.now).down) }
    {
        self.give_up();
        self.begin(last, limit, now, message, down)
    }

    /// Begins the first that waits, where none is out.
    fn pump(
        &mut self,
        last: Option<u16>,
        limit: usize,
        now: u64,
        down: &mut Vec<Bytes>,
    ) -> Result<(), AllocError>
        requires limit { 20 ≤ limit }
        requires small { limit < 2 ^ 32 }
        ensures next { OnOk result (self.new ≡ (spec.pumped self.old last limit now).after) }
        ensures out { OnOk result (down.new.items
            ≡ down.old.items ++ (spec.pumped self.old last limit now).down) }
    {
        if self.is_out() {
            return Ok(());
        }
        match take_first(&mut self.waiting) {
            None => Ok(()),
            Some(message) => self.begin(last, limit, now, &message, down),
        }
    }

    /// Begins a notice, where none is out.
    pub(crate) fn begin(
        &mut self,
        last: Option<u16>,
        limit: usize,
        now: u64,
        message: &Frame,
        down: &mut Vec<Bytes>,
    ) -> Result<(), AllocError>
        requires limit { 20 ≤ limit }
        requires small { limit < 2 ^ 32 }
        ensures next { OnOk result
            (self.new ≡ (spec.begun self.old last limit now message.now).after) }
        ensures out { OnOk result (down.new.items
            ≡ down.old.items ++ (spec.begun self.old last limit now message.now).down) }
    {
        let id = fresh_id(last, self.next);
        let raised = raise(self.alloc, false, id, message.bytes())?;
        let datagrams = pieces(self.alloc, limit, &raised)?;
        send(&datagrams, down)?;
        self.next = ((u32::from(id) + 1) % 65_536) as u16;
        self.out = Some(Out {
            id,
            datagrams,
            first: now,
            tries: 1,
            t1: self.pace.t1(),
        });
        Ok(())
    }
}

/// Counts one more try.
fn count(out: &mut Option<Out>)
    requires out { IsOut out.old }
    requires fewer { spec.tries_of (option_map (λ o. out_of o) out.old) < 4 }
    ensures value { option_map (λ o. out_of o) out.new
        ≡ option_map (λ o. spec.once_more o) (option_map (λ o. out_of o) out.old) }
    ensures out { IsOut out.new }
{
    match out {
        None => {}
        Some(out) => out.tries += 1,
    }
}

/// Whether the time until the next of its four tries, or until its peer is lost, is over.
fn is_due(out: &Out, now: u64) -> bool
    requires { IsOut (Some out.now) }
    ensures { result ≡ spec.is_due (Some (out_of out.now)) now }
{
    u64::from(due_after(out.t1, out.tries)) <= now.saturating_sub(out.first)
}

/// When a notice is due.
fn due_at(out: &Out) -> u64
    requires { IsOut (Some out.now) }
    ensures { result ≡ later out.now.first (due_after out.now.t1 out.now.tries) }
{
    out.first
        .saturating_add(u64::from(due_after(out.t1, out.tries)))
}

/// How long after it was sent first a notice is due that was sent so often, in milliseconds.
fn due_after(t1: u32, tries: u8) -> u32
    requires range { t1 ≤ 60000 }
    requires some { 1 ≤ tries }
    requires most { tries ≤ 4 }
    ensures { result ≡ due_after t1 tries }
{
    match tries {
        1 => t1,
        2 => 3 * t1,
        3 => 7 * t1,
        _ => 15 * t1,
    }
}

/// The ID of a notice, where this one would be next.
fn fresh_id(last: Option<u16>, next: u16) -> u16
    ensures value { result ≡ spec.fresh_id last next }
{
    let id = not_zero(next);
    if is_near(last, id) {
        not_zero(((u32::from(id) + FAR) % 65_536) as u16)
    } else {
        id
    }
}

fn not_zero(id: u16) -> u16
    ensures { result ≡ spec.not_zero id }
{
    if id == 0 { 1 } else { id }
}

/// Whether an ID is 0 to 1,023 steps ahead of the one that was taken last.
fn is_near(last: Option<u16>, id: u16) -> bool
    ensures { result ≡ spec.is_near last id }
{
    match last {
        None => false,
        Some(last) => steps_to(id, last) < NEAR,
    }
}

/// Takes off the first that waits.
fn take_first(waiting: &mut Vec<Frame>) -> Option<Frame>
    ensures { MatchOption result
        ((waiting.old.items ≡ []) × (waiting.new.items ≡ []))
        (λ first. waiting.old.items ≡ first ∷ waiting.new.items) }
{
    if waiting.is_empty() {
        return None;
    }
    Some(waiting.remove(0))
}

/// A message waits at the place of the one of its subject, or behind all.
fn put(waiting: &mut Vec<Frame>, message: Frame) -> Result<(), AllocError>
    ensures { OnOk result (waiting.new.items ≡ spec.put message waiting.old.items) }
{
    match place_of(waiting, &message) {
        None => waiting.push(message)?,
        Some(place) => waiting[place] = message,
    }
    Ok(())
}

/// Where a message of the same subject waits.
fn place_of(waiting: &Vec<Frame>, message: &Frame) -> Option<usize>
    ensures value { result
        ≡ position (λ n. spec.is_same_subject message.now n) waiting.now.items }
    ensures fits { IfSome result (λ place. place < length waiting.now.items) }
{
    waiting
        .iter()
        .position(|other| is_same_subject(message, other))
}

/// Whether both are of one subject: of one primitive, and with the same two bytes at 14.
pub(crate) fn is_same_subject(message: &Frame, other: &Frame) -> bool
    ensures value { result ≡ spec.is_same_subject message.now other.now }
{
    message.header().primitive() == other.header().primitive()
        && subject_number(message.bytes()) == subject_number(other.bytes())
}

/// Whether it is a FloorStatus or a FloorRequestStatus that tells of something.
pub(crate) fn has_subject(message: &Frame) -> bool
    ensures { result ≡ spec.has_subject message.now }
{
    let primitive = message.header().primitive();
    (primitive == 4 || primitive == 8) && message.bytes().len() >= 16
}

/// The number in a message's two bytes at 14, where it has them.
fn subject_number(message: &[u8]) -> u16
    ensures { result ≡ spec.subject_number message.now }
{
    if message.len() < 16 {
        0
    } else {
        number_at(message, 14)
    }
}
