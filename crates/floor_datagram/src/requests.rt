//! A peer's requests and their answers: each request is taken once (RFC 8855, sections 8.1, 8.3.1, 8.3.2).

ghost use Rattle.std.specs.Prelude.{◌≡◌, ◌≤◌, ◌<◌, ◌^◌, [], ◌∷◌, ◌++◌, ℕ, List, length, IfOk, OnOk, OnErr};
ghost use Rattle.floor_datagram.specs.Datagrams.{id_of, kind_of};
ghost use Rattle.floor_datagram.specs.Fragments.{fragment_of, held_since, placed};
ghost use Rattle.floor_datagram.specs.Numbering.{age_of};
ghost use Rattle.floor_datagram.specs.Requests as spec;
ghost use Rattle.floor_datagram.specs.Taken.{KeepsCarried};
ghost use Rattle.floor_datagram.specs.declared.fragments.Fragment.TheVariants as Fragment_is;
ghost use Rattle.floor_datagram.specs.declared.numbering.Age.TheVariants.{Newer};

use crate::fragments::{Fragment, Fragments, a_part_is_long, fragment_of};
use crate::heard::Heard;
use crate::kind::{Kind, kind_of, number_at};
use crate::numbering::{Age, age_of};
use crate::written::{INCORRECT_LENGTH, error, goodbye_ack, lower, pieces, raise};
use bytes::Bytes;
use std::alloc::{AllocError, Global};
use std::marker::Model;

/// The most bytes that wait for the server: a request that would pass them is dropped, and comes again.
pub const MAX_WAITING: usize = 65_536;

/// The primitive of a Goodbye.
const GOODBYE: u8 = 16;

/// What a peer asked, and what it was answered.
///
/// `datagram` takes what came from the peer, `answer` what the server answers; `end` says that no more is
/// taken, and `forget_fragments` that an incomplete message is given up. What goes to the server is added
/// to `up`, each datagram that goes to the peer to `down`. An error is want of memory: then `up` is as it
/// was, and the value is of no more use.
#[derive(Drop)]
pub(crate) struct Requests {
    alloc: Global,
    last: Option<u16>,
    answer: Vec<Bytes>,
    held: Fragments,
    over: bool,
}

impl Model for Requests {
    ghost use Rattle.floor_datagram.specs.Requests.{Requests};

    ghost Value = { Requests };

    ghost view = { λ r. record {
      last = r.last;
      answer = r.answer.items;
      held = r.held;
      over = r.over;
    } };
}

impl Requests {
    /// A peer that asked nothing. Takes no memory.
    pub(crate) fn new(alloc: Global) -> Requests
        ensures value { result ≡ spec.no_requests }
    {
        Requests {
            alloc,
            last: None,
            answer: Vec::new(alloc),
            held: Fragments::new(alloc),
            over: false,
        }
    }

    /// The Transaction ID of the request that was taken last.
    pub(crate) fn last(&self) -> Option<u16>
        ensures value { result ≡ self.now.last }
    {
        self.last
    }

    /// When the first of the fragments that are held came, where there are some.
    pub(crate) fn held_since(&self) -> Option<u64>
        ensures value { result ≡ held_since self.now.held }
    {
        self.held.since()
    }

    /// Takes no request any more, and lets go of fragments.
    pub(crate) fn end(&mut self)
        ensures next { self.new ≡ spec.ended self.old }
    {
        self.over = true;
        self.held.clear();
    }

    /// Gives up a message of which fragments are held.
    pub(crate) fn forget_fragments(&mut self)
        ensures next { self.new ≡ spec.forgotten self.old }
    {
        self.held.clear();
    }

    /// Takes a datagram that has a whole header, and tells what it was.
    pub(crate) fn datagram(
        &mut self,
        datagram: &[u8],
        now: u64,
        up: &mut Vec<u8>,
        down: &mut Vec<Bytes>,
    ) -> Result<Heard, AllocError>
        requires { 12 ≤ length datagram.now }
        ensures took { IfOk result (λ heard. spec.Took
            (spec.effect self.old (length up.old.items) now datagram.now) self.new heard
            up.old.items up.new.items down.old.items down.new.items) }
        ensures carried { IfOk result (λ _. KeepsCarried (datagram.now ∷ [])
            self.old self.new up.old.items up.new.items) }
        ensures left { OnErr result (up.new.items ≡ up.old.items) }
    {
        self.take(datagram, now, up, down)
    }

    /// Takes a datagram.
    fn take(
        &mut self,
        datagram: &[u8],
        now: u64,
        up: &mut Vec<u8>,
        down: &mut Vec<Bytes>,
    ) -> Result<Heard, AllocError>
        requires { 12 ≤ length datagram.now }
        ensures took { IfOk result (λ heard. spec.Took
            (spec.effect self.old (length up.old.items) now datagram.now) self.new heard
            up.old.items up.new.items down.old.items down.new.items) }
        ensures left { OnErr result (up.new.items ≡ up.old.items) }
    {
        match kind_of(datagram) {
            Kind::Fragment => self.part(datagram, now, up, down),
            Kind::Misfit => self.judge(Kind::Misfit, datagram, up, down),
            Kind::Acknowledgement => self.judge(Kind::Acknowledgement, datagram, up, down),
            Kind::Request => self.judge(Kind::Request, datagram, up, down),
            Kind::Nothing => self.judge(Kind::Nothing, datagram, up, down),
        }
    }

    /// Takes a whole message of this kind.
    fn judge(
        &mut self,
        kind: Kind,
        message: &[u8],
        up: &mut Vec<u8>,
        down: &mut Vec<Bytes>,
    ) -> Result<Heard, AllocError>
        requires { 12 ≤ length message.now }
        ensures took { IfOk result (λ heard. spec.Took
            (spec.judged kind self.old (length up.old.items) message.now) self.new heard
            up.old.items up.new.items down.old.items down.new.items) }
        ensures left { OnErr result (up.new.items ≡ up.old.items) }
    {
        match kind {
            Kind::Fragment => Ok(Heard::Nothing),
            Kind::Misfit => {
                down.push(error(self.alloc, INCORRECT_LENGTH, message)?)?;
                Ok(Heard::Nothing)
            }
            Kind::Acknowledgement => Ok(Heard::Acknowledgement(number_at(message, 8))),
            Kind::Request => self.ask(message, up, down),
            Kind::Nothing => Ok(Heard::Nothing),
        }
    }

    /// Takes a request.
    fn ask(
        &mut self,
        message: &[u8],
        up: &mut Vec<u8>,
        down: &mut Vec<Bytes>,
    ) -> Result<Heard, AllocError>
        requires { 12 ≤ length message.now }
        ensures took { IfOk result (λ heard. spec.Took
            (spec.asked (age_of self.old.last (id_of message.now)) self.old
            (length up.old.items) message.now) self.new heard
            up.old.items up.new.items down.old.items down.new.items) }
        ensures left { OnErr result (up.new.items ≡ up.old.items) }
    {
        match age_of(self.last, number_at(message, 8)) {
            Age::Copy => {
                send(&self.answer, down)?;
                Ok(Heard::Nothing)
            }
            Age::Older => Ok(Heard::Nothing),
            Age::Newer => self.ask_anew(message, up, down),
        }
    }

    /// Takes a request that is newer than the last, unless no request is taken any more.
    fn ask_anew(
        &mut self,
        message: &[u8],
        up: &mut Vec<u8>,
        down: &mut Vec<Bytes>,
    ) -> Result<Heard, AllocError>
        requires { 12 ≤ length message.now }
        ensures took { IfOk result (λ heard. spec.Took
            (spec.asked Newer self.old (length up.old.items) message.now) self.new heard
            up.old.items up.new.items down.old.items down.new.items) }
        ensures left { OnErr result (up.new.items ≡ up.old.items) }
    {
        if self.over {
            return Ok(Heard::Nothing);
        }
        if message[1] == GOODBYE {
            self.part_with(message, down)?;
            Ok(Heard::Goodbye)
        } else {
            self.pass_on(message, up)
        }
    }

    /// Sends a request to the server, where there is room.
    fn pass_on(&mut self, message: &[u8], up: &mut Vec<u8>) -> Result<Heard, AllocError>
        requires { 12 ≤ length message.now }
        ensures took { (down : List (List ℕ)) → IfOk result (λ heard. spec.Took
            (spec.passed_on self.old (length up.old.items) message.now) self.new heard
            up.old.items up.new.items down down) }
        ensures left { OnErr result (up.new.items ≡ up.old.items) }
    {
        if message.len() > MAX_WAITING || up.len() > MAX_WAITING - message.len() {
            return Ok(Heard::Nothing);
        }
        lower(message, up)?;
        self.last = Some(number_at(message, 8));
        self.answer = Vec::new(self.alloc);
        Ok(Heard::Request(message[1]))
    }

    /// Answers a Goodbye.
    fn part_with(&mut self, message: &[u8], down: &mut Vec<Bytes>) -> Result<(), AllocError>
        requires { 12 ≤ length message.now }
        ensures next { OnOk result (self.new ≡ (spec.parted self.old message.now).after) }
        ensures out { OnOk result
            (down.new.items ≡ down.old.items ++ (spec.parted self.old message.now).down) }
    {
        let ack = goodbye_ack(self.alloc, message)?;
        let mut answer = Vec::new(self.alloc);
        answer.push(ack.clone()?)?;
        down.push(ack)?;
        self.last = Some(number_at(message, 8));
        self.answer = answer;
        self.held.clear();
        self.over = true;
        Ok(())
    }

    /// Takes a fragment.
    fn part(
        &mut self,
        fragment: &[u8],
        now: u64,
        up: &mut Vec<u8>,
        down: &mut Vec<Bytes>,
    ) -> Result<Heard, AllocError>
        requires { 12 ≤ length fragment.now }
        ensures took { IfOk result (λ heard. spec.Took
            (spec.parts (fragment_of fragment.now) self.old (length up.old.items) now fragment.now)
            self.new heard up.old.items up.new.items down.old.items down.new.items) }
        ensures left { OnErr result (up.new.items ≡ up.old.items) }
    {
        match fragment_of(fragment) {
            Fragment::Nothing => Ok(Heard::Nothing),
            Fragment::Beyond => {
                self.held.drop_message(fragment);
                down.push(error(self.alloc, INCORRECT_LENGTH, fragment)?)?;
                Ok(Heard::Nothing)
            }
            Fragment::Part => self.age(fragment, now, up, down),
        }
    }

    /// Takes a part of a message.
    fn age(
        &mut self,
        fragment: &[u8],
        now: u64,
        up: &mut Vec<u8>,
        down: &mut Vec<Bytes>,
    ) -> Result<Heard, AllocError>
        requires { fragment_of fragment.now ≡ Fragment_is.Part }
        ensures took { IfOk result (λ heard. spec.Took
            (spec.aged (age_of self.old.last (id_of fragment.now)) self.old
            (length up.old.items) now fragment.now) self.new heard
            up.old.items up.new.items down.old.items down.new.items) }
        ensures left { OnErr result (up.new.items ≡ up.old.items) }
    {
        a_part_is_long(fragment);
        match age_of(self.last, number_at(fragment, 8)) {
            Age::Copy => {
                if number_at(fragment, 12) == 0 {
                    send(&self.answer, down)?;
                }
                Ok(Heard::Nothing)
            }
            Age::Older => Ok(Heard::Nothing),
            Age::Newer => {
                if self.over {
                    return Ok(Heard::Nothing);
                }
                self.put_together(fragment, now, up, down)
            }
        }
    }

    /// Holds a part of a message, and takes the message where it is whole with it.
    fn put_together(
        &mut self,
        fragment: &[u8],
        now: u64,
        up: &mut Vec<u8>,
        down: &mut Vec<Bytes>,
    ) -> Result<Heard, AllocError>
        requires { fragment_of fragment.now ≡ Fragment_is.Part }
        ensures took { IfOk result (λ heard. spec.Took
            (spec.put_together (placed self.old.held now fragment.now).held
            (placed self.old.held now fragment.now).message self.old
            (length up.old.items)) self.new heard
            up.old.items up.new.items down.old.items down.new.items) }
        ensures left { OnErr result (up.new.items ≡ up.old.items) }
    {
        match self.held.add(fragment, now)? {
            None => Ok(Heard::Nothing),
            Some(message) => self.judge(kind_of(&message), &message, up, down),
        }
    }

    /// Takes no request any more, and answers the one that was taken last by this datagram.
    pub(crate) fn refuse(&mut self, refusal: Bytes, down: &mut Vec<Bytes>) -> Result<(), AllocError>
        ensures next { OnOk result (self.new ≡ spec.refused_by refusal self.old) }
        ensures out { OnOk result (down.new.items ≡ down.old.items ++ refusal ∷ []) }
    {
        let mut answer = Vec::new(self.alloc);
        answer.push(refusal.clone()?)?;
        down.push(refusal)?;
        self.answer = answer;
        self.held.clear();
        self.over = true;
        Ok(())
    }

    /// Sends an answer of the server's, in datagrams of so many bytes at most, and keeps it where it
    /// answers the request that was taken last.
    pub(crate) fn answer(
        &mut self,
        limit: usize,
        message: &[u8],
        down: &mut Vec<Bytes>,
    ) -> Result<(), AllocError>
        requires header { 12 ≤ length message.now }
        requires fits { length message.now ≤ 262152 }
        requires limit { 20 ≤ limit }
        requires small { limit < 2 ^ 32 }
        ensures next { OnOk result (self.new ≡ spec.answered self.old limit message.now) }
        ensures out { OnOk result
            (down.new.items ≡ down.old.items ++ spec.answer_of limit message.now) }
    {
        let id = number_at(message, 8);
        let raised = raise(self.alloc, true, id, message)?;
        let answer = pieces(self.alloc, limit, &raised)?;
        send(&answer, down)?;
        if is_last(self.last, id) {
            self.answer = answer;
        }
        Ok(())
    }
}

/// Whether it is the Transaction ID that was taken last.
pub(crate) fn is_last(last: Option<u16>, id: u16) -> bool
    ensures { result ≡ spec.is_last last id }
{
    match last {
        None => false,
        Some(last) => last == id,
    }
}

/// Sends datagrams. Their bytes are shared, not copied.
pub(crate) fn send(datagrams: &Vec<Bytes>, down: &mut Vec<Bytes>) -> Result<(), AllocError>
    ensures { OnOk result (down.new.items ≡ down.old.items ++ datagrams.now.items) }
{
    for datagram in datagrams {
        down.push(datagram.clone()?)?;
    }
    Ok(())
}
