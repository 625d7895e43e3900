//! One peer's session: datagrams of version 2 on its one side, a stream of version 1 on its other
//! (RFC 8855, sections 6.2 and 8.3).
//!
//! ```text
//!  peer's datagrams       requests              to the server
//!  ── datagram ─▶ taken once, put together ─▶ messages of version 1
//!
//!  to the peer            held                  server's stream
//!  answers ◀──────────── messages ◀────────────── server(piece)
//!  notices ◀─ one out ◀─ the newest of each subject
//! ```

ghost use Rattle.std.specs.Prelude.{◌≡◌, ◌≤◌, ◌<◌, ◌^◌, [], ◌++◌, length, is_some, option_map, IfOk, IsErr, None, OnOk, OnErr, Some};
ghost use Rattle.std.specs.Option.{option_copied};
ghost use Rattle.floor_datagram.specs.Pace.{later, t2_of};
ghost use Rattle.floor_datagram.specs.Session as spec;
ghost use Rattle.floor_wire.specs.Message.{messages, rest};

use crate::end::End;
use crate::heard::Heard;
use crate::hello::extend;
use crate::notices::Notices;
use crate::own::note;
use crate::requests::Requests;
use crate::written::{goodbye, refusal};
use bytes::Bytes;
use floor_wire::{Frame, Framer};
use std::alloc::{AllocError, Global};
use std::marker::Model;

/// A byte that begins a message of version 1 which doesn't come: the server takes who sent it as lost.
const UNFINISHED: u8 = 0x20;

/// What holds of a session from its beginning.
#[derive(Clone, Copy, Debug)]
pub struct Terms {
    /// The Conference ID of the peer.
    pub conference: u32,
    /// The User ID of the peer.
    pub user: u16,
    /// How many bytes a datagram has at most that is sent.
    pub limit: usize,
    /// After how many milliseconds of silence a peer that holds something is asked.
    pub probe: u64,
}

/// The session of one peer.
///
/// `datagram` takes what came from the peer, `server` a piece of the server's stream; `server_ended` says
/// that this stream ended or can't be had, `shut_out` and `lose` that the session is to end, and `time`
/// that it is late. Each adds what is to be sent to the server to `up`, and each datagram for the peer to
/// `down`; the caller sends both, `up` whole. `due` tells when `time` is to be called at the latest, `end`
/// how it ended, if it has: then the stream is to be ended behind what `up` holds. Times are milliseconds
/// of one clock that doesn't go back. An error is want of memory: then the session has ended, and what
/// `down` held is dropped.
#[derive(Drop)]
pub struct Session {
    alloc: Global,
    terms: Terms,
    requests: Requests,
    notices: Notices,
    stream: Framer,
    answered: bool,
    own: Vec<Frame>,
    asked: u8,
    taken: u64,
    heard: u64,
    end: Option<End>,
    ended: u64,
}

impl Model for Session {
    ghost use Rattle.std.specs.Prelude.{◌≤◌, ◌<◌, ◌^◌};
    ghost use Rattle.floor_datagram.specs.Session.{Session};
    ghost use Rattle.floor_datagram.specs.SessionView.{terms_of, IsLimit};

    ghost Value = { Session };

    ghost view = { λ s. record {
      terms = terms_of s.terms;
      requests = s.requests;
      notices = s.notices;
      stream = s.stream;
      answered = s.answered;
      own = s.own.items;
      asked = s.asked;
      taken = s.taken;
      heard = s.heard;
      end = s.end;
      ended = s.ended;
    } };

    ghost invariant = { λ s. IsLimit s.terms };
}

impl Session {
    ghost use Rattle.floor_datagram.specs.SessionView.{terms_of, IsLimit};

    /// The session of a peer that asked nothing. Its first request will have this Transaction ID. Takes
    /// no memory.
    pub fn new(alloc: Global, terms: Terms, first: u16, now: u64) -> Session
        requires { IsLimit terms }
        ensures value { result ≡ spec.begins (terms_of terms) first now }
    {
        Session {
            alloc,
            terms,
            requests: Requests::new(alloc),
            notices: Notices::new(alloc, first),
            stream: Framer::new(alloc),
            answered: false,
            own: Vec::new(alloc),
            asked: 0,
            taken: now,
            heard: now,
            end: None,
            ended: 0,
        }
    }

    /// How it ended, if it has.
    pub fn end(&self) -> Option<End>
        ensures value { result ≡ self.now.end }
    {
        self.end
    }

    /// When it ended, if it has.
    pub fn ended(&self) -> u64
        ensures value { result ≡ self.now.ended }
    {
        self.ended
    }

    /// When a request was taken last, or else when it began.
    pub fn taken(&self) -> u64
        ensures value { result ≡ self.now.taken }
    {
        self.taken
    }

    /// How long what was answered is kept behind its end, in milliseconds (RFC 8855, section 8.3.2).
    pub fn t2(&self) -> u32
        ensures value { result ≡ t2_of self.now.notices.pace.t1 }
    {
        self.notices.t2()
    }

    /// The Transaction ID of the request that was taken last.
    pub fn last(&self) -> Option<u16>
        ensures value { result ≡ self.now.requests.last }
    {
        self.requests.last()
    }

    /// Takes a datagram of the peer's that has a whole header.
    pub fn datagram(
        &mut self,
        datagram: &[u8],
        now: u64,
        up: &mut Vec<u8>,
        down: &mut Vec<Bytes>,
    ) -> Result<(), AllocError>
        requires { 12 ≤ length datagram.now }
        ensures took { OnOk result (spec.Took
            (spec.datagram self.old (length up.old.items) now datagram.now) self.new
            up.old.items up.new.items down.old.items down.new.items) }
        ensures left { OnErr result (spec.Left self.new
            up.old.items up.new.items down.new.items) }
    {
        match self.take(datagram, now, up, down) {
            Ok(()) => Ok(()),
            Err(_) => self.give_up(now, down),
        }
    }

    /// Takes a datagram.
    fn take(
        &mut self,
        datagram: &[u8],
        now: u64,
        up: &mut Vec<u8>,
        down: &mut Vec<Bytes>,
    ) -> Result<(), AllocError>
        requires { 12 ≤ length datagram.now }
        ensures took { OnOk result (spec.Took
            (spec.datagram self.old (length up.old.items) now datagram.now) self.new
            up.old.items up.new.items down.old.items down.new.items) }
        ensures left { OnErr result (up.new.items ≡ up.old.items) }
    {
        let waiting = up.len();
        match self.requests.datagram(datagram, now, up, down) {
            Ok(heard) => {
                self.heard = now;
                match self.hear(heard, now, down) {
                    Ok(()) => Ok(()),
                    Err(e) => {
                        up.truncate(waiting);
                        Err(e)
                    }
                }
            }
            Err(e) => Err(e),
        }
    }

    /// Goes on with what a datagram was.
    fn hear(&mut self, heard: Heard, now: u64, down: &mut Vec<Bytes>) -> Result<(), AllocError>
        ensures { OnOk result (spec.Sent (spec.hears heard now self.old) self.new
            down.old.items down.new.items) }
    {
        match heard {
            Heard::Nothing => Ok(()),
            Heard::Acknowledgement(id) => {
                let last = self.requests.last();
                self.notices
                    .acknowledge(last, self.terms.limit, now, id, down)?;
                Ok(())
            }
            Heard::Request(primitive) => {
                self.asked = primitive;
                self.taken = now;
                Ok(())
            }
            Heard::Goodbye => {
                self.finish(End::Goodbye, now);
                Ok(())
            }
        }
    }

    /// Takes a piece of the server's stream.
    pub fn server(
        &mut self,
        piece: &[u8],
        now: u64,
        down: &mut Vec<Bytes>,
    ) -> Result<(), AllocError>
        ensures took { OnOk result (spec.Sent (spec.server self.old now piece.now) self.new
            down.old.items down.new.items) }
        ensures left { OnErr result (spec.Left self.new [] [] down.new.items) }
    {
        if self.end.is_some() {
            return Ok(());
        }
        match self.read(piece, now, down) {
            Ok(()) => Ok(()),
            Err(_) => self.give_up(now, down),
        }
    }

    /// Takes the messages that are whole with a piece.
    fn read(&mut self, piece: &[u8], now: u64, down: &mut Vec<Bytes>) -> Result<(), AllocError>
        requires { self.old.end ≡ None }
        ensures { OnOk result (spec.Sent (spec.server self.old now piece.now) self.new
            down.old.items down.new.items) }
    {
        self.stream.push(piece)?;
        let messages = take_messages(self.alloc, &mut self.stream)?;
        self.take_all(&messages, now, down)?;
        Ok(())
    }

    /// Takes messages of the server's, one behind another.
    fn take_all(
        &mut self,
        messages: &Vec<Frame>,
        now: u64,
        down: &mut Vec<Bytes>,
    ) -> Result<(), AllocError>
        ensures { OnOk result (spec.Sent (spec.messages_take self.old now messages.now.items)
            self.new down.old.items down.new.items) }
    {
        for message in messages {
            self.message(message, now, down)?;
        }
        Ok(())
    }

    /// Takes a message of the server's.
    fn message(
        &mut self,
        message: &Frame,
        now: u64,
        down: &mut Vec<Bytes>,
    ) -> Result<(), AllocError>
        ensures { OnOk result (spec.Sent (spec.message self.old now message.now) self.new
            down.old.items down.new.items) }
    {
        let last = self.requests.last();
        note(self.alloc, last, self.asked, &mut self.own, message)?;
        self.answered = true;
        if message.header().transaction() == 0 {
            let copy = message.copy(self.alloc)?;
            self.notices.tell(last, self.terms.limit, now, copy, down)?;
            Ok(())
        } else {
            self.answer(message, down)?;
            Ok(())
        }
    }

    /// Sends an answer of the server's.
    fn answer(&mut self, message: &Frame, down: &mut Vec<Bytes>) -> Result<(), AllocError>
        ensures { OnOk result (spec.Sent (spec.answers self.old message.now) self.new
            down.old.items down.new.items) }
    {
        self.notices.cross(message)?;
        let extended = extend(self.alloc, message.bytes())?;
        self.requests.answer(self.terms.limit, &extended, down)?;
        Ok(())
    }

    /// Says that the server's stream ended, or can't be had. Before the server said anything the request
    /// that waits is answered by error code 14; else the peer is sent a Goodbye.
    pub fn server_ended(&mut self, now: u64, down: &mut Vec<Bytes>) -> Result<(), AllocError>
        ensures took { OnOk result (spec.Sent
            (spec.unless_ended self.old (spec.server_ends now self.old)) self.new
            down.old.items down.new.items) }
        ensures left { OnErr result (spec.Left self.new [] [] down.new.items) }
    {
        if self.end.is_some() {
            return Ok(());
        }
        match self.end_with_server(now, down) {
            Ok(()) => Ok(()),
            Err(_) => self.give_up(now, down),
        }
    }

    /// Ends it, since the server's stream ended.
    fn end_with_server(&mut self, now: u64, down: &mut Vec<Bytes>) -> Result<(), AllocError>
        ensures { OnOk result (spec.Sent (spec.server_ends now self.old) self.new
            down.old.items down.new.items) }
    {
        if self.answered {
            self.part(End::ServerGone, now, down)?;
            Ok(())
        } else {
            self.refuse(now, down)?;
            Ok(())
        }
    }

    /// Ends it: the peer is sent a Goodbye, and is lost to the server.
    pub fn shut_out(
        &mut self,
        end: End,
        now: u64,
        up: &mut Vec<u8>,
        down: &mut Vec<Bytes>,
    ) -> Result<(), AllocError>
        ensures took { OnOk result (spec.Took
            (spec.unless_ended self.old (spec.shuts_out end now self.old)) self.new
            up.old.items up.new.items down.old.items down.new.items) }
        ensures left { OnErr result (spec.Left self.new
            up.old.items up.new.items down.new.items) }
    {
        if self.end.is_some() {
            return Ok(());
        }
        match self.part(end, now, down) {
            Ok(()) => {}
            Err(_) => return self.give_up(now, down),
        }
        match up.push(UNFINISHED) {
            Ok(()) => Ok(()),
            Err(_) => self.give_up(now, down),
        }
    }

    /// Ends it without a word to the peer, who is lost to the server.
    pub fn lose(
        &mut self,
        end: End,
        now: u64,
        up: &mut Vec<u8>,
        down: &mut Vec<Bytes>,
    ) -> Result<(), AllocError>
        ensures took { OnOk result (spec.Took
            (spec.unless_ended self.old (spec.loses end now self.old)) self.new
            up.old.items up.new.items down.old.items down.new.items) }
        ensures left { OnErr result (spec.Left self.new
            up.old.items up.new.items down.new.items) }
    {
        if self.end.is_some() {
            return Ok(());
        }
        match up.push(UNFINISHED) {
            Ok(()) => {
                self.finish(end, now);
                Ok(())
            }
            Err(_) => self.give_up(now, down),
        }
    }

    /// Does what is due by now: sends a notice again, loses a peer who doesn't acknowledge, asks one who
    /// was silent, and gives up a message that came in part.
    pub fn time(
        &mut self,
        now: u64,
        up: &mut Vec<u8>,
        down: &mut Vec<Bytes>,
    ) -> Result<(), AllocError>
        ensures took { OnOk result (spec.Took (spec.time self.old now) self.new
            up.old.items up.new.items down.old.items down.new.items) }
        ensures left { OnErr result (spec.Left self.new
            up.old.items up.new.items down.new.items) }
    {
        self.expire(now);
        match self.be_late(now, up, down) {
            Ok(()) => Ok(()),
            Err(_) => self.give_up(now, down),
        }
    }

    /// Waits for an acknowledgement, or asks a peer that was silent.
    fn be_late(
        &mut self,
        now: u64,
        up: &mut Vec<u8>,
        down: &mut Vec<Bytes>,
    ) -> Result<(), AllocError>
        ensures took { OnOk result (spec.Took (spec.is_late self.old now) self.new
            up.old.items up.new.items down.old.items down.new.items) }
        ensures left { OnErr result (up.new.items ≡ up.old.items) }
    {
        if self.notices.is_out() {
            self.wait(now, up, down)?;
            Ok(())
        } else {
            self.probe(now, down)?;
            Ok(())
        }
    }

    /// When `time` is to be called at the latest, in milliseconds, where something is due some time.
    pub fn due(&self) -> Option<u64>
        ensures value { result ≡ spec.due self.now }
    {
        let next = if self.notices.is_out() {
            self.notices.due()
        } else {
            probe_due(&self.own, self.heard, self.terms.probe)
        };
        earlier(self.expiry(), next)
    }

    /// When fragments that are held are given up.
    fn expiry(&self) -> Option<u64>
        ensures { result ≡ spec.expiry self.now }
    {
        match self.requests.held_since() {
            None => None,
            Some(since) => Some(since.saturating_add(u64::from(self.notices.t2()))),
        }
    }

    /// Gives up fragments that are held as long as an answer is kept.
    fn expire(&mut self, now: u64)
        ensures { self.new ≡ spec.expired self.old now }
    {
        let t2 = u64::from(self.notices.t2());
        match self.requests.held_since() {
            Some(since) if now.saturating_sub(since) >= t2 => self.requests.forget_fragments(),
            Some(_) => {}
            None => {}
        }
    }

    /// Waits for the acknowledgement of the notice that is out.
    fn wait(&mut self, now: u64, up: &mut Vec<u8>, down: &mut Vec<Bytes>) -> Result<(), AllocError>
        ensures took { OnOk result (spec.Took (spec.waits_for self.old now) self.new
            up.old.items up.new.items down.old.items down.new.items) }
        ensures left { OnErr result (up.new.items ≡ up.old.items) }
    {
        if !self.notices.is_lost(now) {
            self.notices.again(now, down)?;
            return Ok(());
        }
        if self.end.is_some() {
            self.notices.give_up();
            return Ok(());
        }
        up.push(UNFINISHED)?;
        self.finish(End::Lost, now);
        Ok(())
    }

    /// Tells a peer who holds something and was silent the latest of it again.
    fn probe(&mut self, now: u64, down: &mut Vec<Bytes>) -> Result<(), AllocError>
        ensures { OnOk result (spec.Sent (spec.probes (spec.last_of self.old.own) self.old now)
            self.new down.old.items down.new.items) }
    {
        let last = self.requests.last();
        match last_of(&self.own) {
            None => Ok(()),
            Some(message) => {
                if now.saturating_sub(self.heard) < self.terms.probe {
                    return Ok(());
                }
                self.notices
                    .begin(last, self.terms.limit, now, message, down)?;
                Ok(())
            }
        }
    }

    /// Ends it, and sends the peer a Goodbye.
    fn part(&mut self, end: End, now: u64, down: &mut Vec<Bytes>) -> Result<(), AllocError>
        ensures { OnOk result (spec.Sent (spec.parts end now self.old) self.new
            down.old.items down.new.items) }
    {
        let goodbye = goodbye(self.alloc, self.terms.conference, self.terms.user)?;
        let last = self.requests.last();
        self.notices
            .part(last, self.terms.limit, now, &goodbye, down)?;
        self.requests.end();
        self.stream = Framer::new(self.alloc);
        self.own = Vec::new(self.alloc);
        self.end = Some(end);
        self.ended = now;
        Ok(())
    }

    /// Ends it without a server: the request that waits is refused.
    fn refuse(&mut self, now: u64, down: &mut Vec<Bytes>) -> Result<(), AllocError>
        ensures { OnOk result (spec.Sent (spec.refused self.old.requests.last now self.old) self.new
            down.old.items down.new.items) }
    {
        match self.requests.last() {
            None => {
                self.finish(End::NoServer, now);
                Ok(())
            }
            Some(id) => {
                let refusal = refusal(self.alloc, self.terms.conference, id, self.terms.user)?;
                self.requests.refuse(refusal, down)?;
                self.notices.give_up();
                self.stream = Framer::new(self.alloc);
                self.own = Vec::new(self.alloc);
                self.end = Some(End::NoServer);
                self.ended = now;
                Ok(())
            }
        }
    }

    /// Ends it, and lets go of what it holds.
    fn finish(&mut self, end: End, now: u64)
        ensures { self.new ≡ spec.finished end now self.old }
    {
        self.requests.end();
        self.notices.give_up();
        self.stream = Framer::new(self.alloc);
        self.own = Vec::new(self.alloc);
        self.end = Some(end);
        self.ended = now;
    }

    /// Ends it for want of memory.
    fn give_up(&mut self, now: u64, down: &mut Vec<Bytes>) -> Result<(), AllocError>
        ensures failed { IsErr result }
        ensures ended { self.new.end ≡ Some End.Memory }
        ensures dropped { down.new.items ≡ [] }
    {
        self.finish(End::Memory, now);
        down.clear();
        Err(AllocError)
    }
}

/// Takes off the messages that are held whole.
fn take_messages(alloc: Global, stream: &mut Framer) -> Result<Vec<Frame>, AllocError>
    ensures value { IfOk result (λ taken. taken.items ≡ messages stream.old) }
    ensures next { OnOk result (stream.new ≡ rest stream.old) }
{
    let mut taken = Vec::new(alloc);
    loop {
        match stream.next()? {
            Some(message) => taken.push(message)?,
            None => return Ok(taken),
        }
    }
}

/// When a peer that holds something is asked, of which nothing is heard any more.
fn probe_due(own: &Vec<Frame>, heard: u64, probe: u64) -> Option<u64>
    ensures { result ≡ option_map (λ m. later heard probe) (spec.last_of own.now.items) }
{
    match last_of(own) {
        None => None,
        Some(_) => Some(heard.saturating_add(probe)),
    }
}

/// The earlier of two times, where there are any.
fn earlier(a: Option<u64>, b: Option<u64>) -> Option<u64>
    ensures { result ≡ spec.earlier a b }
{
    match (a, b) {
        (None, other) => other,
        (Some(time), None) => Some(time),
        (Some(time), Some(other)) => Some(time.min(other)),
    }
}

/// The last of some messages.
fn last_of(messages: &Vec<Frame>) -> Option<&Frame>
    ensures { option_copied result ≡ spec.last_of messages.now.items }
{
    messages.as_slice().last()
}
