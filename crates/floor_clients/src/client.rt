//! A control client, without its socket.

ghost use Rattle.std.specs.Prelude.{◌≡◌, ◌≤◌, ◌<◌, ◌+◌, None, Some, IfOk, OnErr, OnOk, false, length, min, true};
ghost use Rattle.floor_rpc.specs.declared.error.ErrorName.TheVariants as error;
ghost use Rattle.floor_clients.specs.declared.standing.CloseReason.TheVariants as reason;
ghost use Rattle.floor_clients.specs.declared.standing.Next.TheVariants as gives;
ghost use Rattle.floor_clients.specs.Clients.{answered_by, asked_of, came, closed, closed_by, comes, ended, full, is_done, is_free, is_nothing, is_over, is_ready, max_notices, new_client, put_told, refusal_line, room, told_if, took_by};
ghost use Rattle.floor_clients.specs.Lines.{line_len};
ghost use Rattle.floor_clients.specs.Outgoing.{answered, lent, notices_len};
ghost use Rattle.floor_clients.specs.Served.{Goes, Passes, Serves, Tells, asked_after, given, outgoing_after};
ghost use Rattle.floor_clients.specs.Watched.{Sets, next_of, passed_at};

use crate::incoming::Incoming;
use crate::mode::Mode;
use crate::outgoing::Outgoing;
use crate::reply::{Reply, read_reply, shown_to, write_answer};
use crate::standing::{Asked, CloseReason, Next, Standing};
use crate::told::Told;
use crate::watched::Watched;
use crate::workspace::Workspace;
use floor_rpc::{Answer, ErrorName, Failure, Id, MAX_LINE, Response};
use std::alloc::{AllocError, Global};
use std::marker::Model;
use std::mem::replace;

/// How many clients there may be at once at each socket: our choice. One more is made by `Client::full`.
pub const MAX_CLIENTS: usize = 64;

/// How many bytes of notifications may wait for a client: our choice. A client for which more would wait is closed.
pub const MAX_NOTICES: usize = 1_048_576;

/// The same of a client that watches all conferences.
pub const MAX_NOTICES_OF_ALL: usize = 16_777_216;

/// A control client, without its socket: bytes in, tasks out; answers and notifications in, bytes out.
///
/// - Lines: `came` takes bytes, cut anywhere, and `ended` that no more come. `next` serves the next whole line, one at a
///   time: a line that asks for something to be carried out gives a task, and until its `answer` no further line is
///   served, nor while an answer is under way. `is_ready` says that `next` would serve a line, or close.
/// - Notifications: `watch`, `unwatch` and `watch_all` say what it watches, `tell` what happened, and `pass` that an event
///   shows nothing. Whether it is told is found out here.
/// - Writing: `lent` lends what is to be written next, and `took` takes it that so much was taken.
/// - The end: once `standing` is `Over` nothing is added to what waits; once `is_done` the socket is to be shut.
#[derive(Drop)]
pub struct Client {
    mode: Mode,
    standing: Standing,
    incoming: Incoming,
    asked: Asked,
    outgoing: Outgoing,
    watched: Watched,
}

impl Model for Client {
    ghost use Rattle.floor_clients.specs.Clients.{Client};

    ghost Value = { Client };

    ghost view = { λ c. record {
      mode = c.mode;
      standing = c.standing;
      held = c.incoming;
      asked = c.asked;
      outgoing = c.outgoing;
      watched = c.watched;
    } };
}

impl Client {
    /// A client of whom nothing came, and for whom nothing waits. Takes no memory.
    pub fn new(alloc: Global, mode: Mode) -> Client
        ensures value { result ≡ new_client mode }
    {
        Client {
            mode,
            standing: Standing::Serving,
            incoming: Incoming::new(alloc),
            asked: Asked::Nothing,
            outgoing: Outgoing::new(alloc),
            watched: Watched::new(alloc),
        }
    }

    /// A client for which there is no place: it is told so and is to be closed.
    pub fn full(alloc: Global, work: &mut Workspace, mode: Mode) -> Result<Client, AllocError>
        ensures value { IfOk result (λ c. c ≡ full mode) }
    {
        let mut outgoing = Outgoing::new(alloc);
        refuse(alloc, work, &mut outgoing, ErrorName::Full)?;
        Ok(Client {
            mode,
            standing: Standing::Over(CloseReason::Full),
            incoming: Incoming::new(alloc),
            asked: Asked::Nothing,
            outgoing,
            watched: Watched::new(alloc),
        })
    }

    /// How it stands.
    pub fn standing(&self) -> Standing
        ensures value { result ≡ self.now.standing }
    {
        self.standing
    }

    /// By which socket it came.
    pub fn mode(&self) -> Mode
        ensures value { result ≡ self.now.mode }
    {
        self.mode
    }

    /// Whether nothing is added to what waits any more.
    fn is_over(&self) -> bool
        ensures value { result ≡ is_over self.now.standing }
    {
        match self.standing {
            Standing::Over(_) => true,
            Standing::Serving | Standing::Ended => false,
        }
    }

    /// Takes bytes that came. Behind the end of its stream, and once it is to be closed, they are dropped. After an error
    /// nothing has changed.
    pub fn came(&mut self, bytes: &[u8]) -> Result<(), AllocError>
        ensures took { OnOk result (self.new ≡ came bytes.now self.old) }
        ensures left { OnErr result (self.new ≡ self.old) }
        // Whoever reads only while no line may be served holds a line at most, and what came last.
        ensures bounded { is_free self.old ≡ true → is_ready self.old ≡ false
            → length self.new.held ≤ 1048576 + length bytes.now }
    {
        match self.standing {
            Standing::Serving => self.incoming.take_in(bytes),
            Standing::Ended | Standing::Over(_) => Ok(()),
        }
    }

    /// Takes it that no more bytes come.
    pub fn ended(&mut self)
        ensures next { self.new ≡ ended self.old }
    {
        match self.standing {
            Standing::Serving => self.standing = Standing::Ended,
            Standing::Ended | Standing::Over(_) => {}
        }
    }

    /// It is to be closed, unless it is already.
    pub fn close(&mut self, reason: CloseReason)
        ensures next { self.new ≡ closed reason self.old }
    {
        match self.standing {
            Standing::Serving | Standing::Ended => self.standing = Standing::Over(reason),
            Standing::Over(_) => {}
        }
    }

    /// Whether a line of it may be served: it isn't to be closed, awaits nothing, and no answer is under way.
    pub fn is_free(&self) -> bool
        ensures value { result ≡ is_free self.now }
    {
        !self.is_over() && is_nothing(&self.asked) && self.outgoing.answer_len() == 0
    }

    /// Whether `next` would serve a line, or close.
    pub fn is_ready(&mut self) -> bool
        ensures value { result ≡ is_ready self.old }
        ensures same { self.new ≡ self.old }
    {
        let comes = comes(&mut self.incoming);
        self.is_free() && comes
    }

    /// Whether its socket is to be shut: it is to be closed, or its stream has ended and each whole line is answered, and
    /// nothing waits.
    pub fn is_done(&mut self) -> bool
        ensures value { result ≡ is_done self.old }
        ensures same { self.new ≡ self.old }
    {
        if !self.outgoing.is_empty() {
            return false;
        }
        let comes = comes(&mut self.incoming);
        match self.standing {
            Standing::Serving => false,
            Standing::Ended => is_nothing(&self.asked) && !comes,
            Standing::Over(_) => true,
        }
    }

    /// Serves the next whole line, if one may be served. While the server drains no conference is opened. After an error
    /// nothing has changed.
    pub fn next(
        &mut self,
        alloc: Global,
        work: &mut Workspace,
        is_draining: bool,
    ) -> Result<Next, AllocError>
        ensures took { IfOk result (λ next. Goes is_draining next self.old self.new) }
        ensures left { OnErr result (self.new ≡ self.old) }
    {
        if !self.is_free() {
            return Ok(Next::Nothing);
        }
        match self.incoming.find() {
            Some(len) if len <= MAX_LINE => self.serve(alloc, work, is_draining, len),
            Some(_) => self.close_too_long(alloc, work),
            None if self.incoming.len() <= MAX_LINE => Ok(Next::Nothing),
            None => self.close_too_long(alloc, work),
        }
    }

    /// Serves the first line, of so many bytes.
    fn serve(
        &mut self,
        alloc: Global,
        work: &mut Workspace,
        is_draining: bool,
        len: usize,
    ) -> Result<Next, AllocError>
        requires free { is_free self.old ≡ true }
        requires line { line_len self.old.held ≡ Some len }
        requires few { len ≤ 1048576 }
        ensures took { IfOk result (λ next. Serves is_draining next self.old self.new) }
        ensures left { OnErr result (self.new ≡ self.old) }
    {
        let line = self.incoming.front(len);
        let reply = read_reply(alloc, work, self.mode, is_draining, line)?;
        let next = follow(alloc, work, &mut self.asked, &mut self.outgoing, reply)?;
        self.incoming.pass(len + 1);
        Ok(next)
    }

    /// It is told that its line is too long.
    fn close_too_long(&mut self, alloc: Global, work: &mut Workspace) -> Result<Next, AllocError>
        ensures value { IfOk result (λ next. next ≡ gives.Closed) }
        ensures took { OnOk result
            (self.new ≡ closed_by error.TooLong reason.TooLong self.old) }
        ensures left { OnErr result (self.new ≡ self.old) }
    {
        refuse(alloc, work, &mut self.outgoing, ErrorName::TooLong)?;
        self.standing = Standing::Over(CloseReason::TooLong);
        Ok(Next::Closed)
    }

    /// What it asked for last came to this. A client that is to be closed isn't answered, nor is one that awaits nothing.
    /// After an error nothing has changed.
    pub fn answer(
        &mut self,
        alloc: Global,
        work: &mut Workspace,
        outcome: Result<Answer, Failure>,
    ) -> Result<(), AllocError>
        ensures took { OnOk result (self.new ≡ answered_by outcome self.old) }
        ensures left { OnErr result (self.new ≡ self.old) }
    {
        if self.is_over() {
            return Ok(());
        }
        match replace(&mut self.asked, Asked::Nothing) {
            Asked::Nothing | Asked::Silent => Ok(()),
            Asked::Answer(id) => {
                let response = Response {
                    id,
                    outcome: shown_to(alloc, self.mode, outcome),
                };
                match write_answer(alloc, work, &mut self.outgoing, &response) {
                    Ok(()) => Ok(()),
                    Err(_) => {
                        self.asked = Asked::Answer(response.id);
                        Err(AllocError)
                    }
                }
            }
        }
    }

    /// It watches a conference from a place on. After an error nothing has changed.
    pub fn watch(&mut self, conference: u32, place: u64) -> Result<(), AllocError>
        ensures took { OnOk result (self.new ≡ record self.old { watched = self.new.watched }) }
        ensures watched { OnOk result
            (Sets conference (Some place) self.old.watched self.new.watched) }
        ensures left { OnErr result (self.new ≡ self.old) }
    {
        self.watched.watch(conference, place)
    }

    /// It doesn't watch a conference by its number any more.
    pub fn unwatch(&mut self, conference: u32)
        ensures next { self.new ≡ record self.old { watched = self.new.watched } }
        ensures watched { Sets conference None self.old.watched self.new.watched }
    {
        self.watched.unwatch(conference);
    }

    /// It watches all other conferences too, or doesn't.
    pub fn watch_all(&mut self, all: bool)
        ensures next { self.new
            ≡ record self.old { watched = record self.old.watched { all = all } } }
    {
        self.watched.set_all(all);
    }

    /// The place of a conference that it is told next, where it watches it by its number.
    pub fn next_of(&self, conference: u32) -> Option<u64>
        ensures value { result ≡ next_of self.now.watched conference }
    {
        self.watched.next_of(conference)
    }

    /// How many bytes of notifications wait for it.
    pub fn notices_len(&self) -> usize
        ensures value { result ≡ notices_len self.now.outgoing }
    {
        self.outgoing.notices_len()
    }

    /// Tells it what happened, if it is to be told, and it is past. A client for which too much would wait is to be closed.
    /// After an error nothing has changed.
    pub fn tell(&mut self, told: &Told) -> Result<(), AllocError>
        ensures took { OnOk result (Tells told.now self.old self.new) }
        ensures left { OnErr result (self.new ≡ self.old) }
    {
        self.tell_if(told)?;
        pass_told(&mut self.watched, told);
        Ok(())
    }

    /// Tells it what happened, if it is to be told.
    fn tell_if(&mut self, told: &Told) -> Result<(), AllocError>
        ensures took { OnOk result (self.new ≡ told_if told.now self.old) }
        ensures left { OnErr result (self.new ≡ self.old) }
    {
        if !self.is_over() && told.is_wanted(self.mode, &self.watched) {
            return self.put_told(told);
        }
        Ok(())
    }

    /// Puts what is told behind what waits, unless that is too much.
    fn put_told(&mut self, told: &Told) -> Result<(), AllocError>
        ensures took { OnOk result (self.new ≡ put_told told.now self.old) }
        ensures left { OnErr result (self.new ≡ self.old) }
    {
        let line = told.line();
        if line.len() <= self.room() {
            return self.outgoing.tell(line);
        }
        self.standing = Standing::Over(CloseReason::Behind);
        Ok(())
    }

    /// How many bytes of notifications may be added.
    fn room(&self) -> usize
        ensures value { result ≡ room self.now }
    {
        max_notices(&self.watched).saturating_sub(self.outgoing.notices_len())
    }

    /// An event of a conference shows nothing: it is past.
    pub fn pass(&mut self, conference: u32, place: u64)
        requires { place < 18446744073709551615 }
        ensures next { self.new ≡ record self.old { watched = self.new.watched } }
        ensures watched { Sets conference (passed_at place (next_of self.old.watched conference))
            self.old.watched self.new.watched }
    {
        self.watched.pass(conference, place);
    }

    /// What is to be written next: 64 KiB at most, and none where nothing waits.
    pub fn lent(&self) -> &[u8]
        ensures value { result.now ≡ lent self.now.outgoing }
    {
        self.outgoing.lent()
    }

    /// So many of the bytes that are lent were taken, or all.
    pub fn took(&mut self, count: usize)
        ensures next { self.new ≡ took_by (min count (length (lent self.old.outgoing))) self.old }
    {
        let count = lesser(count, self.outgoing.lent().len());
        self.outgoing.took(count);
    }
}

/// Does what follows from a line: writes its answer, or gives what is to be carried out. After an error nothing has
/// changed.
fn follow(
    alloc: Global,
    work: &mut Workspace,
    asked: &mut Asked,
    outgoing: &mut Outgoing,
    reply: Reply,
) -> Result<Next, AllocError>
    ensures value { IfOk result (λ next. next ≡ given reply) }
    ensures asked { OnOk result (asked.new ≡ asked_after reply asked.old) }
    ensures outgoing { OnOk result (outgoing.new ≡ outgoing_after reply outgoing.old) }
    ensures left_asked { OnErr result (asked.new ≡ asked.old) }
    ensures left { OnErr result (outgoing.new ≡ outgoing.old) }
{
    match reply {
        Reply::Silent => Ok(Next::Served),
        Reply::Answer(response) => match write_answer(alloc, work, outgoing, &response) {
            Ok(()) => Ok(Next::Served),
            Err(_) => Err(AllocError),
        },
        Reply::Task(id, call) => {
            *asked = asked_of(id);
            Ok(Next::Task(call))
        }
    }
}

/// What an event shows is past; of what else happened nothing is.
fn pass_told(watched: &mut Watched, told: &Told)
    ensures next { Passes told.now.what told.now.place watched.old watched.new }
{
    if told.is_event() {
        watched.pass(told.conference(), told.place());
    }
}

/// How many bytes of notifications may wait for a client that watches this.
fn max_notices(watched: &Watched) -> usize
    ensures value { result ≡ max_notices watched.now }
{
    if watched.has_all() {
        MAX_NOTICES_OF_ALL
    } else {
        MAX_NOTICES
    }
}

/// Whether the first line has come whole, or is too long already.
fn comes(incoming: &mut Incoming) -> bool
    ensures value { result ≡ comes incoming.old }
    ensures same { incoming.new ≡ incoming.old }
{
    match incoming.find() {
        Some(_) => true,
        None => MAX_LINE < incoming.len(),
    }
}

fn is_nothing(asked: &Asked) -> bool
    ensures value { result ≡ is_nothing asked.now }
{
    match asked {
        Asked::Nothing => true,
        Asked::Silent | Asked::Answer(_) => false,
    }
}

/// What is awaited where a request with this id, or without one, is to be carried out.
fn asked_of(id: Option<Id>) -> Asked
    ensures value { result ≡ asked_of id }
{
    match id {
        Some(id) => Asked::Answer(id),
        None => Asked::Silent,
    }
}

/// The lesser of a count and of the most that it may be.
fn lesser(count: usize, most: usize) -> usize
    ensures value { result ≡ min count most }
    ensures within { result ≤ most }
{
    count.min(most)
}

/// Writes an error of which no id is known behind what waits. After an error nothing has changed of that.
fn refuse(
    alloc: Global,
    work: &mut Workspace,
    outgoing: &mut Outgoing,
    name: ErrorName,
) -> Result<(), AllocError>
    ensures took { OnOk result (outgoing.new ≡ answered (refusal_line name) outgoing.old) }
    ensures left { OnErr result (outgoing.new ≡ outgoing.old) }
{
    let response = Response {
        id: Id::Null,
        outcome: Err(Failure::whole(name)),
    };
    write_answer(alloc, work, outgoing, &response)
}
