//! A client's buffers, without its socket.

ghost use Rattle.std.specs.Prelude.{◌≡◌, ◌≤◌, [], false, length, IfOk, OnErr, OnOk};
ghost use Rattle.floor_control.specs.Client.{is_done, new_client};
ghost use Rattle.floor_control.specs.Incoming.{ended, next_of, rest_of, room_of, took_in};
ghost use Rattle.floor_control.specs.Outgoing.{answered, ended_answer, first_bytes, is_full, is_over, told, wrote};

use crate::incoming::{Incoming, Next};
use crate::outgoing::Outgoing;
use std::alloc::{AllocError, Global};
use std::marker::Model;

/// A client's buffers, without its socket: bytes in, lines out; texts in, bytes out.
///
/// Lines: `room` says how many bytes may be read, `take_in` takes them, `end_input` says that no more
/// come, and `next` cuts the next line off. Answers: `answer` begins one or goes on with it, and
/// `end_answer` ends it; while `is_full`, no text of an answer is taken. Live text, whole lines, is
/// taken by `tell` at any time and goes out in the order in which it came, but that what comes within an
/// answer waits for its end. What goes out is lent by `writing`, and `wrote` says how much of it was
/// written. Once `is_over`, too much live text waits, and the client is to be closed at once; what is
/// told to it then is dropped. Once `is_done`, nothing comes and nothing goes any more.
#[derive(Drop)]
pub struct Client {
    incoming: Incoming,
    outgoing: Outgoing,
}

impl Model for Client {
    ghost use Rattle.floor_control.specs.Client.{Client};

    ghost Value = { Client };

    ghost view = { λ c. record { incoming = c.incoming; outgoing = c.outgoing } };
}

impl Client {
    /// A client of whom nothing came, and for whom nothing waits. Takes no memory.
    pub fn new(alloc: Global) -> Client
        ensures value { result ≡ new_client }
    {
        Client {
            incoming: Incoming::new(alloc),
            outgoing: Outgoing::new(alloc),
        }
    }

    /// How many bytes may be read: 4,096, and none while more than 65,536 are in no line that was given,
    /// or behind the end of the input.
    pub fn room(&self) -> usize
        ensures value { result ≡ room_of self.now.incoming }
    {
        self.incoming.room()
    }

    /// Takes bytes that came; behind the end of the input they are dropped. After an error nothing has
    /// changed.
    pub fn take_in(&mut self, bytes: &[u8]) -> Result<(), AllocError>
        ensures took { OnOk result
            (self.new ≡ record self.old { incoming = took_in bytes.now self.old.incoming }) }
        ensures left { OnErr result (self.new ≡ self.old) }
    {
        self.incoming.take_in(bytes)
    }

    /// Takes it that no more bytes come. The whole lines among those that came are still given.
    pub fn end_input(&mut self)
        ensures value { self.new ≡ record self.old { incoming = ended self.old.incoming } }
    {
        self.incoming.end();
    }

    /// What comes next; a line is cut off what came. A line that is too long ends the input. After an
    /// error nothing has changed.
    pub fn next(&mut self, alloc: Global) -> Result<Next, AllocError>
        ensures value { IfOk result (λ next. next ≡ next_of self.old.incoming) }
        ensures took { OnOk result
            (self.new ≡ record self.old { incoming = rest_of self.old.incoming }) }
        ensures left { OnErr result (self.new ≡ self.old) }
    {
        self.incoming.next(alloc)
    }

    /// Whether 256 KiB of answers wait. What is told of events doesn't count.
    pub fn is_full(&self) -> bool
        ensures value { result ≡ is_full self.now.outgoing }
    {
        self.outgoing.is_full()
    }

    /// Begins an answer with this text, or goes on with it. After an error nothing has changed.
    pub fn answer(&mut self, text: &str) -> Result<(), AllocError>
        requires { is_full self.old.outgoing ≡ false }
        ensures took { OnOk result
            (self.new ≡ record self.old { outgoing = answered text.now self.old.outgoing }) }
        ensures left { OnErr result (self.new ≡ self.old) }
    {
        self.outgoing.answer(text)
    }

    /// Ends the answer, and puts the live text behind it that came within it. After an error nothing has
    /// changed.
    pub fn end_answer(&mut self) -> Result<(), AllocError>
        ensures took { OnOk result
            (self.new ≡ record self.old { outgoing = ended_answer self.old.outgoing }) }
        ensures left { OnErr result (self.new ≡ self.old) }
    {
        self.outgoing.end_answer()
    }

    /// Takes live text, of whole lines. After an error nothing has changed.
    pub fn tell(&mut self, text: &str) -> Result<(), AllocError>
        ensures took { OnOk result
            (self.new ≡ record self.old { outgoing = told text.now self.old.outgoing }) }
        ensures left { OnErr result (self.new ≡ self.old) }
    {
        self.outgoing.tell(text)
    }

    /// Whether 1 MiB of live text waits: the client is to be closed.
    pub fn is_over(&self) -> bool
        ensures value { result ≡ is_over self.now.outgoing }
    {
        self.outgoing.is_over()
    }

    /// The bytes that are to be written next: none exactly where nothing waits to be written.
    pub fn writing(&self) -> &[u8]
        ensures value { result.now ≡ first_bytes self.now.outgoing.waiting }
        ensures none { result.now ≡ [] → self.now.outgoing.waiting ≡ [] }
    {
        self.outgoing.writing()
    }

    /// Takes it that so many of the bytes that `writing` lends were written.
    pub fn wrote(&mut self, count: usize)
        requires { count ≤ length (first_bytes self.old.outgoing.waiting) }
        ensures value { self.new ≡ record self.old { outgoing = wrote count self.old.outgoing } }
    {
        self.outgoing.wrote(count);
    }

    /// Whether no line comes any more, no answer was begun, and all is written.
    pub fn is_done(&self) -> bool
        ensures value { result ≡ is_done self.now }
    {
        self.incoming.is_spent() && self.outgoing.is_idle()
    }
}
