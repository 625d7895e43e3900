//! Standard input and output, among the sockets: lines come, and their answers go.
//!
//! Where the system tells when one of them is ready it is read or written once then; where it doesn't, as of a file, that
//! is always so.

use floor_console::{BoardRefusal, Command, ConsoleFault};
use floor_listen::ServerFault;
use floor_room::{add_end, add_lines};
use floor_server::next_command;
use floor_service::{HubRefusal, Service};
use floor_streams::{Found, Written, read_some, write_some};
use mio::unix::SourceFd;
use mio::{Interest, Registry, Token};
use std::alloc::{AllocError, Global};
use std::collections::VecDeque;
use std::io::{Read, Write};

/// The tokens of standard input and output; each other is a socket's number.
pub const INPUT: Token = Token(usize::MAX);

pub const OUTPUT: Token = Token(usize::MAX - 1);

/// How many bytes are written at a time: no more than a pipe takes once it is ready.
const MAX_WRITE: usize = 4_096;

/// A journal that is told by pieces: how many of its events are told, and how many it had.
#[derive(Clone, Copy, Debug)]
struct Telling {
    conference: u32,
    done: usize,
    count: usize,
}

/// What an administrator's lines come from and their answers go to. A line is begun once the answer to the one before is
/// written, and none is read while a whole one waits.
#[derive(Drop)]
pub struct Console {
    /// Whether standard input can be read at once, and standard output written.
    has_input: bool,
    has_output: bool,
    /// What came and wasn't carried out, and how many line feeds it has.
    lines: VecDeque<u8>,
    feeds: usize,
    has_input_ended: bool,
    /// Whether it may end while the program serves on, for control clients, and whether it has.
    pub may_end: bool,
    has_ended: bool,
    /// The last answer, and how much of it is written.
    answer: String,
    written: usize,
    /// The rest of the answer.
    rest: Option<Telling>,
}

impl Console {
    /// Has the poll tell of standard input and output.
    pub fn new(alloc: Global, registry: &Registry) -> Console {
        let input = registry.register(&mut SourceFd(&0), INPUT, Interest::READABLE);
        let output = registry.register(&mut SourceFd(&1), OUTPUT, Interest::WRITABLE);
        Console {
            has_input: input.is_err(),
            has_output: output.is_err(),
            lines: VecDeque::new(alloc),
            feeds: 0,
            has_input_ended: false,
            may_end: false,
            has_ended: false,
            answer: String::new(alloc),
            written: 0,
            rest: None,
        }
    }

    /// The poll told of one of them.
    pub fn note(&mut self, token: Token) {
        match token {
            INPUT => self.has_input = true,
            _ => self.has_output = true,
        }
    }

    /// Whether something can be done at once.
    pub fn is_ready(&self) -> bool {
        !self.has_ended && self.has_work()
    }

    fn has_work(&self) -> bool {
        (self.has_input && self.may_read())
            || (self.has_output && !self.is_answered())
            || (self.is_answered() && (self.rest.is_some() || !self.may_read()))
    }

    fn may_read(&self) -> bool {
        !self.has_input_ended && self.feeds == 0
    }

    /// Whether what there is of an answer is written.
    fn is_answered(&self) -> bool {
        self.answer.len() <= self.written
    }

    /// Reads and writes, once each, where they are ready, and has the poll tell of them again. An `Err` is want of memory,
    /// or that standard output can't be written: where it may end it has then.
    pub fn serve<I: Read, O: Write>(
        &mut self,
        registry: &Registry,
        input: &mut I,
        output: &mut O,
        buffer: &mut [u8],
    ) -> Result<(), ServerFault> {
        if self.has_ended {
            return Ok(());
        }
        match self.serve_once(registry, input, output, buffer) {
            Err(ServerFault::CannotWrite) if self.may_end => {
                self.has_ended = true;
                Ok(())
            }
            served => served,
        }
    }

    fn serve_once<I: Read, O: Write>(
        &mut self,
        registry: &Registry,
        input: &mut I,
        output: &mut O,
        buffer: &mut [u8],
    ) -> Result<(), ServerFault> {
        if self.has_output && !self.is_answered() {
            self.write(output)?;
            let told = registry.reregister(&mut SourceFd(&1), OUTPUT, Interest::WRITABLE);
            self.has_output = told.is_err();
        }
        if self.has_input && self.may_read() {
            self.read(input, buffer)?;
            let told = registry.reregister(&mut SourceFd(&0), INPUT, Interest::READABLE);
            self.has_input = told.is_err();
        }
        Ok(())
    }

    fn read<I: Read>(&mut self, input: &mut I, buffer: &mut [u8]) -> Result<(), AllocError> {
        match read_some(input, buffer) {
            Found::Bytes(count) => {
                for byte in &buffer[..count] {
                    self.lines.push_back(*byte)?;
                    if *byte == b'\n' {
                        self.feeds = self.feeds.saturating_add(1);
                    }
                }
            }
            Found::Nothing => {}
            Found::End | Found::Failure => self.has_input_ended = true,
        }
        Ok(())
    }

    fn write<O: Write>(&mut self, output: &mut O) -> Result<(), ServerFault> {
        let rest = self.answer.as_bytes().get(self.written..).unwrap_or(&[]);
        match write_some(output, &rest[..rest.len().min(MAX_WRITE)]) {
            Written::Bytes(count) => self.written = self.written.saturating_add(count),
            Written::All | Written::Nothing => {}
            Written::Failure => return Err(ServerFault::CannotWrite),
        }
        output.flush().map_err(|_| ServerFault::CannotWrite)
    }

    /// What the next line asks for, where one is whole and the one before is answered. The end of the input asks for a
    /// stop, unless it may end.
    pub fn next(
        &mut self,
        alloc: Global,
    ) -> Result<Option<Result<Command, ConsoleFault>>, ServerFault> {
        if self.has_ended || !self.is_answered() || self.rest.is_some() || self.may_read() {
            return Ok(None);
        }
        if self.may_end && self.feeds == 0 {
            self.has_ended = true;
            return Ok(None);
        }
        self.feeds = self.feeds.saturating_sub(1);
        let command = next_command(alloc, &mut self.lines, &mut String::new(alloc))?;
        Ok(Some(command))
    }

    /// The line is answered so.
    pub fn answer(&mut self, text: String) {
        self.answer = text;
        self.written = 0;
    }

    /// The line is answered by a journal that has so many events now, by pieces, so that who asks for a long one holds
    /// nobody up.
    pub fn answer_journal(&mut self, conference: u32, count: usize) {
        let done = 0;
        self.rest = Some(Telling {
            conference,
            done,
            count,
        });
    }

    /// Answers by the next piece of a journal, where one is told and what it was answered is written.
    pub fn tell_on(&mut self, alloc: Global, server: &Service) -> Result<(), AllocError> {
        match self.rest {
            Some(rest) if self.is_answered() => self.tell_next(alloc, server, rest),
            _ => Ok(()),
        }
    }

    fn tell_next(
        &mut self,
        alloc: Global,
        server: &Service,
        rest: Telling,
    ) -> Result<(), AllocError> {
        let events = server.hub().journal(rest.conference).unwrap_or(&[]);
        let events = events.get(..rest.count).unwrap_or(events);
        let mut text = String::new(alloc);
        let added = add_lines(alloc, &mut text, events, rest.done)?;
        let done = rest.done.saturating_add(added);
        self.rest = Some(Telling { done, ..rest });
        if added == 0 {
            add_end(alloc, &mut text, done)?;
            self.rest = None;
        }
        self.answer(text);
        Ok(())
    }
}

/// What a line is answered where the value refuses what it asks for.
pub fn refused_by(refusal: HubRefusal) -> BoardRefusal {
    match refusal {
        HubRefusal::Used => BoardRefusal::Used,
        HubRefusal::Memory => BoardRefusal::Memory,
        HubRefusal::ByRoom(refusal) => BoardRefusal::ByRoom(refusal),
        HubRefusal::NoConference
        | HubRefusal::NoConnection
        | HubRefusal::BadMessage
        | HubRefusal::Forgotten
        | HubRefusal::Running => BoardRefusal::NoConference,
    }
}
