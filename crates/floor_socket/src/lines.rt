//! A client's lines, one after another: each is begun, and goes on as its answer is taken.

ghost use Rattle.std.specs.Str.Lines.{strip_carriage_return};
ghost use Rattle.std.specs.Prelude.{◌≡◌, IfOk, None};
ghost use Rattle.floor_control.specs.Answer.{refused};
ghost use Rattle.floor_socket.specs.Lines.{IsAnswered};

use crate::desk::{CONSOLE, Desk};
use crate::task::{Step, Task, Went};
use floor_console::parse_line;
use floor_control::{
    Asking, ControlRefusal, Line, LineFault, Next, add_refused, add_unread, read_line,
};
use std::alloc::{AllocError, Global};
use std::fs::File;
use std::mem;
use std::net::Net;
use std::rt::Files;
use std::sync::Wait;
use std::thread::Threads;
use std::time::Clock;

impl<R> Desk<R>
where
    R: Net
        + Files<File = File>
        + AllocGlobal
        + Clock
        + Threads
        + Wait
        + Copy
        + Drop
        + Send
        + 'static,
{
    /// Goes on with the line that a client has at work, or begins its next one, and says whether it came any further.
    /// A client for whom memory is refused is closed.
    pub fn advance(&mut self, number: u64) -> bool {
        let Some(seat) = self.clients.get_mut(&number) else {
            return false;
        };
        if seat.has_failed || seat.lines.is_full() {
            return false;
        }
        let task = seat.task.take();
        let went = match task {
            Some(task) => self.go_on(number, task),
            None => self.begin_next(number),
        };
        self.put_back(number, went)
    }

    /// Puts a line at work back, and says whether it came any further.
    pub fn put_back(&mut self, number: u64, went: Result<Went, AllocError>) -> bool {
        match self.clients.get_mut(&number) {
            Some(seat) => seat.put_back(went),
            None => false,
        }
    }

    /// Begins the next line of a client.
    fn begin_next(&mut self, number: u64) -> Result<Went, AllocError> {
        match self.next_of(number)? {
            Next::Line(line) => self.begin_line(number, without_return(line.as_str())),
            Next::NotText { len: _ } => refuse(self.alloc, ControlRefusal::NotText),
            Next::TooLong => refuse(self.alloc, ControlRefusal::TooLong),
            Next::Nothing | Next::Ended => Ok(Went::Idle),
        }
    }

    /// What comes next from a client; nothing from one of whom nothing more is read.
    pub fn next_of(&mut self, number: u64) -> Result<Next, AllocError> {
        match self.clients.get_mut(&number) {
            Some(seat) if !seat.is_deaf => seat.lines.next(self.alloc),
            _ => Ok(Next::Nothing),
        }
    }

    /// Begins a line. The console's have no tag, and none of them is one of the socket's own.
    fn begin_line(&mut self, number: u64, line: &str) -> Result<Went, AllocError> {
        let Asking { tag, line } = if number == CONSOLE {
            console_line(self.alloc, line)
        } else {
            read_line(self.alloc, line)?
        };
        let task = Task::new(self.alloc, tag, Step::End);
        match line {
            Ok(line) => self.begin(number, task, line),
            Err(fault) => unread(task, fault),
        }
    }

    /// Goes on with a line at work: what is there of the answer is handed out, and then comes the next step.
    fn go_on(&mut self, number: u64, mut task: Task) -> Result<Went, AllocError> {
        if task.has_text() {
            return self.hand_out(number, task);
        }
        let step = mem::replace(&mut task.step, Step::End);
        match step {
            Step::End => self.end_answer(number),
            Step::Gather(opening) => self.gather(number, task, opening),
            Step::Open { configs, count } => self.open_next(number, task, configs, count),
            Step::Hold { conference, place } => Ok(self.hold(number, task, conference, place)),
            Step::Journal(journal) => self.journal_on(number, task, journal),
            Step::Forget { conference, place } => self.forget_on(number, task, conference, place),
            Step::Watch { conference, from } => {
                self.begin_watch(number, conference, from)?;
                Ok(Went::On(task))
            }
            Step::List(list) => self.list_on(number, task, list),
            Step::Count { place, counts } => self.count_on(number, task, place, counts),
            waiting => {
                task.step = waiting;
                Ok(Went::Waits(task))
            }
        }
    }

    /// Hands out the next lines of an answer.
    fn hand_out(&mut self, number: u64, mut task: Task) -> Result<Went, AllocError> {
        let text = task.next_text(self.alloc)?;
        match self.clients.get_mut(&number) {
            Some(seat) if !seat.lines.is_full() => seat.lines.answer(text.as_str())?,
            _ => {}
        }
        Ok(Went::On(task))
    }

    /// Ends an answer.
    fn end_answer(&mut self, number: u64) -> Result<Went, AllocError> {
        if let Some(seat) = self.clients.get_mut(&number) {
            seat.lines.end_answer()?;
        }
        Ok(Went::Over)
    }

    /// An answer waits until what its client watches has come to its place.
    fn hold(&mut self, number: u64, mut task: Task, conference: u32, place: u64) -> Went {
        match self.reached(number, conference) {
            Some(reached) if reached < place => {
                task.step = Step::Hold { conference, place };
                Went::Waits(task)
            }
            _ => Went::On(task),
        }
    }
}

/// A line whose answer is a refusal, without a tag.
pub fn refuse(alloc: Global, refusal: ControlRefusal) -> Result<Went, AllocError>
    ensures value { IfOk result (IsAnswered None (refused refusal)) }
{
    refused(Task::new(alloc, None, Step::End), refusal)
}

/// A line that isn't done.
pub fn refused(mut task: Task, refusal: ControlRefusal) -> Result<Went, AllocError>
    ensures value { IfOk result (IsAnswered task.tag (refused refusal)) }
{
    task.clear();
    task.step = Step::End;
    add_refused(&mut task.text, refusal)?;
    Ok(Went::On(task))
}

/// A line that asks for nothing.
fn unread(mut task: Task, fault: LineFault) -> Result<Went, AllocError> {
    add_unread(&mut task.text, fault)?;
    Ok(Went::On(task))
}

/// What a line of the console asks for.
fn console_line(alloc: Global, line: &str) -> Asking
    ensures tag { result.tag ≡ None }
{
    let line = match parse_line(alloc, line) {
        Ok(command) => Ok(Line::Command(command)),
        Err(fault) => Err(LineFault::from(fault)),
    };
    Asking { tag: None, line }
}

/// A line without one carriage return at its end.
pub fn without_return(line: &str) -> &str
    ensures value { result.now ≡ strip_carriage_return line.now }
{
    line.strip_suffix('\r').unwrap_or(line)
}
