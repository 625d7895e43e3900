//! Conferences are opened for a client, one after another.

ghost use Rattle.std.specs.Prelude.{◌≡◌, None};

use crate::desk::Desk;
use crate::following::Meeting;
use crate::lines::{refuse, refused, without_return};
use crate::task::{Step, Task, Went};
use crate::words::words_of;
use floor_console::BoardRefusal;
use floor_control::{ControlRefusal, Next, Opening, Sent, Text, add_faulty_at, add_opened};
use floor_diagnosis::line_of_fault;
use floor_poll::{Answer, Asker, Fresh, Inbox, Note, Resumed, Unread, fresh_of};
use floor_server::{Config, Reason, ServerFault};
use std::alloc::{AllocError, Global};
use std::collections::VecDeque;
use std::fs::File;
use std::net::Net;
use std::rt::Files;
use std::sync::{Arc, Wait};
use std::thread;
use std::thread::{JoinHandle, Threads};
use std::time::Clock;

/// How many lines of a configuration are taken between two turns.
const MAX_LINES: u32 = 256;

/// What a configuration that a client sends is called.
const HERE: &str = "open .";

/// A conference that a loop opens.
#[derive(Drop)]
pub struct Opened {
    /// The loop.
    place: usize,
    config: Config,
}

impl<R> Desk<R>
where
    R: Net
        + Files<File = File>
        + AllocGlobal
        + Clock
        + Threads
        + Wait
        + Copy
        + Drop
        + Send
        + 'static,
{
    /// Opens the conferences of a file before the server is ready: not those that the folder has or had, where
    /// conferences are kept.
    pub fn open_first(&mut self, path: &str) -> Result<(), BoardRefusal> {
        for fresh in self.server.read_file(path)? {
            let conference = fresh.config().conference();
            if self.server.is_passed(conference) {
                continue;
            }
            let copy = fresh.config().copy(self.alloc)?;
            self.meetings.reserve(1)?;
            self.server.open_one(fresh)?;
            let _added = self
                .meetings
                .insert(conference, Meeting::new(self.alloc, copy));
        }
        Ok(())
    }

    /// Lets the conferences of the folder go on, where conferences are kept.
    pub fn resume_all(&mut self) -> Result<(), ServerFault> {
        self.server.list_kept()?;
        for _ in 0..u64::MAX {
            let Some(next) = self.server.resume_next()? else {
                break;
            };
            for resumed in next {
                self.take_resumed(resumed)?;
            }
        }
        Ok(())
    }

    /// Takes a conference in that goes on, with its words.
    fn take_resumed(&mut self, resumed: Resumed) -> Result<(), AllocError> {
        let Resumed { config, notes } = resumed;
        let conference = config.conference();
        let mut meeting = Meeting::new(self.alloc, config);
        meeting.words = words_of(self.alloc, notes)?;
        self.meetings.reserve(1)?;
        let _added = self.meetings.insert(conference, meeting);
        Ok(())
    }

    /// Takes lines of a configuration that a client sends.
    pub fn gather(
        &mut self,
        number: u64,
        mut task: Task,
        mut opening: Opening,
    ) -> Result<Went, AllocError> {
        for _ in 0..MAX_LINES {
            let sent = match self.next_of(number)? {
                Next::Line(line) => opening.add(without_return(line.as_str()))?,
                Next::NotText { len } => opening.add_not_text(len),
                Next::TooLong => return refuse(self.alloc, ControlRefusal::TooLong),
                Next::Nothing => {
                    task.step = Step::Gather(opening);
                    return Ok(Went::Waits(task));
                }
                Next::Ended => return Ok(Went::Over),
            };
            match sent {
                Sent::More => {}
                Sent::Whole => return self.read_sent(number, task, &opening),
                Sent::NotText => return refused(task, ControlRefusal::NotText),
                Sent::TooLong => return self.refuse_long(number),
            }
        }
        task.step = Step::Gather(opening);
        Ok(Went::On(task))
    }

    /// Refuses a configuration that is too long: nothing more is read from its client.
    fn refuse_long(&mut self, number: u64) -> Result<Went, AllocError> {
        if let Some(seat) = self.clients.get_mut(&number) {
            seat.is_deaf = true;
        }
        refuse(self.alloc, ControlRefusal::TooLong)
    }

    /// Has a configuration read that a client has sent.
    fn read_sent(
        &mut self,
        number: u64,
        mut task: Task,
        opening: &Opening,
    ) -> Result<Went, AllocError> {
        let text = String::from_str(self.alloc, opening.text())?;
        let source = Source {
            path: None,
            text,
            is_kept: false,
        };
        match self.start_reader(number, source) {
            Ok(step) => {
                task.step = step;
                Ok(Went::Waits(task))
            }
            Err(refusal) => refused(task, refusal),
        }
    }

    /// Has the configuration of a file read.
    pub fn read_file(&mut self, number: u64, path: Text) -> Result<Step, ControlRefusal> {
        let text = self.server.text_of(path.as_str())?;
        let path = Some(path);
        let source = Source {
            path,
            text,
            is_kept: false,
        };
        self.start_reader(number, source)
    }

    /// Has a configuration's text read by a thread of its own, since that may take long.
    fn start_reader(&mut self, number: u64, source: Source) -> Result<Step, ControlRefusal> {
        if self.is_draining {
            return Err(ControlRefusal::Draining);
        }
        self.readers.reserve(1)?;
        self.inbox.reserve(&self.rt, self.expected())?;
        let inbox = Arc::try_clone(&self.inbox)?;
        let source = Source {
            is_kept: self.server.keeps(),
            ..source
        };
        let thread = spawn_reader(self.rt, self.alloc, number, source, inbox)?;
        let _added = self.readers.insert(number, thread);
        Ok(Step::Read)
    }

    /// Takes a configuration that was read.
    pub fn take_read(&mut self, number: u64, read: Result<VecDeque<Fresh>, Unread>) {
        if let Some(thread) = self.readers.swap_remove(&number) {
            thread.join(&self.rt);
        }
        let Some(seat) = self.clients.get_mut(&number) else {
            return;
        };
        let Some(mut task) = seat.task.take() else {
            return;
        };
        let went = match read {
            Ok(configs) => {
                task.step = Step::Open { configs, count: 0 };
                Ok(Went::On(task))
            }
            Err(unread) => self.refuse_read(number, task, unread),
        };
        let _moved = self.put_back(number, went);
        self.queue(number);
    }

    /// Refuses a configuration, with the line of the fault where there is one.
    fn refuse_read(
        &mut self,
        number: u64,
        mut task: Task,
        unread: Unread,
    ) -> Result<Went, AllocError> {
        let Unread {
            refusal,
            line,
            told,
        } = unread;
        self.note_told(number, told);
        match (refusal, line) {
            (BoardRefusal::ByConfiguration(fault), Some(line)) => {
                task.step = Step::End;
                add_faulty_at(&mut task.text, fault, line)?;
                Ok(Went::On(task))
            }
            _ => {
                task.step = Step::End;
                refused(task, ControlRefusal::ByBoard(refusal))
            }
        }
    }

    /// Has a loop open the next conference of a configuration; behind the last their number is told.
    pub fn open_next(
        &mut self,
        number: u64,
        mut task: Task,
        mut configs: VecDeque<Fresh>,
        count: usize,
    ) -> Result<Went, AllocError> {
        let Some(fresh) = configs.pop_front() else {
            add_opened(&mut task.text, count)?;
            return Ok(Went::On(task));
        };
        let asked = self.ask_to_open(number, fresh);
        self.take_told(number);
        match asked {
            Ok(()) => {
                task.step = Step::Opening { configs, count };
                Ok(Went::Waits(task))
            }
            Err(refusal) => refused(task, refusal),
        }
    }

    /// Asks the loop whose turn it is to open a conference.
    fn ask_to_open(&mut self, number: u64, fresh: Fresh) -> Result<(), ControlRefusal> {
        if self.is_draining {
            return Err(ControlRefusal::Draining);
        }
        let conference = fresh.config().conference();
        if self.opening.get(&conference).is_some() {
            return Err(ControlRefusal::ByBoard(BoardRefusal::Used));
        }
        let copy = fresh.config().copy(self.alloc)?;
        self.meetings.reserve(self.opening.len().saturating_add(1))?;
        self.opening.reserve(1)?;
        let asked = self.server.opening_of(fresh)?;
        let place = self.server.next_loop(self.opening.len());
        let asker = Asker::Opening {
            client: number,
            conference,
        };
        self.send(place, asker, asked)?;
        let _added = self.opening.insert(
            conference,
            Opened {
                place,
                config: copy,
            },
        );
        Ok(())
    }

    /// Takes it that a loop has opened a conference, or hasn't. The client that asked may be gone.
    pub fn settle_opening(&mut self, conference: u32, answer: &Answer) {
        let Some(Opened { place, config }) = self.opening.swap_remove(&conference) else {
            return;
        };
        if matches!(answer, Answer::Done(Ok(_))) {
            let _taken = self.server.take_opened(conference, place);
            let _added = self
                .meetings
                .insert(conference, Meeting::new(self.alloc, config));
        }
    }
}

/// A configuration's text.
#[derive(Drop)]
struct Source {
    /// The path of its file; `None` where a client has sent it.
    path: Option<Text>,
    text: String,
    /// Whether conferences are kept.
    is_kept: bool,
}

/// Has a configuration read by a thread of its own.
fn spawn_reader<R>(
    rt: R,
    alloc: Global,
    client: u64,
    source: Source,
    inbox: Arc<Inbox, Global>,
) -> Result<JoinHandle<()>, AllocError>
where
    R: Threads + Wait + Copy + Drop + Send + 'static,
{
    match thread::spawn(&rt, move || read_for(rt, alloc, client, source, &inbox)) {
        Ok(thread) => Ok(thread),
        Err(_) => Err(AllocError),
    }
}

/// Reads a configuration for a client, and tells the first thread of it.
fn read_for<R: Wait + Drop>(rt: R, alloc: Global, client: u64, source: Source, inbox: &Inbox) {
    let text = source.text.as_str();
    let read = match &source.path {
        Some(path) => read_fresh(alloc, path.as_str(), text, source.is_kept),
        None => read_sent(alloc, text, source.is_kept),
    };
    inbox.put(&rt, Note::Read { client, read });
}

/// The configurations of a text that a client has sent.
fn read_sent(alloc: Global, text: &str, is_kept: bool) -> Result<VecDeque<Fresh>, Unread> {
    match read_fresh(alloc, HERE, text, is_kept) {
        Ok(configs) => Ok(configs),
        Err(unread) => Err(with_line(alloc, text, unread)),
    }
}

/// The configurations of a text.
fn read_fresh(
    alloc: Global,
    path: &str,
    text: &str,
    is_kept: bool,
) -> Result<VecDeque<Fresh>, Unread> {
    match fresh_of(alloc, path, text, is_kept) {
        Ok(configs) => match queue_of(alloc, configs) {
            Ok(queue) => Ok(queue),
            Err(_) => Err(Unread {
                refusal: BoardRefusal::Memory,
                line: None,
                told: None,
            }),
        },
        Err(reason) => Err(unread(reason)),
    }
}

/// Configurations that are taken from the front.
fn queue_of(alloc: Global, configs: Vec<Fresh>) -> Result<VecDeque<Fresh>, AllocError> {
    let mut queue = VecDeque::new(alloc);
    queue.reserve(configs.len())?;
    for config in configs {
        if queue.push_back(config).is_err() {
            return Err(AllocError);
        }
    }
    Ok(queue)
}

/// Why a configuration isn't opened, with the line of the fault where it has one.
fn with_line(alloc: Global, text: &str, unread: Unread) -> Unread
    ensures refusal { result.refusal ≡ unread.refusal }
    ensures told { result.told ≡ unread.told }
{
    let line = match unread.refusal {
        BoardRefusal::ByConfiguration(_) => line_of_fault(alloc, text).unwrap_or(None),
        _ => None,
    };
    Unread { line, ..unread }
}

fn unread(reason: Reason) -> Unread
    ensures refusal { result.refusal ≡ reason.refusal }
    ensures line { result.line ≡ None }
    ensures told { result.told ≡ reason.line }
{
    let Reason { refusal, line } = reason;
    Unread {
        refusal,
        line: None,
        told: line,
    }
}
