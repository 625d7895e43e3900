//! What a line asks for is begun.

ghost use Rattle.std.specs.Prelude.{◌≡◌, ◌≢◌};
ghost use Rattle.floor_control.specs.declared.refusal.ControlRefusal.TheVariants.{Forgotten};
ghost use Rattle.floor_poll.specs.Refusals.{ended};

use crate::desk::{CONSOLE, Desk};
use crate::lines::refused;
use crate::task::{List, Step, Task, Then, Went};
use floor_console::{BoardRefusal, Command};
use floor_control::{
    ConfigFault, ControlRefusal, Done, Floor, Line, Octets, Opening, Text, User, add_draining,
    add_end, add_stopped, add_unwatched, add_word, add_word_kept,
};
use floor_loop::Act;
use floor_poll::{Asked, Asker, Question, ended, no_counts};
use floor_server::Entry;
use std::alloc::{AllocError, Global};
use std::fs::File;
use std::net::Net;
use std::rt::Files;
use std::sync::Wait;
use std::thread::Threads;
use std::time::Clock;

impl<R> Desk<R>
where
    R: Net
        + Files<File = File>
        + AllocGlobal
        + Clock
        + Threads
        + Wait
        + Copy
        + Drop
        + Send
        + 'static,
{
    /// Begins what a line asks for.
    pub fn begin(&mut self, number: u64, mut task: Task, line: Line) -> Result<Went, AllocError> {
        let begun = match line {
            Line::Command(Command::Empty) => return Ok(Went::Over),
            line => self.begin_asked(number, &mut task, line),
        };
        self.take_told(number);
        match begun {
            Ok(step) => {
                task.step = step;
                Ok(Went::On(task))
            }
            Err(refusal) => refused(task, refusal),
        }
    }

    /// Keeps what a person is told of a refusal, where that is the console's.
    pub fn take_told(&mut self, number: u64) {
        let told = self.server.take_told();
        self.note_told(number, told);
    }

    /// Keeps what a person is told of what a client was refused, where that is the console.
    pub fn note_told(&mut self, number: u64, told: Option<String>) {
        if number == CONSOLE && told.is_some() {
            self.told = told;
        }
    }

    /// Begins what a line asks for that isn't empty.
    fn begin_asked(
        &mut self,
        number: u64,
        task: &mut Task,
        line: Line,
    ) -> Result<Step, ControlRefusal> {
        match line {
            Line::Command(command) => self.begin_command(number, task, command),
            Line::OpenHere => Ok(Step::Gather(Opening::new(self.alloc))),
            Line::List => self.list(),
            Line::Users { conference } => {
                self.question(number, conference, Question::Users { conference })
            }
            Line::Members { conference } => {
                self.question(number, conference, Question::Members { conference })
            }
            Line::Floors { conference } => {
                self.question(number, conference, Question::Floors { conference })
            }
            Line::Leave { conference, n } => self.leave(number, conference, n),
            Line::Forget { conference } => self.stand(number, conference, Then::Forget),
            Line::Journal { conference, from } => {
                self.stand(number, conference, Then::Journal { from })
            }
            Line::Watch { conference, from } => self.watch(number, conference, from),
            Line::Unwatch { conference } => self.unwatch_for(number, task, conference),
            Line::Word {
                conference,
                key,
                value,
            } => self.keep_word(number, task, conference, key, value),
            Line::Words { conference } => self.tell_words(task, conference),
            Line::Metrics => Ok(count_all()),
            Line::Drain => self.drain(task),
        }
    }

    /// Begins what the console asks for as well.
    fn begin_command(
        &mut self,
        number: u64,
        task: &mut Task,
        command: Command,
    ) -> Result<Step, ControlRefusal> {
        match command {
            Command::Empty => Ok(Step::End),
            Command::Open { path } => self.read_file(number, path),
            Command::Close { conference } => self.act(number, conference, Act::Close, Done::Closed),
            Command::Revoke {
                conference,
                request,
            } => self.revoke(number, conference, request),
            Command::AddUser { conference, user } => self.add_user(number, conference, user),
            Command::AddFloor { conference, floor } => self.add_floor(number, conference, floor),
            Command::SetChair {
                conference,
                floor,
                chair,
            } => self.set_chair(number, conference, floor, chair),
            Command::Status { conference } => self.stand(number, conference, Then::Status),
            Command::Journal { conference } => {
                self.stand(number, conference, Then::Journal { from: None })
            }
            Command::Stop => self.stop_for(number, task),
        }
    }

    fn leave(&mut self, number: u64, conference: u32, n: u32) -> Result<Step, ControlRefusal> {
        self.ask(number, conference, Asked::Leave { conference, n })?;
        Ok(Step::Acting {
            conference,
            done: Done::Left(n),
        })
    }

    /// Asks the loop of a conference for a line, which has one at a time.
    pub fn ask(
        &mut self,
        number: u64,
        conference: u32,
        asked: Asked,
    ) -> Result<(), ControlRefusal> {
        let Some(place) = self.server.owner(conference) else {
            return Err(ControlRefusal::ByBoard(BoardRefusal::NoConference));
        };
        self.send(place, Asker::Line { client: number }, asked)
    }

    /// Asks a loop; there is room for the answer.
    pub fn send(&mut self, place: usize, asker: Asker, asked: Asked) -> Result<(), ControlRefusal> {
        self.inbox.reserve(&self.rt, self.expected())?;
        self.server.send(place, asker, asked)?;
        Ok(())
    }

    /// How many notes may come at most before another ask: an answer and a configuration for each client, an answer
    /// to what it is behind with, an answer and a growth for each conference that is followed, and the loops' ends.
    pub fn expected(&self) -> usize {
        let clients = self.clients.len().saturating_add(1).saturating_mul(3);
        let followed = self.following.saturating_add(1).saturating_mul(2);
        clients
            .saturating_add(followed)
            .saturating_add(self.opening.len())
            .saturating_add(self.server.loops())
    }

    fn act(
        &mut self,
        number: u64,
        conference: u32,
        act: Act,
        done: Done,
    ) -> Result<Step, ControlRefusal> {
        self.ask(number, conference, Asked::Admin { conference, act })?;
        Ok(Step::Acting { conference, done })
    }

    fn revoke(
        &mut self,
        number: u64,
        conference: u32,
        request: u16,
    ) -> Result<Step, ControlRefusal> {
        let act = Act::Revoke(request);
        self.act(number, conference, act, Done::Revoked(request))
    }

    fn add_floor(
        &mut self,
        number: u64,
        conference: u32,
        floor: Floor,
    ) -> Result<Step, ControlRefusal> {
        let done = Done::FloorAdded(floor.id);
        self.act(number, conference, Act::AddFloor(floor), done)
    }

    fn set_chair(
        &mut self,
        number: u64,
        conference: u32,
        floor: u16,
        chair: Option<u16>,
    ) -> Result<Step, ControlRefusal> {
        let act = Act::SetChair(floor, chair);
        self.act(number, conference, act, Done::ChairSet(floor))
    }

    fn add_user(
        &mut self,
        number: u64,
        conference: u32,
        user: User,
    ) -> Result<Step, ControlRefusal> {
        let done = Done::UserAdded(user.id);
        let asked = self.server.adding_of(conference, user)?;
        self.ask(number, conference, asked)?;
        Ok(Step::Acting { conference, done })
    }

    fn stand(&mut self, number: u64, conference: u32, then: Then) -> Result<Step, ControlRefusal> {
        let question = Question::Status { conference };
        self.ask(number, conference, Asked::Tell(question))?;
        Ok(Step::Standing { conference, then })
    }

    fn question(
        &mut self,
        number: u64,
        conference: u32,
        question: Question,
    ) -> Result<Step, ControlRefusal> {
        self.ask(number, conference, Asked::Tell(question))?;
        Ok(Step::Lines)
    }

    fn list(&mut self) -> Result<Step, ControlRefusal> {
        Ok(Step::List(List {
            conferences: self.server.conferences()?,
            at: 0,
            place: 0,
            found: Vec::new(self.alloc),
            count: 0,
        }))
    }

    fn watch(
        &mut self,
        number: u64,
        conference: u32,
        from: Option<u64>,
    ) -> Result<Step, ControlRefusal> {
        let _meeting = self.meeting(conference)?;
        if self.watches(number, conference) {
            return Err(ControlRefusal::Watching);
        }
        self.stand(number, conference, Then::Watch { from })
    }

    fn unwatch_for(
        &mut self,
        number: u64,
        task: &mut Task,
        conference: u32,
    ) -> Result<Step, ControlRefusal> {
        let _meeting = self.meeting(conference)?;
        self.unwatch(number, conference);
        add_unwatched(&mut task.text, conference)?;
        Ok(Step::End)
    }

    fn keep_word(
        &mut self,
        number: u64,
        task: &mut Task,
        conference: u32,
        key: Text,
        value: Option<Octets>,
    ) -> Result<Step, ControlRefusal> {
        let keeps = self.server.keeps();
        let meeting = match self.meeting(conference) {
            Ok(meeting) => meeting,
            Err(refusal) => return Err(of_act(refusal)),
        };
        match &value {
            Some(value) if !meeting.words.fits(key.as_str(), value.as_slice()) => {
                return Err(ControlRefusal::from(ConfigFault::OutOfRange));
            }
            _ => {}
        }
        if keeps {
            return self.ask_to_keep(number, conference, key, value);
        }
        self.take_word(task, conference, key, value)
    }

    /// Has a word stand in the conference's file before it is answered.
    fn ask_to_keep(
        &mut self,
        number: u64,
        conference: u32,
        key: Text,
        value: Option<Octets>,
    ) -> Result<Step, ControlRefusal> {
        let asked = Asked::Word {
            conference,
            key: key.copy(self.alloc)?,
            value: copy_of(self.alloc, &value)?,
        };
        self.ask(number, conference, asked)?;
        Ok(Step::Wording {
            conference,
            key,
            value,
        })
    }

    /// Keeps a word beside a conference, and answers.
    pub fn take_word(
        &mut self,
        task: &mut Task,
        conference: u32,
        key: Text,
        value: Option<Octets>,
    ) -> Result<Step, ControlRefusal> {
        let meeting = match self.meeting(conference) {
            Ok(meeting) => meeting,
            Err(refusal) => return Err(of_act(refusal)),
        };
        add_word_kept(&mut task.text, conference, key.as_str())?;
        let entry = match value {
            Some(value) => {
                meeting.words.keep(key, value)?;
                Entry::WordKept { conference }
            }
            None => {
                meeting.words.remove(key.as_str());
                Entry::WordRemoved { conference }
            }
        };
        self.server.tell(&entry);
        Ok(Step::End)
    }

    fn tell_words(&mut self, task: &mut Task, conference: u32) -> Result<Step, ControlRefusal> {
        let meeting = self.meeting(conference)?;
        let words = meeting.words.items();
        for word in words {
            add_word(&mut task.text, word.key.as_str(), word.value.as_slice())?;
        }
        add_end(&mut task.text, words.len())?;
        Ok(Step::End)
    }

    /// Opens no conference any more, and asks each loop, once, to tell once none of its own is open.
    fn drain(&mut self, task: &mut Task) -> Result<Step, ControlRefusal> {
        self.is_draining = true;
        self.server.tell(&Entry::Draining);
        for place in self.asked_to_drain..self.server.loops() {
            self.send(place, Asker::Drain, Asked::Drain)?;
            self.asked_to_drain = place.saturating_add(1);
        }
        add_draining(&mut task.text)?;
        Ok(Step::End)
    }

    fn stop_for(&mut self, number: u64, task: &mut Task) -> Result<Step, ControlRefusal> {
        let outcome = self.stop(number);
        add_stopped(&mut task.text, outcome)?;
        Ok(Step::End)
    }
}

/// The server's counts are asked of one loop behind another.
fn count_all() -> Step {
    Step::Count {
        place: 0,
        counts: no_counts(),
    }
}

/// The same octets, where there are some.
fn copy_of(alloc: Global, value: &Option<Octets>) -> Result<Option<Octets>, AllocError> {
    match value {
        Some(value) => Ok(Some(value.copy(alloc)?)),
        None => Ok(None),
    }
}

/// What an act is refused by where a conference was forgotten: it is a closed one.
fn of_act(refusal: ControlRefusal) -> ControlRefusal
    ensures forgotten { refusal ≡ Forgotten → result ≡ ended }
    ensures same { refusal ≢ Forgotten → result ≡ refusal }
{
    match refusal {
        ControlRefusal::Forgotten => ended(),
        other => other,
    }
}
