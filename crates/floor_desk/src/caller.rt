//! A control client at its socket: what its answer waits for, and what it lacks of what it watches.

ghost use Rattle.std.specs.Prelude.{◌≡◌, None, OnErr, OnOk, Some, length, min};
ghost use Rattle.floor_clients.specs.Clients.{answered_by, came, closed, ended, took_by};
ghost use Rattle.floor_clients.specs.Outgoing.{lent};
ghost use Rattle.floor_desk.specs.Clients.{OrCloses, PassesOrStays, ServesOrCloses, TellsOrCloses, Watches};
ghost use Rattle.floor_desk.specs.declared.caller.Task.TheVariants as tasks;

use floor_clients::{Client, CloseReason, Next, Told, Workspace};
use floor_rpc::{Answer, Failure, Text, UserAddition};
use floor_shown::{Follower, NewConference};
use std::alloc::{AllocError, Global};
use std::mem::replace;

/// What a request that was carried out has come to.
#[derive(Drop)]
pub enum Done {
    /// It is answered at once.
    Now(Answer),
    /// It is the event of a place: it is answered once its client, if it watches the conference, is told each place up to
    /// this one.
    At { told: PlaceOf, answer: Answer },
    /// It is answered later.
    Later(Task),
}

/// A place of a conference's journal.
#[derive(Clone, Copy, Debug, PartialEq, Eq)]
pub struct PlaceOf {
    pub conference: u32,
    pub place: u64,
}

/// What the answer to a client waits for.
#[derive(Drop)]
pub enum Task {
    /// Nothing is awaited.
    Nothing,
    /// That the client is told each place of the conference up to this one.
    Told {
        told: PlaceOf,
        answer: Answer,
    },
    /// That this text is read, which bears this number.
    Configuring {
        number: u64,
        text: Text,
    },
    /// That these ports are listened on, which bears this number.
    Ports {
        number: u64,
        ports: Vec<u16>,
        awaiting: Awaiting,
    },
    /// How much memory there is.
    Figures,
    /// That whatever is carried out for others is answered.
    Stopping,
}

/// What is done once its ports are listened on.
#[derive(Drop)]
pub enum Awaiting {
    /// A conference is opened.
    Opening(NewConference),
    /// A user is added.
    Addition(UserAddition),
}

/// Who a client is: its own number, which no other has or had, and its socket.
#[derive(Clone, Copy, Debug, PartialEq, Eq)]
pub struct ClientId {
    pub client: u64,
    pub socket: usize,
}

/// What a client lacks of a conference that it watches from an earlier place on: whoever follows its events has come to
/// one that the client is told, or to one before.
#[derive(Drop)]
pub struct Lack {
    pub conference: u32,
    pub follower: Follower,
}

/// A control client at its socket.
#[derive(Drop)]
pub struct Caller {
    /// Its own number, which no other has or had.
    pub number: u64,
    pub client: Client,
    /// Whether it watches all conferences.
    pub is_watching_all: bool,
    pub task: Task,
    /// What it lacks, each of another conference, in the order in which it is told.
    pub lacks: Vec<Lack>,
}

impl Caller {
    /// Bytes came from its socket. Where memory is refused it is to be closed. Says whether a line may be served.
    pub(crate) fn came(&mut self, bytes: &[u8]) -> bool
        ensures client { OrCloses (came bytes.now) self.old.client self.new.client }
        ensures number { self.new.number ≡ self.old.number }
        ensures task { self.new.task ≡ self.old.task }
    {
        self.take_in(bytes);
        self.client.is_ready()
    }

    fn take_in(&mut self, bytes: &[u8])
        ensures client { OrCloses (came bytes.now) self.old.client self.new.client }
        ensures number { self.new.number ≡ self.old.number }
        ensures task { self.new.task ≡ self.old.task }
    {
        match self.client.came(bytes) {
            Ok(()) => {}
            Err(_) => self.client.close(CloseReason::Memory),
        }
    }

    /// Its stream has ended.
    pub(crate) fn ended(&mut self)
        ensures client { self.new.client ≡ ended self.old.client }
        ensures number { self.new.number ≡ self.old.number }
        ensures task { self.new.task ≡ self.old.task }
    {
        self.client.ended();
    }

    /// Its socket took so many of the bytes that were lent. Says how many were.
    pub(crate) fn took(&mut self, count: usize) -> usize
        ensures value { result ≡ length (lent self.old.client.outgoing) }
        ensures client { self.new.client
            ≡ took_by (min count (length (lent self.old.client.outgoing))) self.old.client }
        ensures number { self.new.number ≡ self.old.number }
        ensures task { self.new.task ≡ self.old.task }
    {
        let lent = self.client.lent().len();
        self.client.took(count);
        lent
    }

    /// What follows from its next line. Where memory is refused it is to be closed.
    pub(crate) fn next(&mut self, alloc: Global, work: &mut Workspace, is_draining: bool) -> Next
        ensures client { ServesOrCloses is_draining result self.old.client self.new.client }
        ensures number { self.new.number ≡ self.old.number }
        ensures task { self.new.task ≡ self.old.task }
    {
        match self.client.next(alloc, work, is_draining) {
            Ok(next) => next,
            Err(_) => {
                self.client.close(CloseReason::Memory);
                Next::Nothing
            }
        }
    }

    /// It is answered, and awaits nothing any more. Where memory is refused it is to be closed.
    pub(crate) fn answer(
        &mut self,
        alloc: Global,
        work: &mut Workspace,
        outcome: Result<Answer, Failure>,
    )
        ensures client { OrCloses (answered_by outcome) self.old.client self.new.client }
        ensures number { self.new.number ≡ self.old.number }
        ensures task { self.new.task ≡ tasks.Nothing }
    {
        self.task = Task::Nothing;
        match self.client.answer(alloc, work, outcome) {
            Ok(()) => {}
            Err(_) => self.client.close(CloseReason::Memory),
        }
    }

    /// Its answer waits for this.
    pub(crate) fn wait(&mut self, task: Task)
        ensures client { self.new.client ≡ self.old.client }
        ensures number { self.new.number ≡ self.old.number }
        ensures task { self.new.task ≡ task }
    {
        self.task = task;
    }

    /// What its answer waits for, which is awaited no more.
    pub(crate) fn take_task(&mut self) -> Task
        ensures value { result ≡ self.old.task }
        ensures client { self.new.client ≡ self.old.client }
        ensures number { self.new.number ≡ self.old.number }
        ensures task { self.new.task ≡ tasks.Nothing }
    {
        replace(&mut self.task, Task::Nothing)
    }

    /// It watches a conference from a place on. After an error nothing has changed.
    pub(crate) fn watch(&mut self, conference: u32, place: u64) -> Result<(), AllocError>
        ensures client { OnOk result
            (Watches conference (Some place) self.old.client self.new.client) }
        ensures left { OnErr result (self.new ≡ self.old) }
        ensures number { self.new.number ≡ self.old.number }
        ensures task { self.new.task ≡ self.old.task }
    {
        self.client.watch(conference, place)
    }

    /// It doesn't watch a conference by its number any more.
    pub(crate) fn unwatch(&mut self, conference: u32)
        ensures client { Watches conference None self.old.client self.new.client }
        ensures number { self.new.number ≡ self.old.number }
        ensures task { self.new.task ≡ self.old.task }
    {
        self.lacks.retain(|lack| lack.conference != conference);
        self.client.unwatch(conference);
    }

    /// It watches all other conferences too, or doesn't.
    pub(crate) fn watch_all(&mut self, all: bool)
        ensures client { self.new.client ≡ record self.old.client {
          watched = record self.old.client.watched { all = all };
        } }
        ensures number { self.new.number ≡ self.old.number }
        ensures task { self.new.task ≡ self.old.task }
    {
        self.is_watching_all = all;
        self.client.watch_all(all);
    }

    /// It is told what happened, if it watches that. Where memory is refused it is to be closed.
    pub(crate) fn tell(&mut self, told: &Told)
        ensures client { TellsOrCloses told.now self.old.client self.new.client }
        ensures number { self.new.number ≡ self.old.number }
        ensures task { self.new.task ≡ self.old.task }
    {
        match self.client.tell(told) {
            Ok(()) => {}
            Err(_) => self.client.close(CloseReason::Memory),
        }
    }

    /// An event shows nothing: it is past.
    pub(crate) fn pass(&mut self, told: PlaceOf)
        ensures client { PassesOrStays told self.old.client self.new.client }
        ensures number { self.new.number ≡ self.old.number }
        ensures task { self.new.task ≡ self.old.task }
    {
        // No journal is so long.
        if told.place == u64::MAX {
            return;
        }
        self.client.pass(told.conference, told.place);
    }

    /// It is to be closed.
    pub(crate) fn close(&mut self, reason: CloseReason)
        ensures client { self.new.client ≡ closed reason self.old.client }
        ensures number { self.new.number ≡ self.old.number }
        ensures task { self.new.task ≡ self.old.task }
    {
        self.client.close(reason);
    }

    /// It lacks this too. Where memory is refused it doesn't.
    pub(crate) fn add_lack(&mut self, lack: Lack) -> Result<(), AllocError>
        ensures client { self.new.client ≡ self.old.client }
        ensures number { self.new.number ≡ self.old.number }
        ensures task { self.new.task ≡ self.old.task }
    {
        self.lacks.push(lack)?;
        Ok(())
    }

    /// What it lacks first, or first of a conference, which it is told now.
    pub(crate) fn take_lack(&mut self, conference: Option<u32>) -> Option<Lack>
        ensures client { self.new.client ≡ self.old.client }
        ensures number { self.new.number ≡ self.old.number }
        ensures task { self.new.task ≡ self.old.task }
    {
        let index = self.lacks.iter().position(|lack| is_of(lack, conference))?;
        Some(self.lacks.remove(index))
    }
}

/// Whether something that is lacked is of this conference, or of any where none is named.
fn is_of(lack: &Lack, conference: Option<u32>) -> bool {
    match conference {
        Some(conference) => lack.conference == conference,
        None => true,
    }
}
