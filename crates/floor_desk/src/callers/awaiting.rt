//! What each control client awaits, and its answer.

ghost use Rattle.std.specs.Prelude.{◌≡◌};
ghost use Rattle.floor_clients.specs.Clients.{answered_by};
ghost use Rattle.floor_desk.specs.Attending.{Attends, beside};
ghost use Rattle.floor_desk.specs.Clients.{OrCloses};
ghost use Rattle.floor_desk.specs.Callers.{EndsTask, OthersStay, caller_at, is_told_to, task_at, told_at};
ghost use Rattle.floor_desk.specs.declared.caller.Task.TheVariants as tasks;

use crate::caller::{Caller, PlaceOf, Task};
use crate::callers::Callers;
use floor_clients::{Standing, Workspace};
use floor_rpc::{Answer, Failure};
use std::alloc::Global;

impl Callers {
    /// A client is answered, and awaits nothing any more. One for which memory is refused is to be closed.
    pub fn answer(
        &mut self,
        alloc: Global,
        work: &mut Workspace,
        slot: usize,
        outcome: Result<Answer, Failure>,
    )
        ensures here { EndsTask tasks.Nothing (OrCloses (answered_by outcome))
            (caller_at self.old slot) (caller_at self.new slot) }
        ensures others { OthersStay slot self.old self.new }
        ensures attends { Attends beside self.old self.new }
    {
        self.answer_at(alloc, work, slot, outcome);
    }

    fn answer_at(
        &mut self,
        alloc: Global,
        work: &mut Workspace,
        slot: usize,
        outcome: Result<Answer, Failure>,
    )
        ensures here { EndsTask tasks.Nothing (OrCloses (answered_by outcome))
            (caller_at self.old slot) (caller_at self.new slot) }
        ensures others { OthersStay slot self.old self.new }
    {
        let Some(place) = self.slots.get_mut(slot) else {
            return;
        };
        if let Some(caller) = place {
            caller.answer(alloc, work, outcome);
        }
    }

    /// The answer to a client waits for this.
    pub fn wait(&mut self, slot: usize, task: Task)
        ensures here { EndsTask task (λ old new. new ≡ old)
            (caller_at self.old slot) (caller_at self.new slot) }
        ensures others { OthersStay slot self.old self.new }
        ensures attends { Attends beside self.old self.new }
    {
        self.wait_at(slot, task);
    }

    fn wait_at(&mut self, slot: usize, task: Task)
        ensures here { EndsTask task (λ old new. new ≡ old)
            (caller_at self.old slot) (caller_at self.new slot) }
        ensures others { OthersStay slot self.old self.new }
    {
        if let Some(place) = self.slots.get_mut(slot) {
            if let Some(caller) = place {
                caller.wait(task);
            }
        }
    }

    /// What the answer to a client waits for, which is awaited no more.
    pub fn take_task(&mut self, slot: usize) -> Task
        ensures value { result ≡ task_at (caller_at self.old slot) }
        ensures here { EndsTask tasks.Nothing (λ old new. new ≡ old)
            (caller_at self.old slot) (caller_at self.new slot) }
        ensures others { OthersStay slot self.old self.new }
        ensures attends { Attends beside self.old self.new }
    {
        self.take_task_at(slot)
    }

    fn take_task_at(&mut self, slot: usize) -> Task
        ensures value { result ≡ task_at (caller_at self.old slot) }
        ensures here { EndsTask tasks.Nothing (λ old new. new ≡ old)
            (caller_at self.old slot) (caller_at self.new slot) }
        ensures others { OthersStay slot self.old self.new }
    {
        let Some(place) = self.slots.get_mut(slot) else {
            return Task::Nothing;
        };
        match place {
            Some(caller) => caller.take_task(),
            None => Task::Nothing,
        }
    }

    /// The place that a client is to be told before it is answered.
    pub fn told(&self, slot: usize) -> Option<PlaceOf>
        ensures value { result ≡ told_at (caller_at self.now slot) }
    {
        match self.get(slot) {
            Some(caller) => match &caller.task {
                Task::Told { told, .. } => Some(*told),
                Task::Nothing
                | Task::Configuring { .. }
                | Task::Ports { .. }
                | Task::Figures
                | Task::Stopping => None,
            },
            None => None,
        }
    }

    /// Whether a client has been told each place of a conference up to this one, so far as it watches it.
    pub fn is_told(&self, slot: usize, told: PlaceOf) -> bool
        ensures value { result ≡ is_told_to told (caller_at self.now slot) }
    {
        let Some(caller) = self.get(slot) else {
            return true;
        };
        match caller.client.standing() {
            Standing::Over(_) => return true,
            Standing::Serving | Standing::Ended => {}
        }
        match caller.client.next_of(told.conference) {
            Some(next) => told.place < next,
            None => true,
        }
    }

    /// The socket of the client that awaits that the text under this number is read.
    pub fn configuring(&self, number: u64) -> Option<usize> {
        for slot in &self.taken {
            match self.text(*slot, number) {
                Some(_) => return Some(*slot),
                None => {}
            }
        }
        None
    }

    /// The text under this number, where the client at a socket awaits that it is read.
    pub fn text(&self, slot: usize, number: u64) -> Option<&str> {
        let caller = self.get(slot)?;
        match &caller.task {
            Task::Configuring {
                number: other,
                text,
            } if *other == number => Some(text.as_str()),
            Task::Configuring { .. }
            | Task::Nothing
            | Task::Told { .. }
            | Task::Ports { .. }
            | Task::Figures
            | Task::Stopping => None,
        }
    }

    /// The socket of the client that awaits that the ports under this number are listened on.
    pub fn listening(&self, number: u64) -> Option<usize> {
        for slot in &self.taken {
            match self.ports(*slot, number) {
                Some(_) => return Some(*slot),
                None => {}
            }
        }
        None
    }

    /// The ports under this number, where the client at a socket awaits that they are listened on.
    pub fn ports(&self, slot: usize, number: u64) -> Option<&[u16]> {
        let caller = self.get(slot)?;
        match &caller.task {
            Task::Ports {
                number: other,
                ports,
                ..
            } if *other == number => Some(ports.as_slice()),
            Task::Ports { .. }
            | Task::Nothing
            | Task::Told { .. }
            | Task::Configuring { .. }
            | Task::Figures
            | Task::Stopping => None,
        }
    }

    /// Whether a client awaits how the server stands.
    pub fn awaits_figures(&self, slot: usize) -> bool {
        match self.get(slot) {
            Some(caller) => match &caller.task {
                Task::Figures => true,
                Task::Nothing
                | Task::Told { .. }
                | Task::Configuring { .. }
                | Task::Ports { .. }
                | Task::Stopping => false,
            },
            None => false,
        }
    }

    /// Whether a client asked for the server to stop.
    pub fn awaits_stop(&self, slot: usize) -> bool {
        match self.get(slot) {
            Some(caller) => match &caller.task {
                Task::Stopping => true,
                Task::Nothing
                | Task::Told { .. }
                | Task::Configuring { .. }
                | Task::Ports { .. }
                | Task::Figures => false,
            },
            None => false,
        }
    }

    /// Whether anybody awaits anything but that the server stops.
    pub fn are_awaiting(&self) -> bool {
        for slot in &self.taken {
            if is_awaiting(self.get(*slot)) {
                return true;
            }
        }
        false
    }
}

fn is_awaiting(caller: Option<&Caller>) -> bool {
    match caller {
        Some(caller) => match &caller.task {
            Task::Nothing | Task::Stopping => false,
            Task::Told { .. } | Task::Configuring { .. } | Task::Ports { .. } | Task::Figures =>
                true,
        },
        None => false,
    }
}
