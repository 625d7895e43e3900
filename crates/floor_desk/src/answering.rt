//! Lines of clients are served and answered, and what waits for them is lent.
#![tactic(auto, using(crate::proofs::Attended::attends_same, crate::proofs::Attended::attends_then))]

ghost use Rattle.std.specs.Prelude.{◌≡◌, OnErr, OnOk, Some};
ghost use Rattle.floor_desk.specs.Answering.{EndsBy, EndsWhereTold, IsAnswered};
ghost use Rattle.floor_desk.specs.Attending.{Attends, beside};
ghost use Rattle.floor_desk.specs.Callers.{GoesOnBy, IsNew, OthersStay, Same, caller_at};
ghost use Rattle.floor_desk.specs.Clients.{ServesOrCloses};
ghost use Rattle.floor_desk.specs.declared.caller.Caller.{Caller as Known};

use crate::act::Act;
use crate::caller::{Done, Task};
use crate::desk::Desk;
use floor_clients::{Mode, Next, Standing};
use floor_rpc::{Answer, Failure};
use floor_shown::Refused;
use std::alloc::AllocError;

/// How the socket of a client is to be served.
#[derive(Clone, Copy, Debug)]
pub struct Lending {
    /// Something waits to be written to it.
    pub has_bytes: bool,
    /// Nothing is read of it: its answer is under way or awaited, or the server is to stop.
    pub is_held: bool,
    /// It is to be shut once nothing waits.
    pub ends: bool,
}

impl Desk {
    /// A client is at a socket from now on.
    pub fn join(&mut self, socket: usize, mode: Mode) -> Result<(), AllocError>
        ensures there { OnOk result ((c : Known)
            × (caller_at self.new.callers socket ≡ Some c) × IsNew mode c) }
        ensures others { OthersStay socket self.old.callers self.new.callers }
        ensures left { OnErr result (Same self.old.callers self.new.callers) }
    {
        self.callers.put(self.alloc, &mut self.work, socket, mode)
    }

    /// What follows from the next line of a client.
    pub fn next_line(&mut self, socket: usize) -> Next
        ensures here { GoesOnBy (ServesOrCloses self.old.is_draining result)
            (caller_at self.old.callers socket) (caller_at self.new.callers socket) }
        ensures others { OthersStay socket self.old.callers self.new.callers }
        ensures draining { self.new.is_draining ≡ self.old.is_draining }
    {
        self.callers
            .next(self.alloc, &mut self.work, socket, self.is_draining)
    }

    /// What a client asked for has come to this: the log is told, and it is answered, or its answer waits.
    pub fn end(&mut self, socket: usize, act: Option<Act>, done: Result<Done, Refused>)
        ensures here { EndsBy done
            (caller_at self.old.callers socket) (caller_at self.new.callers socket) }
        ensures others { OthersStay socket self.old.callers self.new.callers }
        ensures attends { Attends beside self.old.callers self.new.callers }
    {
        match done {
            Ok(Done::Now(answer)) => self.answer_act(socket, act, Ok(answer)),
            Ok(Done::At { told, answer }) => {
                if self.callers.is_told(socket, told) {
                    self.answer_act(socket, act, Ok(answer));
                    return;
                }
                self.log_where(act, Ok(&answer));
                self.callers.wait(socket, Task::Told { told, answer });
            }
            Ok(Done::Later(task)) => self.callers.wait(socket, task),
            Err(refused) => self.answer_act(socket, act, Err(refused.failure)),
        }
    }

    /// The log is told of an act, and a client is answered.
    fn answer_act(&mut self, socket: usize, act: Option<Act>, outcome: Result<Answer, Failure>)
        ensures here { IsAnswered outcome
            (caller_at self.old.callers socket) (caller_at self.new.callers socket) }
        ensures others { OthersStay socket self.old.callers self.new.callers }
        ensures attends { Attends beside self.old.callers self.new.callers }
    {
        self.log_where(act, outcome.as_ref());
        self.answer(socket, outcome);
    }

    /// The log is told of an act, where it is one.
    fn log_where(&mut self, act: Option<Act>, outcome: Result<&Answer, &Failure>)
        ensures callers { self.new.callers ≡ self.old.callers }
    {
        if let Some(act) = act {
            self.log(act.ended(self.user, outcome));
        }
    }

    /// A client is answered.
    pub fn answer(&mut self, socket: usize, outcome: Result<Answer, Failure>)
        ensures here { IsAnswered outcome
            (caller_at self.old.callers socket) (caller_at self.new.callers socket) }
        ensures others { OthersStay socket self.old.callers self.new.callers }
        ensures attends { Attends beside self.old.callers self.new.callers }
    {
        self.callers
            .answer(self.alloc, &mut self.work, socket, outcome);
    }

    /// A client whose answer waits until it is told a place is answered, where it was.
    pub fn answer_told(&mut self, socket: usize)
        ensures here { EndsWhereTold
            (caller_at self.old.callers socket) (caller_at self.new.callers socket) }
        ensures others { OthersStay socket self.old.callers self.new.callers }
        ensures attends { Attends beside self.old.callers self.new.callers }
    {
        let Some(told) = self.callers.told(socket) else {
            return;
        };
        if !self.callers.is_told(socket, told) {
            return;
        }
        if let Task::Told { answer, .. } = self.callers.take_task(socket) {
            self.answer(socket, Ok(answer));
        }
    }

    /// How the socket of a client is to be served, where one is there.
    pub fn lending(&mut self, socket: usize) -> Option<Lending>
        ensures attends { Attends beside self.old.callers self.new.callers }
    {
        let stops = self.stop.is_some();
        let is_done = self.callers.is_done(socket);
        let caller = self.callers.get(socket)?;
        let is_over = match caller.client.standing() {
            Standing::Over(_) => true,
            Standing::Serving | Standing::Ended => false,
        };
        Some(Lending {
            has_bytes: !caller.client.lent().is_empty(),
            is_held: stops || !caller.client.is_free(),
            ends: is_over || is_done,
        })
    }
}
