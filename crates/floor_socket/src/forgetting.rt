//! A closed conference is forgotten, once those who watch it were told all that its events show.

ghost use Rattle.std.specs.Prelude.{◌≡◌, ◌≢◌, Err, Ok, false, nat_lt};
ghost use Rattle.std.specs.Option.{option_map_or};
ghost use Rattle.floor_control.specs.declared.refusal.ControlRefusal.TheVariants.{Running};
ghost use Rattle.floor_room.specs.declared.status.Phase.TheVariants.{Ended};

use crate::desk::Desk;
use crate::lines::refused;
use crate::task::{Step, Task, Went};
use floor_console::BoardRefusal;
use floor_control::ControlRefusal;
use floor_poll::{Answer, Asked, Asker};
use floor_room::Phase;
use std::alloc::AllocError;
use std::fs::File;
use std::net::Net;
use std::rt::Files;
use std::sync::Wait;
use std::thread::Threads;
use std::time::Clock;

impl<R> Desk<R>
where
    R: Net
        + Files<File = File>
        + AllocGlobal
        + Clock
        + Threads
        + Wait
        + Copy
        + Drop
        + Send
        + 'static,
{
    /// Goes on with a line by which a conference is forgotten that has so many events and gets no more: a loop is
    /// asked once all who watch it were told up to the last. Nobody but the line's own client is waited for longer than
    /// the server takes to show that: for who takes nothing, lines wait as live ones do.
    pub fn forget_on(
        &mut self,
        number: u64,
        mut task: Task,
        conference: u32,
        place: u64,
    ) -> Result<Went, AllocError> {
        self.hurry_others(number, conference);
        if self.is_untold(conference, place) {
            self.is_forgetting = true;
            task.step = Step::Forget { conference, place };
            return Ok(Went::Waits(task));
        }
        match self.ask_to_forget(number, conference) {
            Ok(()) => {
                task.step = Step::Forgetting { conference };
                Ok(Went::Waits(task))
            }
            Err(refusal) => refused(task, refusal),
        }
    }

    /// Asks the loop of a conference to forget it.
    fn ask_to_forget(&mut self, number: u64, conference: u32) -> Result<(), ControlRefusal> {
        let Some(place) = self.server.owner(conference) else {
            return Err(ControlRefusal::ByBoard(BoardRefusal::NoConference));
        };
        let asker = Asker::Forgetting {
            client: number,
            conference,
        };
        self.send(place, asker, Asked::Forget { conference })
    }

    /// Has all clients but one told at once what they are behind with of a conference.
    fn hurry_others(&mut self, number: u64, conference: u32) {
        for at in 0..self.clients.len() {
            let Some(other) = self.client_at(at) else {
                return;
            };
            let Some(seat) = self.clients.get_mut(&other) else {
                return;
            };
            if other != number && seat.hurry(conference) {
                self.queue(other);
            }
        }
    }

    /// Whether somebody who watches a conference, or is about to, wasn't told up to this place.
    fn is_untold(&self, conference: u32, place: u64) -> bool {
        for (number, seat) in self.clients.iter() {
            if seat.has_failed {
                continue;
            }
            let reached = self.reached(*number, conference);
            if lacks(reached, place) || seat.is_about_to_watch(conference) {
                return true;
            }
        }
        false
    }

    /// Has lines go on that have waited until all were told of a conference.
    pub fn go_on_forgetting(&mut self) {
        if !self.is_forgetting {
            return;
        }
        self.is_forgetting = false;
        for at in 0..self.clients.len() {
            let Some(number) = self.client_at(at) else {
                return;
            };
            if let Some((conference, place)) = self.forgets(number) {
                if self.is_untold(conference, place) {
                    // Somebody may have begun to watch it meanwhile.
                    self.hurry_others(number, conference);
                    self.is_forgetting = true;
                } else {
                    self.queue(number);
                }
            }
        }
    }

    /// The conference that a client's line waits to forget, and its last place.
    fn forgets(&self, number: u64) -> Option<(u32, u64)> {
        let task = self.clients.get(&number)?.task.as_ref()?;
        match &task.step {
            Step::Forget { conference, place } => Some((*conference, *place)),
            _ => None,
        }
    }

    /// The number of the client at a place.
    fn client_at(&self, at: usize) -> Option<u64> {
        self.clients.get_index(at).map(|(number, _)| *number)
    }

    /// Takes it that a loop has forgotten a conference, or hasn't.
    pub fn settle_forgetting(&mut self, conference: u32, answer: &Answer) {
        let Answer::Done(Ok(events)) = answer else {
            return;
        };
        self.leave_all(conference, u64::from(*events));
        if let Some(meeting) = self.meetings.swap_remove(&conference) {
            if meeting.followed.is_some() {
                self.following = self.following.saturating_sub(1);
            }
        }
    }

    /// Takes a forgotten conference from all who watch it. Whoever wasn't told up to its last place is closed: the rest
    /// can't be told.
    fn leave_all(&mut self, conference: u32, place: u64) {
        for at in 0..self.clients.len() {
            let Some(number) = self.client_at(at) else {
                return;
            };
            let is_untold = lacks(self.reached(number, conference), place);
            let Some(seat) = self.clients.get_mut(&number) else {
                return;
            };
            if seat.leave(conference) {
                seat.has_failed = seat.has_failed || is_untold;
                self.queue(number);
            }
        }
    }
}

/// A conference in this phase gets no more events, and may be forgotten once its connections have left.
pub fn check_over(phase: Phase) -> Result<(), ControlRefusal>
    ensures over { phase ≡ Ended → result ≡ Ok tt }
    ensures running { phase ≢ Ended → result ≡ Err Running }
{
    match phase {
        Phase::Ended => Ok(()),
        Phase::Running | Phase::Broken => Err(ControlRefusal::Running),
    }
}

/// Whether one who was told up to a place, `None` where it watches nothing, lacks this one.
fn lacks(reached: Option<u64>, place: u64) -> bool
    ensures value { result ≡ option_map_or (λ told. nat_lt told place) reached false }
{
    match reached {
        Some(reached) => reached < place,
        None => false,
    }
}
