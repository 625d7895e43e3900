//! The requests about the server itself.
#![tactic(auto, using(crate::proofs::Attended::attends_same, crate::proofs::Attended::attends_then))]

ghost use Rattle.std.specs.Prelude.{◌≡◌, Ok};
ghost use Rattle.floor_desk.specs.Attending.{Attends, beside};
ghost use Rattle.floor_desk.specs.Stopping.{draining, stopping, stopping_at_last};
ghost use Rattle.floor_desk.specs.declared.caller.Done.TheVariants as done;
ghost use Rattle.floor_desk.specs.declared.caller.Task.TheVariants as task;
ghost use Rattle.floor_rpc.specs.declared.answer.Answer.TheVariants as answers;

use crate::caller::{Done, Task};
use crate::desk::{Desk, Wanted};
use floor_clients::CloseReason;
use floor_rpc::{Answer, ServerStanding, Stopped};
use floor_shown::Refused;

/// How long a stop waits for what is carried out for others, in microseconds: our choice.
const MAX_STOP_MICROS: u64 = 1_000_000;

/// `server.status`: how the server stands, once it is known how much memory it has.
pub fn status(desk: &mut Desk) -> Result<Done, Refused>
    ensures attends { Attends beside desk.old.callers desk.new.callers }
{
    desk.wanted.push_back(Wanted::Figures)?;
    Ok(Done::Later(Task::Figures))
}

/// How the server stands, with so many sockets of members and so many bytes of memory.
pub fn standing_now(desk: &Desk, members: usize, memory: u64) -> Result<Done, Refused> {
    let version = desk.version.copy(desk.alloc)?;
    let since = desk.since.copy(desk.alloc)?;
    Ok(Done::Now(Answer::Server(ServerStanding {
        version,
        since,
        conferences: desk.meetings.len() as u64,
        connections: members as u64,
        memory,
        draining: desk.is_draining,
    })))
}

/// `server.drain`: no conference is opened any more. Where none is open the server is to stop.
pub fn drain(desk: &mut Desk) -> Result<Answer, Refused>
    ensures value { result ≡ Ok answers.Done }
    ensures next { desk.new ≡ draining desk.old }
    ensures attends { Attends beside desk.old.callers desk.new.callers }
{
    desk.is_draining = true;
    see_to_last(desk);
    Ok(Answer::Done)
}

/// Where no conference is opened any more, and none is open, the server is to stop.
pub(crate) fn see_to_last(desk: &mut Desk)
    ensures next { desk.new ≡ stopping_at_last desk.old }
    ensures callers { desk.new.callers ≡ desk.old.callers }
{
    if desk.is_draining && desk.open == 0 {
        want_stop(desk);
    }
}

/// The server is to stop.
fn want_stop(desk: &mut Desk)
    ensures next { desk.new ≡ stopping desk.old }
    ensures callers { desk.new.callers ≡ desk.old.callers }
{
    if desk.stop.is_none() && !desk.has_stopped {
        desk.stop = Some(desk.now.micros.saturating_add(MAX_STOP_MICROS));
    }
}

/// `server.stop`: the server stops, once what is carried out for others is answered, a second later at most. Nothing
/// further is begun.
pub fn stop(desk: &mut Desk) -> Result<Done, Refused>
    ensures value { result ≡ Ok (done.Later task.Stopping) }
    ensures next { desk.new ≡ stopping desk.old }
    ensures attends { Attends beside desk.old.callers desk.new.callers }
{
    want_stop(desk);
    Ok(Done::Later(Task::Stopping))
}

/// Whoever asked for a stop is answered, and each client is to be closed.
pub fn answer_stop(desk: &mut Desk)
    ensures attends { Attends beside desk.old.callers desk.new.callers }
{
    desk.stop = None;
    desk.has_stopped = true;
    for index in 0..desk.callers.len() {
        let socket = desk.callers.slot_of(index);
        answer_where_stopping(desk, socket);
    }
    desk.callers.close_all(CloseReason::Stopped);
}

fn answer_where_stopping(desk: &mut Desk, socket: usize)
    ensures attends { Attends beside desk.old.callers desk.new.callers }
{
    if !desk.callers.awaits_stop(socket) {
        return;
    }
    let stopped = Stopped {
        seats: desk.joins,
        events: desk.events,
    };
    desk.answer(socket, Ok(Answer::Stopped(stopped)));
}
