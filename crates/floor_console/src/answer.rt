//! The text of each answer.

ghost use Rattle.std.specs.Prelude.{◌≡◌, false, IfOk, Ok, Err, string_bytes};
ghost use Rattle.floor_console.specs.Answer.{chair_set, closed, faulty, floor_added, opened, refused, revoked, standing, stopped, user_added};
ghost use Rattle.floor_console.specs.Names.{is_memory};

use crate::board::{BoardRefusal, StopRefusal, Stopped};
use crate::command::ConsoleFault;
use floor_room::Status;
use std::alloc::{AllocError, Global};

/// The answer to a line that is no command.
pub(crate) fn faulty(alloc: Global, fault: ConsoleFault) -> Result<String, AllocError>
    ensures { IfOk result (λ text. string_bytes text ≡ faulty fault) }
{
    let name = fault.name();
    format!(in alloc; "error {name}\n")
}

/// The answer to a refused line. Want of memory is passed on.
pub(crate) fn refused(alloc: Global, refusal: BoardRefusal) -> Result<String, AllocError>
    ensures told { IfOk result (λ _. is_memory refusal ≡ false) }
    ensures value { IfOk result (λ text. string_bytes text ≡ refused refusal) }
{
    if refusal.is_memory() {
        return Err(AllocError);
    }
    let name = refusal.name();
    format!(in alloc; "error {name}\n")
}

/// The answer to `open`.
pub(crate) fn opened(alloc: Global, count: usize) -> Result<String, AllocError>
    ensures { IfOk result (λ text. string_bytes text ≡ opened (Ok count)) }
{
    format!(in alloc; "ok opened {count}\n")
}

/// The answer to `close`.
pub(crate) fn closed(alloc: Global, conference: u32) -> Result<String, AllocError>
    ensures { IfOk result (λ text. string_bytes text ≡ closed conference (Ok tt)) }
{
    format!(in alloc; "ok closed {conference}\n")
}

/// The answer to `revoke`.
pub(crate) fn revoked(alloc: Global, conference: u32, request: u16) -> Result<String, AllocError>
    ensures { IfOk result (λ text. string_bytes text ≡ revoked conference request (Ok tt)) }
{
    format!(in alloc; "ok revoked {conference} {request}\n")
}

/// The answer to `user`.
pub(crate) fn user_added(alloc: Global, conference: u32, id: u16) -> Result<String, AllocError>
    ensures { IfOk result (λ text. string_bytes text ≡ user_added conference id (Ok tt)) }
{
    format!(in alloc; "ok user {conference} {id}\n")
}

/// The answer to `floor`.
pub(crate) fn floor_added(alloc: Global, conference: u32, id: u16) -> Result<String, AllocError>
    ensures { IfOk result (λ text. string_bytes text ≡ floor_added conference id (Ok tt)) }
{
    format!(in alloc; "ok floor {conference} {id}\n")
}

/// The answer to `chair`.
pub(crate) fn chair_set(alloc: Global, conference: u32, floor: u16) -> Result<String, AllocError>
    ensures { IfOk result (λ text. string_bytes text ≡ chair_set conference floor (Ok tt)) }
{
    format!(in alloc; "ok chair {conference} {floor}\n")
}

/// The answer to `status`.
pub(crate) fn standing(alloc: Global, conference: u32, status: Status) -> Result<String, AllocError>
    ensures { IfOk result (λ text. string_bytes text ≡ standing conference status) }
{
    let Status {
        members,
        ongoing,
        events,
        phase,
    } = status;
    let phase = phase.name();
    format!(in alloc;
        "conference {conference} members {members} ongoing {ongoing} events {events} {phase}\n"
    )
}

/// The answer to `stop`.
pub(crate) fn stopped(alloc: Global, outcome: Stopped) -> Result<String, AllocError>
    ensures { IfOk result (λ text. string_bytes text ≡ stopped (Ok outcome)) }
{
    let Stopped { seats, events } = outcome;
    format!(in alloc; "ok stopped seats {seats} events {events}\n")
}

/// The answer to `stop` where something is wrong.
pub(crate) fn stop_refused(alloc: Global, refusal: StopRefusal) -> Result<String, AllocError>
    ensures { IfOk result (λ text. string_bytes text ≡ stopped (Err refusal)) }
{
    match refusal {
        StopRefusal::Broken { conference } => format!(in alloc; "error Broken {conference}\n"),
        StopRefusal::Mismatch { conference, n } => {
            format!(in alloc; "error Mismatch {conference} {n}\n")
        }
    }
}
