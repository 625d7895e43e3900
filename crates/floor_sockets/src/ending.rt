//! The law of who is ended, applied to a run: it knows nothing of the table but the clauses of its calls.

ghost use Rattle.std.specs.Prelude.{◌≡◌, ◌≤◌, IfOk, None, OnOk, true};
ghost use Rattle.floor_sockets.specs.Sockets.{goes_on, is_there, later, life_at};
ghost use Rattle.floor_sockets.specs.steps.Ending.{IsAnswered, IsEnding};

use crate::laws::who_is_ended_is_shut;
use crate::life::Deed;
use crate::sockets::{MAX_SHUT_MICROS, Sockets};
use std::alloc::AllocError;

/// Ends a socket, and once ten seconds have gone by does what is due until it is shut: whoever else is due is shut
/// too, and a listener that accepts again finds nobody. No turn comes before.
pub fn end_and_shut(sockets: &mut Sockets, slot: usize, now: u64) -> Result<(), AllocError>
    requires goes_on { goes_on (life_at sockets.old slot) ≡ true }
    requires there { is_there (life_at sockets.old slot) ≡ true }
    requires late { later sockets.old.time MAX_SHUT_MICROS ≤ now }
    ensures shut { OnOk result (life_at sockets.new slot ≡ None) }
{
    sockets.end(slot);
    sockets.time(now);
    shut_what_is_due(sockets, slot)
}

/// Does what is due until the socket in the slot is shut.
fn shut_what_is_due(sockets: &mut Sockets, slot: usize) -> Result<(), AllocError>
    requires { IsEnding slot sockets.old }
    ensures shut { OnOk result (life_at sockets.new slot ≡ None) }
{
    who_is_ended_is_shut();
    while let Some(deed) = sockets.next() {
        if answer(sockets, slot, deed)? {
            return Ok(());
        }
    }
    Ok(())
}

/// Answers a deed that is due, and says whether the socket in the slot was shut.
fn answer(sockets: &mut Sockets, slot: usize, deed: Deed) -> Result<bool, AllocError>
    ensures answered { IfOk result (λ is_its. IsAnswered deed slot sockets.old is_its sockets.new) }
{
    match deed {
        Deed::Shut(other) => {
            sockets.shut(other);
            Ok(other == slot)
        }
        Deed::Accept(other) => {
            sockets.nothing(other);
            Ok(false)
        }
        Deed::Read(_) => Ok(false),
        Deed::Serve(_) => Ok(false),
        Deed::Write(_) => Ok(false),
    }
}
