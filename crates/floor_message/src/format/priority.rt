//! PRIORITY (RFC 8855, section 5.2.4).

ghost use Rattle.std.specs.Prelude.{◌≡◌, option_map, OnOk, IfSome, ◌≤◌};
ghost use Rattle.floor_message.specs.Fields.{priority_of, priority_asked};
ghost use Rattle.floor_message.specs.Picked.{first, pairs};
ghost use Rattle.floor_message.specs.Written as spec;
ghost use Rattle.floor_message.specs.steps.Leaves.{Leaves};
ghost use Rattle.floor_message.specs.steps.Writing.{with_attrs};

use crate::format::attributes::SHORT_ATTRIBUTE;
use crate::format::pair::first_pair;
use crate::kind::PRIORITY;
use floor_wire::{AttrsView, FrameBuilder};
use std::alloc::AllocError;

/// The priority in the upper 3 bits; 5 to 7 are read as Highest.
fn priority_of(pair: (u8, u8)) -> u8
    ensures { result ≡ priority_of pair }
{
    (pair.0 / 32).min(4)
}

/// Normal, 2, where the attribute is absent.
pub(crate) fn priority_asked(pair: Option<(u8, u8)>) -> u8
    ensures { result ≡ priority_asked pair }
{
    match pair {
        None => 2,
        Some(pair) => priority_of(pair),
    }
}

/// The priority in the first PRIORITY.
pub(crate) fn priority_in(inside: &AttrsView) -> Option<u8>
    ensures { result ≡ option_map priority_of (first (pairs PRIORITY inside.now)) }
{
    let pair = first_pair(inside, PRIORITY)?;
    Some(priority_of(pair))
}

/// Adds PRIORITY, with the priority in its upper 3 bits, where there is one.
pub(crate) fn put_priority(out: &mut FrameBuilder, priority: Option<u8>) -> Result<(), AllocError>
    requires { IfSome priority (λ priority. priority ≤ 4) }
    ensures { OnOk result (out.new
        ≡ with_attrs out.old (spec.optional spec.priority_attr priority)) }
{
    if let Some(priority) = priority {
        out.put_pair(PRIORITY, 32 * priority, 0)?;
    }
    Ok(())
}

/// What is left of the room behind PRIORITY, where there is one.
pub(crate) fn after_priority(room: usize, priority: Option<u8>) -> Option<usize>
    requires { IfSome priority (λ priority. priority ≤ 4) }
    ensures { Leaves (spec.optional spec.priority_attr priority) room result }
{
    match priority {
        Some(_) => room.checked_sub(SHORT_ATTRIBUTE),
        None => Some(room),
    }
}
