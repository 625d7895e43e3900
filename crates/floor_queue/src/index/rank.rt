//! What the place of a request in the lines of its floors goes by.

ghost use Rattle.std.specs.Prelude.{◌≡◌};
ghost use Rattle.floor_queue.specs.steps.Lines.{before, first_by, first_by_priority, rank_of};

use crate::order::is_express;
use crate::request::Request;
use floor_config::Floor;

/// What the place of a request in the lines of its floors goes by.
#[derive(Clone, Copy, Debug, PartialEq, Eq)]
pub(crate) struct Rank {
    pub(crate) is_granted: bool,
    pub(crate) waits: bool,
    pub(crate) is_express: bool,
    pub(crate) priority: u8,
    pub(crate) number: u16,
}

/// The rank of a request.
pub(crate) fn rank_of(floors: &[Floor], request: &Request) -> Rank
    ensures { result ≡ rank_of floors.now request.now }
{
    Rank {
        is_granted: request.is_granted,
        waits: request.waits(),
        is_express: is_express(floors, request),
        priority: request.priority,
        number: request.number,
    }
}

fn first_by(a: bool, b: bool, otherwise: bool) -> bool
    ensures { result ≡ first_by a b otherwise }
{
    if a == b { otherwise } else { a }
}

fn first_by_priority(a: Rank, b: Rank) -> bool
    ensures { result ≡ first_by_priority a b }
{
    if a.priority == b.priority {
        a.number < b.number
    } else {
        b.priority < a.priority
    }
}

/// Whether `a` comes before `b`.
pub(crate) fn before(a: Rank, b: Rank) -> bool
    ensures { result ≡ before a b }
{
    let express = first_by(a.is_express, b.is_express, first_by_priority(a, b));
    let waits = first_by(a.waits, b.waits, express);
    first_by(a.is_granted, b.is_granted, waits)
}
