//! The calls of the loop, for the member of a slot.

ghost use Rattle.std.specs.Prelude.{◌≡◌, ◌≤◌, length, min, take};
ghost use Rattle.floor_loop.specs.Loop.{rest_at};
ghost use Rattle.floor_meetings.specs.Calls.{Comes, Drops, Ends, Fails, Leaves, Parts, Takes};

use crate::meetings::MAX_TURN;
use floor_loop::{ConnNo, HubRefusal, Loop};

/// Bytes came, and a turn is served.
pub(crate) fn come(
    hub: &mut Loop,
    number: ConnNo,
    bytes: &[u8],
    now: u64,
) -> Result<bool, HubRefusal>
    ensures took { Comes number bytes.now hub.old hub.new result }
{
    hub.read(number, bytes, MAX_TURN, now)
}

/// The stream ended.
pub(crate) fn end(hub: &mut Loop, number: ConnNo, now: u64)
    ensures took { Ends number hub.old hub.new }
{
    hub.ended(number, now);
}

/// The socket failed.
pub(crate) fn fail(hub: &mut Loop, number: ConnNo, now: u64)
    ensures took { Fails number hub.old hub.new }
{
    hub.failed(number, now);
}

/// The socket was shut.
pub(crate) fn part(hub: &mut Loop, number: ConnNo, now: u64) -> Result<bool, HubRefusal>
    ensures took { Parts number now hub.old hub.new result }
{
    hub.lost(number, now)
}

/// The socket took so many bytes, or all that were lent.
pub(crate) fn take(hub: &mut Loop, number: ConnNo, count: usize, now: u64)
    ensures took { Takes number (min count (length (take 65536 (rest_at hub.old number))))
        hub.old hub.new }
{
    let count = lesser(count, hub.writing(number).len());
    hub.wrote(number, count, now);
}

/// What waits is dropped.
pub(crate) fn drop_waiting(hub: &mut Loop, number: ConnNo)
    ensures took { Drops number hub.old hub.new }
{
    hub.discard(number);
}

/// Whoever is away leaves.
pub(crate) fn leave(hub: &mut Loop, number: ConnNo, now: u64) -> Result<(), HubRefusal>
    ensures took { Leaves number hub.old hub.new }
{
    hub.leave(number, now)
}

/// The lesser of a count and of the most that it may be.
pub(crate) fn lesser(count: usize, most: usize) -> usize
    ensures value { result ≡ min count most }
    ensures within { result ≤ most }
{
    count.min(most)
}
