//! The run.

ghost use Rattle.std.specs.Prelude.{◌≡◌, ◌++◌, [], IfOk, OnOk, true};
ghost use Rattle.floor_claims.specs.Claim.{IsWritten};
ghost use Rattle.floor_claims.specs.steps.Led.{IsBegun, Led, Writes};

use crate::calls::{Stopped, come, drop_waiting, fill, hand_in, is_live, is_whole, lose, write};
use floor_loop::{Config, ConnNo, Grace, Loop, written_is_called_for};
use std::alloc::Global;

/// How long whoever is lost stays, in milliseconds.
const GRACE: Grace = Grace {
    lost: 60_000,
    resumed: 60_000,
};

/// How many bytes the socket takes at first.
const FIRST: usize = 20;

/// A connection, and what its socket took from its attach on.
#[derive(Drop)]
pub struct Run {
    /// The loop.
    pub hub: Loop,
    /// The connection's number.
    pub number: ConnNo,
    /// The bytes, in order.
    pub taken: Vec<u8>,
}

/// A connection that was just attached.
#[derive(Drop)]
struct Begun {
    hub: Loop,
    number: ConnNo,
}

/// A conference is opened, a user is attached, and another comes. The first says `came`; what it is told its socket
/// takes in two parts, between which the other is lost, what waits for it is dropped, and it returns. What the
/// socket took in all is a front of what the conference's floor machine alone calls for.
///
/// Refused by the first call of the loop that is refused, by `Gone` where the first connection isn't live behind one,
/// by `Broken` where the conference is broken off, and by `Memory`.
pub fn serve_while_another_returns(
    alloc: Global,
    config: Config,
    user: u16,
    other: u16,
    came: &[u8],
    now: u64,
) -> Result<Run, Stopped>
    ensures written { IfOk result (λ run. IsWritten run.hub run.number run.taken.items) }
{
    let conference = config.conference();
    let mut begun = begin(alloc, config, user, now)?;
    let mut taken = Vec::new(alloc);
    go_on(&mut begun, alloc, conference, other, came, &mut taken, now)?;
    if !is_whole(&begun.hub, begun.number) {
        return Err(Stopped::Broken);
    }
    written_is_called_for();
    Ok(Run {
        hub: begun.hub,
        number: begun.number,
        taken,
    })
}

/// Opens the conference, and attaches the first connection.
fn begin(alloc: Global, config: Config, user: u16, now: u64) -> Result<Begun, Stopped>
    ensures begun { IfOk result (λ begun. IsBegun begun.hub begun.number) }
{
    let conference = config.conference();
    let mut hub = Loop::with_grace(alloc, GRACE);
    hub.open(alloc, config)?;
    let number = hub.attach(alloc, conference, user, now)?;
    let _live = is_live(&hub, number);
    Ok(Begun { hub, number })
}

/// The calls behind the attach; the other connection is of this user.
fn go_on(
    begun: &mut Begun,
    alloc: Global,
    conference: u32,
    user: u16,
    came: &[u8],
    taken: &mut Vec<u8>,
    now: u64,
) -> Result<(), Stopped>
    ensures number { begun.new.number ≡ begun.old.number }
    ensures writes { OnOk result (Writes begun.old.number begun.old.hub begun.new.hub
        taken.old.items taken.new.items) }
{
    let number = begun.number;
    let hub = &mut begun.hub;
    let other = speak(hub, number, alloc, conference, user, came, now)?;
    write(hub, number, FIRST, taken, now)?;
    leave_and_return(hub, number, other, alloc, conference, user, now)?;
    write(hub, number, usize::MAX, taken, now)
}

/// Another user comes, the connection is heard, and what it is told is taken from the hub.
fn speak(
    hub: &mut Loop,
    number: ConnNo,
    alloc: Global,
    conference: u32,
    user: u16,
    came: &[u8],
    now: u64,
) -> Result<ConnNo, Stopped>
    ensures led { OnOk result (Led number hub.old hub.new []) }
{
    let other = come(hub, number, alloc, conference, user, now)?;
    hand_in(hub, number, came, now)?;
    fill(hub, number)?;
    Ok(other)
}

/// The other user's connection is lost, what waits for it is dropped, and the user returns.
fn leave_and_return(
    hub: &mut Loop,
    number: ConnNo,
    other: ConnNo,
    alloc: Global,
    conference: u32,
    user: u16,
    now: u64,
) -> Result<(), Stopped>
    ensures led { OnOk result (Led number hub.old hub.new []) }
{
    lose(hub, number, other, now)?;
    drop_waiting(hub, number, other)?;
    let _again = come(hub, number, alloc, conference, user, now)?;
    fill(hub, number)
}
