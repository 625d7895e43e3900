//! A turn of a connection: some of its messages are served, and whoever is concerned is woken.

ghost use Rattle.std.specs.Prelude.{◌≡◌, ◌↔◌, ℕ, Bool, IfErr, IfOk, IsSome, None, OnErr, OnOk, Some, false, nat_eq, option_and_then, true};
ghost use Rattle.floor_room.specs.Room.{Room};
ghost use Rattle.floor_hub.specs.Connections.{connection_at};
ghost use Rattle.floor_hub.specs.Gathers.{Gathers};
ghost use Rattle.floor_hub.specs.Hub.{room_at};
ghost use Rattle.floor_hub.specs.Members.{Stands};
ghost use Rattle.floor_hub.specs.Rooms.{Joins};
ghost use Rattle.floor_hub.specs.declared.connection.Connection.{Connection};
ghost use Rattle.floor_hub.specs.declared.step.Step.TheVariants.{Attach, Leave, Serve, Took};
ghost use Rattle.floor_loop.specs.Away.{stay_of};
ghost use Rattle.floor_loop.specs.Loop.{HasFailed, IsEnded, IsFilled, IsHandedOut, Outgoing as Way, outgoing_in};
ghost use Rattle.floor_loop.specs.Returned.{IsRefusedAs, StaysAreOwn};
ghost use Rattle.floor_loop.specs.Done.{AtMost, Hands, NoSteps, Reads, Serves, Steps};
ghost use Rattle.floor_loop.specs.Written.{Acknowledges, IsOver, IsServing, IsSparedOrOver, IsTimed, Spares, TookNothing, Wakes};
ghost use Rattle.floor_loop.specs.steps.Found.{Finds};
ghost use Rattle.floor_loop.specs.steps.Moved.{AreWoken, IsLoop, IsSpared, IsWoken, KeepsAll, Moved, SameEnds, SameLedgers, WasLive, loop_of};
ghost use Rattle.floor_loop.specs.steps.Thrown.{Thrown};

use crate::attended::Attended;
use floor_hub::{ConnNo, Hub, HubRefusal, Live, Served};
use std::alloc::Global;

/// How often what waits is thrown away at most: whoever is more than 1,024 parcels behind is cut, so no more wait.
const MAX_THROWN: u32 = 1_026;

/// Attaches a connection of a user to a conference. After a `Memory` of the loop's own nothing has changed.
pub(crate) fn attach(
    hub: &mut Hub,
    attended: &mut Attended,
    alloc: Global,
    conference: u32,
    user: u16,
) -> Result<ConnNo, HubRefusal>
    ensures steps { Steps (AtMost 1 (Attach conference user)) hub.old hub.new }
    ensures moved { IsLoop (loop_of hub.old attended.old)
        → IsServing (loop_of hub.new attended.new) × IsTimed (loop_of hub.new attended.new)
        × TookNothing (loop_of hub.old attended.old) (loop_of hub.new attended.new)
        × StaysAreOwn (loop_of hub.new attended.new) }
    ensures woke { IsLoop (loop_of hub.old attended.old)
        → Wakes (loop_of hub.old attended.old) (loop_of hub.new attended.new) }
    ensures spares { IsLoop (loop_of hub.old attended.old)
        → Spares (loop_of hub.old attended.old) (loop_of hub.new attended.new) }
    ensures found { IfOk result (λ number. (x : Connection)
        × (connection_at hub.new.connections number ≡ Some x)
        × (x.conference ≡ conference)) }
    ensures joined { IfOk result (λ number. Joins conference number hub.old hub.new) }
    ensures ready { IfOk result (λ number. (o : Way)
        × (outgoing_in attended.new number ≡ Some o) × IsSome o.ready) }
    ensures others { (k : ℕ) (y : Connection) → connection_at hub.new.connections k ≡ Some y
        → nat_eq conference y.conference ≡ false → WasLive hub.old k y }
    ensures refused { (keeps_place : Bool) → IfErr result
        (IsRefusedAs conference user keeps_place hub.old hub.new) }
    ensures gathered { Gathers hub.old hub.new }
{
    let joined = match attended.attach(hub, alloc, conference, user) {
        Ok(joined) => joined,
        Err(_) => return Err(HubRefusal::Memory),
    };
    wake(hub, attended);
    match joined {
        Ok(number) => {
            wake_one(hub, attended, number);
            Ok(number)
        }
        Err(refusal) => Err(refusal),
    }
}

/// Hands in bytes that came from a connection, serves so many of its messages, if so many are whole, and
/// says whether more wait.
pub(crate) fn read_turn(
    hub: &mut Hub,
    attended: &mut Attended,
    number: ConnNo,
    bytes: &[u8],
    turns: u32,
) -> Result<bool, HubRefusal>
    ensures moved { Moved (Reads number bytes.now turns) (loop_of hub.old attended.old)
        (loop_of hub.new attended.new) }
    ensures handed { OnOk result (Steps (Hands number bytes.now turns) hub.old hub.new) }
    ensures woke { IsLoop (loop_of hub.old attended.old)
        → Wakes (loop_of hub.old attended.old) (loop_of hub.new attended.new) }
    ensures refused { OnErr result (IsEnded attended.new number) }
    ensures spares { IsLoop (loop_of hub.old attended.old) → OnOk result
        (Spares (loop_of hub.old attended.old) (loop_of hub.new attended.new)) }
    ensures others { IsLoop (loop_of hub.old attended.old) → (k : ℕ) → nat_eq number k ≡ false
        → IsSparedOrOver (loop_of hub.old attended.old) (loop_of hub.new attended.new) k }
    ensures served { IsLoop (loop_of hub.old attended.old) → IfOk result (λ more. Serves number turns
        more hub.old hub.new) }
{
    match hub.piece(number, bytes) {
        Ok(()) => {}
        Err(refusal) => {
            end(attended, number);
            return Err(refusal);
        }
    }
    serve_turn(hub, attended, number, turns)
}

/// Serves so many messages of a connection, if so many are whole, and says whether more may wait.
pub(crate) fn serve_turn(
    hub: &mut Hub,
    attended: &mut Attended,
    number: ConnNo,
    turns: u32,
) -> Result<bool, HubRefusal>
    ensures moved { Moved (AtMost turns (Serve number)) (loop_of hub.old attended.old)
        (loop_of hub.new attended.new) }
    ensures woke { IsLoop (loop_of hub.old attended.old)
        → Wakes (loop_of hub.old attended.old) (loop_of hub.new attended.new) }
    ensures refused { OnErr result (IsEnded attended.new number) }
    ensures spares { IsLoop (loop_of hub.old attended.old) → OnOk result
        (Spares (loop_of hub.old attended.old) (loop_of hub.new attended.new)) }
    ensures others { IsLoop (loop_of hub.old attended.old) → (k : ℕ) → nat_eq number k ≡ false
        → IsSparedOrOver (loop_of hub.old attended.old) (loop_of hub.new attended.new) k }
    ensures served { IsLoop (loop_of hub.old attended.old) → IfOk result (λ more. Serves number turns
        more hub.old hub.new) }
{
    for _turn in 0..turns {
        match serve_one(hub, attended, number) {
            Ok(Served::Message) => {}
            Ok(Served::Nothing) => return Ok(false),
            Err(refusal) => return Err(refusal),
        }
    }
    Ok(true)
}

/// Serves the next message of a connection. One that is refused ends the serving: the connection is
/// to be shut down.
fn serve_one(hub: &mut Hub, attended: &mut Attended, number: ConnNo) -> Result<Served, HubRefusal>
    ensures moved { Moved (AtMost 1 (Serve number)) (loop_of hub.old attended.old)
        (loop_of hub.new attended.new) }
    ensures woke { IsLoop (loop_of hub.old attended.old)
        → Wakes (loop_of hub.old attended.old) (loop_of hub.new attended.new) }
    ensures refused { OnErr result (IsEnded attended.new number) }
    ensures spares { IsLoop (loop_of hub.old attended.old) → OnOk result
        (Spares (loop_of hub.old attended.old) (loop_of hub.new attended.new)) }
    ensures others { IsLoop (loop_of hub.old attended.old) → (k : ℕ) → nat_eq number k ≡ false
        → IsSparedOrOver (loop_of hub.old attended.old) (loop_of hub.new attended.new) k }
    ensures found { IsLoop (loop_of hub.old attended.old) → IfOk result (λ found. Finds number found
        hub.old hub.new) }
{
    let served = hub.serve(number);
    wake(hub, attended);
    match served {
        Ok(found) => Ok(found),
        Err(refusal) => {
            end(attended, number);
            Err(refusal)
        }
    }
}

/// Wakes whom the hub's last call concerned.
pub(crate) fn wake(hub: &Hub, attended: &mut Attended)
    ensures kept { KeepsAll (outgoing_in attended.old) (outgoing_in attended.new) }
    ensures woken { AreWoken hub.now attended.new }
    ensures spared { (k : ℕ) → IsSpared hub.now attended.old attended.new k }
    ensures away { attended.new.away ≡ attended.old.away }
{
    for number in hub.concerned() {
        wake_one(hub, attended, *number);
    }
}

/// Wakes a connection; one to which nothing more is told is to be shut down.
pub(crate) fn wake_one(hub: &Hub, attended: &mut Attended, number: ConnNo)
    ensures kept { KeepsAll (outgoing_in attended.old) (outgoing_in attended.new) }
    ensures woken { IsWoken hub.now attended.new number }
    ensures spared { (k : ℕ) → IsSpared hub.now attended.old attended.new k }
    ensures away { attended.new.away ≡ attended.old.away }
{
    if is_over(hub, number) {
        end(attended, number);
        return;
    }
    attended.wake(number);
}

/// Wakes those of a conference to whom something is handed out that waits for them.
pub(crate) fn wake_handed(hub: &Hub, attended: &mut Attended, conference: u32)
    ensures kept { KeepsAll (outgoing_in attended.old) (outgoing_in attended.new) }
    ensures woken { (number : ℕ) (x : Connection)
        → connection_at hub.now.connections number ≡ Some x → x.conference ≡ conference
        → IsHandedOut hub.now attended.new number }
    ensures ends { SameEnds attended.old attended.new }
    ensures away { attended.new.away ≡ attended.old.away }
{
    match hub.members(conference) {
        Ok(live) => wake_each(hub, attended, live),
        Err(_) => {}
    }
}

/// Wakes those of these connections to whom something is handed out that waits for them.
fn wake_each(hub: &Hub, attended: &mut Attended, live: &[Live])
    ensures kept { KeepsAll (outgoing_in attended.old) (outgoing_in attended.new) }
    ensures woken { (number n : ℕ) → Stands live.now number n
        → IsHandedOut hub.now attended.new number }
    ensures ends { SameEnds attended.old attended.new }
    ensures away { attended.new.away ≡ attended.old.away }
{
    for one in live {
        wake_first(hub, attended, one.number);
    }
}

/// Wakes a connection to which something is handed out that waits for it.
fn wake_first(hub: &Hub, attended: &mut Attended, number: ConnNo)
    ensures kept { KeepsAll (outgoing_in attended.old) (outgoing_in attended.new) }
    ensures woken { IsHandedOut hub.now attended.new number }
    ensures ends { SameEnds attended.old attended.new }
    ensures away { attended.new.away ≡ attended.old.away }
{
    match hub.first(number) {
        Some(_) => attended.wake(number),
        None => {}
    }
}

/// Whether nothing more is told to a connection: its member is cut, or its conference is ended or broken
/// off.
pub(crate) fn is_over(hub: &Hub, number: ConnNo) -> bool
    ensures { (x : Connection) (r : Room) → connection_at hub.now.connections number ≡ Some x
        → room_at hub.now x.conference ≡ Some r → ((result ≡ true) ↔ IsOver r x.n) }
{
    hub.is_over(number)
}

/// Acknowledges so many parcels to a connection, and takes the next ones from the hub.
pub(crate) fn acknowledge(hub: &mut Hub, attended: &mut Attended, number: ConnNo, parcels: u32)
    ensures moved { Moved (AtMost 1 (Took number parcels)) (loop_of hub.old attended.old)
        (loop_of hub.new attended.new) }
    ensures acknowledged { Acknowledges number parcels hub.old hub.new }
    ensures spares { IsLoop (loop_of hub.old attended.old)
        → Spares (loop_of hub.old attended.old) (loop_of hub.new attended.new) }
    ensures filled { IsFilled (loop_of hub.new attended.new) number }
{
    let _acknowledged = hub.took(number, parcels);
    wake(hub, attended);
    match hub.first(number) {
        Some(_) => fill(hub, attended, number),
        None => {}
    }
}

/// A connection is to be shut down.
pub(crate) fn end(attended: &mut Attended, number: ConnNo)
    ensures kept { KeepsAll (outgoing_in attended.old) (outgoing_in attended.new) }
    ensures ended { IsEnded attended.new number }
    ensures others { (k : ℕ) → nat_eq number k ≡ false
        → outgoing_in attended.new k ≡ outgoing_in attended.old k }
    ensures away { attended.new.away ≡ attended.old.away }
{
    attended.end(number);
    attended.wake(number);
}

/// A connection is to be shut down at once.
pub(crate) fn fail(attended: &mut Attended, number: ConnNo)
    ensures kept { KeepsAll (outgoing_in attended.old) (outgoing_in attended.new) }
    ensures failed { HasFailed attended.new number }
    ensures others { (k : ℕ) → nat_eq number k ≡ false
        → outgoing_in attended.new k ≡ outgoing_in attended.old k }
    ensures away { attended.new.away ≡ attended.old.away }
{
    attended.fail(number);
    attended.wake(number);
}

/// Throws away what is on its way to a connection that leaves and what waits for it, so that its conference's room
/// keeps none of it where all that was told is kept.
pub(crate) fn throw_away(hub: &mut Hub, attended: &mut Attended, number: ConnNo)
    ensures thrown { Thrown number (loop_of hub.old attended.old) (loop_of hub.new attended.new) }
    ensures away { attended.new.away ≡ attended.old.away }
{
    for _time in 0..MAX_THROWN {
        if !throw_next(hub, attended, number) {
            return;
        }
    }
}

/// Throws away what is on its way to a connection, and takes what waits for it; says whether anything was taken.
fn throw_next(hub: &mut Hub, attended: &mut Attended, number: ConnNo) -> bool
    ensures thrown { Thrown number (loop_of hub.old attended.old) (loop_of hub.new attended.new) }
    ensures away { attended.new.away ≡ attended.old.away }
{
    attended.throw(number);
    let count = match attended.take_all(hub, number) {
        Ok(taken) => taken.count,
        Err(_) => 0,
    };
    count != 0
}

/// A connection leaves the hub, and nothing is on its way to it any more.
pub(crate) fn leave_from(
    hub: &mut Hub,
    attended: &mut Attended,
    number: ConnNo,
) -> Result<(), HubRefusal>
    ensures moved { Moved (AtMost 1 (Leave number)) (loop_of hub.old attended.old)
        (loop_of hub.new attended.new) }
    ensures woke { IsLoop (loop_of hub.old attended.old)
        → Wakes (loop_of hub.old attended.old) (loop_of hub.new attended.new) }
    ensures spares { IsLoop (loop_of hub.old attended.old)
        → Spares (loop_of hub.old attended.old) (loop_of hub.new attended.new) }
    ensures gone { outgoing_in attended.new number ≡ None }
    ensures left { connection_at hub.new.connections number ≡ None }
    ensures others { (k : ℕ) → nat_eq number k ≡ false
        → connection_at hub.new.connections k ≡ connection_at hub.old.connections k }
    ensures back { stay_of attended.new.away number ≡ None }
    ensures stays { (k : ℕ) → nat_eq number k ≡ false
        → stay_of attended.new.away k ≡ stay_of attended.old.away k }
{
    let left = hub.leave(number);
    attended.remove(number);
    wake(hub, attended);
    left
}

/// Takes what waits for a connection from the hub: 64 parcels or 64 KiB, whichever comes first. Where
/// memory is refused for it, the connection is to be shut down at once.
pub(crate) fn fill(hub: &mut Hub, attended: &mut Attended, number: ConnNo)
    ensures moved { Moved NoSteps (loop_of hub.old attended.old) (loop_of hub.new attended.new) }
    ensures ready { (k : ℕ) → option_and_then (λ o. o.ready) (outgoing_in attended.new k)
        ≡ option_and_then (λ o. o.ready) (outgoing_in attended.old k) }
    ensures others { (k : ℕ) → nat_eq number k ≡ false
        → outgoing_in attended.new k ≡ outgoing_in attended.old k }
    ensures ends { SameEnds attended.old attended.new }
    ensures ledgers { SameLedgers hub.old hub.new }
    ensures filled { IsFilled (loop_of hub.new attended.new) number }
{
    match attended.take_all(hub, number) {
        Ok(taken) => {
            if taken.is_refused {
                attended.fail(number);
            }
        }
        Err(_) => attended.fail(number),
    }
}
