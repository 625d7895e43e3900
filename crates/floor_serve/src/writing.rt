//! What the writer of a connection does.

ghost use Rattle.std.specs.Prelude.{◌≡◌, ◌+◌, ◌-◌, ◌++◌, ◌≤◌, [], length, take, true, false, OnOk, IfOk, IfErr, MatchOption};
ghost use Rattle.std.specs.Io.KnownBytes.{Appends};
ghost use Rattle.floor_serve.specs.Written.{Failed, Moved, Stopped, Wrote, capped};

use crate::desk::Desk;
use crate::fault::WriteFault;
use crate::marked::Sink;
use crate::member_taker::MemberTaker;
use floor_outbox::{Parcel, Taken, Taker};
use std::alloc::Global;
use std::sync::Wait;

/// How many bytes are gathered into one write.
const GATHERED: usize = 65_536;

/// How many parcels are acknowledged at once at most, so that a peer that reads as fast as it can is
/// never far behind.
const ACKNOWLEDGED: u32 = 64;

/// What was written. Each count stops at the greatest value.
#[derive(Clone, Copy, Debug, PartialEq, Eq)]
pub struct Written {
    /// How many parcels.
    pub parcels: u64,
    /// How many bytes.
    pub bytes: u64,
}

/// Writes the parcels to a member in order as they come, until the queue is empty after its sender was
/// closed.
///
/// What waits goes into one write, as far as 64 KiB hold it, and at most 64 parcels. Where memory for
/// that is refused, each parcel is written by itself, its header and then its payload. After each 64
/// parcels, and whenever nothing waits, those that were written since are acknowledged; where that is
/// refused, as after the member has left, nothing more is done.
pub fn write_loop<S: Sink, R: Wait>(
    rt: &R,
    alloc: Global,
    sink: &mut S,
    member: &mut MemberTaker,
) -> Result<Written, WriteFault>
    requires { S.marked sink.old ≡ false }
    ensures member { member.new ≡ record member.old
        { taker = record member.old.taker { taken = member.new.taker.taken } } }
    ensures wrote { IfOk result (λ w. Wrote member.old.taker.taken member.new.taker.taken
        (S.contents sink.old) (S.contents sink.new) w.parcels w.bytes) }
    ensures unmarked { OnOk result (S.marked sink.new ≡ false) }

    ensures stopped { IfErr result (λ f. Stopped member.old.taker.taken member.new.taker.taken
        (S.contents sink.old) (S.contents sink.new) f.bytes) }
    ensures marked { IfErr result (λ f. S.marked sink.new ≡ true) }
{
    write_taken(rt, alloc, sink, &member.desk, member.n, &mut member.taker)
}

/// Writes what the taker of the desk's member n takes.
fn write_taken<S: Sink, R: Wait>(
    rt: &R,
    alloc: Global,
    sink: &mut S,
    desk: &Desk,
    n: u32,
    taker: &mut Taker,
) -> Result<Written, WriteFault>
    requires { S.marked sink.old ≡ false }
    ensures pair { taker.new.pair ≡ taker.old.pair }
    ensures wrote { IfOk result (λ w. Wrote taker.old.taken taker.new.taken
        (S.contents sink.old) (S.contents sink.new) w.parcels w.bytes) }
    ensures unmarked { OnOk result (S.marked sink.new ≡ false) }

    ensures stopped { IfErr result (λ f. Stopped taker.old.taken taker.new.taken
        (S.contents sink.old) (S.contents sink.new) f.bytes) }
    ensures marked { IfErr result (λ f. S.marked sink.new ≡ true) }
{
    let mut buffer = gathering(alloc);
    let mut parcels = 0u64;
    let mut bytes = 0u64;
    let mut unacknowledged = Unacknowledged {
        desk,
        n,
        parcels: 0,
    };
    for _ in rt.forever() {
        match taker.take(rt) {
            Taken::Parcel(parcel) => {
                parcels = parcels.saturating_add(1);
                match take_up(
                    rt,
                    sink,
                    &mut buffer,
                    parcel,
                    &mut bytes,
                    &mut unacknowledged,
                ) {
                    Ok(()) => {}
                    Err(fault) => return Err(fault),
                }
            }
            Taken::Empty => {
                match flush_and_acknowledge(
                    rt,
                    sink,
                    &mut buffer,
                    &mut bytes,
                    &mut unacknowledged,
                ) {
                    Ok(()) => taker.wait(rt),
                    Err(fault) => return Err(fault),
                }
            }
            Taken::Closed => {
                match flush_and_acknowledge(
                    rt,
                    sink,
                    &mut buffer,
                    &mut bytes,
                    &mut unacknowledged,
                ) {
                    Ok(()) => return Ok(Written { parcels, bytes }),
                    Err(fault) => return Err(fault),
                }
            }
        }
    }
    unreachable!()
}

/// The parcels to a member that were taken and not acknowledged yet.
#[derive(Drop)]
struct Unacknowledged<'a> {
    desk: &'a Desk,
    /// The member's number in the desk's conference.
    n: u32,
    /// How many parcels.
    parcels: u32,
}

impl<'a> Unacknowledged<'a> {
    /// Acknowledges them, all of which were written, if there are any. A refusal changes nothing for
    /// the writer: its queue is closed where its member can't be told anything more.
    fn acknowledge<R: Wait>(&mut self, rt: &R) {
        if self.parcels > 0 {
            let _taken = self.desk.took(rt, self.n, self.parcels);
            self.parcels = 0;
        }
    }
}

/// The bytes that are gathered, none yet.
fn gathering(alloc: Global) -> Vec<u8>
    ensures { result.items ≡ [] }
{
    match Vec::with_capacity(alloc, GATHERED) {
        Ok(buffer) => buffer,
        Err(_) => Vec::new(alloc),
    }
}

/// Puts a parcel that was taken behind the bytes that are gathered, and writes them where it is the
/// last of those that are acknowledged at once.
fn take_up<S: Sink, R: Wait>(
    rt: &R,
    sink: &mut S,
    buffer: &mut Vec<u8>,
    parcel: Parcel,
    total: &mut u64,
    unacknowledged: &mut Unacknowledged<'_>,
) -> Result<(), WriteFault>
    requires { S.marked sink.old ≡ false }
    ensures moved { OnOk result (Moved (S.contents sink.old) (S.contents sink.new)
        (buffer.old.items ++ parcel.bytes) buffer.new.items total.old total.new) }
    ensures unmarked { OnOk result (S.marked sink.new ≡ false) }

    ensures failed { IfErr result (λ f. Failed (S.contents sink.old) (S.contents sink.new)
        (buffer.old.items ++ parcel.bytes) total.old f.bytes) }
    ensures marked { IfErr result (λ f. S.marked sink.new ≡ true) }
{
    match gather(sink, buffer, &parcel, total) {
        Ok(()) => {}
        Err(fault) => return Err(fault),
    }
    unacknowledged.parcels = unacknowledged.parcels.saturating_add(1);
    if unacknowledged.parcels < ACKNOWLEDGED {
        return Ok(());
    }
    flush_and_acknowledge(rt, sink, buffer, total, unacknowledged)
}

/// Writes what is gathered, and acknowledges the parcels that it was made of.
fn flush_and_acknowledge<S: Sink, R: Wait>(
    rt: &R,
    sink: &mut S,
    buffer: &mut Vec<u8>,
    total: &mut u64,
    unacknowledged: &mut Unacknowledged<'_>,
) -> Result<(), WriteFault>
    requires { S.marked sink.old ≡ false }
    ensures grew { OnOk result (Appends (S.contents sink.old) (S.contents sink.new)
        buffer.old.items) }
    ensures empty { OnOk result (buffer.new.items ≡ []) }
    ensures total { OnOk result (total.new ≡ capped (total.old + length buffer.old.items)) }
    ensures unmarked { OnOk result (S.marked sink.new ≡ false) }

    ensures failed { IfErr result (λ f. Failed (S.contents sink.old) (S.contents sink.new)
        buffer.old.items total.old f.bytes) }
    ensures marked { IfErr result (λ f. S.marked sink.new ≡ true) }
{
    flush(sink, buffer, total)?;
    unacknowledged.acknowledge(rt);
    Ok(())
}

/// Puts a parcel behind the bytes that are gathered. Where it doesn't fit behind them, those are
/// written first; where it fits nowhere, it is written by itself.
fn gather<S: Sink>(
    sink: &mut S,
    buffer: &mut Vec<u8>,
    parcel: &Parcel,
    total: &mut u64,
) -> Result<(), WriteFault>
    requires { S.marked sink.old ≡ false }
    ensures moved { OnOk result (Moved (S.contents sink.old) (S.contents sink.new)
        (buffer.old.items ++ parcel.now.bytes) buffer.new.items total.old total.new) }
    ensures unmarked { OnOk result (S.marked sink.new ≡ false) }

    ensures failed { IfErr result (λ f. Failed (S.contents sink.old) (S.contents sink.new)
        (buffer.old.items ++ parcel.now.bytes) total.old f.bytes) }
    ensures marked { IfErr result (λ f. S.marked sink.new ≡ true) }
{
    let _before = *total;
    match put_behind(buffer, parcel) {
        Some(()) => return Ok(()),
        None => {}
    }
    flush(sink, buffer, total)?;
    match put_behind(buffer, parcel) {
        Some(()) => Ok(()),
        None => write_counted(sink, parcel, total),
    }
}

/// Puts a parcel behind the bytes that are gathered, where it fits: its header and then its
/// payload. Where memory is refused for it, the bytes are as they were.
fn put_behind(buffer: &mut Vec<u8>, parcel: &Parcel) -> Option<()>
    ensures { MatchOption result (buffer.new.items ≡ buffer.old.items)
        (λ _. buffer.new.items ≡ buffer.old.items ++ parcel.now.bytes) }
{
    let before = buffer.len();
    if parcel.len() > GATHERED.saturating_sub(before) {
        return None;
    }
    match buffer.extend_from_slice(parcel.header()) {
        Ok(()) => {}
        Err(_) => return None,
    }
    match buffer.extend_from_slice(parcel.payload()) {
        Ok(()) => Some(()),
        Err(_) => {
            buffer.truncate(before);
            None
        }
    }
}

/// Writes what is gathered.
fn flush<S: Sink>(sink: &mut S, buffer: &mut Vec<u8>, total: &mut u64) -> Result<(), WriteFault>
    requires { S.marked sink.old ≡ false }
    ensures grew { OnOk result (Appends (S.contents sink.old) (S.contents sink.new)
        buffer.old.items) }
    ensures empty { OnOk result (buffer.new.items ≡ []) }
    ensures total { OnOk result (total.new ≡ capped (total.old + length buffer.old.items)) }
    ensures unmarked { OnOk result (S.marked sink.new ≡ false) }

    ensures failed { IfErr result (λ f. Failed (S.contents sink.old) (S.contents sink.new)
        buffer.old.items total.old f.bytes) }
    ensures marked { IfErr result (λ f. S.marked sink.new ≡ true) }
{
    write_all(sink, buffer.as_slice(), total)?;
    buffer.clear();
    Ok(())
}

/// Writes a parcel, and adds to the count of the bytes that were written.
fn write_counted<S: Sink>(sink: &mut S, parcel: &Parcel, total: &mut u64) -> Result<(), WriteFault>
    requires { S.marked sink.old ≡ false }
    ensures grew { OnOk result (Appends (S.contents sink.old) (S.contents sink.new)
        parcel.now.bytes) }
    ensures total { OnOk result (total.new ≡ capped (total.old + length parcel.now.bytes)) }
    ensures unmarked { OnOk result (S.marked sink.new ≡ false) }

    ensures failed { IfErr result (λ f. Failed (S.contents sink.old) (S.contents sink.new)
        parcel.now.bytes total.old f.bytes) }
    ensures marked { IfErr result (λ f. S.marked sink.new ≡ true) }
{
    match write_parcel(sink, parcel) {
        Ok(()) => {
            *total = total.saturating_add(parcel.len() as u64);
            Ok(())
        }
        Err(fault) => Err(WriteFault {
            bytes: total.saturating_add(fault.bytes),
        }),
    }
}

/// Writes the bytes of a parcel, its header and then its payload. A fault comes only where the
/// sink failed, and says how many of the bytes were written before.
pub fn write_parcel<S: Sink>(sink: &mut S, parcel: &Parcel) -> Result<(), WriteFault>
    requires { S.marked sink.old ≡ false }
    ensures grew { OnOk result (Appends (S.contents sink.old) (S.contents sink.new)
        parcel.now.bytes) }
    ensures unmarked { OnOk result (S.marked sink.new ≡ false) }

    ensures failed { IfErr result (λ f. Failed (S.contents sink.old) (S.contents sink.new)
        parcel.now.bytes 0 f.bytes) }
    ensures marked { IfErr result (λ f. S.marked sink.new ≡ true) }
{
    let mut total = 0u64;
    match write_all(sink, parcel.header(), &mut total) {
        Ok(()) => {}
        Err(fault) => return Err(fault),
    }
    write_all(sink, parcel.payload(), &mut total)
}

/// Writes bytes, and adds to the count of those that were written.
fn write_all<S: Sink>(sink: &mut S, bytes: &[u8], total: &mut u64) -> Result<(), WriteFault>
    requires { S.marked sink.old ≡ false }
    ensures grew { OnOk result (Appends (S.contents sink.old) (S.contents sink.new) bytes.now) }
    ensures total { OnOk result (total.new ≡ capped (total.old + length bytes.now)) }
    ensures unmarked { OnOk result (S.marked sink.new ≡ false) }

    ensures failed { IfErr result (λ f. Failed (S.contents sink.old) (S.contents sink.new)
        bytes.now total.old f.bytes) }
    ensures marked { IfErr result (λ f. S.marked sink.new ≡ true) }
{
    let mut at = 0;
    while at < bytes.len() {
        match sink.write(&bytes[at..]) {
            Some(k) => at += k,
            None => {
                return Err(WriteFault {
                    bytes: total.saturating_add(at as u64),
                });
            }
        }
    }
    *total = total.saturating_add(at as u64);
    Ok(())
}
