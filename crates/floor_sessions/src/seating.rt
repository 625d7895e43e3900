//! What a datagram does to its user's seat (RFC 8855, sections 6.2 and 8.3).

ghost use Rattle.std.specs.Prelude.{◌≡◌, ◌≤◌, length, OnOk, OnErr};
ghost use Rattle.floor_datagram.specs.SessionView.{terms_of, IsLimit};
ghost use Rattle.floor_sessions.specs.Seats as spec;

use crate::admission::Source;
use crate::seat::Seat;
use crate::way::{Standing, Way, way_of};
use bytes::Bytes;
use floor_datagram::{INCORRECT_LENGTH, Session, Terms, error, goodbye_ack, id_of};
use std::alloc::{AllocError, Global};

/// What becomes of a datagram of the user whose seat this is.
pub(crate) fn way_at(seat: &Option<Seat>, from: Source, datagram: &[u8], now: u64) -> Way
    requires { 12 ≤ length datagram.now }
    ensures value { result ≡ spec.way_at seat.now from now datagram.now }
{
    match seat {
        None => way_of(None, datagram),
        Some(seat) => way_of(Some(standing_of(seat, from, now)), datagram),
    }
}

/// What is known of a session, for a datagram from there.
fn standing_of(seat: &Seat, from: Source, now: u64) -> Standing
    ensures { result ≡ spec.standing_of from now seat.now }
{
    let has_ended = seat.session.end().is_some();
    let since = if has_ended {
        seat.session.ended()
    } else {
        seat.session.taken()
    };
    Standing {
        is_here: is_same_source(seat.source, from),
        has_ended,
        last: seat.session.last(),
        ago: now.saturating_sub(since),
        t2: seat.session.t2(),
    }
}

fn is_same_source(a: Source, b: Source) -> bool
    ensures { result ≡ spec.is_same_source a b }
{
    a.address == b.address && a.port == b.port
}

/// Does what becomes of a datagram.
pub(crate) fn go(
    alloc: Global,
    seat: &mut Option<Seat>,
    way: Way,
    terms: Terms,
    from: Source,
    datagram: &[u8],
    now: u64,
    up: &mut Vec<u8>,
    down: &mut Vec<Bytes>,
) -> Result<(), AllocError>
    requires long { 12 ≤ length datagram.now }
    requires limit { IsLimit terms }
    ensures took { OnOk result (spec.Happened
        (spec.goes way seat.old (terms_of terms) from (length up.old.items) now datagram.now)
        seat.new up.old.items up.new.items down.old.items down.new.items) }
    ensures left { OnErr result (up.new.items ≡ up.old.items) }
{
    match way {
        Way::Dropped => Ok(()),
        Way::Misfit => {
            down.push(error(alloc, INCORRECT_LENGTH, datagram)?)?;
            Ok(())
        }
        Way::Parting => {
            down.push(goodbye_ack(alloc, datagram)?)?;
            Ok(())
        }
        Way::Onward => feed(seat, datagram, now, up, down),
        Way::Begins => begin(alloc, seat, terms, from, datagram, now, up, down),
        Way::Moves => begin(alloc, seat, terms, from, datagram, now, up, down),
        Way::Anew => begin(alloc, seat, terms, from, datagram, now, up, down),
    }
}

/// The datagram goes to the session, where there is one.
fn feed(
    seat: &mut Option<Seat>,
    datagram: &[u8],
    now: u64,
    up: &mut Vec<u8>,
    down: &mut Vec<Bytes>,
) -> Result<(), AllocError>
    requires { 12 ≤ length datagram.now }
    ensures took { OnOk result (spec.Happened
        (spec.fed seat.old (length up.old.items) now datagram.now)
        seat.new up.old.items up.new.items down.old.items down.new.items) }
    ensures left { OnErr result (up.new.items ≡ up.old.items) }
{
    match seat {
        None => Ok(()),
        Some(seat) => {
            seat.session.datagram(datagram, now, up, down)?;
            Ok(())
        }
    }
}

/// A session begins with the datagram.
fn begin(
    alloc: Global,
    seat: &mut Option<Seat>,
    terms: Terms,
    from: Source,
    datagram: &[u8],
    now: u64,
    up: &mut Vec<u8>,
    down: &mut Vec<Bytes>,
) -> Result<(), AllocError>
    requires long { 12 ≤ length datagram.now }
    requires limit { IsLimit terms }
    ensures took { OnOk result (spec.Happened
        (spec.begun (terms_of terms) from (length up.old.items) now datagram.now)
        seat.new up.old.items up.new.items down.old.items down.new.items) }
    ensures left { OnErr result (up.new.items ≡ up.old.items) }
{
    let mut session = Session::new(alloc, terms, id_of(datagram), now);
    match session.datagram(datagram, now, up, down) {
        Ok(()) => {
            *seat = Some(Seat {
                source: from,
                session,
            });
            Ok(())
        }
        Err(e) => Err(e),
    }
}
