//! What waits for the connections of a conference: it is taken, and put into lines.

ghost use Rattle.std.specs.Prelude.{◌≡◌, ◌++◌, ◌∷◌, [], IfOk, OnOk, option_to_list, string_bytes};
ghost use Rattle.floor_script.specs.Printed.{fast_of, sent_line};
ghost use Rattle.floor_script.specs.steps.Taking.{EmptiesAll, EmptiesLive, TakesAll, TakenOne};

use crate::attached::{Live, Pace};
use crate::script::MAX_TURNS;
use floor_hub::{Hub, Parcel};
use std::alloc::{AllocError, Global};

/// So many parcels were taken of what waits for a connection.
#[derive(Clone, Copy, Debug)]
pub struct Taken {
    pub connection: u64,
    pub parcels: u32,
}

/// Takes what waits for those of these connections of a conference that aren't slow, all of one
/// before the next. Adds its lines to the text, and notes how many parcels it was of each connection
/// that had any.
pub fn take_all(
    alloc: Global,
    hub: &mut Hub,
    conference: u32,
    lives: &[Live],
    taken: &mut Vec<Taken>,
    text: &mut String,
) -> Result<(), AllocError>
    ensures took { OnOk result (EmptiesAll conference (fast_of lives.now) hub.old hub.new
        taken.old.items taken.new.items (string_bytes text.old) (string_bytes text.new)) }
{
    for live in lives {
        take_live(alloc, hub, conference, *live, taken, text)?;
    }
    Ok(())
}

/// Takes what waits for a connection, unless it is slow.
fn take_live(
    alloc: Global,
    hub: &mut Hub,
    conference: u32,
    live: Live,
    taken: &mut Vec<Taken>,
    text: &mut String,
) -> Result<(), AllocError>
    ensures took { OnOk result (EmptiesLive conference live hub.old hub.new
        taken.old.items taken.new.items (string_bytes text.old) (string_bytes text.new)) }
{
    match live.pace {
        Pace::Slow => Ok(()),
        Pace::Fast => take_fast(alloc, hub, conference, live.connection, taken, text),
    }
}

/// Takes what waits for a connection that isn't slow.
fn take_fast(
    alloc: Global,
    hub: &mut Hub,
    conference: u32,
    connection: u64,
    taken: &mut Vec<Taken>,
    text: &mut String,
) -> Result<(), AllocError>
    ensures took { OnOk result (EmptiesAll conference (connection ∷ []) hub.old hub.new
        taken.old.items taken.new.items (string_bytes text.old) (string_bytes text.new)) }
{
    // What its contract says of the room is handed out: what waits is what the journal calls for.
    let _status = hub.status(conference);
    let parcels = take_parcels(alloc, hub, connection, text)?;
    if parcels == 0 {
        return Ok(());
    }
    taken.push(Taken {
        connection,
        parcels,
    })?;
    Ok(())
}

/// Takes the parcels that wait for a connection, adds their lines to the text, and gives how many
/// they were.
fn take_parcels(
    alloc: Global,
    hub: &mut Hub,
    connection: u64,
    text: &mut String,
) -> Result<u32, AllocError>
    ensures took { IfOk result (λ count. TakesAll connection count hub.old hub.new
        (string_bytes text.old) (string_bytes text.new)) }
{
    for taken in 0..MAX_TURNS {
        match next_parcel(hub, connection) {
            Some(parcel) => add_parcel(alloc, connection, &parcel, text)?,
            None => return Ok(taken),
        }
    }
    Ok(MAX_TURNS)
}

/// Takes the first parcel that waits for a connection. None does where no live connection has the
/// number.
fn next_parcel(hub: &mut Hub, connection: u64) -> Option<Parcel>
    ensures took { TakenOne connection (option_to_list result) hub.old hub.new }
{
    match hub.take(connection) {
        Ok(parcel) => parcel,
        Err(_) => None,
    }
}

/// Adds the line of a parcel to the text.
fn add_parcel(
    alloc: Global,
    connection: u64,
    parcel: &Parcel,
    text: &mut String,
) -> Result<(), AllocError>
    ensures { OnOk result (string_bytes text.new
        ≡ string_bytes text.old ++ sent_line connection parcel.now.bytes) }
{
    let number = format!(in alloc; "{connection} ")?;
    let header = hex::encode(alloc, parcel.header())?;
    let payload = hex::encode(alloc, parcel.payload())?;
    text.push_str(number.as_str())?;
    text.push_str(header.as_str())?;
    text.push_str(payload.as_str())?;
    text.push_str("\n")
}
