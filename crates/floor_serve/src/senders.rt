//! What is put for the members of a conference.

ghost use Rattle.std.specs.Prelude.{◌≡◌, ◌∷◌, ◌++◌, [], OnOk, OnErr};
ghost use Rattle.floor_serve.specs.Senders.{IsInPart, fed, pair_of, pairs_of, sender_of, with_put};

use crate::wakers::Wakers;
use floor_outbox::{Parcel, Sender};
use std::alloc::AllocError;
use std::sync::Wait;

/// Puts a parcel by a sender that is still there, and adds whom to wake. After an error nothing was
/// put.
fn put_by<R: Wait>(
    rt: &R,
    place: &mut Option<Sender>,
    parcel: Parcel,
    wakers: &mut Wakers,
) -> Result<(), AllocError>
    ensures next { OnOk result (place.new ≡ with_put place.old (parcel ∷ [])) }
    ensures told { OnOk result (wakers.new ≡ wakers.old ++ pair_of place.old) }
    ensures left { OnErr result (place.new ≡ place.old) }
{
    match place {
        Some(sender) => {
            // The waker first: its memory may be refused, and then nothing is put.
            wakers.add(parcel.n(), sender)?;
            match sender.put_asleep(rt, parcel) {
                Ok(()) => Ok(()),
                Err(_) => Err(AllocError),
            }
        }
        None => Ok(()),
    }
}

/// Puts a parcel by the sender of its member. After an error nothing was put.
fn put<R: Wait>(
    rt: &R,
    senders: &mut Vec<Option<Sender>>,
    parcel: Parcel,
    wakers: &mut Wakers,
) -> Result<(), AllocError>
    ensures next { OnOk result (senders.new.items ≡ fed (parcel ∷ []) 1 senders.old.items) }
    ensures told { OnOk result (wakers.new
        ≡ wakers.old ++ pair_of (sender_of senders.old.items parcel.n)) }
    ensures left { OnErr result (senders.new.items ≡ senders.old.items) }
{
    let Some(index) = (parcel.n() as usize).checked_sub(1) else {
        return Ok(());
    };
    match senders.get_mut(index) {
        Some(place) => put_by(rt, place, parcel, wakers),
        None => Ok(()),
    }
}

/// Puts each of these parcels, in order, by the sender of its member, and adds whom to wake. After
/// an error some first of them were put.
pub(crate) fn deliver<R: Wait>(
    rt: &R,
    senders: &mut Vec<Option<Sender>>,
    out: Vec<Parcel>,
    wakers: &mut Wakers,
) -> Result<(), AllocError>
    ensures next { OnOk result (senders.new.items ≡ fed out.items 1 senders.old.items) }
    ensures told { OnOk result (wakers.new ≡ wakers.old ++ pairs_of senders.old.items out.items) }
    ensures left { OnErr result (IsInPart out.items senders.old.items senders.new.items) }
{
    for parcel in out {
        put(rt, senders, parcel, wakers)?;
    }
    Ok(())
}

/// Sets the closed mark of each pair.
pub(crate) fn close_all(senders: &[Option<Sender>]) {
    for place in senders {
        close(place);
    }
}

/// Sets the closed mark of a pair whose sender is still there.
pub(crate) fn close(place: &Option<Sender>) {
    match place {
        Some(sender) => sender.close(),
        None => {}
    }
}
