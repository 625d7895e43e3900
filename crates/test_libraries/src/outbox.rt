//! What no clause says of an outbox.

use floor_outbox::*;
use floor_wire::Frame;
use std::alloc::Global;
use std::test::*;

/// A parcel for member 1: a Hello with this transaction.
fn parcel(alloc: Global, transaction: u8) -> Result<Parcel, Fail> {
    let bytes = [0x20, 0x0b, 0, 0, 0, 0, 0, 1, 0, transaction, 0, 10];
    let hello = Frame::of(alloc, &bytes)?.ok_or("no message")?;
    Ok(Parcel::new(1, hello))
}

/// The transaction of a parcel.
fn transaction_of(parcel: &Parcel) -> Option<u8> {
    parcel.header().get(9).copied()
}

/// The transaction of the parcel that was taken, if one was.
fn transaction_in(taken: &Taken) -> Option<u8> {
    match taken {
        Taken::Parcel(parcel) => transaction_of(parcel),
        Taken::Empty | Taken::Closed => None,
    }
}

#[test]
fn parcels_are_taken_in_order_and_the_rest_is_popped(rt: HostRuntime) -> Result<(), Fail> {
    let alloc = rt.alloc();
    let (first, second) = (parcel(alloc, 1)?, parcel(alloc, 2)?);
    let (mut sender, mut taker) = pair(alloc)?;
    assert!(rt; matches!(taker.take(&rt), Taken::Empty));
    assert!(rt; sender.put(&rt, first).is_ok() && sender.put(&rt, second).is_ok());
    taker.wait(&rt);
    let first = taker.take(&rt);
    assert_eq!(rt; transaction_in(&first), Some(1));
    let mut outbox = rejoin(&rt, sender, taker);
    let second = outbox.pop(&rt).ok_or("nothing is left")?;
    assert_eq!(rt; transaction_of(&second), Some(2));
    assert!(rt; outbox.pop(&rt).is_none());
    Ok(())
}

#[test]
fn the_closed_mark_stays_and_wakes(rt: HostRuntime) -> Result<(), Fail> {
    let alloc = rt.alloc();
    let (mut sender, mut taker) = pair(alloc)?;
    let mark = taker.mark()?;
    assert!(rt; !mark.is_set());
    assert!(rt; sender.put(&rt, parcel(alloc, 1)?).is_ok());
    taker.wait(&rt);
    sender.close();
    taker.wait(&rt);
    assert!(rt; mark.is_set());
    let first = taker.take(&rt);
    assert_eq!(rt;
        transaction_in(&first),
        Some(1),
        "what was put before the mark"
    );
    assert!(rt; matches!(taker.take(&rt), Taken::Closed) && mark.is_set());
    assert!(rt; sender.put(&rt, parcel(alloc, 2)?).is_ok());
    let behind = taker.take(&rt);
    assert_eq!(rt; transaction_in(&behind), Some(2), "what was put behind it");
    assert!(rt; matches!(taker.take(&rt), Taken::Closed));
    Ok(())
}
