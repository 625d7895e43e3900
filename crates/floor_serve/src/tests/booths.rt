//! A member of a booth that leaves, and what is left in its outbox.

use super::{HELLO, HELLO_ACK, frame};
use crate::*;
use std::alloc::Global;
use std::sync::Wait;
use std::test::*;

/// The outbox of a user that joined, said Hello and left.
#[tactic(auto, using(crate::proofs::Leaving::gone_took))]
fn reclaimed<R: Wait>(rt: &R, alloc: Global) -> Result<Outbox, Fail> {
    let mut booth = Booth::new(alloc, Config::demonstration(alloc)?)?;
    let Ok((n, taker)) = booth.join(rt, 10) else {
        return Err(Fail::from("the user doesn't join"));
    };
    let Ok(_place) = booth.submit(rt, n, frame(alloc, &HELLO)?) else {
        return Err(Fail::from("the message is refused"));
    };
    let Ok(()) = booth.leave(rt, n) else {
        return Err(Fail::from("the member doesn't leave"));
    };
    Ok(booth.reclaim(rt, n, taker))
}

#[test]
fn what_nobody_took_is_reclaimed(rt: HostRuntime) -> Result<(), Fail> {
    let mut outbox = reclaimed(&rt, rt.alloc())?;
    let parcel = outbox.pop(&rt).ok_or("nothing is left")?;
    assert_eq!(rt; parcel.header(), &HELLO_ACK[..12]);
    assert_eq!(rt; parcel.payload(), &HELLO_ACK[12..]);
    assert!(rt; outbox.pop(&rt).is_none());
    Ok(())
}
