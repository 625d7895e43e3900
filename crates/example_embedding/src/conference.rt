//! A program that holds one conference and divides the streams of bytes itself: a machine.

use crate::fault::Fault;
use floor_config::Config;
use floor_machine::{Frame, Machine, Parcel, SharedInfo};
use std::alloc::Global;

/// What user 10 is sent by a conference in which it alone is connected, and sends this message.
pub fn answers(alloc: Global, message: &Frame) -> Result<Vec<u8>, Fault> {
    let mut machine = Machine::new(alloc, Config::demonstration(alloc)?)?;
    let ann = machine.join(10)?;
    let mut parcels: Vec<Parcel> = Vec::new(alloc);
    // What is shown otherwise by an event, for whoever watches the conference.
    let mut changed: Vec<SharedInfo> = Vec::new(alloc);
    machine.message(ann, message, &mut parcels, &mut changed)?;
    let mut sent = Vec::new(alloc);
    for parcel in &parcels {
        sent.extend_from_slice(parcel.header())?;
        sent.extend_from_slice(parcel.payload())?;
        machine.took(parcel.n(), 1)?;
    }
    machine.leave(ann, &mut parcels, &mut changed)?;
    Ok(sent)
}
