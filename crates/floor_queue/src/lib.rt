//! The ongoing floor requests of one conference: which of them wait for which floors, in which
//! order, and which are granted (RFC 8855, sections 10, 11 and 13).
//!
//! It stands on `floor_wire`, of which it uses the lists of numbers and of octets, and on
//! `floor_config`. It does no input or output. Who may ask, release or decide, how many requests a
//! user may have, and what anyone is told is left to the caller.
#![tactic(auto)]

mod addable;
mod due;
mod index;
mod laws;
mod naming;
mod ongoing;
mod order;
mod request;
mod requested_floor;
mod requests;

pub use addable::MAX_FLOORS;
pub use floor_config::{Config, Floor, is_floor};
pub use floor_wire::{Numbers, Octets};
pub use laws::{
    finds_by_number, keeps_order, keeps_places, keeps_room, positions_fit, settles_once,
};
pub use request::{New, Request};
pub use requested_floor::{FloorStatus, RequestedFloor, RequestedFloors, Word};
pub use requests::{AddRefusal, MAX_ONGOING, Requests};
