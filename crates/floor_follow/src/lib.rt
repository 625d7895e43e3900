//! What a program knows of a floorhub by its control socket: the lines that come, the picture that they
//! make, and what is to be asked next.
//!
//! [`Lines`] cuts the bytes that came into lines, [`read_line`] says what a line tells, and [`Follower`] takes
//! what is told into its picture: the conferences with their users, floors, floor requests, members and
//! words. [`Follower::ask`] gives the next question, whose line is one that floor_control reads. One question
//! is asked at a time, so an answer is known by the question that it stands behind; live lines come between
//! answers. The crate does no input or output: whoever has the socket writes the questions and hands on what
//! comes. A socket that is lost is followed anew by a new `Follower`.
#![tactic(auto)]

mod change;
mod conference;
mod fact;
mod fault;
mod follower;
mod lines;
mod live;
mod question;
mod rest;
mod row;
mod told;

pub use change::{Change, Subject};
pub use conference::{Conference, Stage};
pub use fact::{Fact, Facts, Member, Person, Reason, RequestedFloor, Word};
pub use fault::FollowFault;
pub use floor_config::{Floor, Text};
pub use floor_message::RequestStatus;
pub use floor_room::Phase;
pub use floor_wire::Octets;
pub use follower::Follower;
pub use lines::{Lines, MAX_LINE_LEN, NextLine};
pub use question::Question;
pub use told::{Listed, Told, read_line};
