//! The order of seats, and where those of one conference stand among them.

ghost use Rattle.std.specs.Prelude.{◌≡◌, ◌↔◌, ◌<◌, ◌≤◌, IsTrue, length};
ghost use Rattle.std.specs.List.{AllWithin};
ghost use Rattle.std.specs.List.Sorted.{IsNonDecreasingBy};
ghost use Rattle.floor_serve.specs.steps.Ascending.{Ascend, IsBefore, IsBlock};
ghost use Rattle.floor_serve.specs.declared.end.order.Order.{Order};

use crate::seat::Seat;

/// In which order seats stand.
#[derive(Clone, Copy)]
pub(crate) enum Order {
    /// By conference, and those of one conference by number, each once.
    Ascending,
    /// In any order.
    Any,
}

/// Where the seats of one conference stand.
#[derive(Clone, Copy)]
pub(crate) struct Block {
    pub(crate) from: usize,
    /// The place behind the last.
    pub(crate) to: usize,
}

/// In which order the seats stand.
pub(crate) fn order_of(seats: &[Seat]) -> Order
    ensures { (result ≡ Order.Ascending) ↔ Ascend seats.now }
{
    for at in 1..seats.len() {
        if !is_before(&seats[at - 1], &seats[at]) {
            return Order::Any;
        }
    }
    Order::Ascending
}

/// Whether a seat stands before another.
fn is_before(a: &Seat, b: &Seat) -> bool
    ensures { IsTrue result ↔ IsBefore a.now b.now }
{
    if a.conference() == b.conference() {
        a.n() < b.n()
    } else {
        a.conference() < b.conference()
    }
}

/// Where the seats of the conference stand.
pub(crate) fn block_of(seats: &[Seat], conference: u32) -> Block
    requires { Ascend seats.now }
    ensures { IsBlock seats.now conference result.from result.to }
{
    let from = first_from(seats, conference);
    let to = first_behind(seats, conference);
    Block { from, to }
}

/// The place of the first seat that is of no lower conference.
fn first_from(seats: &[Seat], conference: u32) -> usize
    requires { IsNonDecreasingBy (λ s. s.conference) seats.now }
    ensures within { result ≤ length seats.now }
    ensures lower { AllWithin (λ s. s.conference < conference) seats.now 0 result }
    ensures others { AllWithin (λ s. conference ≤ s.conference) seats.now result (length seats.now) }
{
    seats.partition_point(|seat| seat.conference() < conference)
}

/// The place of the first seat that is of a higher conference.
fn first_behind(seats: &[Seat], conference: u32) -> usize
    requires { IsNonDecreasingBy (λ s. s.conference) seats.now }
    ensures within { result ≤ length seats.now }
    ensures others { AllWithin (λ s. s.conference ≤ conference) seats.now 0 result }
    ensures higher { AllWithin (λ s. conference < s.conference) seats.now result (length seats.now) }
{
    seats.partition_point(|seat| seat.conference() <= conference)
}
