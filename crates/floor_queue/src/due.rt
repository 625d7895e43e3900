//! Which ongoing floor requests are due, by the lines of their floors.

ghost use Rattle.std.specs.Prelude.{◌≡◌, ◌==◌, ◌&&◌, ◌||◌, ℕ, IfOk, OnOk};
ghost use Rattle.std.specs.List.{list_any, list_all};
ghost use Rattle.floor_queue.specs.Order.{due_numbers};
ghost use Rattle.floor_queue.specs.steps.Lines.{IsLined, has_place, is_due_in, is_number_due, line_has_due, line_shows, rank_shows};
ghost use Rattle.floor_queue.specs.steps.Numbers.{is_in};

use crate::index::line::Line;
use crate::index::lines::Lines;
use crate::index::numbers::AscendingNumbers;
use crate::index::rank::{Rank, rank_of};
use crate::ongoing::Ongoing;
use crate::order::room_of;
use crate::request::Request;
use crate::requested_floor::RequestedFloor;
use floor_config::Floor;
use std::alloc::{AllocError, Global};

/// Whether the floor has a place for the rank within its room.
fn has_place(floors: &[Floor], lines: &Lines, rank: Rank, floor: u16) -> bool
    ensures { result ≡ has_place floors.now lines.now rank floor }
{
    match lines.of(floor) {
        Some(line) => line.place(rank) < room_of(floors, floor),
        None => false,
    }
}

/// Whether each of these floors has a place for the rank.
fn have_places(floors: &[Floor], lines: &Lines, rank: Rank, requested: &[RequestedFloor]) -> bool
    ensures { result ≡ list_all (λ f. has_place floors.now lines.now rank f.floor) requested.now }
{
    requested
        .iter()
        .all(|f| has_place(floors, lines, rank, f.floor))
}

/// Whether the request waits and all its floors have a place for it.
fn is_due(floors: &[Floor], lines: &Lines, request: &Request) -> bool
    ensures { result ≡ is_due_in floors.now lines.now request.now }
{
    request.waits()
        && have_places(
            floors,
            lines,
            rank_of(floors, request),
            request.floors.as_slice(),
        )
}

/// Whether the request with this number is due.
fn is_number_due(floors: &[Floor], lines: &Lines, requests: &Ongoing, number: u16) -> bool
    ensures { result ≡ is_number_due floors.now lines.now requests.now number }
{
    match requests.find(number) {
        Some(request) => is_due(floors, lines, request),
        None => false,
    }
}

/// Whether the rank is that of a request that is due.
fn is_rank_due(floors: &[Floor], lines: &Lines, requests: &Ongoing, rank: Rank) -> bool
    ensures { result
        ≡ (rank.waits && is_number_due floors.now lines.now requests.now rank.number) }
{
    rank.waits && is_number_due(floors, lines, requests, rank.number)
}

/// Whether one of these ranks is that of a request that is due.
fn have_due(floors: &[Floor], lines: &Lines, requests: &Ongoing, ranks: &[Rank]) -> bool
    ensures { result ≡ list_any
        (λ k. k.waits && is_number_due floors.now lines.now requests.now k.number) ranks.now }
{
    ranks
        .iter()
        .any(|k| is_rank_due(floors, lines, requests, *k))
}

/// Whether the line is marked, and one of its first requests, as many as the floor has room for, is
/// due.
fn line_has_due(floors: &[Floor], lines: &Lines, requests: &Ongoing, line: &Line) -> bool
    ensures { result ≡ line_has_due floors.now lines.now requests.now line.now }
{
    let room = room_of(floors, line.floor());
    line.is_marked() && have_due(floors, lines, requests, line.first(room))
}

/// Whether one of the requests is due. Looks at the first requests of each marked line alone.
pub(crate) fn has_due(floors: &[Floor], lines: &Lines, requests: &Ongoing) -> bool
    ensures { result ≡ list_any (line_has_due floors.now lines.now requests.now) lines.now }
{
    lines
        .as_slice()
        .iter()
        .any(|l| line_has_due(floors, lines, requests, l))
}

/// The numbers of the requests that are due, ascending. Looks at the first requests of each marked
/// line alone.
pub(crate) fn due_numbers(
    alloc: Global,
    floors: &[Floor],
    lines: &Lines,
    requests: &Ongoing,
) -> Result<Vec<u16>, AllocError>
    requires { IsLined floors.now requests.now lines.now }
    ensures { IfOk result (λ numbers. numbers.items ≡ due_numbers floors.now requests.now) }
{
    let mut numbers = AscendingNumbers::new(alloc);
    for line in lines.as_slice() {
        add_due_of_line(floors, lines, requests, line, &mut numbers)?;
    }
    Ok(numbers.into_vec())
}

/// Adds the numbers of those requests that the line shows to be due.
fn add_due_of_line(
    floors: &[Floor],
    lines: &Lines,
    requests: &Ongoing,
    line: &Line,
    numbers: &mut AscendingNumbers,
) -> Result<(), AllocError>
    ensures { OnOk result ((k : ℕ) → is_in k numbers.new
        ≡ (is_in k numbers.old
        || line_shows floors.now lines.now requests.now (λ n. n == k) line.now)) }
{
    if line.is_marked() {
        let room = room_of(floors, line.floor());
        add_due(floors, lines, requests, line.first(room), numbers)?;
    }
    Ok(())
}

/// Adds the numbers of those of the ranks whose requests are due.
fn add_due(
    floors: &[Floor],
    lines: &Lines,
    requests: &Ongoing,
    ranks: &[Rank],
    numbers: &mut AscendingNumbers,
) -> Result<(), AllocError>
    ensures { OnOk result ((k : ℕ) → is_in k numbers.new
        ≡ (is_in k numbers.old
        || list_any (rank_shows floors.now lines.now requests.now (λ n. n == k)) ranks.now)) }
{
    for rank in ranks {
        add_if_due(floors, lines, requests, *rank, numbers)?;
    }
    Ok(())
}

fn add_if_due(
    floors: &[Floor],
    lines: &Lines,
    requests: &Ongoing,
    rank: Rank,
    numbers: &mut AscendingNumbers,
) -> Result<(), AllocError>
    ensures { OnOk result ((k : ℕ) → is_in k numbers.new
        ≡ (is_in k numbers.old
        || rank_shows floors.now lines.now requests.now (λ n. n == k) rank)) }
{
    if is_rank_due(floors, lines, requests, rank) {
        numbers.add(rank.number)?;
    }
    Ok(())
}
