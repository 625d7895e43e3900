//! Which floor requests an event may have moved: those on the floors of its marks, where these are few.

ghost use Rattle.std.specs.Prelude.{◌≡◌, ◌↔◌, ◌≤◌, ◌++◌, IfOk, IfSome, IsTrue, OnOk, is_some, map};
ghost use Rattle.std.specs.List.{flat_map};
ghost use Rattle.floor_queue.specs.Queue.{are_ascending};
ghost use Rattle.floor_machine.specs.steps.Renewing.{AreMoved, is_narrowed, naming};

use crate::course::{Course, Ended};
use crate::marks::Mark;
use floor_queue::Requests;
use floor_wire::Numbers;
use std::alloc::{AllocError, Global};

/// How many requests are looked at one by one, whatever floors they name.
const MAX_LOOKED_AT: usize = 16;

/// The numbers of the requests that the event may have moved, and of those that it ended, where they
/// are few beside all: else none.
pub(crate) fn few_affected(
    alloc: Global,
    requests: &Requests,
    course: &Course,
) -> Result<Option<Numbers>, AllocError>
    ensures few { IfOk result (λ few. is_some few ≡ is_narrowed requests.now.ongoing course.now) }
    ensures ascending { IfOk result (λ few. IfSome few (λ some. IsTrue (are_ascending some))) }
    ensures moved { IfOk result (λ few. IfSome few
        (AreMoved requests.now.ongoing course.now)) }
{
    if course.numbers.len() <= MAX_LOOKED_AT {
        return Ok(None);
    }
    let floors = marked_floors(alloc, &course.marks)?;
    if !are_few_on(requests, &floors, course.numbers.len() / 4) {
        return Ok(None);
    }
    let mut noted = marked_numbers(alloc, &course.marks)?;
    note_ended(&mut noted, &course.ended)?;
    let few = requests.numbers_on(&floors, &noted)?;
    Ok(Some(few))
}

/// The floors of the marks.
fn marked_floors(alloc: Global, marks: &[Mark]) -> Result<Vec<u16>, AllocError>
    ensures { IfOk result (λ floors. floors.items ≡ flat_map (λ m. m.floors) marks.now) }
{
    let mut floors = Vec::new(alloc);
    for mark in marks {
        floors.extend_from_slice(mark.floors.as_slice())?;
    }
    Ok(floors)
}

/// Whether so many requests at most name the floors, a request of two of them counted twice.
fn are_few_on(requests: &Requests, floors: &[u16], most: usize) -> bool
    ensures { IsTrue result ↔ (naming requests.now.ongoing floors.now ≤ most) }
{
    let mut left = most;
    for floor in floors {
        let count = requests.count_on(*floor);
        if left < count {
            return false;
        }
        left -= count;
    }
    true
}

/// The numbers of the marks.
fn marked_numbers(alloc: Global, marks: &[Mark]) -> Result<Vec<u16>, AllocError>
    ensures { IfOk result (λ numbers. numbers.items ≡ map (λ m. m.number) marks.now) }
{
    marks.iter().map(|m| m.number).collect(alloc)
}

/// Notes the numbers of the requests that ended.
fn note_ended(numbers: &mut Vec<u16>, ended: &[Ended]) -> Result<(), AllocError>
    ensures { OnOk result (numbers.new.items
        ≡ numbers.old.items ++ map (λ d. d.request.number) ended.now) }
{
    for end in ended {
        numbers.push(end.request.number)?;
    }
    Ok(())
}
