//! The course of one event: what was shown before it, which floor requests it ended, and the marks of
//! those that it changed. What changes a conference writes it, and what tells of the change reads it.

ghost use Rattle.std.specs.Option.{option_copied};
ghost use Rattle.std.specs.Prelude.{◌≡◌, ◌==◌, [], IfOk, find, map};
ghost use Rattle.floor_queue.specs.Queue.{IsQueue, numbers_of};
ghost use Rattle.floor_machine.specs.steps.Marks.{mark_of};

use crate::marks::{Mark, mark_all};
use floor_message::{RequestStatus, SharedInfo};
use floor_queue::{Request, Requests};
use std::alloc::{AllocError, Global};
use std::mem;

/// A floor request that an event ended.
#[derive(Debug, Drop)]
pub(crate) struct Ended {
    /// The request as it was.
    pub request: Request,
    /// How it ended.
    pub ending: RequestStatus,
}

/// What an event began with, and what it has ended so far.
#[derive(Debug, Drop)]
pub(crate) struct Course {
    /// What was shown of the ongoing requests before the event.
    pub before: Vec<SharedInfo>,
    /// The numbers of the requests that were ongoing before it, then of those that it added.
    pub numbers: Vec<u16>,
    /// The requests that it ended.
    pub ended: Vec<Ended>,
    /// The marks of those that it changed.
    pub marks: Vec<Mark>,
}

/// The course of an event that begins: what was shown is moved into it.
pub(crate) fn begin(
    alloc: Global,
    requests: &Requests,
    shown: &mut Vec<SharedInfo>,
) -> Result<Course, AllocError>
    ensures before { IfOk result (λ course. course.before.items ≡ shown.old.items) }
    ensures numbers { IfOk result (λ course. course.numbers.items
        ≡ numbers_of requests.now.ongoing) }
    ensures ended { IfOk result (λ course. course.ended.items ≡ []) }
    ensures marks { IfOk result (λ course. course.marks.items ≡ []) }
    ensures queue { IfOk result (λ course. IsQueue requests.now) }
{
    let numbers = numbers_of(alloc, requests.ongoing())?;
    Ok(Course {
        before: mem::replace(shown, Vec::new(alloc)),
        numbers,
        ended: Vec::new(alloc),
        marks: Vec::new(alloc),
    })
}

/// The course of an event by which each ongoing request may be shown otherwise.
pub(crate) fn begin_with_all(
    alloc: Global,
    requests: &Requests,
    shown: &mut Vec<SharedInfo>,
) -> Result<Course, AllocError>
    ensures before { IfOk result (λ course. course.before.items ≡ shown.old.items) }
    ensures numbers { IfOk result (λ course. course.numbers.items
        ≡ numbers_of requests.now.ongoing) }
    ensures ended { IfOk result (λ course. course.ended.items ≡ []) }
    ensures marks { IfOk result (λ course. course.marks.items
        ≡ map mark_of requests.now.ongoing) }
    ensures queue { IfOk result (λ course. IsQueue requests.now) }
{
    let mut course = begin(alloc, requests, shown)?;
    mark_all(&mut course.marks, requests.ongoing())?;
    Ok(course)
}

fn numbers_of(alloc: Global, requests: &[Request]) -> Result<Vec<u16>, AllocError>
    ensures { IfOk result (λ numbers. numbers.items ≡ numbers_of requests.now) }
{
    requests.iter().map(|r| r.number).collect(alloc)
}

pub(crate) fn find_ended(ended: &[Ended], number: u16) -> Option<&Ended>
    ensures { option_copied result ≡ find (λ d. d.request.number == number) ended.now }
{
    ended.iter().find(|d| d.request.number == number)
}
