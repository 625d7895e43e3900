//! The lines of all floors of a conference.

ghost use Rattle.std.specs.Prelude.{◌≡◌, ◌≤◌, ◌==◌, ◌++◌, [], ◌∷◌, IfOk, OnOk, OnErr, find, length, map, take, drop};
ghost use Rattle.std.specs.Option.{option_copied};
ghost use Rattle.floor_queue.specs.steps.Lines.{added, emptied, empty_line, marked, moved, taken, unmarked, with_mark};

use crate::index::line::Line;
use crate::index::rank::Rank;
use crate::request::Request;
use floor_config::Floor;
use std::alloc::{AllocError, Global};
use std::marker::Model;

/// The line of each floor of a conference.
#[derive(Debug, Drop)]
pub(crate) struct Lines {
    lines: Vec<Line>,
}

impl Model for Lines {
    ghost use Rattle.std.specs.Prelude.{List};
    ghost use Rattle.floor_queue.specs.steps.Lines.{FloorLine};

    ghost Value = { List FloorLine };

    ghost view = { λ l. l.lines.items };
}

impl Lines {
    /// An empty line for each floor.
    pub(crate) fn new(alloc: Global, floors: &[Floor]) -> Result<Lines, AllocError>
        ensures { IfOk result (λ lines. lines ≡ map empty_line floors.now) }
    {
        let mut lines = Vec::new(alloc);
        for floor in floors {
            lines.push(Line::new(alloc, floor.id))?;
        }
        Ok(Lines { lines })
    }

    /// The line of a floor.
    pub(crate) fn of(&self, floor: u16) -> Option<&Line>
        ensures { option_copied result ≡ find (λ l. l.floor == floor) self.now }
    {
        self.lines.iter().find(|l| l.floor() == floor)
    }

    /// The lines, in the order of the floors.
    pub(crate) fn as_slice(&self) -> &[Line]
        ensures { result.now ≡ self.now }
    {
        self.lines.as_slice()
    }

    /// Puts the rank into the line of each floor that the request names. After an error nothing has
    /// changed.
    pub(crate) fn add(&mut self, request: &Request, rank: Rank) -> Result<(), AllocError>
        ensures next { OnOk result (self.new ≡ map (added request.now rank) self.old) }
        ensures left { OnErr result (self.new ≡ self.old) }
    {
        let count = add_to_first(&mut self.lines, request, rank);
        if count < self.lines.len() {
            take_from_first(&mut self.lines, count, request, rank);
            return Err(AllocError);
        }
        Ok(())
    }

    /// Takes the rank out of the line of each floor that the request names.
    pub(crate) fn take(&mut self, request: &Request, rank: Rank)
        ensures { self.new ≡ map (taken request.now rank) self.old }
    {
        for line in self.lines.iter_mut() {
            line.take(request, rank);
        }
    }

    /// Puts one rank in the other's stead in the line of each floor that the request names.
    pub(crate) fn change(&mut self, request: &Request, old: Rank, new: Rank)
        ensures { self.new ≡ map (moved request.now old new) self.old }
    {
        for line in self.lines.iter_mut() {
            line.change(request, old, new);
        }
    }

    /// Marks each floor that the request names.
    pub(crate) fn mark(&mut self, request: &Request)
        ensures { self.new ≡ map (marked request.now) self.old }
    {
        for line in self.lines.iter_mut() {
            line.mark(request);
        }
    }

    /// Adds an empty line behind the others. After an error nothing has changed.
    pub(crate) fn add_floor(&mut self, floor: Floor) -> Result<(), AllocError>
        ensures next { OnOk result (self.new ≡ self.old ++ empty_line floor ∷ []) }
        ensures left { OnErr result (self.new ≡ self.old) }
    {
        let line = Line::new(*self.lines.allocator(), floor.id);
        self.lines.push(line)?;
        Ok(())
    }

    /// Marks all floors.
    pub(crate) fn mark_all(&mut self)
        ensures { self.new ≡ map with_mark self.old }
    {
        for line in self.lines.iter_mut() {
            line.set_mark();
        }
    }

    /// Takes all marks off.
    pub(crate) fn unmark(&mut self)
        ensures { self.new ≡ map unmarked self.old }
    {
        for line in self.lines.iter_mut() {
            line.unmark();
        }
    }

    /// Takes all ranks out, and all marks off.
    pub(crate) fn clear(&mut self)
        ensures { self.new ≡ map emptied self.old }
    {
        for line in self.lines.iter_mut() {
            line.clear();
        }
    }
}

/// Puts the rank into the lines in their turn until memory is refused, and gives how many were gone
/// through.
fn add_to_first(lines: &mut Vec<Line>, request: &Request, rank: Rank) -> usize
    ensures most { result ≤ length lines.old.items }
    ensures items { lines.new.items
        ≡ map (added request.now rank) (take result lines.old.items) ++ drop result lines.old.items }
{
    for index in 0..lines.len() {
        if lines[index].add(request, rank).is_err() {
            return index;
        }
    }
    lines.len()
}

/// Takes the rank out of the first lines again, so many.
fn take_from_first(lines: &mut Vec<Line>, count: usize, request: &Request, rank: Rank)
    requires { count ≤ length lines.old.items }
    ensures { lines.new.items
        ≡ map (taken request.now rank) (take count lines.old.items) ++ drop count lines.old.items }
{
    for index in 0..count {
        lines[index].take(request, rank);
    }
}
