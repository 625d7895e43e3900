//! The lines that wait to be written, up to a bound.

ghost use Rattle.std.specs.Prelude.{◌≡◌, ◌≤◌, ◌++◌, [], ◌∷◌, IfOk, IsErr, OnOk, false, length, true};

use std::alloc::{AllocError, Global};
use std::mem;

/// How many lines wait at most to be written.
pub const MAX_WAITING: usize = 10_000;

/// The lines that wait to be written.
#[derive(Drop)]
pub struct Waiting {
    alloc: Global,
    lines: Vec<String>,
    /// Whether no further line is taken: the server has stopped, or the log is given up.
    is_over: bool,
}

/// What is written next.
#[derive(Drop)]
pub struct Batch {
    pub lines: Vec<String>,
    /// Whether no other comes behind it.
    pub is_last: bool,
}

impl Waiting {
    /// No line. Takes no memory.
    pub fn new(alloc: Global) -> Waiting
        ensures lines { result.lines.items ≡ [] }
        ensures over { result.is_over ≡ false }
    {
        Waiting {
            alloc,
            lines: Vec::new(alloc),
            is_over: false,
        }
    }

    /// Takes a line in. Where there is no memory, or as many wait as may, the log is given up.
    pub fn add(&mut self, line: Result<String, AllocError>)
        ensures out { self.new.is_over ≡ false → IfOk line (λ text.
            self.new.lines.items ≡ self.old.lines.items ++ text ∷ []) }
        ensures over { self.old.is_over ≡ true → self.new ≡ self.old }
        ensures full { MAX_WAITING ≤ length self.old.lines.items → self.new.is_over ≡ true }
        ensures unmade { IsErr line → self.new.is_over ≡ true }
        ensures few { length self.old.lines.items ≤ MAX_WAITING
            → length self.new.lines.items ≤ MAX_WAITING }
    {
        if self.is_over {
            return;
        }
        match self.added(line) {
            Ok(()) => {}
            Err(AllocError) => self.give_up(),
        }
    }

    /// Adds a line behind the others, where it could be made and there is room for it. After an error none is
    /// added.
    fn added(&mut self, line: Result<String, AllocError>) -> Result<(), AllocError>
        ensures out { OnOk result (IfOk line (λ text.
            self.new.lines.items ≡ self.old.lines.items ++ text ∷ [])) }
        ensures full { MAX_WAITING ≤ length self.old.lines.items → IsErr result }
        ensures unmade { IsErr line → IsErr result }
        ensures few { length self.old.lines.items ≤ MAX_WAITING
            → length self.new.lines.items ≤ MAX_WAITING }
        ensures over { self.new.is_over ≡ self.old.is_over }
    {
        let line = line?;
        if MAX_WAITING <= self.lines.len() {
            return Err(AllocError);
        }
        self.lines.reserve(1)?;
        self.lines.push_reserved(line);
        Ok(())
    }

    /// Takes no further line, and drops those that wait.
    pub fn give_up(&mut self)
        ensures over { self.new.is_over ≡ true }
        ensures lines { self.new.lines.items ≡ [] }
    {
        self.lines = Vec::new(self.alloc);
        self.is_over = true;
    }

    /// Takes no further line. Those that wait are still to be written.
    pub fn end(&mut self)
        ensures over { self.new.is_over ≡ true }
        ensures lines { self.new.lines.items ≡ self.old.lines.items }
    {
        self.is_over = true;
    }

    /// Hands out the lines that wait, in the order in which they came.
    pub fn take(&mut self) -> Batch
        ensures lines { result.lines.items ≡ self.old.lines.items }
        ensures last { result.is_last ≡ self.old.is_over }
        ensures left { self.new.lines.items ≡ [] }
        ensures over { self.new.is_over ≡ self.old.is_over }
    {
        Batch {
            lines: mem::replace(&mut self.lines, Vec::new(self.alloc)),
            is_last: self.is_over,
        }
    }
}
