//! The conferences of whose files anything is to be asked, one behind another.

ghost use Rattle.std.specs.Prelude.{◌≡◌, ◌<◌, ◌≤◌, ◌⊎◌, ◌++◌, ◌∷◌, ◌==◌, ◌&&◌, not, [], drop, IfNone, IfSome, List, MatchOption, false, length, option_to_list, true};
ghost use Rattle.floor_keeping.specs.declared.line.Waking.{Waking as Woken};
ghost use Rattle.floor_keeping.specs.steps.Listed.{Stands};

use std::alloc::Global;
use std::collections::VecDeque;
use std::marker::Model;

/// When a conference is to be put in the line.
#[derive(Clone, Copy, Debug)]
pub(crate) struct Waking {
    pub conference: u32,
    /// In microseconds.
    pub at: u64,
}

/// The conferences of whose files anything is to be asked, one behind another, and when which are put there. Where memory
/// is refused it is short: some may be missing.
#[derive(Drop)]
pub(crate) struct Line {
    conferences: VecDeque<u32>,
    /// The soonest in front.
    wakings: VecDeque<Waking>,
    is_short: bool,
}

impl Model for Line {
    ghost use Rattle.floor_keeping.specs.steps.Listed.{Line};

    ghost Value = { Line };

    ghost view = { λ l. record {
      conferences = l.conferences.items;
      wakings = l.wakings.items;
      is_short = l.is_short;
    } };
}

impl Line {
    /// None. Takes no memory.
    pub(crate) fn new(alloc: Global) -> Line
        ensures value { result ≡ record { conferences = []; wakings = []; is_short = false } }
    {
        Line {
            conferences: VecDeque::new(alloc),
            wakings: VecDeque::new(alloc),
            is_short: false,
        }
    }

    /// Whether nobody waits.
    pub(crate) fn is_empty(&self) -> bool
        ensures value { result
            ≡ (length self.now.conferences == 0 && not self.now.is_short) }
    {
        self.conferences.is_empty() && !self.is_short
    }

    /// Whether some may be missing.
    pub(crate) fn is_short(&self) -> bool
        ensures value { result ≡ self.now.is_short }
    {
        self.is_short
    }

    /// From now on some may be missing, or none is.
    pub(crate) fn set_short(&mut self, is_short: bool)
        ensures next { self.new ≡ record self.old { is_short = is_short } }
    {
        self.is_short = is_short;
    }

    /// Puts one behind the others, or has the line be short.
    pub(crate) fn put(&mut self, conference: u32)
        ensures next { (self.new ≡ record self.old {
          conferences = self.old.conferences ++ conference ∷ [];
        }) ⊎ (self.new ≡ record self.old { is_short = true }) }
    {
        match self.conferences.push_back(conference) {
            Ok(()) => {}
            Err(_) => self.is_short = true,
        }
    }

    /// Has one be put there at this time, or has the line be short.
    pub(crate) fn put_at(&mut self, conference: u32, at: u64)
        ensures next { (self.new ≡ record self.old {
          wakings = self.old.wakings ++ record { conference = conference; at = at } ∷ [];
        }) ⊎ (self.new ≡ record self.old { is_short = true }) }
    {
        match self.wakings.push_back(Waking { conference, at }) {
            Ok(()) => {}
            Err(_) => self.is_short = true,
        }
    }

    /// Whoever stands first.
    pub(crate) fn next(&mut self) -> Option<u32>
        ensures first { self.old.conferences ≡ option_to_list result ++ self.new.conferences }
        ensures none { IfNone result (self.old.conferences ≡ []) }
        ensures left { (self.new.wakings ≡ self.old.wakings)
            × (self.new.is_short ≡ self.old.is_short) }
        ensures fewer { IfSome result (λ c.
            length self.new.conferences < length self.old.conferences) }
    {
        self.conferences.pop_front()
    }

    /// The next whose time has come.
    pub(crate) fn next_woken(&mut self, now: u64) -> Option<u32>
        ensures first { IfSome result (λ c. (w : Woken)
            × (self.old.wakings ≡ w ∷ self.new.wakings) × (w.conference ≡ c) × (w.at ≤ now)) }
        ensures none { IfNone result ((self.new ≡ self.old)
            × ((w : Woken) (ws : List Woken) → self.old.wakings ≡ w ∷ ws → now < w.at)) }
        ensures left { (self.new.conferences ≡ self.old.conferences)
            × (self.new.is_short ≡ self.old.is_short) }
        ensures fewer { IfSome result (λ c. length self.new.wakings < length self.old.wakings) }
    {
        match self.wakings.front() {
            Some(first) if first.at <= now => {}
            _ => return None,
        }
        let first = self.wakings.pop_front()?;
        Some(first.conference)
    }

    /// Who is put there next.
    pub(crate) fn first_waking(&self) -> Option<Waking>
        ensures value { MatchOption result (self.now.wakings ≡ [])
            (λ w. self.now.wakings ≡ w ∷ drop 1 self.now.wakings) }
    {
        self.wakings.front().copied()
    }
}
