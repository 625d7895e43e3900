//! A conference once more, to say what its events show.

ghost use Rattle.std.specs.Prelude.{◌≡◌, None, Some, false, is_some, true};
ghost use Rattle.std.specs.VecDeque.{deque_len};

use floor_control::{ControlRefusal, RoomRefusal, Watcher};
use floor_loop::Event;
use floor_poll::{Answer, Elapsed, Piece};
use std::alloc::{AllocError, Global};
use std::collections::VecDeque;
use std::time::Clock;

/// How many events are shown between two looks at the clock.
const GROUP: u32 = 8;

/// A conference as its events so far made it, the events that were copied and aren't shown yet, and what was asked
/// for.
#[derive(Drop)]
pub struct Replica {
    watcher: Watcher,
    events: VecDeque<Event>,
    /// The number of the ask that isn't answered yet.
    asked: Option<u64>,
    /// Whether the journal had more behind the last events that came, or none came yet.
    has_more: bool,
}

impl Replica {
    /// A conference that was just opened. Takes no memory.
    pub fn new(alloc: Global, watcher: Watcher) -> Replica {
        Replica {
            watcher,
            events: VecDeque::new(alloc),
            asked: None,
            has_more: true,
        }
    }

    /// The place of the last event that was shown.
    pub fn place(&self) -> u64
        ensures value { result ≡ self.now.watcher.place }
    {
        u64::from(self.watcher.place())
    }

    /// Whether some events were copied and aren't shown yet.
    pub fn has_events(&self) -> bool {
        !self.events.is_empty()
    }

    /// Whether it is time to ask for more: all is shown, nothing is asked for, and there is more.
    pub fn is_due(&self) -> bool
        ensures shown { result ≡ true → deque_len self.now.events ≡ 0 }
        ensures once { result ≡ true → self.now.asked ≡ None }
        ensures more { result ≡ true → self.now.has_more ≡ true }
    {
        self.events.is_empty() && self.asked.is_none() && self.has_more
    }

    /// Whether all is shown, as far as is known.
    pub fn is_at_end(&self) -> bool
        ensures shown { result ≡ true → deque_len self.now.events ≡ 0 }
        ensures heard { result ≡ true → self.now.asked ≡ None }
        ensures none { result ≡ true → self.now.has_more ≡ false }
    {
        self.events.is_empty() && self.asked.is_none() && !self.has_more
    }

    /// Takes it that more was asked for under this number.
    pub fn ask(&mut self, number: u64)
        ensures asked { self.new.asked ≡ Some number }
    {
        self.asked = Some(number);
    }

    /// Takes it that the conference has more.
    pub fn note_more(&mut self)
        ensures more { self.new.has_more ≡ true }
        ensures asked { self.new.asked ≡ self.old.asked }
    {
        self.has_more = true;
    }

    /// Whether this is the ask that isn't answered yet.
    pub fn awaits(&self, number: u64) -> bool
        ensures that { result ≡ true → self.now.asked ≡ Some number }
        ensures found { self.now.asked ≡ Some number → result ≡ true }
    {
        self.asked == Some(number)
    }

    /// Whether an ask isn't answered yet.
    pub fn is_asking(&self) -> bool
        ensures value { result ≡ is_some self.now.asked }
    {
        self.asked.is_some()
    }

    /// Takes what a loop answers who was asked for events, and says whether the conference is broken off.
    pub fn take_answer(&mut self, answer: Answer) -> Result<bool, ControlRefusal> {
        let Piece {
            events,
            has_more,
            is_broken,
        } = piece_of(answer)?;
        self.asked = None;
        self.has_more = has_more;
        self.take(events)?;
        Ok(is_broken)
    }

    /// Takes events behind those that are there.
    fn take(&mut self, events: Vec<Event>) -> Result<(), AllocError> {
        self.events.reserve(events.len())?;
        for event in events {
            match self.events.push_back(event) {
                Ok(()) => {}
                Err(_) => return Err(AllocError),
            }
        }
        Ok(())
    }

    /// Shows events as long as there are some, up to the place `until`, and no further ones after a millisecond. Of
    /// those in front of the place `from` no line is appended.
    pub fn show<R: Clock>(
        &mut self,
        rt: &R,
        text: &mut String,
        from: u64,
        until: u64,
    ) -> Result<(), AllocError> {
        let begun = Elapsed::begin(rt);
        for _ in 0..u64::MAX {
            if !self.show_group(text, from, until)? || took_long(rt, &begun) {
                break;
            }
        }
        Ok(())
    }

    /// Shows some events, and says whether there may be more.
    fn show_group(&mut self, text: &mut String, from: u64, until: u64) -> Result<bool, AllocError> {
        for _ in 0..GROUP {
            if until <= self.place() {
                return Ok(false);
            }
            let Some(event) = self.events.pop_front() else {
                return Ok(false);
            };
            let shown = if self.place().saturating_add(1) < from {
                self.watcher.pass(&event)
            } else {
                self.watcher.next(&event, text)
            };
            shown.map_err(refused)?;
        }
        Ok(true)
    }
}

/// The events that a loop answers.
fn piece_of(answer: Answer) -> Result<Piece, ControlRefusal> {
    match answer {
        Answer::Events(piece) => piece,
        _other => Err(ControlRefusal::from(AllocError)),
    }
}

/// An event of a journal is refused for want of memory alone.
fn refused(_refusal: RoomRefusal) -> AllocError {
    AllocError
}

/// Whether a millisecond has gone by.
fn took_long<R: Clock>(rt: &R, begun: &Elapsed) -> bool {
    match begun.millis(rt) {
        Some(millis) => 0 < millis,
        None => true,
    }
}
