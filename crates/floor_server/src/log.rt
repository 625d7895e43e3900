//! The log: what is told of conferences, ports and connections. floor_log writes it.

ghost use Rattle.std.specs.Prelude.{◌≡◌, ◌++◌, ◌∷◌, [], Contains, IsTrue, false};

use crate::departure::Departure;
use crate::entry::{Entry, Peer};
use floor_keep::KeepReason;
use std::alloc::Global;
use std::io::Write;
use std::sync::{Arc, Mutex, Wait};
use std::thread::Threads;
use std::time::Clock;

/// The log, which the threads of a server share.
///
/// `start` begins it, `tell`, `tell_unopened`, `tell_broken` and `tell_left` tell a line, without waiting for the
/// sink, and `end` ends it. What is told behind the end is told to nobody.
#[derive(Drop)]
pub struct Log {
    alloc: Global,
    lines: Arc<floor_log::Log, Global>,
    /// The conferences of which it was told that they are broken off.
    broken: Mutex<Vec<u32>>,
}

impl Log {
    /// A log whose lines a thread writes to the sink; `None` where there is no memory or no thread.
    pub fn start<R, L>(rt: R, alloc: Global, sink: L) -> Option<Log>
    where
        R: Threads + Wait + Copy + Drop + Send + 'static,
        L: Write + Send + Drop + 'static,
    {
        Some(Log {
            alloc,
            lines: floor_log::Log::start(rt, alloc, sink)?,
            broken: Mutex::new(Vec::new(alloc)),
        })
    }

    /// Tells what became of a conference, a port or a connection.
    pub fn tell<R: Wait + Clock>(&self, rt: &R, entry: &Entry) {
        self.lines.tell(rt, entry.text(self.alloc));
    }

    /// Tells why a conference isn't opened whose file can't be had.
    pub fn tell_unopened<R: Wait + Clock>(&self, rt: &R, conference: u32, reason: &KeepReason) {
        let name = reason.fault.name();
        let line = reason.line.as_ref().map_or("", |line| line.as_str());
        let text = format!(in self.alloc; "conference {conference} {name} {line}");
        self.lines.tell(rt, text);
    }

    /// Tells that a conference is broken off, once.
    pub fn tell_broken<R: Wait + Clock>(&self, rt: &R, conference: u32) {
        if is_added(&mut self.broken.lock(rt), conference) {
            self.tell(rt, &Entry::BrokenOff { conference });
        }
    }

    /// Tells that a member has left, and of its conference, if that is broken off.
    pub fn tell_left<R: Wait + Clock>(&self, rt: &R, peer: Peer, n: u32, departure: Departure) {
        match departure {
            Departure::BrokenOff => self.tell_broken(rt, peer.to.conference),
            _ => {}
        }
        self.tell(rt, &Entry::Left { peer, n, departure });
    }

    /// Ends it, and waits until its lines are written, for a second at most.
    pub fn end<R: Wait>(&self, rt: &R) {
        self.lines.end(rt);
    }
}

/// Adds a conference to those of which it was told that they are broken off, where it isn't one of them and
/// memory can be had, and gives whether it was added.
fn is_added(broken: &mut Vec<u32>, conference: u32) -> bool
    ensures took { IsTrue result → broken.new.items ≡ broken.old.items ++ conference ∷ [] }
    ensures left { result ≡ false → broken.new.items ≡ broken.old.items }
    ensures once { IsTrue result → ¬ (Contains broken.old.items conference) }
{
    if broken.contains(&conference) {
        return false;
    }
    broken.push(conference).is_ok()
}
