//! The server stops, and what answers that is written.

use crate::console::{is_ready, write_once};
use crate::desk::{CONSOLE, Desk};
use floor_console::{Board, StopRefusal, Stopped};
use floor_control::add_stopped;
use floor_poll::REST_MILLIS;
use mio::Events;
use std::alloc::Global;
use std::fs::File;
use std::io::Write;
use std::net::Net;
use std::rt::Files;
use std::sync::Wait;
use std::thread::Threads;
use std::time::{Clock, Duration};

/// How long the last answer is written at most, in milliseconds.
const LAST_MILLIS: u64 = 10_000;

impl<R> Desk<R>
where
    R: Net
        + Files<File = File>
        + AllocGlobal
        + Clock
        + Threads
        + Wait
        + Copy
        + Drop
        + Send
        + 'static,
{
    /// Stops the server for a client, or for the console. It is stopped once: whoever asks for it later, before the
    /// first is answered, is told the same.
    pub fn stop(&mut self, number: u64) -> Result<Stopped, StopRefusal> {
        match self.server.outcome() {
            Some(outcome) => outcome,
            None => {
                self.stopper = Some(number);
                if let Some(seat) = self.clients.get_mut(&number) {
                    seat.is_deaf = true;
                }
                self.server.stop()
            }
        }
    }

    /// Stops the server where none of its conferences is open any more, and tells the console. The lines that are at
    /// work are answered first, where that doesn't take long.
    pub fn stop_drained(&mut self) {
        if self.server.outcome().is_some() {
            return;
        }
        match self.stops_by {
            Some(until) if until <= self.now || self.is_idle() => {}
            _ => return,
        }
        self.stop_and_tell();
    }

    /// Stops the server, and tells the console.
    fn stop_and_tell(&mut self) {
        let outcome = self.stop(CONSOLE);
        let mut text = String::new(self.alloc);
        if add_stopped(&mut text, outcome).is_err() {
            return;
        }
        if let Some(seat) = self.clients.get_mut(&CONSOLE) {
            let _told = seat.lines.tell(text.as_str());
        }
    }

    /// Stops the server where the console has ended, there is no control socket, and all lines are answered.
    pub fn stop_at_end(&mut self) {
        if !self.ends_with_console || self.server.outcome().is_some() {
            return;
        }
        let is_over = match self.clients.get(&CONSOLE) {
            Some(seat) => seat.lines.is_done() && seat.task.is_none(),
            None => {
                self.has_lost_console = true;
                true
            }
        };
        if is_over {
            self.stop_and_tell();
        }
    }

    /// Whether no line is at work, and all is written.
    fn is_idle(&self) -> bool {
        self.clients.values().all(|seat| seat.task.is_none() && seat.lines.writing().is_empty())
    }

    /// Closes each client but the one that has stopped the server, and writes what answers that, for 10 seconds at
    /// most. Meanwhile the console is written to.
    pub fn end<O: Write>(&mut self, events: &mut Events<Global>, output: &mut O) {
        let stopper = self.stopper.unwrap_or(CONSOLE);
        self.close_others(stopper);
        // The loops may have taken long to end.
        self.look();
        let until = self.now.saturating_add(LAST_MILLIS);
        for _ in 0..u64::MAX {
            let has_moved = self.advance(stopper);
            self.write_all(output);
            if !has_moved && (self.is_written() || until <= self.now) {
                return;
            }
            self.await_console();
            self.wait(events, Some(Duration::from_millis(REST_MILLIS)));
            for event in &*events {
                self.note(event);
            }
        }
    }

    /// Closes each client but one and the console.
    fn close_others(&mut self, stopper: u64) {
        for _ in 0..self.clients.len() {
            let mut other = None;
            for (number, _) in self.clients.iter() {
                if *number != stopper && *number != CONSOLE {
                    other = Some(*number);
                }
            }
            match other {
                Some(number) => self.close(number),
                None => return,
            }
        }
    }

    /// Writes to each client that is left, as far as it takes it.
    fn write_all<O: Write>(&mut self, output: &mut O) {
        let is_ready = is_ready(&self.output);
        for (_, seat) in self.clients.iter_mut() {
            if seat.has_failed {
                continue;
            }
            if !seat.is_console() {
                seat.write();
            } else if is_ready && !seat.lines.writing().is_empty() {
                write_once(seat, output);
            }
        }
        if let Some(output) = &mut self.output {
            output.is_ready = false;
        }
    }

    /// Whether all is written to each client that is left.
    fn is_written(&self) -> bool {
        self.clients
            .values()
            .all(|seat| seat.has_failed || seat.lines.writing().is_empty())
    }
}
