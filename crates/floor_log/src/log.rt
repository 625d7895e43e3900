//! The log, which the threads of a server share, and the thread that writes it.

use crate::line::line;
use crate::waiting::Waiting;
use std::alloc::{AllocError, Global};
use std::io::Write;
use std::sync::atomic::{AtomicBool, Ordering};
use std::sync::{Arc, Mutex, Wait};
use std::thread;
use std::thread::{Parker, Threads};
use std::time::{Clock, Duration, SystemTime};

/// How often the end of a run looks at most whether the last lines are written.
const MAX_LOOKS: u32 = 100;

/// How long it waits between two looks, in milliseconds.
const LOOK_MILLIS: u64 = 10;

/// The log, which the threads of a server share.
///
/// `start` begins it, `tell` tells a line, from any thread and without waiting for the sink, and `end`
/// ends it. What is told behind the end is told to nobody.
#[derive(Drop)]
pub struct Log {
    alloc: Global,
    waiting: Mutex<Waiting>,
    /// Lines have come, or the end.
    came: Parker,
    /// The last line is written.
    is_written: AtomicBool,
    written: Parker,
}

impl Log {
    /// A log whose lines a thread writes to the sink; `None` where there is no memory or no thread.
    pub fn start<R, L>(rt: R, alloc: Global, sink: L) -> Option<Arc<Log, Global>>
    where
        R: Threads + Wait + Copy + Drop + Send + 'static,
        L: Write + Send + Drop + 'static,
    {
        let log = Log {
            alloc,
            waiting: Mutex::new(Waiting::new(alloc)),
            came: Parker::new(),
            is_written: AtomicBool::new(false),
            written: Parker::new(),
        };
        let log = Arc::new(alloc, log).ok()?;
        let theirs = Arc::try_clone(&log).ok()?;
        // Nobody joins it: where the sink takes nothing it ends with the program.
        match thread::spawn(&rt, move || write_all(rt, &theirs, sink)) {
            Ok(_handle) => Some(log),
            Err(_) => None,
        }
    }

    /// Tells a line: what it says, without the time and the line feed, or that there was no memory for it.
    pub fn tell<R: Wait + Clock>(&self, rt: &R, text: Result<String, AllocError>) {
        let told = match text {
            Ok(text) => line(self.alloc, SystemTime::now(rt).ok(), text.as_str()),
            Err(error) => Err(error),
        };
        self.waiting.lock(rt).add(told);
        self.came.unpark();
    }

    /// Ends it, and waits until its lines are written, for a second at most.
    pub fn end<R: Wait>(&self, rt: &R) {
        self.waiting.lock(rt).end();
        self.came.unpark();
        for _ in 0..MAX_LOOKS {
            if self.is_written.load(Ordering::SeqCst) {
                return;
            }
            self.written
                .park_timeout(rt, Duration::from_millis(LOOK_MILLIS));
        }
    }
}

/// Writes what is told to the sink, until the log ends or can't be written.
fn write_all<R: Wait + Drop, L: Write + Drop>(rt: R, log: &Log, mut sink: L) {
    for _ in rt.forever() {
        let batch = log.waiting.lock(&rt).take();
        if !write_lines(&mut sink, batch.lines.as_slice()) {
            log.waiting.lock(&rt).give_up();
            break;
        }
        if batch.is_last {
            break;
        }
        if batch.lines.is_empty() {
            log.came.park(&rt);
        }
    }
    log.is_written.store(true, Ordering::SeqCst);
    log.written.unpark();
}

/// Writes lines, and says whether all could be written.
fn write_lines<L: Write>(sink: &mut L, lines: &[String]) -> bool {
    for line in lines {
        match sink.write_all(line.as_bytes()) {
            Ok(()) => {}
            Err(_) => return false,
        }
    }
    true
}
