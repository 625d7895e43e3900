//! The end of the program's input, which ends the gateway.

use mio::Waker;
use std::alloc::Global;
use std::io::{ErrorKind, Read};
use std::sync::atomic::{AtomicBool, Ordering};
use std::sync::{Arc, Wait};

/// Whether the input has ended, and what ends the wait of who looks.
#[derive(Drop)]
pub struct Stop {
    has_ended: AtomicBool,
    waker: Waker,
}

impl Stop {
    /// It goes on.
    pub fn new(waker: Waker) -> Stop {
        Stop {
            has_ended: AtomicBool::new(false),
            waker,
        }
    }

    /// Whether the input has ended.
    pub fn has_come(&self) -> bool {
        self.has_ended.load(Ordering::SeqCst)
    }

    fn come(&self) {
        self.has_ended.store(true, Ordering::SeqCst);
        let _woken = self.waker.wake();
    }
}

/// Reads the input until it ends, or fails.
pub fn wait_for_end<R: Wait, I: Read + Drop>(rt: &R, mut input: I, stop: &Arc<Stop, Global>) {
    let mut piece = [0u8; 256];
    for _ in rt.forever() {
        match input.read(&mut piece) {
            Ok(0) => break,
            Ok(_) => {}
            Err(error) if error.kind() == ErrorKind::Interrupted => {}
            Err(_) => break,
        }
    }
    stop.come();
}
