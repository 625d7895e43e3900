//! What is asked by HTTP is answered.

use crate::shell::Shell;
use crate::system::System;
use floor_console::BoardRefusal;
use floor_program::{HttpPort, MAX_PAGES, figures_of};
use floor_server::PortFault;
use std::alloc::AllocError;

/// The first of the tokens of the port, and of who is connected there.
pub const ASKED: usize = usize::MAX - 2 - MAX_PAGES - 2;

impl System {
    /// Listens on the port at which is answered by HTTP.
    pub fn open_http(&mut self, port: u16) -> Result<(), BoardRefusal> {
        let opened = match self.listen(port) {
            Ok(listener) => HttpPort::new(self.alloc, self.poll.registry(), listener, ASKED),
            Err(error) => Err(error),
        };
        match opened {
            Ok(http) => {
                self.http = Some(http);
                Ok(())
            }
            Err(error) => self.checked(Err(PortFault::System(error).at_http(self.alloc, port))),
        }
    }
}

impl Shell {
    /// Answers who asks by HTTP.
    pub fn see_to_http(&mut self) {
        let (system, now) = (&mut self.system, self.now.micros);
        let Some(http) = &mut system.http else {
            return;
        };
        let (alloc, registry) = (system.alloc, system.poll.registry());
        let (is_draining, buffer) = (self.server.is_draining(), system.buffer.as_mut_slice());
        if http.turn(alloc, registry, is_draining, now, buffer) {
            let text = figures_of(&system.rt, alloc, &self.server, &self.counts, self.since);
            match &text {
                Ok(text) => http.tell(Ok(text.as_str())),
                Err(_) => http.tell(Err(AllocError)),
            }
        }
    }
}
