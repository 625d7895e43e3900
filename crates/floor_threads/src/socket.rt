//! The socket of a connection.

use floor_serve::ClosedMark;
use std::alloc::{AllocError, Global};
use std::io;
use std::io::{ErrorKind, Read, Write};
use std::net::{Shutdown, TcpStream};
use std::sync::Arc;
use std::sync::atomic::{AtomicBool, Ordering};
use std::time::Duration;

/// How long a write waits at most for a peer that takes nothing, until it looks whether the outbox
/// is closed, in seconds.
const WRITE_SECONDS: u64 = 1;

/// How often a write finds the outbox closed and that the peer took nothing, until it fails. To a slow
/// peer the system hands tens of thousands of bytes at once, and nothing for some seconds between. In
/// two waits more at most the system's own buffers take the last that they hold.
const MAX_LOOKS: u32 = 5;

/// The socket of a connection, as its threads share it.
#[derive(Drop)]
pub struct Socket {
    shared: Arc<Shared, Global>,
}

#[derive(Drop)]
struct Shared {
    stream: TcpStream,
    lacks_thread: AtomicBool,
}

impl Socket {
    /// The socket of a stream, which sends without delay.
    pub fn new(alloc: Global, stream: TcpStream) -> Result<Socket, AllocError> {
        // Without it a small answer waits for the next.
        let _outcome = stream.set_nodelay(true);
        let _outcome = stream.set_write_timeout(Some(Duration::from_secs(WRITE_SECONDS)));
        let shared = Shared {
            stream,
            lacks_thread: AtomicBool::new(false),
        };
        Ok(Socket {
            shared: Arc::new(alloc, shared)?,
        })
    }

    /// Another handle of the same socket.
    pub fn share(&self) -> Result<Socket, AllocError> {
        Ok(Socket {
            shared: Arc::try_clone(&self.shared)?,
        })
    }

    /// Takes down that no thread can be had for the connection.
    pub fn set_lacks_thread(&self) {
        self.shared.lacks_thread.store(true, Ordering::SeqCst);
    }

    /// Whether a thread could be had for the connection.
    pub fn has_thread(&self) -> bool {
        !self.shared.lacks_thread.load(Ordering::SeqCst)
    }

    /// Ends its reading and its writing, also where another thread waits for one of them.
    pub fn shut_down(&self) {
        // It may be shut down already.
        let _outcome = self.shared.stream.shutdown(Shutdown::Both);
    }
}

impl Read for Socket {
    fn read(&mut self, buf: &mut [u8]) -> io::Result<usize> {
        let mut stream = &self.shared.stream;
        stream.read(buf)
    }
}

/// The sending side of a connection. A write that waits for the peer goes on waiting for as long as
/// the connection's outbox is open, and looks at its closed mark each second. Behind that mark, which
/// is set where the member was cut or has left and where the conference has ended or was broken off,
/// it waits on while the peer takes something within each 5 seconds, and else fails. So a connection
/// whose peer takes nothing is gone within 10 seconds, and a slow peer is sent all.
#[derive(Drop)]
pub struct Outgoing {
    pub socket: Socket,
    pub mark: ClosedMark,
}

impl Write for Outgoing {
    fn write(&mut self, buf: &[u8]) -> io::Result<usize> {
        let mut stream = &self.socket.shared.stream;
        let mut looks = 0u32;
        for _ in 0..u64::MAX {
            match stream.write(buf) {
                Err(error) if is_timeout(&error) => {
                    if self.mark.is_set() {
                        looks = looks.saturating_add(1);
                    }
                    if looks == MAX_LOOKS {
                        return Err(error);
                    }
                }
                // As where the server was stopped and goes on.
                Err(error) if error.kind() == ErrorKind::Interrupted => {}
                outcome => return outcome,
            }
        }
        Err(io::Error::from(ErrorKind::TimedOut))
    }

    fn flush(&mut self) -> io::Result<()> {
        Ok(())
    }
}

/// Whether the peer took nothing for as long as a write waits.
fn is_timeout(error: &io::Error) -> bool {
    matches!(error.kind(), ErrorKind::WouldBlock | ErrorKind::TimedOut)
}
