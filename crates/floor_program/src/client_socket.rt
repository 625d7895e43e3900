//! The sockets of control clients: a file of the system's each, and who may open it.

use mio::net::{UnixListener, UnixStream};
use mio::{Interest, Registry, Token};
use std::io::{ErrorKind, Read};
use std::net::{Net, Shutdown};
use std::os::unix::fs::{FileTypeExt, PermissionsExt};
use std::rt::Files;
use std::{fs, io};

/// The bits of a mode that say who may read, write and enter.
const MODE_BITS: u32 = 0o777;

/// How many are let go at most who had connected before the mode was set: more than the system lets wait.
const MAX_EARLY: u32 = 65_536;

/// How often what has come is read and thrown away before a stream is closed: by 4 KiB at a time that is more than the
/// system keeps of a socket.
const MAX_LAST_READS: u32 = 4_096;

/// A socket that is listened on, and its file.
#[derive(Drop)]
pub struct ClientSocket {
    path: String,
    listener: UnixListener,
}

impl ClientSocket {
    /// Listens at a path, for whom the mode lets in. A socket file that nobody listens at is replaced; any other file stays,
    /// and is an error.
    pub fn open<R: Files + Net>(rt: &R, path: String, mode: u32) -> io::Result<ClientSocket> {
        make_way(rt, path.as_str())?;
        let listener = UnixListener::bind(rt, path.as_str())?;
        match guard(rt, path.as_str(), mode, &listener) {
            Ok(()) => Ok(ClientSocket { path, listener }),
            Err(error) => {
                let _removed = fs::remove_file(rt, path.as_str());
                Err(error)
            }
        }
    }

    /// Has the poll tell by this token of who connects.
    pub fn register(&mut self, registry: &Registry, token: Token) -> io::Result<()> {
        registry.register(&mut self.listener, token, Interest::READABLE)
    }

    /// Who has connected.
    pub fn accept(&self) -> io::Result<UnixStream> {
        let (stream, _address) = self.listener.accept()?;
        Ok(stream)
    }

    /// Listens no longer, and removes the file.
    pub fn end<R: Files>(self, rt: &R) {
        let ClientSocket { path, listener } = self;
        drop(listener);
        let _removed = fs::remove_file(rt, path.as_str());
    }
}

/// Removes a socket file that nobody listens at.
fn make_way<R: Files + Net>(rt: &R, path: &str) -> io::Result<()> {
    let found = match fs::symlink_metadata(rt, path) {
        Ok(found) => found,
        Err(error) if error.kind() == ErrorKind::NotFound => return Ok(()),
        Err(error) => return Err(error),
    };
    if !found.file_type().is_socket() {
        return Err(io::Error::from(ErrorKind::AlreadyExists));
    }
    match UnixStream::connect(rt, path) {
        Err(error) if error.kind() == ErrorKind::ConnectionRefused => fs::remove_file(rt, path),
        Err(error) if error.kind() == ErrorKind::NotFound => Ok(()),
        _ => Err(io::Error::from(ErrorKind::AddrInUse)),
    }
}

/// Sets the file's mode, and lets go who had connected before that.
fn guard<R: Files>(rt: &R, path: &str, mode: u32, listener: &UnixListener) -> io::Result<()> {
    fs::set_permissions(rt, path, fs::Permissions::from_mode(mode))?;
    if fs::symlink_metadata(rt, path)?.permissions().mode() & MODE_BITS != mode {
        return Err(io::Error::from(ErrorKind::PermissionDenied));
    }
    for _ in 0..MAX_EARLY {
        match listener.accept() {
            Ok(_) => {}
            Err(_) => break,
        }
    }
    Ok(())
}

/// Ends a client's stream, both ways, once what has come is read: else its end would be told as a reset.
pub fn end_client(stream: &mut UnixStream, buffer: &mut [u8]) {
    for _ in 0..MAX_LAST_READS {
        match stream.read(buffer) {
            Ok(0) | Err(_) => break,
            Ok(_) => {}
        }
    }
    let _outcome = stream.shutdown(Shutdown::Both);
}
