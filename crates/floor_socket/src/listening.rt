//! The socket's file: its owner alone may read and write it.

use mio::net::{UnixListener, UnixStream};
use mio::{Interest, Registry, Token};
use std::io::ErrorKind;
use std::net::Net;
use std::os::unix::fs::{FileTypeExt, PermissionsExt};
use std::rt::Files;
use std::{fs, io};

/// Who may read and write it: its owner.
const MODE: u32 = 0o600;

/// The bits of a mode that say who may read, write and enter.
const MODE_BITS: u32 = 0o777;

/// How many are let go at most who had connected before the mode was set: more than the system lets wait.
const MAX_EARLY: u32 = 65_536;

/// A socket that is listened on, and its file.
#[derive(Drop)]
pub struct ControlSocket {
    path: String,
    listener: UnixListener,
}

impl ControlSocket {
    /// Listens at a path. A socket file that nobody listens at is replaced; any other file stays, and is an error.
    pub fn open<R: Files + Net>(rt: &R, path: String) -> io::Result<ControlSocket> {
        make_way(rt, path.as_str())?;
        let listener = UnixListener::bind(rt, path.as_str())?;
        match guard(rt, path.as_str(), &listener) {
            Ok(()) => Ok(ControlSocket { path, listener }),
            Err(error) => {
                let _removed = fs::remove_file(rt, path.as_str());
                Err(error)
            }
        }
    }

    /// Is told by this token of who connects.
    pub fn register(&mut self, registry: &Registry, token: Token) -> io::Result<()> {
        registry.register(&mut self.listener, token, Interest::READABLE)
    }

    /// Who has connected; `None` where nobody has.
    pub fn accept(&self) -> io::Result<Option<UnixStream>> {
        match self.listener.accept() {
            Ok((stream, _)) => Ok(Some(stream)),
            Err(error) if error.kind() == ErrorKind::WouldBlock => Ok(None),
            Err(error) => Err(error),
        }
    }

    /// Listens no longer, and removes the file.
    pub fn end<R: Files>(self, rt: &R) {
        let ControlSocket { path, listener } = self;
        drop(listener);
        let _removed = fs::remove_file(rt, path.as_str());
    }
}

/// Removes a socket file that nobody listens at.
fn make_way<R: Files + Net>(rt: &R, path: &str) -> io::Result<()> {
    let found = match fs::symlink_metadata(rt, path) {
        Ok(found) => found,
        Err(error) if error.kind() == ErrorKind::NotFound => return Ok(()),
        Err(error) => return Err(error),
    };
    if !found.file_type().is_socket() {
        return Err(io::Error::from(ErrorKind::AlreadyExists));
    }
    match UnixStream::connect(rt, path) {
        Err(error) if error.kind() == ErrorKind::ConnectionRefused => fs::remove_file(rt, path),
        Err(error) if error.kind() == ErrorKind::NotFound => Ok(()),
        _ => Err(io::Error::from(ErrorKind::AddrInUse)),
    }
}

/// Has the owner alone read and write the file, and lets go who had connected before that.
fn guard<R: Files>(rt: &R, path: &str, listener: &UnixListener) -> io::Result<()> {
    fs::set_permissions(rt, path, fs::Permissions::from_mode(MODE))?;
    if fs::symlink_metadata(rt, path)?.permissions().mode() & MODE_BITS != MODE {
        return Err(io::Error::from(ErrorKind::PermissionDenied));
    }
    for _ in 0..MAX_EARLY {
        match listener.accept() {
            Ok(_) => {}
            Err(_) => break,
        }
    }
    Ok(())
}
