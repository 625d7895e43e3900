//! The control socket of the server: a thread follows it, and what it tells is what all connections see.
//!
//! What is known is kept while the socket is lost, and a picture of another run is shown once it is whole.

use crate::entry::{Entry, Place};
use crate::gateway::{Gateway, Leaving};
use crate::listener::{Changed, tell_all};
use crate::order;
use floor_follow::{FollowFault, Follower, Lines, NextLine, Question, Told, read_line};
use std::alloc::{AllocError, Global};
use std::io::{ErrorKind, Read, Write};
use std::net::{Net, TcpListener, TcpStream};
use std::os::unix::net::UnixStream;
use std::sync::{Arc, Wait};
use std::thread;
use std::thread::Threads;
use std::time::{Clock, Duration, Instant};

/// How long a read waits until it is looked whether something is to be asked again, in milliseconds.
const LOOK_MILLIS: u64 = 250;

/// How often the list and the words are asked for, in milliseconds: no live line tells of them.
const ROUND_MILLIS: u64 = 1_000;

/// How long it waits before a lost control socket is tried again, in milliseconds.
const AGAIN_MILLIS: u64 = 500;

/// How long a write to the control socket waits, in seconds.
const WRITE_SECONDS: u64 = 10;

/// Follows the control socket until the gateway ends.
pub fn follow<R>(rt: R, alloc: Global, gateway: &Arc<Gateway, Global>, path: &str)
where
    R: Net<Listener = TcpListener, Stream = TcpStream> + Clock + Threads + Wait + Copy + Drop,
{
    for _ in rt.forever() {
        if gateway.is_ending() {
            return;
        }
        if let Ok(stream) = UnixStream::connect(&rt, path) {
            // Whatever ends it, it is followed anew.
            let _outcome = follow_one(rt, alloc, gateway, path, stream);
            gateway.lose();
            tell_all(&rt, gateway, &Changed::all(alloc));
        }
        thread::sleep(&rt, Duration::from_millis(AGAIN_MILLIS));
    }
}

/// What is followed at one control socket.
#[derive(Drop)]
struct Following {
    stream: UnixStream,
    lines: Lines,
    /// What is known of it, until that is whole and is shown.
    fresh: Option<Follower>,
    asked: Option<Question>,
    /// Whether its answer hasn't ended yet.
    is_awaited: bool,
    changed: Changed,
}

/// Follows one control socket until it ends.
fn follow_one<R>(
    rt: R,
    alloc: Global,
    gateway: &Gateway,
    path: &str,
    stream: UnixStream,
) -> Result<(), FollowFault>
where
    R: Net<Listener = TcpListener, Stream = TcpStream> + Clock + Wait + Copy,
{
    let _outcome = stream.set_read_timeout(Some(Duration::from_millis(LOOK_MILLIS)));
    let _outcome = stream.set_write_timeout(Some(Duration::from_secs(WRITE_SECONDS)));
    let mut following = Following {
        stream,
        lines: Lines::new(alloc),
        fresh: Some(Follower::new(alloc)),
        asked: None,
        is_awaited: false,
        changed: Changed::none(alloc),
    };
    let Ok(mut round) = Instant::now(&rt) else {
        return Ok(());
    };
    for _ in rt.forever() {
        if gateway.is_ending() || !following.ask(&rt, alloc, gateway)? {
            return Ok(());
        }
        if !following.read(&rt, alloc, gateway)? {
            return Ok(());
        }
        following.show(&rt, alloc, gateway, path);
        let Ok(spent) = round.elapsed(&rt) else {
            return Ok(());
        };
        // Not before the last one is over: whoever is asked of last would never be.
        if Duration::from_millis(ROUND_MILLIS) <= spent && !following.is_awaited {
            following.begin_round(&rt, gateway);
            if let Ok(now) = Instant::now(&rt) {
                round = now;
            }
        }
    }
    Ok(())
}

impl Following {
    /// Asks what is to be asked next, if anything is. Tells whether it could be sent.
    fn ask<R: Wait>(
        &mut self,
        rt: &R,
        alloc: Global,
        gateway: &Gateway,
    ) -> Result<bool, AllocError> {
        let question = match &mut self.fresh {
            Some(follower) => follower.ask(),
            None => gateway.ask(rt),
        };
        let Some(question) = question else {
            return Ok(true);
        };
        self.asked = Some(question);
        self.is_awaited = true;
        let mut line = String::new(alloc);
        question.add_line(&mut line)?;
        Ok(self.stream.write_all(line.as_bytes()).is_ok())
    }

    /// Reads what has come, for a while, and takes it in. Tells whether the socket goes on.
    fn read<R: Wait>(
        &mut self,
        rt: &R,
        alloc: Global,
        gateway: &Gateway,
    ) -> Result<bool, FollowFault> {
        let mut piece = [0u8; 16_384];
        match self.stream.read(&mut piece) {
            Ok(0) => Ok(false),
            Ok(count) => {
                self.lines.take_in(&piece[..count])?;
                self.take_lines(rt, alloc, gateway)
            }
            Err(error) => match error.kind() {
                ErrorKind::Interrupted | ErrorKind::WouldBlock | ErrorKind::TimedOut => Ok(true),
                _ => Ok(false),
            },
        }
    }

    /// Takes the lines that are whole. Tells whether they can be read.
    fn take_lines<R: Wait>(
        &mut self,
        rt: &R,
        alloc: Global,
        gateway: &Gateway,
    ) -> Result<bool, FollowFault> {
        for _ in rt.forever() {
            match self.lines.next()? {
                NextLine::Line(line) => {
                    let told = read_line(alloc, line.as_str())?;
                    self.note(&told)?;
                    match &mut self.fresh {
                        Some(follower) => follower.hear(told)?,
                        None => gateway.hear(rt, told)?,
                    }
                    if !self.ask(rt, alloc, gateway)? {
                        return Ok(false);
                    }
                }
                NextLine::NotText | NextLine::TooLong => return Ok(false),
                NextLine::Nothing => return Ok(true),
            }
        }
        Ok(true)
    }

    /// Notes of which conferences something may be told otherwise by it.
    fn note(&mut self, told: &Told) -> Result<(), AllocError> {
        match told {
            Told::Live { conference, .. } => self.changed.add(*conference),
            Told::End { .. } => {
                self.is_awaited = false;
                match self.asked {
                    Some(
                        Question::Floors(conference)
                        | Question::Users(conference)
                        | Question::Members(conference)
                        | Question::Words(conference),
                    ) => self.changed.add(conference),
                    _ => {
                        self.changed.is_all = true;
                        Ok(())
                    }
                }
            }
            Told::Done | Told::Refused => {
                self.is_awaited = false;
                self.changed.is_all = true;
                Ok(())
            }
            Told::Row(_) | Told::Listed(_) => Ok(()),
        }
    }

    /// Shows the picture once it is whole, tells what may have changed of one that is shown, and puts out whoever
    /// was shown out.
    fn show<R>(&mut self, rt: &R, alloc: Global, gateway: &Gateway, path: &str)
    where
        R: Net<Listener = TcpListener, Stream = TcpStream> + Clock + Wait,
    {
        let is_whole = match &self.fresh {
            Some(follower) => follower.is_whole(),
            None => false,
        };
        if is_whole {
            if let Some(follower) = self.fresh.take() {
                gateway.show(rt, follower);
                self.changed.is_all = true;
            }
        }
        if self.fresh.is_none() && !self.changed.is_empty() {
            tell_all(rt, gateway, &self.changed);
            put_out(rt, alloc, gateway, path, &self.changed);
            self.changed = Changed::none(alloc);
        }
    }

    /// Has the list and the words asked for again.
    fn begin_round<R: Wait>(&mut self, rt: &R, gateway: &Gateway) {
        match &mut self.fresh {
            Some(follower) => follower.begin_round(),
            None => gateway.begin_round(rt),
        }
    }
}

/// Has the server end the connections of users who were shown out. Who isn't reached by it, for want of memory or
/// of the server, is by the next round: the word for it stands.
fn put_out<R>(rt: &R, alloc: Global, gateway: &Gateway, path: &str, changed: &Changed)
where
    R: Net<Listener = TcpListener, Stream = TcpStream> + Clock + Wait,
{
    let Ok(all) = gateway.leaving(rt, changed) else {
        return;
    };
    for one in all {
        let Leaving {
            conference,
            user,
            n,
        } = one;
        if let Ok(line) = format!(in alloc; "leave {conference} {n}\n") {
            if let Ok(Some(answer)) = order::asked(rt, alloc, path, line.as_str()) {
                let place = Place { conference, user };
                gateway.tell(rt, &Entry::PutOut(place, answer.as_str().trim()));
            }
        }
    }
}
