//! Runs as pages. `+ a control` connects a client under a name, `+ o observe` one that reads alone, `+ x 7010` a member at
//! that port. `a> LINE` is a line of a client, `x> WORDS` what a member sends, `a< LINE` what comes to a client, and
//! `a closed` that its socket is shut. `time 1500` is the time in milliseconds, behind 2026-11-29T16:00:00Z. What else
//! stands there says what is done: `- a` that the stream of a client or member ends, `! x` that it fails, `gone a` that the
//! socket of a client fails, as where a write does, `hold` and `let` that texts of configurations wait to be read, and are
//! read; `& a> LINE` that a line is sent, and nothing is done yet, `times 10 a> LINE` that it is sent so many times; `slow a`
//! that a client takes nothing, and `fast a` that it does again, and `a< 10 lines` how many it was told then; `log` that what
//! the log is told is printed from there on, as `log LINE`; `taken 7010` that this port can't be listened at from then on,
//! and `free 7010` that it can. Lines with `#` say what it is about.

use floor_config::read_configs;
use floor_service::{
    Act, Bounds, Configured, Deed, Grace, Now, Place, Server, Service, Text, titles_of,
};
use std::alloc::{AllocError, Global};

const BOUNDS: Bounds = Bounds {
    of_user: 8,
    of_conference: 64,
};

/// 2026-11-29T16:00:00Z.
const BEGIN: u64 = 1_795_968_000_000;

/// Somebody who has connected, or is to: its name, where it connects, its socket, what it has sent and isn't read yet, what
/// came to it, and how its stream ends.
#[derive(Drop)]
struct Peer {
    name: u8,
    place: u64,
    socket: Option<usize>,
    sent: Vec<u8>,
    came: Vec<u8>,
    has_ended: bool,
    has_failed: bool,
    is_shut: bool,
    is_slow: bool,
    is_counted: bool,
}

/// The service of a page, who is connected, and where it listens.
#[derive(Drop)]
struct Paged {
    alloc: Global,
    service: Service,
    time: u64,
    peers: Vec<Peer>,
    listeners: Vec<(u64, usize)>,
    taken: Vec<u16>,
    is_holding: bool,
    held: Vec<u64>,
    is_logging: bool,
    logged: Vec<String>,
    has_ended: bool,
}

/// A place as a number: a port, or 1 and 2 for the clients' sockets.
fn number_of(place: Place) -> u64 {
    match place {
        Place::Port { port, .. } | Place::Door { port, .. } | Place::Health { port } => {
            u64::from(port)
        }
        Place::Control => 1,
        Place::Observe => 2,
    }
}

impl Paged {
    fn now(&self) -> Now {
        Now {
            micros: self.time.saturating_mul(1_000),
            unix_millis: BEGIN.saturating_add(self.time),
        }
    }

    fn peer_at(&mut self, socket: usize) -> Option<&mut Peer> {
        self.peers
            .iter_mut()
            .find(|peer| peer.socket == Some(socket) && !peer.is_shut)
    }

    fn peer_named(&mut self, name: u8) -> Option<&mut Peer> {
        self.peers
            .iter_mut()
            .find(|peer| peer.name == name && !peer.is_shut)
    }

    /// Does a deed, and answers it.
    fn answer(&mut self, deed: floor_turn::Deed) -> Result<(), AllocError> {
        let now = self.now();
        match deed {
            floor_turn::Deed::Listen { listener, place } => {
                self.listeners.push((number_of(place), listener))?;
                self.service.listened(listener, true);
            }
            floor_turn::Deed::Unlisten(listener) | floor_turn::Deed::Shut(listener) => {
                if let Some(peer) = self.peer_at(listener) {
                    peer.is_shut = true;
                }
                self.service.shut(listener);
            }
            floor_turn::Deed::Accept(listener) => self.accept(listener),
            floor_turn::Deed::Read(socket) => self.read(socket)?,
            floor_turn::Deed::Write(socket) => self.write(socket)?,
            floor_turn::Deed::End(_) => self.has_ended = true,
            floor_turn::Deed::Serve(_) | floor_turn::Deed::Log(_) | floor_turn::Deed::Turn => {}
        }
        let _now = now;
        Ok(())
    }

    fn accept(&mut self, listener: usize) {
        let now = self.now();
        let place = match self.listeners.iter().find(|one| one.1 == listener) {
            Some(one) => one.0,
            None => 0,
        };
        let waits = self
            .peers
            .iter()
            .position(|peer| peer.place == place && peer.socket.is_none());
        match waits {
            Some(index) => match self.service.accepted(listener, 5_000, now) {
                Ok(socket) => {
                    if let Some(peer) = self.peers.get_mut(index) {
                        peer.socket = Some(socket);
                    }
                }
                Err(_) => {
                    if let Some(peer) = self.peers.get_mut(index) {
                        peer.socket = Some(usize::MAX);
                        peer.is_shut = true;
                    }
                }
            },
            None => self.service.nobody(listener),
        }
    }

    fn read(&mut self, socket: usize) -> Result<(), AllocError> {
        let now = self.now();
        let alloc = self.alloc;
        let mut bytes = Vec::new(alloc);
        let mut ended = false;
        let mut failed = false;
        if let Some(peer) = self.peer_at(socket) {
            bytes.extend_from_slice(&peer.sent)?;
            bytes.truncate(4_096);
            let count = bytes.len();
            let mut rest = Vec::new(alloc);
            rest.extend_from_slice(peer.sent.get(count..).unwrap_or(&[]))?;
            peer.sent = rest;
            ended = peer.has_ended;
            failed = peer.has_failed;
        }
        if !bytes.is_empty() {
            self.service.came(socket, &bytes, now);
        } else if failed {
            self.service.failed(socket, now);
        } else if ended {
            self.service.ended(socket, now);
        } else {
            self.service.nothing(socket);
        }
        Ok(())
    }

    fn write(&mut self, socket: usize) -> Result<(), AllocError> {
        let now = self.now();
        let mut lent = Vec::new(self.alloc);
        lent.extend_from_slice(self.service.lent(socket))?;
        let mut count = lent.len();
        if let Some(peer) = self.peer_at(socket) {
            if peer.is_slow {
                count = 0;
            } else {
                peer.came.extend_from_slice(&lent)?;
            }
        }
        self.service.took(socket, count, now);
        Ok(())
    }

    /// Does what is to be done until nothing is.
    fn run(&mut self) -> Result<(), AllocError> {
        for _ in 0..1_000_000u32 {
            match self.service.next() {
                None => return Ok(()),
                Some(Deed::Of(deed)) => self.answer(deed)?,
                Some(Deed::Configure(number)) => self.held.push(number)?,
                Some(Deed::Ports(number)) => self.have_ports(number),
                Some(Deed::Figures) => self.service.figures(1_234),
                Some(Deed::Tell(act)) => self.log(act)?,
            }
            if !self.is_holding {
                self.read_texts()?;
            }
        }
        Ok(())
    }

    /// Ports are had, unless one of them is taken.
    fn have_ports(&mut self, number: u64) {
        let now = self.now();
        let mut missing = None;
        for port in self.service.ports(number) {
            if missing.is_none() && self.taken.contains(port) {
                missing = Some(*port);
            }
        }
        self.service.had(number, missing, now);
    }

    /// Reads the texts that wait to be read.
    fn read_texts(&mut self) -> Result<(), AllocError> {
        while let Some(number) = self.held.pop() {
            let read = read_text(self.alloc, self.service.configuration(number))?;
            let now = self.now();
            self.service.configured(number, read, now);
        }
        Ok(())
    }

    /// Keeps what the log is told, where that is printed.
    fn log(&mut self, act: Act) -> Result<(), AllocError> {
        if self.is_logging {
            let line = act.text(self.alloc)?;
            self.logged.push(line)?;
        }
        Ok(())
    }

    /// Connects somebody, and has the poll tell so.
    fn connect(&mut self, name: u8, place: &str) -> Result<(), AllocError> {
        let number = match place {
            "control" => 1,
            "observe" => 2,
            port => port.parse().unwrap_or(0),
        };
        self.peers.push(Peer {
            name,
            place: number,
            socket: None,
            sent: Vec::new(self.alloc),
            came: Vec::new(self.alloc),
            has_ended: false,
            has_failed: false,
            is_shut: false,
            is_slow: false,
            is_counted: false,
        })?;
        match self.listeners.iter().find(|one| one.0 == number) {
            Some(one) => self.service.knocked(one.1),
            None => {}
        }
        Ok(())
    }

    /// Somebody sends bytes, or ends.
    fn send(&mut self, name: u8, bytes: &[u8], ends: bool, fails: bool) -> Result<(), AllocError> {
        let mut socket = None;
        if let Some(peer) = self.peer_named(name) {
            peer.sent.extend_from_slice(bytes)?;
            peer.has_ended = peer.has_ended || ends;
            peer.has_failed = peer.has_failed || fails;
            socket = peer.socket;
        }
        if let Some(socket) = socket {
            self.service.readable(socket, ends);
        }
        Ok(())
    }

    /// The socket of somebody has failed, as where a write of it does.
    fn lose(&mut self, name: u8) {
        let mut socket = None;
        if let Some(peer) = self.peer_named(name) {
            socket = peer.socket;
        }
        if let Some(socket) = socket {
            let now = self.now();
            self.service.failed(socket, now);
        }
    }

    /// Does what a line says. Says whether it is one that does anything.
    fn line(&mut self, line: &str) -> Result<bool, AllocError> {
        let name = line.as_bytes().first().copied().unwrap_or(b' ');
        let mut words = line.split_whitespace();
        let first = words.next().unwrap_or("");
        let second = words.next().unwrap_or("");
        let third = words.next().unwrap_or("");
        let named = second.as_bytes().first().copied().unwrap_or(b' ');
        match first {
            "+" => self.connect(named, third)?,
            "-" => self.send(named, &[], true, false)?,
            "!" => self.send(named, &[], false, true)?,
            "gone" => self.lose(named),
            "slow" => {
                if let Some(peer) = self.peer_named(named) {
                    peer.is_slow = true;
                }
            }
            "fast" => {
                let mut socket = None;
                if let Some(peer) = self.peer_named(named) {
                    peer.is_slow = false;
                    peer.is_counted = true;
                    socket = peer.socket;
                }
                if let Some(socket) = socket {
                    self.service.writable(socket);
                }
            }
            "times" => {
                let count: u32 = second.parse().unwrap_or(0);
                let name = third.as_bytes().first().copied().unwrap_or(b' ');
                if let Some((_name, text)) = line.split_once("> ") {
                    let bytes = sent_of(self.alloc, name, text)?;
                    for _ in 0..count {
                        self.send(name, &bytes, false, false)?;
                        self.run()?;
                    }
                }
            }
            "log" if second.is_empty() => self.is_logging = true,
            "taken" => self.taken.push(second.parse().unwrap_or(0))?,
            "free" => {
                let port: u16 = second.parse().unwrap_or(0);
                self.taken.retain(|other| *other != port);
            }
            "hold" => self.is_holding = true,
            "let" => {
                self.is_holding = false;
                self.read_texts()?;
            }
            "time" => {
                self.time = second.parse().unwrap_or(0);
                let now = self.now();
                self.service.time(now);
            }
            "&" => {
                if let Some((_name, text)) = line.split_once("> ") {
                    let bytes = sent_of(self.alloc, named, text)?;
                    self.send(named, &bytes, false, false)?;
                }
                return Ok(true);
            }
            _ => match line.split_once("> ") {
                Some((_name, text)) if first.len() == 2 => {
                    let bytes = sent_of(self.alloc, name, text)?;
                    self.send(name, &bytes, false, false)?;
                }
                _ => return Ok(false),
            },
        }
        self.run()?;
        Ok(true)
    }

    /// Writes what the log was told, what came to each client, and who was shut.
    fn tell(&mut self, text: &mut String) -> Result<(), AllocError> {
        for line in &self.logged {
            write!(text, "log {line}\n")?;
        }
        self.logged.clear();
        for peer in self.peers.iter_mut() {
            if peer.place < 3 {
                tell_peer(text, peer)?;
            }
        }
        if self.has_ended {
            self.has_ended = false;
            text.push_str("end\n")?;
        }
        Ok(())
    }
}

fn tell_peer(text: &mut String, peer: &mut Peer) -> Result<(), AllocError> {
    let name = char::from(peer.name);
    let came = std::str::from_utf8(&peer.came).unwrap_or("not UTF-8\n");
    if peer.is_counted {
        write!(text, "{name}< {} lines\n", came.lines().count())?;
        peer.is_counted = false;
    } else {
        for line in came.lines() {
            write!(text, "{name}< {line}\n")?;
        }
    }
    peer.came.clear();
    if peer.is_shut && peer.place < 3 {
        // It is told once.
        peer.place = 3;
        write!(text, "{name} closed\n")?;
    }
    Ok(())
}

/// What a text is as a configuration.
fn read_text(alloc: Global, text: &str) -> Result<Configured, AllocError> {
    let mut configs = match read_configs(alloc, text) {
        Ok(configs) => configs,
        Err(fault) => return Ok(Configured::Faulty { fault, line: 1 }),
    };
    let titles = match titles_of(alloc, text)? {
        Some(mut titles) => titles.pop(),
        None => None,
    };
    match (configs.pop(), titles) {
        (Some(config), Some(titles)) if configs.is_empty() => {
            Ok(Configured::One { config, titles })
        }
        _ => Ok(Configured::Unfit),
    }
}

/// What is sent: the text of a client as a line, and of a member the messages that its words say.
fn sent_of(alloc: Global, name: u8, text: &str) -> Result<Vec<u8>, AllocError> {
    let mut bytes = Vec::new(alloc);
    if name < b'u' {
        bytes.extend_from_slice(text.as_bytes())?;
        bytes.push(b'\n')?;
        return Ok(bytes);
    }
    for word in text.split_whitespace() {
        match word {
            // User 10 of conference 1 says Hello (RFC 8855, section 5.3.11), asks for floor 1 (section 5.3.1), and gives
            // floor request 1 back (section 5.3.2).
            "hello" => bytes.extend_from_slice(&[0x20, 11, 0, 0, 0, 0, 0, 1, 0, 1, 0, 10])?,
            "request" => bytes.extend_from_slice(&[
                0x20, 1, 0, 1, 0, 0, 0, 1, 0, 1, 0, 10, 0x05, 4, 0, 1,
            ])?,
            "release" => bytes.extend_from_slice(&[
                0x20, 2, 0, 1, 0, 0, 0, 1, 0, 2, 0, 10, 0x07, 4, 0, 1,
            ])?,
            _ => {}
        }
    }
    Ok(bytes)
}

/// What a page prints.
fn printed(alloc: Global, page: &str) -> Result<String, AllocError> {
    let grace = Grace {
        lost: 30_000,
        resumed: 30_000,
    };
    let server = Server::with_grace(alloc, BOUNDS, grace);
    let version = Text::from_string(String::from_str(alloc, "0.1.0")?);
    let begin = Now {
        micros: 0,
        unix_millis: BEGIN,
    };
    let mut service = Service::new(alloc, server, [0; 32], version, begin)?;
    service.clients(Place::Control)?;
    service.clients(Place::Observe)?;
    let mut run = Paged {
        alloc,
        service,
        time: 0,
        peers: Vec::new(alloc),
        listeners: Vec::new(alloc),
        taken: Vec::new(alloc),
        is_holding: false,
        held: Vec::new(alloc),
        is_logging: false,
        logged: Vec::new(alloc),
        has_ended: false,
    };
    run.run()?;
    let mut text = String::new(alloc);
    for line in page.lines() {
        let is_told = line.starts_with("#");
        if is_told || run.line(line)? {
            text.push_str(line)?;
            text.push_str("\n")?;
            run.tell(&mut text)?;
        }
    }
    Ok(text)
}

/// Where a page and what it printed differ: the first line that does, both ways; nothing where none does.
pub fn difference(alloc: Global, page: &str) -> Result<String, AllocError> {
    let text = printed(alloc, page)?;
    let mut wanted = page.lines();
    let mut number: u32 = 0;
    for line in text.as_str().lines() {
        number = number.saturating_add(1);
        let other = wanted.next().unwrap_or("nothing");
        if line != other {
            return format!(in alloc; "line {number}: printed {line:?}, wanted {other:?}");
        }
    }
    match wanted.next() {
        Some(line) => format!(in alloc; "printed nothing, wanted {line:?}"),
        None => Ok(String::new(alloc)),
    }
}
