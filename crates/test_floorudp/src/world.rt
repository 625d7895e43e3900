//! What the steps of a case do, and what they print.

use crate::gateway::start;
use crate::peers::Peers;
use crate::stream::{Heard, Stream};
use floor_words::{read_hexadecimal, words};
use std::alloc::Global;
use std::io::ErrorKind;
use std::net::{Net, TcpListener, TcpStream, UdpSocket};
use std::os::fd::OwnedFd;
use std::os::unix::net::UnixListener;
use std::rt::Files;
use std::sync::Wait;
use std::thread::Threads;
use std::time::{Clock, Duration};
use std::{fs, thread};
use test_cases::Fault;
use test_gateways::Gateway;

/// How long a peer or a stream is waited for where a case says nothing else, in milliseconds.
const PATIENCE: u64 = 5_000;

/// How long it is waited where nothing is to come, in milliseconds.
const QUIET: u64 = 150;

/// How many bytes are printed as they are.
const MAX_SHOWN: usize = 100;

/// The file that the gateway reads.
pub const CONFIGURATION: &str = "meeting.toml";

/// The server's control socket.
const CONTROL: &str = "control";

/// How many bytes of a header stand before its TLVs.
const HEAD_LEN: usize = 16;

/// How many bytes of a TLV stand before its value.
const TLV_LEN: usize = 3;

/// A gateway, the peers before it and the server behind it.
#[derive(Drop)]
pub struct World<R> {
    rt: R,
    alloc: Global,
    /// Where the server listens, and a port at which nobody does.
    door: TcpListener,
    door_port: u16,
    nobody: u16,
    /// The server's control socket, where it has one.
    control: Option<UnixListener>,
    /// The gateway's own port.
    port: u16,
    gateway: Option<Gateway>,
    peers: Peers,
    streams: Vec<Stream>,
    patience: u64,
    pub printed: String,
}

impl<R> World<R>
where
    R: Net<Listener = TcpListener, Stream = TcpStream>
        + Files
        + AllocGlobal
        + Clock
        + Threads
        + Wait
        + Copy
        + Drop
        + Send
        + 'static,
{
    pub fn new(rt: R) -> Result<World<R>, Fault> {
        let alloc = rt.alloc();
        let door = TcpListener::bind(&rt, "127.0.0.1:0")?;
        let door_port = door.local_addr()?.port();
        door.set_nonblocking(true)?;
        let nobody = TcpListener::bind(&rt, "127.0.0.1:0")?.local_addr()?.port();
        let port = UdpSocket::bind(&rt, "127.0.0.1:0")?.local_addr()?.port();
        Ok(World {
            rt,
            alloc,
            door,
            door_port,
            nobody,
            control: None,
            port,
            gateway: None,
            peers: Peers::new(alloc)?,
            streams: Vec::new(alloc),
            patience: PATIENCE,
            printed: String::new(alloc),
        })
    }

    /// Does a step.
    ///
    /// - `gateway WORDS` starts the gateway, with these words besides, and prints its first line; `alone WORDS` starts
    ///   one at whose door nobody listens; `log` prints the next line of its log, with a peer's name for its port,
    ///   `end` ends its input, and `stop` waits for its end besides, and prints what else it printed, its log and its
    ///   status.
    /// - `NAME peer ADDRESS` is a peer at an address and port of this machine; `NAME say BYTES` has it send a datagram,
    ///   `NAME listen` prints the next one that it is sent, and `NAME quiet` whether none comes for a while;
    ///   `NAME flood COUNT BYTES` sends a message so often, each with the next Transaction ID, and `NAME count` prints how
    ///   many datagrams come until none does for a while, `NAME count LEAST MOST` whether they are as many.
    /// - `NAME accept` is the next connection to the server, and prints the name in its header; `NAME hear COUNT`
    ///   prints so many bytes, `NAME rest` all to the end of the stream and how it ends, `NAME send BYTES` sends some,
    ///   `NAME long COUNT UNITS HEADER` so often a message by its header, with so many units of zeros,
    ///   `NAME half` ends the sending side, and `NAME close` closes the stream.
    /// - `control` opens the server's control socket, at the path control, and `shut` shuts it; `NAME follow` is the
    ///   next that connects to it, `NAME line` prints the next line, and `NAME tell LINES` sends lines that `|` ends.
    /// - `patience MILLISECONDS` is how long each is waited for, and `sleep MILLISECONDS` waits.
    pub fn step(&mut self, line: &str) -> Result<(), Fault> {
        if line.is_empty() || line.starts_with('#') {
            return Ok(());
        }
        let (first, rest) = line.split_once(' ').unwrap_or((line, ""));
        match first {
            "gateway" => self.start(self.door_port, rest),
            "alone" => self.start(self.nobody, rest),
            "log" => self.log(),
            "end" => {
                if let Some(gateway) = &self.gateway {
                    gateway.end_input();
                }
                Ok(())
            }
            "stop" => self.stop(),
            "control" => self.open_control(),
            "shut" => {
                self.control = None;
                Ok(())
            }
            "patience" => {
                self.patience = number_in(rest)?;
                Ok(())
            }
            "sleep" => {
                thread::sleep(&self.rt, Duration::from_millis(number_in(rest)?));
                Ok(())
            }
            name => {
                let (verb, rest) = rest.split_once(' ').unwrap_or((rest, ""));
                self.act(name, verb, rest)
            }
        }
    }

    fn start(&mut self, door: u16, more: &str) -> Result<(), Fault> {
        let alloc = self.alloc;
        let address = format!(in alloc; "127.0.0.1:{}", self.port)?;
        let door = format!(in alloc; "{door}")?;
        let mut all = Vec::new(alloc);
        for word in [
            "floorudp",
            address.as_str(),
            CONFIGURATION,
            "--door-by-id",
            door.as_str(),
        ] {
            all.push(String::from_str(alloc, word)?)?;
        }
        for word in more.split_whitespace() {
            all.push(String::from_str(alloc, word)?)?;
        }
        let gateway = start(self.rt, all)?;
        let line = gateway.line(alloc)?;
        if line.is_empty() {
            return gateway.end(&self.rt, &mut self.printed);
        }
        write!(self.printed, "{}\n", line.as_str())?;
        self.gateway = Some(gateway);
        Ok(())
    }

    fn log(&mut self) -> Result<(), Fault> {
        match &self.gateway {
            None => Ok(self.printed.push_str("there is no gateway\n")?),
            Some(gateway) => {
                let line = gateway.log_line(self.alloc)?;
                let line = self.peers.named(self.alloc, line.as_str())?;
                write!(self.printed, "log {}\n", line.as_str())?;
                Ok(())
            }
        }
    }

    fn stop(&mut self) -> Result<(), Fault> {
        match self.gateway.take() {
            None => Ok(self.printed.push_str("there is no gateway\n")?),
            Some(gateway) => gateway.end(&self.rt, &mut self.printed),
        }
    }

    /// What somebody does.
    fn act(&mut self, name: &str, verb: &str, rest: &str) -> Result<(), Fault> {
        match verb {
            "peer" => self.peers.add(&self.rt, self.alloc, name, rest),
            "accept" => self.accept(name),
            "follow" => self.follow(name),
            "say" => {
                let bytes = self.bytes_of(rest)?;
                self.peers.send(name, bytes.as_slice(), self.port)
            }
            "flood" => self.flood(name, rest),
            "count" => self.count(name, rest),
            "listen" => self.listen(name, self.patience),
            "quiet" => self.listen(name, QUIET),
            _ if self.place_of(name).is_none() => {
                write!(self.printed, "{name} isn't there\n")?;
                Ok(())
            }
            _ => self.act_by_stream(name, verb, rest),
        }
    }

    /// What the server does at a stream.
    fn act_by_stream(&mut self, name: &str, verb: &str, rest: &str) -> Result<(), Fault> {
        match verb {
            "close" => {
                if let Some(place) = self.place_of(name) {
                    let _stream = self.streams.remove(place);
                }
                Ok(())
            }
            "half" => {
                self.stream(name)?.end_sending();
                Ok(())
            }
            "send" => {
                let bytes = self.bytes_of(rest)?;
                self.stream(name)?.send(bytes.as_slice());
                Ok(())
            }
            "long" => self.send_long(name, rest),
            "tell" => {
                let text = rest.replace(self.alloc, "|", "\n")?;
                self.stream(name)?.send(text.as_bytes());
                Ok(())
            }
            "line" | "hear" | "rest" => {
                let patience = self.patience;
                self.stream(name)?.wait_for(patience)?;
                match verb {
                    "line" => self.line(name),
                    "hear" => self.hear(name, rest),
                    _ => self.rest(name),
                }
            }
            _ => Err(Fault::Layout("no such step")),
        }
    }

    /// Sends a message so often, each with the next Transaction ID.
    fn flood(&mut self, name: &str, rest: &str) -> Result<(), Fault> {
        let (count, bytes) = rest.split_once(' ').unwrap_or((rest, ""));
        let mut bytes = self.bytes_of(bytes)?;
        if bytes.len() < 12 {
            return Err(Fault::Layout("a message without a header"));
        }
        let first = u16::from_be_bytes([bytes[8], bytes[9]]);
        for number in 0..number_in(count)? {
            let id = first.wrapping_add((number % 65_536) as u16);
            let [high, low] = id.to_be_bytes();
            bytes[8] = high;
            bytes[9] = low;
            self.peers.send(name, bytes.as_slice(), self.port)?;
        }
        Ok(())
    }

    /// Sends a message so often, by its header, with so many units of zeros.
    fn send_long(&mut self, name: &str, rest: &str) -> Result<(), Fault> {
        let (count, rest) = rest.split_once(' ').unwrap_or((rest, ""));
        let (units, bytes) = rest.split_once(' ').unwrap_or((rest, ""));
        let mut message = self.bytes_of(bytes)?;
        let len = number_in(units)?.min(65_535).saturating_mul(4) as usize;
        message.resize(message.len().saturating_add(len), 0)?;
        for _ in 0..number_in(count)? {
            self.stream(name)?.send(message.as_slice());
        }
        Ok(())
    }

    /// Prints the next datagram that a peer is sent.
    fn listen(&mut self, name: &str, millis: u64) -> Result<(), Fault> {
        let alloc = self.alloc;
        match self.peers.hear(name, millis)? {
            Some(datagram) => {
                let bytes = shown(alloc, datagram)?;
                write!(self.printed, "{name} {}\n", bytes.as_str())?;
            }
            None => write!(self.printed, "{name} nothing\n")?,
        }
        Ok(())
    }

    /// Prints how many datagrams come until none does for a while; of a number and another whether they are as many,
    /// since time goes by while they come, in which more may be sent.
    fn count(&mut self, name: &str, rest: &str) -> Result<(), Fault> {
        let mut count = 0u64;
        for _ in 0..10_000 {
            if self.peers.hear(name, QUIET)?.is_none() {
                break;
            }
            count = count.saturating_add(1);
        }
        if let Some((least, most)) = rest.split_once(' ') {
            if number_in(least)? <= count && count <= number_in(most)? {
                write!(self.printed, "{name} {least} to {most}\n")?;
                return Ok(());
            }
        }
        write!(self.printed, "{name} {count}\n")?;
        Ok(())
    }

    fn place_of(&self, name: &str) -> Option<usize> {
        self.streams
            .iter()
            .position(|stream| stream.name.as_str() == name)
    }

    fn stream(&mut self, name: &str) -> Result<&mut Stream, Fault> {
        match self.place_of(name) {
            Some(place) => Ok(&mut self.streams[place]),
            None => Err(Fault::Layout("no such stream")),
        }
    }

    fn add(&mut self, name: &str, socket: TcpStream) -> Result<(), Fault> {
        let stream = Stream::new(self.alloc, name, socket)?;
        stream.wait_for(self.patience)?;
        self.streams.push(stream)?;
        Ok(())
    }

    /// Takes the next connection to the server, and prints the name in its header.
    fn accept(&mut self, name: &str) -> Result<(), Fault> {
        for _ in 0..self.patience.div_ceil(10) {
            if let Some(socket) = self.accepted()? {
                self.add(name, socket)?;
                return self.name_in_header(name);
            }
            thread::sleep(&self.rt, Duration::from_millis(10));
        }
        write!(self.printed, "{name} never comes\n")?;
        Ok(())
    }

    /// The next connection to the server, if there is one.
    fn accepted(&self) -> Result<Option<TcpStream>, Fault> {
        match self.door.accept() {
            Ok((socket, _)) => {
                socket.set_nonblocking(false)?;
                Ok(Some(socket))
            }
            Err(error) if error.kind() == ErrorKind::WouldBlock => Ok(None),
            Err(error) => Err(Fault::from(error)),
        }
    }

    fn name_in_header(&mut self, name: &str) -> Result<(), Fault> {
        let alloc = self.alloc;
        let (_heard, head) = self.stream(name)?.bytes(alloc, HEAD_LEN)?;
        let len = match head.as_slice() {
            [.., high, low] => usize::from(*high)
                .saturating_mul(256)
                .saturating_add(usize::from(*low)),
            _ => 0,
        };
        let (_heard, tlv) = self.stream(name)?.bytes(alloc, len)?;
        let text = tlv.as_slice().get(TLV_LEN..).unwrap_or(&[]);
        let text = std::str::from_utf8(text).unwrap_or("no UTF-8");
        write!(self.printed, "{name} {text}\n")?;
        Ok(())
    }

    /// Opens the server's control socket.
    fn open_control(&mut self) -> Result<(), Fault> {
        // It may be there since the case before.
        let _outcome = fs::remove_file(&self.rt, CONTROL);
        let control = UnixListener::bind(&self.rt, CONTROL)?;
        control.set_nonblocking(true)?;
        self.control = Some(control);
        Ok(())
    }

    fn follow(&mut self, name: &str) -> Result<(), Fault> {
        for _ in 0..self.patience.div_ceil(10) {
            if let Some(socket) = self.followed()? {
                return self.add(name, socket);
            }
            thread::sleep(&self.rt, Duration::from_millis(10));
        }
        write!(self.printed, "{name} never comes\n")?;
        Ok(())
    }

    /// The next connection to the control socket, if there is one.
    fn followed(&self) -> Result<Option<TcpStream>, Fault> {
        let Some(control) = &self.control else {
            return Ok(None);
        };
        match control.accept() {
            Ok((socket, _)) => {
                socket.set_nonblocking(false)?;
                Ok(Some(TcpStream::from(OwnedFd::from(socket))))
            }
            Err(error) if error.kind() == ErrorKind::WouldBlock => Ok(None),
            Err(error) => Err(Fault::from(error)),
        }
    }

    fn line(&mut self, name: &str) -> Result<(), Fault> {
        let alloc = self.alloc;
        let (heard, line) = self.stream(name)?.line(alloc)?;
        let text = match heard {
            Heard::Enough => std::str::from_utf8(line.as_slice()).unwrap_or("no UTF-8"),
            _ => heard.name(),
        };
        write!(self.printed, "{name} {text}\n")?;
        Ok(())
    }

    fn hear(&mut self, name: &str, rest: &str) -> Result<(), Fault> {
        let alloc = self.alloc;
        let count = number_in(rest)? as usize;
        let (heard, bytes) = self.stream(name)?.bytes(alloc, count)?;
        if heard != Heard::Enough {
            write!(self.printed, "{name} {}\n", heard.name())?;
            return Ok(());
        }
        let bytes = shown(alloc, bytes.as_slice())?;
        write!(self.printed, "{name} {}\n", bytes.as_str())?;
        Ok(())
    }

    fn rest(&mut self, name: &str) -> Result<(), Fault> {
        let alloc = self.alloc;
        let (heard, bytes) = self.stream(name)?.rest(alloc)?;
        let bytes = shown(alloc, bytes.as_slice())?;
        write!(self.printed, "{name} {} {}\n", bytes.as_str(), heard.name())?;
        Ok(())
    }

    /// The bytes that a step sends.
    fn bytes_of(&self, rest: &str) -> Result<Vec<u8>, Fault> {
        let alloc = self.alloc;
        match read_hexadecimal(alloc, &words(alloc, rest)?) {
            Ok(bytes) => Ok(bytes),
            Err(_) => Err(Fault::Layout("no hexadecimal")),
        }
    }
}

/// Bytes as they are printed: how many, where they are many.
fn shown(alloc: Global, bytes: &[u8]) -> Result<String, Fault> {
    if MAX_SHOWN < bytes.len() {
        return Ok(format!(in alloc; "{} bytes", bytes.len())?);
    }
    Ok(hex::encode(alloc, bytes)?)
}

fn number_in(text: &str) -> Result<u64, Fault> {
    match text.parse() {
        Ok(number) => Ok(number),
        Err(_) => Err(Fault::Layout("no number")),
    }
}
