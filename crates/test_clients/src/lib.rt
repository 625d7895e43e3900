//! What the tests over sockets use: what a server is started with, its console, and its clients.
#![tactic(auto)]

use floor_words::read_u32;
use std::alloc::Global;
use std::io::{ErrorKind, Read, Write};
use std::net::{Net, TcpListener, TcpStream};
use std::os::unix::net::UnixStream;
use std::rt::Files;
use std::sync::Arc;
use std::sync::atomic::{AtomicU64, Ordering};
use std::test::Fail;
use std::thread::{JoinHandle, Threads};
use std::{fs, io};

/// A server in a thread of its own, with the other end of its standard input and output.
#[derive(Drop)]
pub struct Server {
    pub console: TcpStream,
    pub thread: JoinHandle<u8>,
}

impl Server {
    /// Waits for the end, and gives the exit status.
    pub fn end<R: Threads>(self, rt: &R) -> u8 {
        let Server { console: _, thread } = self;
        thread.join(rt)
    }
}

/// A port that nothing listens on.
pub fn free_port<R: Net<Listener = TcpListener, Stream = TcpStream>>(rt: &R) -> Result<u16, Fail> {
    let listener = TcpListener::bind(rt, "127.0.0.1:0")?;
    Ok(listener.local_addr()?.port())
}

/// What a server is started with.
#[derive(Drop)]
pub struct Start {
    pub words: Vec<String>,
    pub input: TcpStream,
    pub output: TcpStream,
}

/// Writes a configuration of conferences, each with user 10 at a port and floor 1.
pub fn write_file<R: Files + AllocGlobal>(
    rt: &R,
    path: &str,
    conferences: &[(u32, u16)],
) -> Result<(), Fail> {
    let alloc = rt.alloc();
    let mut text = String::new(alloc);
    for (conference, port) in conferences {
        let part = format!(in alloc;
            "[[conference]]\nid = {conference}\n[[conference.user]]\nid = 10\nport = {port}\n"
        )?;
        text.push_str(part.as_str())?;
        text.push_str("[[conference.floor]]\nid = 1\n")?;
    }
    fs::write(rt, path, text.as_str())?;
    Ok(())
}

/// Writes a configuration, and gives the test's end of the standard input and output, and what the
/// server is started with.
pub fn prepare<R>(
    rt: &R,
    path: &str,
    conferences: &[(u32, u16)],
) -> Result<(TcpStream, Start), Fail>
where
    R: Net<Listener = TcpListener, Stream = TcpStream> + Files + AllocGlobal,
{
    let alloc = rt.alloc();
    write_file(rt, path, conferences)?;
    let listener = TcpListener::bind(rt, "127.0.0.1:0")?;
    let console = TcpStream::connect(rt, listener.local_addr()?)?;
    let (input, _) = listener.accept()?;
    let output = input.try_clone()?;
    let words = vec![in alloc;
        String::from_str(alloc, "floord")?,
        String::from_str(alloc, path)?,
    ]?;
    Ok((
        console,
        Start {
            words,
            input,
            output,
        },
    ))
}

impl Start {
    /// Asks for a log.
    pub fn ask_for_log(&mut self, alloc: Global) -> Result<(), Fail> {
        self.add_word(alloc, "--log")
    }

    /// Adds a word.
    pub fn add_word(&mut self, alloc: Global, word: &str) -> Result<(), Fail> {
        self.words.push(String::from_str(alloc, word)?)?;
        Ok(())
    }
}

/// What fails at each write, and counts them.
#[derive(Drop)]
pub struct Closed {
    pub asked: Arc<AtomicU64, Global>,
}

impl Write for Closed {
    fn write(&mut self, _buf: &[u8]) -> io::Result<usize> {
        self.asked.fetch_add(1, Ordering::SeqCst);
        Err(io::Error::from(ErrorKind::BrokenPipe))
    }

    fn flush(&mut self) -> io::Result<()> {
        Ok(())
    }
}

/// Two ends of a stream: what one is written, the other reads.
pub fn two_ends<R: Net<Listener = TcpListener, Stream = TcpStream>>(
    rt: &R,
) -> Result<(TcpStream, TcpStream), Fail> {
    let listener = TcpListener::bind(rt, "127.0.0.1:0")?;
    let first = TcpStream::connect(rt, listener.local_addr()?)?;
    let (second, _) = listener.accept()?;
    Ok((first, second))
}

/// The lines of a log that has ended, in the order of the alphabet, each without its time and without
/// the peer's port.
pub fn log_lines(alloc: Global, log: &mut TcpStream) -> Result<String, Fail> {
    let mut bytes = Vec::new(alloc);
    log.read_to_end(&mut bytes)?;
    let text = String::from_utf8(bytes)?;
    let mut lines = Vec::new(alloc);
    for line in text.as_str().lines() {
        let (time, rest) = line.split_once(' ').ok_or("a line has a time")?;
        let is_time = time.len() == 24 && time.ends_with('Z') && time.contains('T');
        let rest = if is_time { rest } else { line };
        lines.push(without_peer(alloc, rest)?)?;
    }
    lines.sort()?;
    let mut sorted = String::new(alloc);
    for line in lines {
        sorted.push_str(line.as_str())?;
        sorted.push('\n')?;
    }
    Ok(sorted)
}

/// A line of a log without the peer's port, where it has one.
fn without_peer(alloc: Global, line: &str) -> Result<String, Fail> {
    match line.split_once(" peer ") {
        None => Ok(String::from_str(alloc, line)?),
        Some((before, behind)) => {
            let (_peer, told) = behind.split_once(' ').ok_or("a peer was told of")?;
            Ok(format!(in alloc; "{before} {told}")?)
        }
    }
}

/// Hands the server a line, and gives the line that answers it.
pub fn ask<R: AllocGlobal>(rt: &R, server: &Server, text: &str) -> Result<String, Fail> {
    let mut console = &server.console;
    console.write_all(text.as_bytes())?;
    console.write_all(b"\n")?;
    line(rt, server)
}

/// How many events the answer to `stop` has behind these words; `None` where it has other words.
pub fn events_of_stop(stopped: &str, words: &str) -> Option<u32> {
    match stopped.split_once(words) {
        Some(("", events)) => read_u32(events),
        _ => None,
    }
}

/// The next line that the server prints.
pub fn line<R: AllocGlobal>(rt: &R, server: &Server) -> Result<String, Fail> {
    next_line(rt.alloc(), &server.console)
}

/// The next line of a stream, without its line feed; what there is where the stream ends before.
pub fn next_line(alloc: Global, mut stream: &TcpStream) -> Result<String, Fail> {
    let mut text = Vec::new(alloc);
    for _ in 0..10_000 {
        let mut byte = [0u8; 1];
        if stream.read(&mut byte)? == 0 || byte[0] == b'\n' {
            break;
        }
        text.push(byte[0])?;
    }
    Ok(String::from_utf8(text)?)
}

/// Connects to a control socket.
pub fn control<R: Net<Listener = TcpListener, Stream = TcpStream>>(
    rt: &R,
    path: &str,
) -> Result<UnixStream, Fail> {
    Ok(UnixStream::connect(rt, path)?)
}

/// Hands a control socket a line, and gives so many lines that come, with a comma between each two.
pub fn ask_control(
    alloc: Global,
    client: &mut UnixStream,
    text: &str,
    count: usize,
) -> Result<String, Fail> {
    client.write_all(text.as_bytes())?;
    client.write_all(b"\n")?;
    control_lines(alloc, client, count)
}

/// The next so many lines of a control socket, with a comma between each two.
pub fn control_lines(alloc: Global, client: &mut UnixStream, count: usize) -> Result<String, Fail> {
    let mut lines = String::new(alloc);
    for place in 0..count {
        if 0 < place {
            lines.push(',')?;
        }
        lines.push_str(control_line(alloc, client)?.as_str())?;
    }
    Ok(lines)
}

/// The next line of a control socket, without its line feed; what there is where the stream ends before.
fn control_line(alloc: Global, client: &mut UnixStream) -> Result<String, Fail> {
    let mut text = Vec::new(alloc);
    for _ in 0..200_000 {
        let mut byte = [0u8; 1];
        if client.read(&mut byte)? == 0 || byte[0] == b'\n' {
            break;
        }
        text.push(byte[0])?;
    }
    Ok(String::from_utf8(text)?)
}

/// Connects to a port of the server.
pub fn connect<R: Net<Listener = TcpListener, Stream = TcpStream> + AllocGlobal>(
    rt: &R,
    port: u16,
) -> Result<TcpStream, Fail> {
    let address = format!(in rt.alloc(); "127.0.0.1:{port}")?;
    Ok(TcpStream::connect(rt, address.as_str())?)
}

/// Connects to a port, and says Hello, of whose answer so many bytes are read.
pub fn greet<R: Net<Listener = TcpListener, Stream = TcpStream> + AllocGlobal>(
    rt: &R,
    port: u16,
    hello: &str,
    read: usize,
) -> Result<TcpStream, Fail> {
    let mut client = connect(rt, port)?;
    send(rt, &mut client, hello).ok_or("says Hello")?;
    hear(rt, &mut client, read).ok_or("is answered")?;
    Ok(client)
}

/// Sends a message that is given as spaced hexadecimal; `None` where the stream has ended.
pub fn send<R: AllocGlobal>(rt: &R, client: &mut TcpStream, message: &str) -> Option<()> {
    let digits = joined(rt, message)?;
    let bytes = hex::decode(rt.alloc(), digits.as_str()).ok()?;
    client.write_all(bytes.as_slice()).ok()
}

/// The next so many bytes that the client is sent, as hexadecimal; `None` where the stream ends
/// before.
pub fn hear<R: AllocGlobal>(rt: &R, client: &mut TcpStream, count: usize) -> Option<String> {
    let mut bytes = Vec::new(rt.alloc());
    for _ in 0..count {
        let mut byte = [0u8; 1];
        if client.read(&mut byte).ok()? == 0 {
            return None;
        }
        bytes.push(byte[0]).ok()?;
    }
    hex::encode(rt.alloc(), bytes.as_slice()).ok()
}

/// The next message that the client is sent; `None` where the stream ends before its end.
pub fn hear_message(alloc: Global, client: &mut TcpStream) -> Option<Vec<u8>> {
    let mut header = [0u8; 12];
    client.read_exact(&mut header).ok()?;
    let words = u16::from_be_bytes([header[2], header[3]]);
    let mut payload = Vec::new(alloc);
    payload
        .resize(usize::from(words).saturating_mul(4), 0u8)
        .ok()?;
    client.read_exact(payload.as_mut_slice()).ok()?;
    let mut message = Vec::from_slice(alloc, &header).ok()?;
    message.extend_from_slice(payload.as_slice()).ok()?;
    Some(message)
}

/// Spaced hexadecimal without its spaces.
pub fn joined<R: AllocGlobal>(rt: &R, text: &str) -> Option<String> {
    let mut digits = String::new(rt.alloc());
    for word in text.split(' ') {
        digits.push_str(word).ok()?;
    }
    Some(digits)
}
