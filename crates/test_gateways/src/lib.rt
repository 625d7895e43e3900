//! What the tests of gateways over sockets use: a gateway in a thread of its own, with the other ends of its
//! standard streams and of its log.
#![tactic(auto)]

use std::alloc::Global;
use std::io::{ErrorKind, Read};
use std::net::{Net, Shutdown, TcpListener, TcpStream};
use std::thread::{JoinHandle, Threads};
use std::time::Duration;
use test_cases::Fault;

/// How long what a gateway prints, and its end, are waited for, in seconds.
const PATIENCE: u64 = 20;

/// What a gateway is started with.
#[derive(Drop)]
pub struct Start {
    /// Its words, the first of them the program's own name.
    pub words: Vec<String>,
    pub input: TcpStream,
    pub output: TcpStream,
    pub errors: TcpStream,
    pub log: TcpStream,
}

/// The test's ends of a gateway's streams.
#[derive(Drop)]
pub struct Ends {
    console: TcpStream,
    errors: TcpStream,
    log: TcpStream,
}

/// What a gateway is started with by these words, and the test's ends of its streams.
pub fn two_sides<R>(rt: R, words: Vec<String>) -> Result<(Ends, Start), Fault>
where
    R: Net<Listener = TcpListener, Stream = TcpStream> + Copy + Drop,
{
    let (console, input) = two_ends(rt)?;
    let output = input.try_clone()?;
    let (errors, their_errors) = two_ends(rt)?;
    let (log, their_log) = two_ends(rt)?;
    let start = Start {
        words,
        input,
        output,
        errors: their_errors,
        log: their_log,
    };
    let ends = Ends {
        console,
        errors,
        log,
    };
    Ok((ends, start))
}

/// Two ends of a stream: the test's, which waits for so many seconds at most, and the gateway's.
fn two_ends<R>(rt: R) -> Result<(TcpStream, TcpStream), Fault>
where
    R: Net<Listener = TcpListener, Stream = TcpStream> + Drop,
{
    let listener = TcpListener::bind(&rt, "127.0.0.1:0")?;
    let ours = TcpStream::connect(&rt, listener.local_addr()?)?;
    ours.set_read_timeout(Some(Duration::from_secs(PATIENCE)))?;
    let (theirs, _) = listener.accept()?;
    Ok((ours, theirs))
}

/// A gateway that runs.
#[derive(Drop)]
pub struct Gateway {
    thread: JoinHandle<u8>,
    ends: Ends,
}

impl Gateway {
    /// One that was started in this thread, whose streams have these ends.
    pub fn new(thread: JoinHandle<u8>, ends: Ends) -> Gateway {
        Gateway { thread, ends }
    }

    /// The next line that it prints; what there is where it ends before.
    pub fn line(&self, alloc: Global) -> Result<String, Fault> {
        next_line(alloc, &self.ends.console)
    }

    /// The next line of its log, without the time.
    pub fn log_line(&self, alloc: Global) -> Result<String, Fault> {
        let line = next_line(alloc, &self.ends.log)?;
        match line.as_str().split_once(' ') {
            Some((time, text)) if is_time(time) => Ok(String::from_str(alloc, text)?),
            _ => Ok(line),
        }
    }

    /// Ends its input.
    pub fn end_input(&self) {
        // It may be ended already.
        let _outcome = self.ends.console.shutdown(Shutdown::Write);
    }

    /// Ends its input, and prints its status, what it has printed besides, and the rest of its log.
    pub fn end<R>(self, rt: &R, printed: &mut String) -> Result<(), Fault>
    where
        R: AllocGlobal + Threads,
    {
        let alloc = rt.alloc();
        self.end_input();
        let output = rest(alloc, &self.ends.console)?;
        let Some(output) = output else {
            printed.push_str("the gateway goes on\n")?;
            return Ok(());
        };
        printed.push_str(output.as_str())?;
        let errors = rest(alloc, &self.ends.errors)?;
        loop {
            let line = self.log_line(alloc)?;
            if line.is_empty() || line.as_str() == "nothing" {
                break;
            }
            write!(printed, "log {}\n", line.as_str())?;
        }
        if let Some(errors) = errors {
            printed.push_str(errors.as_str())?;
        }
        let Gateway { thread, .. } = self;
        let status = thread.join(rt);
        write!(printed, "status {status}\n")?;
        Ok(())
    }
}
/// Whether a word is a time, to the millisecond (RFC 3339).
fn is_time(word: &str) -> bool {
    word.len() == 24 && word.starts_with("20") && word.ends_with('Z')
}

/// The next line of a stream, without its line feed; what there is where the stream ends before.
fn next_line(alloc: Global, mut stream: &TcpStream) -> Result<String, Fault> {
    let mut text = Vec::new(alloc);
    for _ in 0..10_000 {
        let mut byte = [0u8; 1];
        match stream.read(&mut byte) {
            Ok(0) => break,
            Ok(_) if byte[0] == b'\n' => break,
            Ok(_) => text.push(byte[0])?,
            Err(error) if error.kind() == ErrorKind::WouldBlock => {
                text.extend_from_slice(b"nothing")?;
                break;
            }
            Err(_) => break,
        }
    }
    as_text(text)
}

/// What a stream still has to its end; none where it doesn't end in time.
fn rest(alloc: Global, mut stream: &TcpStream) -> Result<Option<String>, Fault> {
    let mut bytes = Vec::new(alloc);
    let mut piece = [0u8; 1_024];
    for _ in 0..10_000 {
        match stream.read(&mut piece) {
            Ok(0) => break,
            Ok(count) => bytes.extend_from_slice(&piece[..count])?,
            Err(error) if error.kind() == ErrorKind::WouldBlock => return Ok(None),
            Err(_) => break,
        }
    }
    Ok(Some(as_text(bytes)?))
}

fn as_text(bytes: Vec<u8>) -> Result<String, Fault> {
    match String::from_utf8(bytes) {
        Ok(text) => Ok(text),
        Err(_) => Err(Fault::Wrong("no UTF-8")),
    }
}
