//! A gateway from its start to its end: the faults that it names, and a browser that is served.

use crate::running::run;
use crate::under_way::{MAX_UNDER_WAY, UnderWay};
use std::alloc::Global;
use std::io::{Read, Write};
use std::net::{Net, TcpListener, TcpStream};
use std::rt::Files;
use std::sync::Wait;
use std::test::Fail;
use std::thread::Threads;
use std::time::{Clock, Duration};
use std::{fs, thread};

/// A user without a port, up to the token.
const USER: &str = "[[conference]]\nid = 1\n[[conference.user]]\nid = 10\n";

/// The token of the user who is served.
const TOKEN: &str = "token = \"0123456789abcdefghi-_Z\"\n";

/// A Hello of user 10 in conference 1 (RFC 8855, section 5.3.11), as a browser's binary message: its
/// masking key is 0, so that it stands as it is.
const HELLO: [u8; 18] = [
    0x82, 0x8c, 0, 0, 0, 0, 0x20, 11, 0, 0, 0, 0, 0, 1, 0, 1, 0, 10,
];

/// The words that a gateway is called with.
fn words_of(alloc: Global, address: &str, config: &str, folder: &str) -> Result<Vec<String>, Fail> {
    Ok(vec![in alloc;
        String::from_str(alloc, "floorweb")?,
        String::from_str(alloc, address)?,
        String::from_str(alloc, config)?,
        String::from_str(alloc, folder)?,
    ]?)
}

/// What a gateway tells on standard error that ends by a fault.
fn fault<R>(rt: R, config: &str, folder: &str) -> Result<String, Fail>
where
    R: Net<Listener = TcpListener, Stream = TcpStream>
        + Files
        + AllocGlobal
        + Clock
        + Threads
        + Wait
        + Copy
        + Drop
        + Send
        + 'static,
{
    let alloc = rt.alloc();
    let words = words_of(alloc, "127.0.0.1:0", config, folder)?;
    let mut output = Vec::new(alloc);
    let mut errors = Vec::new(alloc);
    let mut input: &[u8] = b"";
    let status = run(
        rt,
        alloc,
        &words,
        &mut input,
        &mut output,
        &mut errors,
        Vec::new(alloc),
    );
    if status != 1 || !output.is_empty() {
        return Err(Fail::from("no fault"));
    }
    Ok(String::from_utf8(errors)?)
}

/// The same, of a configuration that has this text.
fn fault_of<R>(rt: R, text: &str) -> Result<String, Fail>
where
    R: Net<Listener = TcpListener, Stream = TcpStream>
        + Files
        + AllocGlobal
        + Clock
        + Threads
        + Wait
        + Copy
        + Drop
        + Send
        + 'static,
{
    fs::write(&rt, "faults.toml", text)?;
    let told = fault(rt, "faults.toml", "/nowhere")?;
    fs::remove_file(&rt, "faults.toml")?;
    Ok(told)
}

#[test]
fn words_that_are_missing_are_refused(rt: HostRuntime) -> Result<(), Fail> {
    let alloc = rt.alloc();
    let words = vec![in alloc; String::from_str(alloc, "floorweb")?]?;
    let mut output = Vec::new(alloc);
    let mut errors = Vec::new(alloc);
    let mut input: &[u8] = b"";
    let status = run(
        rt,
        alloc,
        &words,
        &mut input,
        &mut output,
        &mut errors,
        Vec::new(alloc),
    );
    assert_eq!(rt; status, 2);
    assert!(rt; !errors.is_empty());
    Ok(())
}

#[test]
fn a_fault_is_named_behind_its_place(rt: HostRuntime) -> Result<(), Fail> {
    let alloc = rt.alloc();
    let told = fault_of(rt, USER)?;
    assert_eq!(rt;
        told.as_str(),
        "faults.toml: no user has a token\nfloorweb: NoToken\n"
    );
    let text = format!(in alloc; "{USER}{TOKEN}")?;
    let told = fault_of(rt, text.as_str())?;
    assert_eq!(rt;
        told.as_str(),
        "faults.toml: conference 1, user 10: who has a token needs a port\nfloorweb: MissingPort\n"
    );
    let text = format!(in alloc; "{USER}port = 7010\n{TOKEN}")?;
    let told = fault_of(rt, text.as_str())?;
    assert!(rt; told.as_str().ends_with("floorweb: CannotRead\n"));
    Ok(())
}

/// What a gateway in a thread is started with.
#[derive(Drop)]
struct Start {
    words: Vec<String>,
    input: TcpStream,
    output: TcpStream,
}

/// Runs a gateway to its end, and gives the exit status.
fn run_to_end<R>(rt: R, alloc: Global, start: Start) -> u8
where
    R: Net<Listener = TcpListener, Stream = TcpStream>
        + Files
        + AllocGlobal
        + Clock
        + Threads
        + Wait
        + Copy
        + Drop
        + Send
        + 'static,
{
    let Start {
        words,
        mut input,
        mut output,
    } = start;
    let mut errors = Vec::new(alloc);
    run(
        rt,
        alloc,
        words.as_slice(),
        &mut input,
        &mut output,
        &mut errors,
        Vec::new(alloc),
    )
}

/// The next so many bytes; fewer where the stream ends before.
fn hear(alloc: Global, stream: &mut TcpStream, count: usize) -> Result<Vec<u8>, Fail> {
    let mut bytes = Vec::new(alloc);
    for _ in 0..count {
        let mut byte = [0u8; 1];
        if stream.read(&mut byte)? == 0 {
            break;
        }
        bytes.push(byte[0])?;
    }
    Ok(bytes)
}

/// Asks the gateway, and gives the connection.
fn ask<R>(rt: &R, address: &str, request: &str) -> Result<TcpStream, Fail>
where
    R: Net<Listener = TcpListener, Stream = TcpStream>,
{
    let mut stream = TcpStream::connect(rt, address)?;
    stream.write_all(request.as_bytes())?;
    Ok(stream)
}

/// A port that nothing listens on.
fn free_port<R>(rt: &R) -> Result<u16, Fail>
where
    R: Net<Listener = TcpListener, Stream = TcpStream>,
{
    let listener = TcpListener::bind(rt, "127.0.0.1:0")?;
    Ok(listener.local_addr()?.port())
}

#[test]
fn a_browser_is_served_until_the_input_ends(rt: HostRuntime) -> Result<(), Fail> {
    let alloc = rt.alloc();
    let port = free_port(&rt)?;
    let address = format!(in alloc; "127.0.0.1:{port}")?;
    let server = TcpListener::bind(&rt, "127.0.0.1:0")?;
    let of_user = server.local_addr()?.port();
    let text = format!(in alloc; "{USER}port = {of_user}\n{TOKEN}")?;
    fs::write(&rt, "served.toml", text.as_str())?;
    fs::create_dir(&rt, "served")?;
    fs::write(&rt, "served/index.html", "<p>floors")?;
    let listener = TcpListener::bind(&rt, "127.0.0.1:0")?;
    let mut console = TcpStream::connect(&rt, listener.local_addr()?)?;
    let (input, _) = listener.accept()?;
    let output = input.try_clone()?;
    let words = words_of(alloc, address.as_str(), "served.toml", "served")?;
    let start = Start {
        words,
        input,
        output,
    };
    let gateway = thread::spawn(&rt, move || run_to_end(rt, alloc, start))?;
    let ready = hear(alloc, &mut console, 6)?;
    assert_eq!(rt; ready.as_slice(), b"ready\n".as_slice());

    let mut page = ask(&rt, address.as_str(), "GET / HTTP/1.1\r\nHost: a\r\n\r\n")?;
    let answer = hear(alloc, &mut page, 10_000)?;
    assert!(rt; answer.as_slice().starts_with(b"HTTP/1.1 200 OK\r\n"));
    assert!(rt; answer.as_slice().ends_with(b"\r\n\r\n<p>floors"));

    let mut browser = ask(
        &rt,
        address.as_str(),
        "GET /bfcp HTTP/1.1\r\nHost: a\r\nConnection: Upgrade\r\nUpgrade: websocket\r\nSec-WebSocket-Version: 13\r\nSec-WebSocket-Key: dGhlIHNhbXBsZSBub25jZQ==\r\nSec-WebSocket-Protocol: bfcp, token.0123456789abcdefghi-_Z\r\n\r\n",
    )?;
    browser.write_all(&HELLO)?;
    let (mut user, _) = server.accept()?;
    let heard = hear(alloc, &mut user, 12)?;
    assert_eq!(rt; heard.as_slice(), &HELLO[6..]);
    user.write_all(&HELLO[6..])?;
    // The answer of the handshake (RFC 6455, section 1.3, has the key and its Sec-WebSocket-Accept).
    let welcome = hear(alloc, &mut browser, 159)?;
    assert!(rt; welcome.as_slice().starts_with(b"HTTP/1.1 101 "));
    assert!(rt;
        welcome
            .as_slice()
            .ends_with(b"s3pPLMBiTxaQ9kYGzzhZRbK+xOo=\r\n\r\n")
    );
    let told = hear(alloc, &mut browser, 14)?;
    assert_eq!(rt; told.len(), 14);
    assert!(rt; told.as_slice().starts_with(b"\x82\x0c"));
    assert!(rt; told.as_slice().ends_with(&HELLO[6..]));

    drop(console);
    let last = hear(alloc, &mut browser, 5)?;
    assert_eq!(rt; last.as_slice(), b"\x88\x02\x03\xe9".as_slice());
    drop(browser);
    assert_eq!(rt; gateway.join(&rt), 0);
    fs::remove_file(&rt, "served/index.html")?;
    fs::remove_dir(&rt, "served")?;
    fs::remove_file(&rt, "served.toml")?;
    Ok(())
}

/// The two ends of a connection.
fn ends<R>(rt: &R, listener: &TcpListener) -> Result<(TcpStream, TcpStream), Fail>
where
    R: Net<Listener = TcpListener, Stream = TcpStream>,
{
    let client = TcpStream::connect(rt, listener.local_addr()?)?;
    let (server, _) = listener.accept()?;
    Ok((client, server))
}

#[test]
fn one_request_too_many_ends_the_oldest_and_no_other(rt: HostRuntime) -> Result<(), Fail> {
    let alloc = rt.alloc();
    let listener = TcpListener::bind(&rt, "127.0.0.1:0")?;
    let mut under_way = UnderWay::new(alloc);
    let (mut first, oldest) = ends(&rt, &listener)?;
    let (mut second, mut others) = ends(&rt, &listener)?;
    first.set_read_timeout(Some(Duration::from_secs(10)))?;
    second.set_read_timeout(Some(Duration::from_secs(10)))?;
    let _number = under_way.begin(oldest)?;
    for _ in 1..MAX_UNDER_WAY {
        let _number = under_way.begin(others.try_clone()?)?;
    }
    let _number = under_way.begin(others.try_clone()?)?;
    let mut byte = [0; 1];
    assert_eq!(rt; first.read(&mut byte)?, 0);
    others.write_all(b"a")?;
    assert_eq!(rt; second.read(&mut byte)?, 1);
    Ok(())
}
