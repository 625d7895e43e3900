//! What is counted of those who aren't let in.

use super::clients::{ask_control, connect, control, free_port, line, prepare, run_to_end};
use std::io::{Read, Write};
use std::net::Shutdown;
use std::test::Fail;
use std::{fs, thread};
use test_clients::Server;

/// How many lines the counts have.
const LINES: usize = 53;

/// What comes at the door by id before its stream ends, and by which name it is refused; the last two by the loop of the
/// conference.
const AT_DOOR: &str = "200b0000 00000001 0001 000a=BadHeader
0d0a0d0a 000d0a51 5549540a 2111000c 7f000001 7f000001 d6161edd=NoName
0d0a0d0a 000d0a51 5549540a 21110013 7f000001 7f000001 d6161edd 05000432 2e3130=NoConference
0d0a0d0a 000d0a51 5549540a 21110013 7f000001 7f000001 d6161edd 05000431 2e3131=NoUser
0d0a0d0a 000d0a51 5549540a 21110013 7f000001 7f000001 d6161edd 05000431 2e3130=UserConnections";

#[test]
fn each_refusal_is_counted_by_its_reason(rt: HostRuntime) -> Result<(), Fail> {
    let alloc = rt.alloc();
    let (path, port, door) = ("metrics-refused", free_port(&rt)?, free_port(&rt)?);
    let (console, mut start) = prepare(&rt, "metrics.toml", &[(1, port)])?;
    let text = fs::read_to_string(&rt, "metrics.toml")?.replace(
        alloc,
        "id = 1\n[[conference.user]]",
        "id = 1\nconnections = 1\n[[conference.user]]",
    )?;
    fs::write(&rt, "metrics.toml", text.as_str())?;
    let by_id = format!(in alloc; "{door}")?;
    for word in ["--control", path, "--door-by-id", by_id.as_str()] {
        start.add_word(alloc, word)?;
    }
    let thread = thread::spawn(&rt, move || run_to_end(rt, alloc, start))?;
    let server = Server { console, thread };
    assert_eq!(rt; line(&rt, &server)?.as_str(), "ready");
    let mut admin = control(&rt, path)?;
    let mut first = connect(&rt, port)?;
    super::clients::send(&rt, &mut first, "200b0000 00000001 0001 000a").ok_or("sent")?;
    super::clients::hear(&rt, &mut first, 48).ok_or("heard")?;
    for row in AT_DOOR.lines() {
        let (sent, name) = row.split_once('=').ok_or("a row has two parts")?;
        let before = format!(in alloc; "floorhub_refused_total{{name=\"{name}\"}} 0")?;
        let behind = format!(in alloc; "floorhub_refused_total{{name=\"{name}\"}} 1")?;
        let told = ask_control(alloc, &mut admin, "metrics", LINES)?;
        assert!(rt; told.as_str().contains(before.as_str()), "{name}: {told}");
        let mut client = connect(&rt, door)?;
        let digits = sent.replace(alloc, " ", "")?;
        client.write_all(hex::decode(alloc, digits.as_str())?.as_slice())?;
        client.shutdown(Shutdown::Write)?;
        let mut rest = Vec::new(alloc);
        let _heard = client.read_to_end(&mut rest);
        let told = ask_control(alloc, &mut admin, "metrics", LINES)?;
        assert!(rt; told.as_str().contains(behind.as_str()), "{name}: {told}");
    }
    let stopped = ask_control(alloc, &mut admin, "stop", 1)?;
    assert!(rt; stopped.as_str().starts_with("ok stopped "), "{stopped}");
    assert_eq!(rt; server.end(&rt), 0);
    fs::remove_file(&rt, "metrics.toml")?;
    Ok(())
}
