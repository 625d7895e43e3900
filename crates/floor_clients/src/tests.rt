ghost use Rattle.std.specs.Prelude.{◌<◌};

use crate::{
    Answer, Client, CloseReason, EventTold, Failure, MAX_NOTICES, Mode, Next, ServerTold, Standing,
    Told, Workspace,
};
use floor_rpc::{
    ErrorName, FloorShown, Happened, List, MAX_LINE, MemberOf, Phase, Picture, Placed,
    RequestShown, Text, UserShown, What, Word, WordTold,
};
use std::alloc::{AllocError, Global};
use std::rt::HostRuntime;

/// What a client sends, and below each line what answers it, where it is answered. Each task is answered by a place,
/// but for one of conference 7.
const LINES: &str = r#"{"id":1,"method":"conference.close","params":{"conference":3}}
{"jsonrpc":"2.0","id":1,"result":{"place":4}}

unanswered
{"id":"b","method":"conference.close","params":{"conference":7}}
{"jsonrpc":"2.0","id":"b","error":{"code":1,"message":"NoConference","data":null}}
{"method":"conference.close","params":{"conference":3}}
unanswered
{"method":"nothing"}
unanswered
{"id":"c","method":"nothing"}
{"jsonrpc":"2.0","id":"c","error":{"code":-32601,"message":"Method not found","data":null}}
no JSON
{"jsonrpc":"2.0","id":null,"error":{"code":-32700,"message":"Parse error","data":null}}
{"id":2,"method":"conference.get"}
{"jsonrpc":"2.0","id":2,"error":{"code":-32602,"message":"Invalid params","data":{"param":"conference","why":"Missing"}}}
{"id":null,"method":"server.drain"}
{"jsonrpc":"2.0","id":null,"result":{"place":4}}"#;

/// The lines that are sent, or what answers them.
fn lines(alloc: Global, answers: bool) -> Result<Vec<u8>, AllocError> {
    let mut out = Vec::new(alloc);
    let mut is_answer = false;
    for line in LINES.split('\n') {
        if is_answer == answers && line != "unanswered" {
            out.extend_from_slice(line.as_bytes())?;
            out.extend_from_slice(b"\n")?;
        }
        is_answer = !is_answer;
    }
    Ok(out)
}

/// Serves each line that may be served, and moves what is lent, in parts of `most` bytes, to `out`.
fn serve(
    alloc: Global,
    client: &mut Client,
    work: &mut Workspace,
    most: usize,
    out: &mut Vec<u8>,
) -> Result<(), AllocError> {
    for _ in 0..100_000u32 {
        let taken = client.lent().len().min(most);
        out.extend_from_slice(client.lent().get(..taken).unwrap_or(&[]))?;
        client.took(taken);
        match client.next(alloc, work, false)? {
            Next::Task(call) => {
                let outcome = match call {
                    floor_rpc::Call::ConferenceClose(of) if of.conference == 7 => {
                        Err(Failure::whole(ErrorName::NoConference))
                    }
                    _ => Ok(Answer::Placed(Placed { place: 4 })),
                };
                client.answer(alloc, work, outcome)?;
            }
            Next::Served | Next::Closed => {}
            Next::Nothing => {
                if client.lent().is_empty() {
                    return Ok(());
                }
            }
        }
    }
    Ok(())
}

/// What is written to a client of whom this comes, in pieces of this length.
fn heard(
    alloc: Global,
    mode: Mode,
    bytes: &[u8],
    length: usize,
    most: usize,
) -> Result<Vec<u8>, AllocError>
    requires { 0 < length }
{
    let mut client = Client::new(alloc, mode);
    let mut work = Workspace::new(alloc);
    let mut out = Vec::new(alloc);
    for piece in bytes.chunks(length) {
        client.came(piece)?;
        serve(alloc, &mut client, &mut work, most, &mut out)?;
    }
    Ok(out)
}

fn text(bytes: &[u8]) -> &str {
    std::str::from_utf8(bytes).unwrap_or("not UTF-8")
}

fn words(alloc: Global, words: &str) -> Result<Text, AllocError> {
    Ok(Text::from_string(String::from_str(alloc, words)?))
}

#[test]
fn lines_cut_anywhere_are_answered_in_order(rt: HostRuntime) -> Result<(), AllocError> {
    let alloc = rt.alloc();
    let sent = lines(alloc, false)?;
    let wanted = lines(alloc, true)?;
    for length in 1..=sent.len() {
        let out = heard(alloc, Mode::Control, &sent, length, 7)?;
        assert_eq!(rt; text(&out), text(&wanted), "in pieces of {length}");
    }
    for most in [1usize, 30, 1_000] {
        let out = heard(alloc, Mode::Control, &sent, 4_096, most)?;
        assert_eq!(rt; text(&out), text(&wanted), "taken in parts of {most}");
    }
    Ok(())
}

#[test]
fn an_observer_changes_nothing_and_sees_no_word(rt: HostRuntime) -> Result<(), AllocError> {
    let alloc = rt.alloc();
    let out = heard(
        alloc,
        Mode::Observer,
        b"{\"id\":1,\"method\":\"server.drain\"}\n",
        9,
        100,
    )?;
    assert_eq!(rt;
        text(&out),
        "{\"jsonrpc\":\"2.0\",\"id\":1,\"error\":{\"code\":7,\"message\":\"Forbidden\",\"data\":null}}\n"
    );
    for (mode, wanted) in [
        (Mode::Control, "\"words\":{\"token.1\":\"secret\"}}}\n"),
        (Mode::Observer, "\"words\":{}}}\n"),
    ] {
        let mut client = Client::new(alloc, mode);
        let mut work = Workspace::new(alloc);
        client.came(b"{\"id\":1,\"method\":\"conference.get\",\"params\":{\"conference\":1}}\n")?;
        let next = client.next(alloc, &mut work, false)?;
        assert!(rt; matches!(next, Next::Task(_)));
        client.answer(alloc, &mut work, Ok(Answer::Picture(picture(alloc)?)))?;
        assert!(rt; client.lent().ends_with(wanted.as_bytes()), "{wanted}");
    }
    Ok(())
}

/// A conference without anybody, and with a word.
fn picture(alloc: Global) -> Result<Picture, AllocError> {
    let mut kept = Vec::new(alloc);
    let word = Word {
        key: words(alloc, "token.1")?,
        text: words(alloc, "secret")?,
    };
    if kept.push(word).is_err() {
        return Err(AllocError);
    }
    let users: Vec<UserShown> = Vec::new(alloc);
    let floors: Vec<FloorShown> = Vec::new(alloc);
    let requests: Vec<RequestShown> = Vec::new(alloc);
    Ok(Picture {
        next: 1,
        phase: Phase::Running,
        members: 0,
        ongoing: 0,
        title: None,
        limit: 1,
        connections: 1,
        kept: false,
        users: List::from_vec(users),
        floors: List::from_vec(floors),
        requests: List::from_vec(requests),
        words: List::from_vec(kept),
    })
}

#[test]
fn no_conference_is_opened_while_the_server_drains(rt: HostRuntime) -> Result<(), AllocError> {
    let alloc = rt.alloc();
    let mut client = Client::new(alloc, Mode::Control);
    let mut work = Workspace::new(alloc);
    client.came(
        b"{\"id\":1,\"method\":\"conference.open\",\"params\":{\"users\":[],\"floors\":[]}}\n",
    )?;
    assert!(rt; client.is_ready());
    let next = client.next(alloc, &mut work, true)?;
    assert!(rt; matches!(next, Next::Served));
    assert_eq!(rt;
        text(client.lent()),
        "{\"jsonrpc\":\"2.0\",\"id\":1,\"error\":{\"code\":6,\"message\":\"Draining\",\"data\":null}}\n"
    );
    Ok(())
}

const TOO_LONG: &str =
    "{\"jsonrpc\":\"2.0\",\"id\":null,\"error\":{\"code\":9,\"message\":\"TooLong\",\"data\":null}}\n";

#[test]
fn a_line_of_more_than_a_mebibyte_closes_its_client(rt: HostRuntime) -> Result<(), AllocError> {
    let alloc = rt.alloc();
    let mut longest = Vec::new(alloc);
    longest.resize(MAX_LINE, b' ')?;
    longest.extend_from_slice(b"\n{\"id\":1,\"method\":\"none\"}\n")?;
    let out = heard(alloc, Mode::Control, &longest, 4_096, 100)?;
    assert_eq!(rt;
        text(&out),
        "{\"jsonrpc\":\"2.0\",\"id\":null,\"error\":{\"code\":-32700,\"message\":\"Parse error\",\"data\":null}}\n{\"jsonrpc\":\"2.0\",\"id\":1,\"error\":{\"code\":-32601,\"message\":\"Method not found\",\"data\":null}}\n"
    );
    let mut longer = Vec::new(alloc);
    longer.resize(MAX_LINE + 1, b' ')?;
    for end in [&b""[..], b"\n{\"id\":1,\"method\":\"none\"}\n"] {
        let mut client = Client::new(alloc, Mode::Control);
        let mut work = Workspace::new(alloc);
        client.came(&longer)?;
        client.came(end)?;
        let mut out = Vec::new(alloc);
        serve(alloc, &mut client, &mut work, 100, &mut out)?;
        assert_eq!(rt; text(&out), TOO_LONG);
        assert_eq!(rt; client.standing(), Standing::Over(CloseReason::TooLong));
        assert!(rt; client.is_done());
    }
    Ok(())
}

/// An event that shows nothing but itself.
fn closed(alloc: Global, conference: u32, place: u64) -> Result<Told, AllocError>
    requires { place < 18446744073709551615 }
{
    let requests: Vec<RequestShown> = Vec::new(alloc);
    let cut: Vec<MemberOf> = Vec::new(alloc);
    let floors: Vec<floor_rpc::FloorHolders> = Vec::new(alloc);
    Told::of_event(
        alloc,
        EventTold {
            conference,
            place,
            time: None,
            what: What::Closed,
            requests: List::from_vec(requests),
            cut: List::from_vec(cut),
            floors: List::from_vec(floors),
        },
    )
}

fn happened(alloc: Global, conference: u32, what: Happened, next: u64) -> Result<Told, AllocError>
    requires { next < 18446744073709551615 }
{
    Told::of_server(alloc, ServerTold { conference, what }, next)
}

#[test]
fn what_is_watched_is_told_once_and_in_order(rt: HostRuntime) -> Result<(), AllocError> {
    let alloc = rt.alloc();
    let mut client = Client::new(alloc, Mode::Observer);
    client.watch(1, 4)?;
    let cases = [
        ("another conference", closed(alloc, 2, 4)?, false),
        ("a place that is past", closed(alloc, 1, 3)?, false),
        ("the place", closed(alloc, 1, 4)?, true),
        ("the place again", closed(alloc, 1, 4)?, false),
        (
            "one behind a place that wasn't told",
            closed(alloc, 1, 6)?,
            false,
        ),
        ("the next place", closed(alloc, 1, 5)?, true),
        (
            "that it broke",
            happened(alloc, 1, Happened::Broken, 6)?,
            true,
        ),
        (
            "that it broke, later",
            happened(alloc, 1, Happened::Broken, 7)?,
            false,
        ),
        (
            "that it was opened",
            happened(alloc, 1, Happened::Opened, 6)?,
            false,
        ),
        (
            "a word",
            happened(
                alloc,
                1,
                Happened::Word(WordTold {
                    key: words(alloc, "token.1")?,
                    text: None,
                }),
                6,
            )?,
            false,
        ),
    ];
    for (name, told, wanted) in &cases {
        let before = client.notices_len();
        client.tell(told)?;
        let is_told = before < client.notices_len();
        assert_eq!(rt; is_told, *wanted, "{name}");
    }
    client.pass(1, 6);
    assert_eq!(rt; client.next_of(1), Some(7));
    client.unwatch(1);
    client.watch_all(true);
    let before = client.notices_len();
    client.tell(&closed(alloc, 9, 30)?)?;
    client.tell(&happened(alloc, 9, Happened::Forgotten, 31)?)?;
    assert!(rt; before < client.notices_len());
    assert!(rt;
        client.lent().starts_with(
            b"{\"jsonrpc\":\"2.0\",\"method\":\"event\",\"params\":{\"conference\":1,\"place\":4,"
        )
    );
    Ok(())
}

#[test]
fn a_client_for_which_too_much_waits_is_closed(rt: HostRuntime) -> Result<(), AllocError> {
    let alloc = rt.alloc();
    let mut client = Client::new(alloc, Mode::Control);
    let mut work = Workspace::new(alloc);
    client.watch(1, 1)?;
    // An answer doesn't count.
    client.came(b"{\"id\":1,\"method\":\"help\"}\n")?;
    let next = client.next(alloc, &mut work, false)?;
    assert!(rt; matches!(next, Next::Task(_)));
    client.answer(alloc, &mut work, Ok(Answer::Help))?;
    for place in 1..20_000u64 {
        if client.standing() == Standing::Serving {
            client.tell(&closed(alloc, 1, place)?)?;
        }
    }
    assert_eq!(rt; client.standing(), Standing::Over(CloseReason::Behind));
    assert!(rt; client.notices_len() <= MAX_NOTICES);
    assert!(rt; MAX_NOTICES - 200 < client.notices_len());
    let waits = client.notices_len();
    client.tell(&closed(alloc, 1, 1)?)?;
    assert_eq!(rt; client.notices_len(), waits);
    Ok(())
}

#[test]
fn a_client_ends_once_its_lines_are_answered(rt: HostRuntime) -> Result<(), AllocError> {
    let alloc = rt.alloc();
    let mut client = Client::new(alloc, Mode::Control);
    let mut work = Workspace::new(alloc);
    client.came(b"{\"id\":1,\"method\":\"help\"}\n{\"id\":2")?;
    client.ended();
    client.came(b"}\n")?;
    assert!(rt; !client.is_done());
    let next = client.next(alloc, &mut work, false)?;
    assert!(rt; matches!(next, Next::Task(_)));
    assert!(rt; !client.is_done());
    client.answer(alloc, &mut work, Ok(Answer::Done))?;
    assert!(rt; !client.is_done());
    client.took(usize::MAX);
    assert!(rt; client.is_done());
    let mut none = Client::full(alloc, &mut work, Mode::Observer)?;
    assert_eq!(rt;
        text(none.lent()),
        "{\"jsonrpc\":\"2.0\",\"id\":null,\"error\":{\"code\":8,\"message\":\"Full\",\"data\":null}}\n"
    );
    assert_eq!(rt; none.mode(), Mode::Observer);
    none.close(CloseReason::Stopped);
    assert_eq!(rt; none.standing(), Standing::Over(CloseReason::Full));
    Ok(())
}
