//! Each call with memory, by the functions that the exports lend the hub to.

use crate::acting::{add_floor, add_user, close, revoke, say, set_chair};
use crate::opening::{diagnose_text, end, forget, fresh, open};
use crate::outcome::{Outcome, name_of_number};
use crate::reading::{journal, status};
use crate::serving::{attach, is_cut, leave, piece, serve, took};
use crate::taking::{take, told};
use floor_hub::{Hub, HubRefusal};
use std::alloc::Global;
use std::process::Abort;

/// Conferences 1 and 2, of users 10 and 11 and of none.
const TEXT: &[u8] =
    b"[[conference]]\nid = 1\n[[conference.user]]\nid = 10\n[[conference.user]]\nid = 11\n[[conference.floor]]\nid = 1\n[[conference]]\nid = 2\n";

/// Why a connection of a user that has none is refused.
const NO_USER: u32 = 23;

/// Two Hellos of user 10, and its request for floor 1 (RFC 8855, sections 5.3.11 and 5.3.1).
const MESSAGES: &[u8] =
    b"\x20\x0b\0\0\0\0\0\x01\0\x01\0\x0a\x20\x0b\0\0\0\0\0\x01\0\x02\0\x0a\x20\x01\0\x01\0\0\0\x01\0\x03\0\x0a\x04\x04\0\x01";

/// User 11 asks to be told of floor 1 (section 5.3.7).
const WATCH: &[u8] = b"\x20\x07\0\x01\0\0\0\x01\0\x01\0\x0b\x04\x04\0\x01";

/// A hub with the conferences of TEXT.
fn opened(alloc: Global, rt: &impl Abort) -> Hub {
    let mut hub = fresh(alloc);
    let answer = open(&mut hub, alloc, TEXT);
    assert_eq!(rt; answer.result, 0);
    assert_eq!(rt; answer.opened, 2);
    hub
}

/// User 12, who has no connection, asks for floor 1, and again; what answers it, with the user's name, is written where
/// there is room for it.
fn says(rt: &impl Abort, alloc: Global, hub: &mut Hub) {
    const REQUEST: &[u8] = b"\x20\x01\0\x01\0\0\0\x01\0\x01\0\x0c\x04\x04\0\x01";
    let mut room = [0u8; 64];
    let said = say(hub, alloc, 1, 12, REQUEST, &mut room);
    assert_eq!(rt; (said.result, said.len), (0, 48));
    assert_eq!(rt; (room[1], room[22]), (4, 3));
    let short = say(hub, alloc, 1, 12, REQUEST, &mut room[..12]);
    assert_eq!(rt; (short.result, short.place), (0, said.place + 1));
    assert!(rt; 12 < short.len);
    assert_eq!(rt; say(hub, alloc, 1, 99, REQUEST, &mut room).result, NO_USER);
    assert_eq!(rt;
        say(hub, alloc, 1, 12, &REQUEST[..15], &mut room).result,
        17
    );
}

#[test]
fn a_conference_is_held_by_calls(rt: HostRuntime) {
    let alloc = rt.alloc();
    let mut hub = opened(alloc, &rt);
    let ann = attach(&mut hub, alloc, 1, 10).connection;
    let bob = attach(&mut hub, alloc, 1, 11).connection;
    assert_eq!(&rt; attach(&mut hub, alloc, 1, 12).result, NO_USER);
    assert_eq!(&rt; piece(&mut hub, bob, WATCH), 0);
    assert_eq!(&rt; serve(&mut hub, bob, 8).served, 1);
    assert_eq!(&rt; piece(&mut hub, ann, MESSAGES), 0);
    let served = serve(&mut hub, ann, 8);
    assert_eq!(&rt; (served.result, served.served), (0, 3));
    let mut numbers = [0u64; 4];
    let concerned = told(&mut hub, &mut numbers);
    assert_eq!(&rt; (concerned.result, concerned.count), (0, 2));
    assert_eq!(&rt; (numbers[0], numbers[1]), (ann, bob));
    assert_eq!(&rt; serve(&mut hub, ann, 8).result, Outcome::Nothing.number());
    let mut room = [0u8; 512];
    let short = take(&mut hub, ann, &mut room[..12]);
    assert_eq!(&rt; short.result, Outcome::TooShort.number());
    let taken = take(&mut hub, ann, &mut room);
    assert_eq!(&rt; (taken.result, taken.parcels), (0, 3));
    assert_eq!(&rt;
        take(&mut hub, ann, &mut room).result,
        Outcome::Nothing.number()
    );
    assert_eq!(&rt; took(&mut hub, ann, 3), 0);
    assert!(&rt; !is_cut(&mut hub, ann));
    assert_eq!(&rt; status(&mut hub, 1).ongoing, 1);
    assert_eq!(&rt; revoke(&mut hub, 1, 1), 0);
    assert_eq!(&rt; add_user(&mut hub, alloc, 1, 12, true, b"Cid", b""), 0);
    assert_eq!(&rt; add_floor(&mut hub, 1, 2, 1, true, 12), 0);
    assert_eq!(&rt; set_chair(&mut hub, 1, 2, false, 0), 0);
    assert_eq!(&rt; leave(&mut hub, ann), 0);
    says(&rt, alloc, &mut hub);
    assert_eq!(&rt; close(&mut hub, 1), 0);
    assert_eq!(&rt; leave(&mut hub, bob), 0);
    assert_eq!(&rt; forget(&mut hub, 1), 0);
    end(hub);
}

#[test]
fn a_journal_is_read_by_pieces(rt: HostRuntime) {
    let alloc = rt.alloc();
    let mut hub = opened(alloc, &rt);
    attach(&mut hub, alloc, 1, 10);
    attach(&mut hub, alloc, 1, 11);
    let cases = [
        ("one byte too few", 0, 9, Outcome::TooShort, 0, 10, ""),
        ("the first line", 0, 19, Outcome::Done, 1, 10, "1 join 10\n"),
        (
            "both lines",
            0,
            20,
            Outcome::Done,
            2,
            20,
            "1 join 10\n2 join 11\n",
        ),
        (
            "the second line",
            1,
            64,
            Outcome::Done,
            1,
            10,
            "2 join 11\n",
        ),
        ("no line more", 2, 64, Outcome::Nothing, 0, 0, ""),
    ];
    for (name, done, size, outcome, events, len, text) in cases {
        let mut bytes = [0u8; 64];
        let (room, _) = bytes.split_at_mut(size.min(64));
        let lines = journal(&mut hub, alloc, 1, done, room);
        assert_eq!(&rt; lines.result, outcome.number(), "{name}");
        assert_eq!(&rt; (lines.events, lines.len), (events, len), "{name}");
        assert!(&rt; bytes.starts_with(text.as_bytes()), "{name}");
    }
    let unknown = journal(&mut hub, alloc, 3, 0, &mut []).result;
    assert_eq!(&rt;
        unknown,
        Outcome::Refused(HubRefusal::NoConference).number()
    );
    end(hub);
}

/// A text is refused by the fault of this name, and told so by this line.
fn tells(alloc: Global, rt: &impl Abort, text: &[u8], name: &str, line: &str) {
    let mut room = [1u8; 256];
    let told = diagnose_text(alloc, text, &mut room);
    assert_eq!(rt; name_of_number(told.result), name);
    assert_eq!(rt; told.len, line.len(), "{name}");
    let is_written = room.starts_with(line.as_bytes()) && room.get(line.len()) == Some(&0);
    assert!(rt; is_written, "{name}");
}

#[test]
fn a_fault_has_its_name_and_tells_its_place(rt: HostRuntime) {
    let alloc = rt.alloc();
    tells(alloc, &rt, TEXT, "Done", "");
    tells(
        alloc,
        &rt,
        b"a =",
        "Syntax",
        "line 1, column 4: invalid value, expected a string, number, boolean, date-time, array or inline table",
    );
    tells(
        alloc,
        &rt,
        b"",
        "MissingKey",
        "conference is missing; [] stands for none",
    );
    tells(alloc, &rt, b"\xff", "NotUtf8", "the text isn't UTF-8");
    assert_eq!(&rt; name_of_number(99), "");
}
