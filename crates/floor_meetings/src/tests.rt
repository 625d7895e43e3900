use crate::{Act, Bounds, Due, Grace, HubRefusal, JoinRefusal, Meetings, Ready};
use floor_config::read_configs;
use floor_loop::Event;
use std::alloc::{AllocError, Global};

/// Users 10 and 11 of two conferences.
const CONFIGURATION: &str = "[[conference]]
id = 1
user = [{ id = 10 }, { id = 11 }]
floor = [{ id = 1 }]

[[conference]]
id = 2
user = [{ id = 10 }, { id = 11 }]
floor = [{ id = 1 }]
";

/// User 10 says Hello in conferences 1 and 2 (RFC 8855, section 5.3.11).
const HELLO: [u8; 12] = [0x20, 11, 0, 0, 0, 0, 0, 1, 0, 1, 0, 10];

const OTHER_HELLO: [u8; 12] = [0x20, 11, 0, 0, 0, 0, 0, 2, 0, 1, 0, 10];

/// The answers: which primitives and attributes are supported (section 5.3.12).
const ANSWER: &str =
    "20 0c 00 09 00 00 00 01 00 01 00 0a 16 0f 01 02 03 04 05 06 07 08 09 0a 0b 0c 0d 00 \
    14 14 02 04 06 08 0a 0c 0e 10 12 14 16 18 1a 1c 1e 20 22 24";

const OTHER_ANSWER: &str =
    "20 0c 00 09 00 00 00 02 00 01 00 0a 16 0f 01 02 03 04 05 06 07 08 09 0a 0b 0c 0d 00 \
    14 14 02 04 06 08 0a 0c 0e 10 12 14 16 18 1a 1c 1e 20 22 24";

/// User 11 asks for floor 1 of conference 1 (section 5.3.1).
const REQUEST: [u8; 16] = [0x20, 1, 0, 1, 0, 0, 0, 1, 0, 1, 0, 11, 4, 4, 0, 1];

const BOUNDS: Bounds = Bounds {
    of_user: 2,
    of_conference: 3,
};

/// Both conferences are opened.
fn opened(alloc: Global, mut meetings: Meetings) -> Result<Meetings, AllocError> {
    match read_configs(alloc, CONFIGURATION) {
        Ok(mut configs) => {
            for _ in 0..2 {
                if let Some(config) = configs.pop() {
                    let _opened = meetings.open(alloc, config);
                }
            }
            Ok(meetings)
        }
        Err(_) => Err(AllocError),
    }
}

fn two(alloc: Global) -> Result<Meetings, AllocError> {
    opened(alloc, Meetings::new(alloc, BOUNDS))
}

fn graced(alloc: Global) -> Result<Meetings, AllocError> {
    let grace = Grace {
        lost: 1_000,
        resumed: 1_000,
    };
    opened(alloc, Meetings::with_grace(alloc, BOUNDS, grace))
}

/// What a join that may be came to, or why it may not be, by name.
fn join(
    meetings: &mut Meetings,
    alloc: Global,
    slot: usize,
    conference: u32,
    user: u16,
) -> &'static str {
    match meetings.check(slot, conference, user) {
        Ok(()) => {}
        Err(refusal) => return refusal.name(),
    }
    match meetings.join(alloc, slot, conference, user, 0) {
        Ok(()) => "Ok",
        Err(refusal) => refusal.name(),
    }
}

/// What is lent to a slot, in hexadecimal.
fn lent(meetings: &Meetings, alloc: Global, slot: usize) -> Result<String, AllocError> {
    let mut text = String::new(alloc);
    for byte in meetings.lent(slot) {
        if !text.is_empty() {
            text.push_str(" ")?;
        }
        write!(text, "{byte:02x}")?;
    }
    Ok(text)
}

/// Who is ready, all of them.
fn ready(meetings: &mut Meetings, alloc: Global) -> Result<String, AllocError> {
    let mut text = String::new(alloc);
    for _ in 0..100 {
        match meetings.ready() {
            Some(Ready::Member(slot)) => write!(text, "{slot} ")?,
            Some(Ready::Away(number)) => {
                meetings.discard(number);
                write!(text, "away {number} ")?;
            }
            None => break,
        }
    }
    Ok(text)
}

#[test]
fn sockets_are_served_apart(rt: HostRuntime) -> Result<(), AllocError> {
    let alloc = rt.alloc();
    let mut meetings = two(alloc)?;
    assert_eq!(rt; join(&mut meetings, alloc, 5, 1, 10), "Ok");
    assert_eq!(rt; join(&mut meetings, alloc, 7, 2, 10), "Ok");
    let member = meetings.get(7);
    assert_eq!(rt; member.map(|m| (m.conference, m.user)), Some((2, 10)));
    let number = member.map_or(0, |m| m.number);
    assert_eq!(rt; meetings.slot_of(number), Some(7));
    let _named = ready(&mut meetings, alloc)?;

    // Cut anywhere.
    assert_eq!(rt; meetings.came(5, &HELLO[..7], 0), Ok(false));
    assert_eq!(rt; meetings.lent(5).len(), 0);
    assert_eq!(rt; meetings.came(5, &HELLO[7..], 0), Ok(false));
    assert_eq!(rt; meetings.came(7, &OTHER_HELLO, 0), Ok(false));
    assert_eq!(rt; ready(&mut meetings, alloc)?.as_str(), "5 7 ");
    assert_eq!(rt; lent(&meetings, alloc, 5)?.as_str(), ANSWER);
    assert_eq!(rt; lent(&meetings, alloc, 7)?.as_str(), OTHER_ANSWER);
    assert_eq!(rt; meetings.lent(6).len(), 0);

    // A part is taken, and more than what is lent.
    meetings.took(5, 28, 0);
    assert_eq!(rt;
        lent(&meetings, alloc, 5)?.as_str(),
        ANSWER.get(84..).unwrap_or("")
    );
    assert_eq!(rt; lent(&meetings, alloc, 7)?.as_str(), OTHER_ANSWER);
    meetings.took(5, 1_000, 0);
    assert_eq!(rt; meetings.lent(5).len(), 0);
    assert_eq!(rt; lent(&meetings, alloc, 7)?.as_str(), OTHER_ANSWER);
    Ok(())
}

#[test]
fn a_turn_serves_eight_messages(rt: HostRuntime) -> Result<(), AllocError> {
    let alloc = rt.alloc();
    let mut meetings = two(alloc)?;
    assert_eq!(rt; join(&mut meetings, alloc, 0, 1, 10), "Ok");
    let mut bytes = Vec::new(alloc);
    for _ in 0..20 {
        bytes.extend_from_slice(&HELLO)?;
    }
    assert_eq!(rt; meetings.came(0, bytes.as_slice(), 0), Ok(true));
    assert_eq!(rt;
        meetings.hub().journal(1).map_or(0, |events| events.len()),
        9
    );
    assert_eq!(rt; meetings.serve(0, 0), Ok(true));
    assert_eq!(rt; meetings.serve(0, 0), Ok(false));
    assert_eq!(rt;
        meetings.hub().journal(1).map_or(0, |events| events.len()),
        21
    );
    assert_eq!(rt; meetings.serve(1, 0), Ok(false));
    Ok(())
}

#[test]
fn places_are_named_and_given_back(rt: HostRuntime) -> Result<(), AllocError> {
    let alloc = rt.alloc();
    let mut meetings = two(alloc)?;
    let cases = [
        ("the first", 0, 1, 10, "Ok"),
        ("a slot that has a member", 0, 9, 99, "InUse"),
        ("no such conference", 1, 9, 10, "NoConference"),
        ("no such user", 1, 1, 99, "NoUser"),
        ("no such user, again", 1, 1, 99, "NoUser"),
        ("the second of a user", 1, 1, 10, "Ok"),
        ("the third of a user", 2, 1, 10, "UserConnections"),
        ("another user's", 2, 1, 11, "Ok"),
        (
            "the third of the user, and the fourth of all",
            3,
            1,
            10,
            "UserConnections",
        ),
        ("the fourth of all", 3, 1, 11, "Connections"),
        ("another conference's", 3, 2, 10, "Ok"),
    ];
    for (name, slot, conference, user, told) in cases {
        assert_eq!(rt;
            join(&mut meetings, alloc, slot, conference, user),
            told,
            "{name}"
        );
    }
    assert_eq!(rt; meetings.left(0, 0), Ok(false));
    assert_eq!(rt; meetings.get(0).is_some(), false);
    assert_eq!(rt; meetings.left(0, 0), Ok(false));
    assert_eq!(rt; join(&mut meetings, alloc, 4, 1, 10), "Ok");
    assert_eq!(rt; join(&mut meetings, alloc, 0, 1, 11), "Connections");
    assert_eq!(rt; JoinRefusal::Memory.name(), "Memory");
    assert_eq!(rt;
        JoinRefusal::ByHub(HubRefusal::NoConnection).name(),
        "NoConnection"
    );
    Ok(())
}

#[test]
fn whoever_is_over_is_named(rt: HostRuntime) -> Result<(), AllocError> {
    let alloc = rt.alloc();
    let mut meetings = two(alloc)?;
    for slot in 0..2 {
        assert_eq!(rt; join(&mut meetings, alloc, slot, 1, 10), "Ok");
    }
    assert_eq!(rt; join(&mut meetings, alloc, 2, 2, 10), "Ok");
    let _named = ready(&mut meetings, alloc)?;
    assert_eq!(rt; meetings.next_due(), None);

    meetings.ended(0, 500);
    assert_eq!(rt; meetings.until(0), Some(10_500));
    assert_eq!(rt; meetings.next_due(), Some(10_500));
    assert_eq!(rt; meetings.due(10_499), None);
    assert_eq!(rt; meetings.due(10_500), Some(Due::Member(0)));
    assert_eq!(rt; meetings.left(0, 10_500), Ok(false));
    assert_eq!(rt; meetings.due(10_500), None);

    meetings.failed(1, 10_600);
    assert_eq!(rt; meetings.due(10_600), Some(Due::Member(1)));
    assert_eq!(rt; meetings.left(1, 10_600), Ok(false));

    // Whose conference is closed is over, and what it says is refused.
    assert_eq!(rt; meetings.act(2, Act::Close, 10_700).is_ok(), true);
    assert_eq!(rt; meetings.until(2), Some(20_700));
    assert_eq!(rt; meetings.came(2, &OTHER_HELLO, 10_800).is_err(), true);
    assert_eq!(rt; meetings.until(2), Some(20_700));
    assert_eq!(rt; meetings.until(3), None);
    assert_eq!(rt; meetings.act(1, Act::Close, 10_700).is_ok(), true);
    assert_eq!(rt; meetings.forget(1), Ok(()));
    assert_eq!(rt; meetings.forget(2).is_err(), true);
    Ok(())
}

/// What saying a message comes to: its place and the length of its answer, or the refusal's name.
fn said(
    meetings: &mut Meetings,
    alloc: Global,
    user: u16,
    message: &[u8],
) -> Result<String, AllocError> {
    match meetings.say(alloc, 1, user, message, 0) {
        Ok(said) => {
            let len = match &said.reply {
                Some(reply) => reply.len(),
                None => 0,
            };
            format!(in alloc; "{} {len}", said.place)
        }
        Err(refusal) => String::from_str(alloc, refusal.name()),
    }
}

#[test]
fn what_is_said_for_a_user_is_answered_to_who_says_it(rt: HostRuntime) -> Result<(), AllocError> {
    let alloc = rt.alloc();
    let mut meetings = two(alloc)?;
    let found = said(&mut meetings, alloc, 11, &REQUEST)?;
    assert_eq!(rt; found.as_str(), "1 40");
    assert_eq!(rt; meetings.get(0).is_some(), false);
    assert_eq!(rt; join(&mut meetings, alloc, 5, 1, 11), "Ok");
    let _named = ready(&mut meetings, alloc)?;
    let found = said(&mut meetings, alloc, 11, &REQUEST)?;
    assert_eq!(rt;
        found
            .as_str()
            .split_once(' ')
            .map_or("", |(place, _)| place),
        "3"
    );
    // The user's own socket is told as of another's event, in transaction 0.
    assert_eq!(rt; ready(&mut meetings, alloc)?.as_str(), "5 ");
    assert_eq!(rt; meetings.lent(5).get(8..10), Some(&[0u8, 0][..]));
    for (user, message, refused) in [
        (99, &REQUEST[..], "NoUser"),
        (11, &REQUEST[..15], "BadMessage"),
    ] {
        let found = said(&mut meetings, alloc, user, message)?;
        assert_eq!(rt; found.as_str(), refused);
    }
    Ok(())
}

#[test]
fn a_member_outlives_its_socket(rt: HostRuntime) -> Result<(), AllocError> {
    let alloc = rt.alloc();
    let mut meetings = graced(alloc)?;
    assert_eq!(rt; join(&mut meetings, alloc, 0, 1, 10), "Ok");
    assert_eq!(rt; meetings.left(0, 0), Ok(true));
    assert_eq!(rt; meetings.get(0).is_some(), false);
    assert_eq!(rt; meetings.lent(0).len(), 0);
    assert_eq!(rt; meetings.due(999), None);
    assert_eq!(rt; meetings.due(1_000), Some(Due::Away(1)));
    assert_eq!(rt; meetings.leave_away(1, 1_000), Ok(()));
    assert_eq!(rt; meetings.due(1_000), None);
    assert_eq!(rt; meetings.make_room(alloc, 1, 10, 1_000), None);
    // One that leaves at once doesn't stay.
    assert_eq!(rt; join(&mut meetings, alloc, 0, 1, 10), "Ok");
    assert_eq!(rt; meetings.leave(0, 1_000), Ok(()));
    assert_eq!(rt; meetings.get(0).is_some(), false);
    assert_eq!(rt; meetings.due(9_000), None);
    assert_eq!(rt; meetings.leave(0, 9_000), Ok(()));
    Ok(())
}

/// Conference 1 with users 1 to 64, of whom each has a member that is away, as behind a start over a file.
fn resumed(alloc: Global) -> Result<Meetings, AllocError> {
    let mut text = String::new(alloc);
    text.push_str("[[conference]]\nid = 1\nfloor = [{ id = 1 }]\nuser = [")?;
    let mut events = Vec::new(alloc);
    for user in 1u16..=64 {
        write!(text, "{{ id = {user} }}, ")?;
        events.push(Event::Join { user })?;
    }
    text.push_str("]\n")?;
    let mut meetings = Meetings::new(alloc, BOUNDS);
    let Ok(mut configs) = read_configs(alloc, text.as_str()) else {
        return Err(AllocError);
    };
    if let Some(config) = configs.pop() {
        let _resumed = meetings.hub.resume(alloc, config, events.as_slice(), 0);
    }
    Ok(meetings)
}

#[test]
fn nobody_leaves_for_who_is_refused(rt: HostRuntime) -> Result<(), AllocError> {
    let alloc = rt.alloc();
    let mut meetings = resumed(alloc)?;
    for user in 1u16..=3 {
        let slot = usize::from(user);
        assert_eq!(rt; meetings.check(slot, 1, user), Ok(()));
        assert_eq!(rt; meetings.make_room(alloc, 1, user, 0).is_some(), true);
        assert_eq!(rt; join(&mut meetings, alloc, slot, 1, user), "Ok");
    }
    assert_eq!(rt; meetings.check(4, 1, 4), Err(JoinRefusal::Connections));
    assert_eq!(rt; meetings.hub().members(1).map_or(0, |live| live.len()), 64);
    // Of user 4 somebody is away, and would leave.
    assert_eq!(rt; meetings.make_room(alloc, 1, 4, 0).is_some(), true);
    assert_eq!(rt; meetings.hub().members(1).map_or(0, |live| live.len()), 63);
    Ok(())
}

#[test]
fn what_is_told_is_lent_once_it_is_kept(rt: HostRuntime) -> Result<(), AllocError> {
    let alloc = rt.alloc();
    let mut meetings = two(alloc)?;
    assert_eq!(rt; meetings.begin_keeping(9), Err(HubRefusal::NoConference));
    assert_eq!(rt; join(&mut meetings, alloc, 5, 1, 10), "Ok");
    assert_eq!(rt; join(&mut meetings, alloc, 7, 2, 10), "Ok");
    assert_eq!(rt; meetings.begin_keeping(1), Ok(()));
    let _named = ready(&mut meetings, alloc)?;
    assert_eq!(rt; meetings.came(5, &HELLO, 0), Ok(false));
    assert_eq!(rt; meetings.came(7, &OTHER_HELLO, 0), Ok(false));
    let _named = ready(&mut meetings, alloc)?;
    assert_eq!(rt; lent(&meetings, alloc, 5)?.as_str(), "");
    assert_eq!(rt; lent(&meetings, alloc, 7)?.as_str(), OTHER_ANSWER);
    // The join is kept, and then the Hello too.
    assert_eq!(rt; meetings.keep(1, 1), Ok(()));
    let _named = ready(&mut meetings, alloc)?;
    assert_eq!(rt; lent(&meetings, alloc, 5)?.as_str(), "");
    assert_eq!(rt; meetings.keep(1, 2), Ok(()));
    assert_eq!(rt; ready(&mut meetings, alloc)?.as_str(), "5 ");
    assert_eq!(rt; lent(&meetings, alloc, 5)?.as_str(), ANSWER);
    // Behind the end all is lent at once.
    assert_eq!(rt; meetings.came(5, &HELLO, 0), Ok(false));
    assert_eq!(rt; meetings.end_keeping(1), Ok(()));
    assert_eq!(rt; ready(&mut meetings, alloc)?.as_str(), "5 ");
    Ok(())
}
