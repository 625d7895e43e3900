//! Rooms of conferences that are changed while they run: another chair, a floor more, a user more.

use super::{answer, done, number, replayed_from, text_of};
use crate::cases::{assert_told, differing};
use floor_config::Text;
use floor_room::{Act, AddedUser, Config, Effects, Event, Floor, Room, User};
use floor_words::read_u16;
use std::alloc::{AllocError, Global};

/// Chairs come and go, a floor and a user are added, and the journal is one of the opening
/// configuration.
const A_CONFERENCE_CHANGES: &str = "\
join 10 > ok 1
join 11 > ok 2
join 12 > ok 3
serve 1 20010001000000010001000a04040004 > ok 4
take 1 > sent 20040007 00000001 0001000a 1e1c0001 24080001 0a040100 22080004 0a040100 1c04000a 08044000
rest > 0
chair 4 > ok
take 1 > sent 20040007 00000001 0000000a 1e1c0001 24080001 0a040300 22080004 0a040300 1c04000a 08044000
rest > 0
floor 5 1 11 > ok
rest > 0
serve 1 20010001000000010002000a04040005 > ok 7
take 1 > sent 20040007 00000001 0002000a 1e1c0002 24080002 0a040100 22080005 0a040100 1c04000a 08044000
rest > 0
chair 5 10 > ok
rest > 0
user 10 > DoubleUser
rest > 0
chair 9 > NoFloor
rest > 0
chair 5 99 > UnknownChair
rest > 0
user 13 > ok
rest > 0
join 13 > ok 4
journal > 1 join 10|2 join 11|3 join 12|4 message 1 20010001000000010001000a04040004|5 chair 4 -|6 floor 5 1 11|7 message 1 20010001000000010002000a04040005|8 chair 5 10|9 user 13 0 - -|10 join 13|end 10|
replay 1 > sent 20040007 00000001 0001000a 1e1c0001 24080001 0a040100 22080004 0a040100 1c04000a 08044000 20040007 00000001 0000000a 1e1c0001 24080001 0a040300 22080004 0a040300 1c04000a 08044000 20040007 00000001 0002000a 1e1c0002 24080002 0a040100 22080005 0a040100 1c04000a 08044000
replay 2 > none
replay 3 > none
replay 4 > none
replay_now 1 > NotAJournal 6";

/// A chair is replaced, taken away and given back: request 3 is express as long as the chair's
/// words stand.
const A_CHAIR_COMES_AND_GOES: &str = "\
join 10 > ok 1
join 11 > ok 2
join 12 > ok 3
serve 1 20010001000000010001000a04040004 > ok 4
take 1 > sent 20040007 00000001 0001000a 1e1c0001 24080001 0a040100 22080004 0a040100 1c04000a 08044000
rest > 0
serve 3 20090003000000010001000c1e0c0001220800040a040300 > ok 5
take 1 > sent 20040007 00000001 0000000a 1e1c0001 24080001 0a040300 22080004 0a040300 1c04000a 08044000
take 3 > sent 200a0000 00000001 0001000c
rest > 0
serve 2 20010002000000010002000b0404000408048000 > ok 6
take 2 > sent 20040007 00000001 0002000b 1e1c0002 24080002 0a040100 22080004 0a040100 1c04000b 08048000
rest > 0
serve 3 20090003000000010002000c1e0c0002220800040a040200 > ok 7
take 2 > sent 20040007 00000001 0000000b 1e1c0002 24080002 0a040201 22080004 0a040201 1c04000b 08048000
take 3 > sent 200a0000 00000001 0002000c
rest > 0
serve 1 20010002000000010003000a0404000408040000 > ok 8
take 1 > sent 20040007 00000001 0003000a 1e1c0003 24080003 0a040100 22080004 0a040100 1c04000a 08040000
rest > 0
serve 3 20090003000000010003000c1e0c0003220800040a040300 > ok 9
take 1 > sent 20040007 00000001 0000000a 1e1c0003 24080003 0a040201 22080004 0a040201 1c04000a 08040000
take 2 > sent 20040007 00000001 0000000b 1e1c0002 24080002 0a040202 22080004 0a040202 1c04000b 08048000
take 3 > sent 200a0000 00000001 0003000c
rest > 0
chair 4 11 > ok
rest > 0
chair 4 11 > ok
rest > 0
chair 4 > ok
take 1 > sent 20040007 00000001 0000000a 1e1c0003 24080003 0a040202 22080004 0a040202 1c04000a 08040000
take 2 > sent 20040007 00000001 0000000b 1e1c0002 24080002 0a040201 22080004 0a040201 1c04000b 08048000
rest > 0
chair 4 > ok
rest > 0
chair 4 12 > ok
rest > 0
serve 3 20090003000000010004000c1e0c0003220800040a040300 > ok 15
take 1 > sent 20040007 00000001 0000000a 1e1c0003 24080003 0a040201 22080004 0a040201 1c04000a 08040000
take 2 > sent 20040007 00000001 0000000b 1e1c0002 24080002 0a040202 22080004 0a040202 1c04000b 08048000
take 3 > sent 200a0000 00000001 0004000c
rest > 0";

/// A floor gets its first chair: what was Accepted stays, and the next request is Pending.
const A_FIRST_CHAIR: &str = "\
join 10 > ok 1
join 11 > ok 2
join 12 > ok 3
serve 1 20010001000000010001000a04040001 > ok 4
take 1 > sent 20040007 00000001 0001000a 1e1c0001 24080001 0a040300 22080001 0a040300 1c04000a 08044000
rest > 0
serve 2 20010001000000010001000b04040001 > ok 5
take 2 > sent 20040007 00000001 0001000b 1e1c0002 24080002 0a040201 22080001 0a040201 1c04000b 08044000
rest > 0
serve 3 20010001000000010001000c04040001 > ok 6
take 3 > sent 20040007 00000001 0001000c 1e1c0003 24080003 0a040202 22080001 0a040202 1c04000c 08044000
rest > 0
chair 1 12 > ok
rest > 0
serve 1 20010001000000010002000a04040001 > ok 8
take 1 > sent 20040007 00000001 0002000a 1e1c0004 24080004 0a040100 22080001 0a040100 1c04000a 08044000
rest > 0
serve 3 20090003000000010002000c1e0c0003220800010a040300 > ok 9
take 2 > sent 20040007 00000001 0000000b 1e1c0002 24080002 0a040202 22080001 0a040202 1c04000b 08044000
take 3 > sent 200a0000 00000001 0002000c
take 3 > sent 20040007 00000001 0000000c 1e1c0003 24080003 0a040201 22080001 0a040201 1c04000c 08044000
rest > 0
serve 3 20090003000000010003000c1e0c0001220800010a040700 > ok 10
take 1 > sent 20040007 00000001 0000000a 1e1c0001 24080001 0a040700 22080001 0a040700 1c04000a 08044000
take 2 > sent 20040007 00000001 0000000b 1e1c0002 24080002 0a040201 22080001 0a040201 1c04000b 08044000
take 3 > sent 200a0000 00000001 0003000c
take 3 > sent 20040007 00000001 0000000c 1e1c0003 24080003 0a040300 22080001 0a040300 1c04000c 08044000
rest > 0";

/// A request is express by the chairs that its floors have now.
const EXPRESS_BY_THE_CHAIRS_OF_NOW: &str = "\
join 10 > ok 1
join 11 > ok 2
join 12 > ok 3
serve 1 20010002000000010001000a0404000104040004 > ok 4
take 1 > sent 20040009 00000001 0001000a 1e240001 24080001 0a040100 22080001 0a040200 22080004 0a040100 1c04000a 08044000
rest > 0
serve 3 20090003000000010001000c1e0c0001220800040a040300 > ok 5
take 1 > sent 20040009 00000001 0000000a 1e240001 24080001 0a040300 22080001 0a040300 22080004 0a040300 1c04000a 08044000
take 3 > sent 200a0000 00000001 0001000c
rest > 0
serve 2 20010002000000010001000b0404000108048000 > ok 6
take 2 > sent 20040007 00000001 0001000b 1e1c0002 24080002 0a040201 22080001 0a040201 1c04000b 08048000
rest > 0
serve 1 20010003000000010002000a040400010404000408040000 > ok 7
take 1 > sent 20040009 00000001 0002000a 1e240003 24080003 0a040100 22080001 0a040200 22080004 0a040100 1c04000a 08040000
rest > 0
serve 3 20090003000000010002000c1e0c0003220800040a040300 > ok 8
take 1 > sent 20040009 00000001 0000000a 1e240003 24080003 0a040201 22080001 0a040201 22080004 0a040201 1c04000a 08040000
take 2 > sent 20040007 00000001 0000000b 1e1c0002 24080002 0a040202 22080001 0a040202 1c04000b 08048000
take 3 > sent 200a0000 00000001 0002000c
rest > 0
chair 1 12 > ok
take 1 > sent 20040009 00000001 0000000a 1e240003 24080003 0a040202 22080001 0a040202 22080004 0a040201 1c04000a 08040000
take 2 > sent 20040007 00000001 0000000b 1e1c0002 24080002 0a040201 22080001 0a040201 1c04000b 08048000
rest > 0
chair 1 > ok
take 1 > sent 20040009 00000001 0000000a 1e240003 24080003 0a040201 22080001 0a040201 22080004 0a040201 1c04000a 08040000
take 2 > sent 20040007 00000001 0000000b 1e1c0002 24080002 0a040202 22080001 0a040202 1c04000b 08048000
rest > 0";

/// Whoever waits for a chair that is taken away may be granted at once.
const A_CHANGE_OF_CHAIR_GRANTS: &str = "\
join 10 > ok 1
join 11 > ok 2
join 12 > ok 3
serve 3 20010001000000010001000c04040001 > ok 4
take 3 > sent 20040007 00000001 0001000c 1e1c0001 24080001 0a040300 22080001 0a040300 1c04000c 08044000
rest > 0
serve 1 20010003000000010001000a040400010404000208048000 > ok 5
take 1 > sent 20040009 00000001 0001000a 1e240002 24080002 0a040201 22080001 0a040201 22080002 0a040201 1c04000a 08048000
rest > 0
serve 2 20010004000000010001000b04040002040400040404000508040000 > ok 6
take 2 > sent 2004000b 00000001 0001000b 1e2c0003 24080003 0a040100 22080002 0a040200 22080004 0a040100 22080005 0a040100 1c04000b 08040000
rest > 0
serve 3 20090005000000010002000c1e140003220800040a040300220800050a040200 > ok 7
take 2 > sent 2004000b 00000001 0000000b 1e2c0003 24080003 0a040202 22080002 0a040202 22080004 0a040201 22080005 0a040201 1c04000b 08040000
take 3 > sent 200a0000 00000001 0002000c
rest > 0
chair 5 > ok
take 2 > sent 2004000b 00000001 0000000b 1e2c0003 24080003 0a040300 22080002 0a040300 22080004 0a040300 22080005 0a040300 1c04000b 08040000
rest > 0";

/// Who watches the floor is told what is shown otherwise by another chair, and the chair is told
/// nothing.
const WATCHERS_OF_A_CHANGED_CHAIR: &str = "\
join 10 > ok 1
join 11 > ok 2
join 12 > ok 3
serve 2 20070001000000010001000b04040004 > ok 4
take 2 > sent 20080001 00000001 0001000b 04040004
rest > 0
serve 1 20010001000000010001000a04040004 > ok 5
take 1 > sent 20040007 00000001 0001000a 1e1c0001 24080001 0a040100 22080004 0a040100 1c04000a 08044000
take 2 > sent 20080008 00000001 0000000b 04040004 1e1c0001 24080001 0a040100 22080004 0a040100 1c04000a 08044000
rest > 0
chair 4 > ok
take 1 > sent 20040007 00000001 0000000a 1e1c0001 24080001 0a040300 22080004 0a040300 1c04000a 08044000
take 2 > sent 20080008 00000001 0000000b 04040004 1e1c0001 24080001 0a040300 22080004 0a040300 1c04000a 08044000
rest > 0";

/// A user and a floor that are added can be asked about and for from then on.
const NEW_USERS_AND_FLOORS: &str = "\
join 10 > ok 1
join 11 > ok 2
join 12 > ok 3
serve 1 20050001000000010001000a0204000d > ok 4
take 1 > sent 200d0001 00000001 0001000a 0c030200
rest > 0
serve 1 20010001000000010002000a04040002 > ok 5
take 1 > sent 200d0001 00000001 0002000a 0c030600
rest > 0
user 13 > ok
rest > 0
floor 2 1 - > ok
rest > 0
serve 1 20050001000000010003000a0204000d > ok 8
take 1 > sent 20060001 00000001 0003000a 1c04000d
rest > 0
serve 1 20010001000000010004000a04040002 > ok 9
take 1 > sent 20040007 00000001 0004000a 1e1c0001 24080001 0a040300 22080002 0a040300 1c04000a 08044000
rest > 0
serve 1 20070001000000010005000a04040002 > ok 10
take 1 > sent 20080008 00000001 0005000a 04040002 1e1c0001 24080001 0a040300 22080002 0a040300 1c04000a 08044000
rest > 0";

/// A user that is added with a name is shown with it, and one with a proxy mark asks for others.
const A_NEW_USER_WITH_A_NAME: &str = "\
join 10 > ok 1
join 11 > ok 2
join 12 > ok 3
user 13 name Ann > ok
rest > 0
serve 1 20050001000000010001000a0204000d > ok 5
take 1 > sent 20060003 00000001 0001000a 1c0c000d 1805416e 6e000000
rest > 0
user 14 proxy > ok
rest > 0
join 14 > ok 4
serve 4 20010002000000010001000e040400010204000d > ok 8
take 4 > sent 2004000a 00000001 0001000e 1e280001 24080001 0a040300 22080001 0a040300 1c0c000d 1805416e 6e000000 2004000e 08044000
rest > 0
serve 1 200b0000000000010002000f > ok 9
take 1 > sent 200d0001 00000001 0002000f 0c030200
rest > 0
serve 1 200b0000000000010003000e > ok 10
take 1 > sent 200d0001 00000001 0003000e 0c030500
rest > 0";

/// Each act is refused by the first of its checks that applies, and changes nothing.
const ORDER_OF_THE_CHECKS: &str = "\
user 13 name xxxxxxxxxxxxxxxxxxxxxxxxxxxxxxx > OutOfRange
user 10 name xxxxxxxxxxxxxxxxxxxxxxxxxxxxxxx > OutOfRange
floor 1 0 99 > OutOfRange
floor 1 1 99 > DoubleFloor
floor 2 1 99 > UnknownChair
floor 2 256 - > OutOfRange
chair 9 99 > NoFloor
chair 1 99 > UnknownChair
journal > end 0|
close > ok
user 13 > Ended";

/// The lines of a script that answer something else than is wanted, and how many it has. The
/// conference opens with users 10 to 12, floor 1 and these floors.
fn told_of_changed(alloc: Global, floors: &str, script: &str) -> Result<String, AllocError> {
    let config = opening(alloc, floors)?;
    let mut room = Room::new(alloc, config.copy(alloc)?)?;
    differing(alloc, script, "\n", " > ", |alloc, line| {
        changed(alloc, &config, &mut room, line)
    })
}

/// The configuration for demonstrations with these floors behind its own.
fn opening(alloc: Global, floors: &str) -> Result<Config, AllocError> {
    let mut config = Config::demonstration(alloc)?;
    for words in floors.split('|') {
        if let Some(floor) = floor(words) {
            let _added = config.add_floor(floor);
        }
    }
    Ok(config)
}

/// What a line answers: an act of the administrator, what else is left to be taken, a replay, or
/// what a line of any room does.
fn changed(
    alloc: Global,
    config: &Config,
    room: &mut Room,
    line: &str,
) -> Result<String, AllocError> {
    let (word, rest) = line.split_once(' ').unwrap_or((line, ""));
    match word {
        "user" => done(
            alloc,
            room.admin(
                Act::AddUser(AddedUser::new(alloc, user(alloc, rest)?)?),
                &mut Effects::new(alloc),
            ),
        ),
        "floor" => match floor(rest) {
            Some(floor) => done(
                alloc,
                room.admin(Act::AddFloor(floor), &mut Effects::new(alloc)),
            ),
            None => String::from_str(alloc, "no floor"),
        },
        "chair" => {
            let (floor, chair) = rest.split_once(' ').unwrap_or((rest, "-"));
            done(
                alloc,
                room.admin(
                    Act::SetChair(short(floor), read_u16(chair)),
                    &mut Effects::new(alloc),
                ),
            )
        }
        "rest" => left(alloc, room),
        "replay" => replayed_from(alloc, config, room.journal(), number(rest)),
        "replay_now" => {
            let now = now(alloc, config, room.journal())?;
            replayed_from(alloc, &now, room.journal(), number(rest))
        }
        _ => answer(alloc, room, line),
    }
}

fn short(word: &str) -> u16 {
    read_u16(word).unwrap_or(0)
}

/// A floor by its id, its room and its chair, or `-`.
fn floor(words: &str) -> Option<Floor> {
    let (id, rest) = words.split_once(' ')?;
    let (room, chair) = rest.split_once(' ')?;
    Some(Floor {
        id: short(id),
        room: short(room),
        chair: read_u16(chair),
    })
}

/// A user by its id, and `proxy` or `name` and a name.
fn user(alloc: Global, words: &str) -> Result<User, AllocError> {
    let (id, option) = words.split_once(' ').unwrap_or((words, ""));
    let name = match option.strip_prefix("name ") {
        Some(name) => Some(Text::from_string(String::from_str(alloc, name)?)),
        None => None,
    };
    Ok(User {
        id: short(id),
        name,
        uri: None,
        proxy: option == "proxy",
        port: None,
    })
}

/// How many parcels wait for the members.
fn left(alloc: Global, room: &Room) -> Result<String, AllocError> {
    let mut count = 0usize;
    for n in 1..5 {
        if let Some(held) = room.held(n) {
            count = count.wrapping_add(held.len());
        }
    }
    format!(in alloc; "{count}")
}

/// The configuration that stands after the events.
fn now(alloc: Global, config: &Config, events: &[Event]) -> Result<Config, AllocError> {
    let mut now = config.copy(alloc)?;
    for event in events {
        match event {
            Event::AddUser { user } => {
                let _added = now.add_user(user.as_user().copy(alloc)?);
            }
            Event::AddFloor { floor } => {
                let _added = now.add_floor(*floor);
            }
            Event::SetChair { floor, chair } => {
                let _set = now.set_chair(*floor, *chair);
            }
            _ => {}
        }
    }
    Ok(now)
}

#[test]
fn acts_have_lines_in_the_journal(rt: HostRuntime) {
    let told = lines_of_acts(rt.alloc());
    assert_told(
        &rt,
        told,
        "1 user 14 1 416e6e 7369703a614062|2 took 2 64|3 floor 7 255 -|end 3|",
    );
}

/// The lines of a user with a name, a URI, a proxy mark and a port, of an acknowledgement, and of a
/// floor without a chair.
fn lines_of_acts(alloc: Global) -> Result<String, AllocError> {
    let user = User {
        id: 14,
        name: Some(Text::from_string(String::from_str(alloc, "Ann")?)),
        uri: Some(Text::from_string(String::from_str(alloc, "sip:a@b")?)),
        proxy: true,
        port: Some(7010),
    };
    let floor = Floor {
        id: 7,
        room: 255,
        chair: None,
    };
    let events = [
        Event::AddUser {
            user: AddedUser::new(alloc, user)?,
        },
        Event::Took { n: 2, k: 64 },
        Event::AddFloor { floor },
    ];
    text_of(alloc, &events)
}

#[test]
fn a_conference_changes_while_it_runs(rt: HostRuntime) {
    let told = told_of_changed(rt.alloc(), "4 1 12", A_CONFERENCE_CHANGES);
    assert_told(&rt, told, "31 cases");
}

#[test]
fn a_chair_is_replaced_taken_away_and_given_back(rt: HostRuntime) {
    let told = told_of_changed(rt.alloc(), "4 1 12", A_CHAIR_COMES_AND_GOES);
    assert_told(&rt, told, "42 cases");
}

#[test]
fn a_floor_gets_its_first_chair(rt: HostRuntime) {
    let told = told_of_changed(rt.alloc(), "", A_FIRST_CHAIR);
    assert_told(&rt, told, "28 cases");
}

#[test]
fn a_request_is_express_by_the_chairs_of_now(rt: HostRuntime) {
    let told = told_of_changed(rt.alloc(), "4 1 12", EXPRESS_BY_THE_CHAIRS_OF_NOW);
    assert_told(&rt, told, "29 cases");
}

#[test]
fn a_change_of_chair_grants(rt: HostRuntime) {
    let told = told_of_changed(rt.alloc(), "2 1 -|4 1 12|5 1 12", A_CHANGE_OF_CHAIR_GRANTS);
    assert_told(&rt, told, "19 cases");
}

#[test]
fn who_watches_is_told_of_a_changed_chair(rt: HostRuntime) {
    let told = told_of_changed(rt.alloc(), "4 1 12", WATCHERS_OF_A_CHANGED_CHAIR);
    assert_told(&rt, told, "14 cases");
}

#[test]
fn new_users_and_floors_are_there_from_then_on(rt: HostRuntime) {
    let told = told_of_changed(rt.alloc(), "", NEW_USERS_AND_FLOORS);
    assert_told(&rt, told, "22 cases");
}

#[test]
fn a_new_user_is_shown_with_its_name(rt: HostRuntime) {
    let told = told_of_changed(rt.alloc(), "", A_NEW_USER_WITH_A_NAME);
    assert_told(&rt, told, "20 cases");
}

#[test]
fn an_act_is_refused_by_the_first_check_that_applies(rt: HostRuntime) {
    let told = told_of_changed(rt.alloc(), "", ORDER_OF_THE_CHECKS);
    assert_told(&rt, told, "11 cases");
}
