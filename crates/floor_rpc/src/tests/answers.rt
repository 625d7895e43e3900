//! Each answer and notification once, as it is written.

use crate::{
    About, Answer, ChairTold, ConferenceStanding, Conferences, Created, ErrorName, EventTold,
    Failure, FloorChanged, FloorHolders, FloorShown, FloorStatus, FloorTold, Happened, Holder, Id,
    JournalEntry, JournalPart, List, MemberOf, MemberShown, MessageOf, NextPlace, Notification,
    Numeral, Opened, Phase, Picture, Placed, Primitive, RequestShown, RequestStatus, Response,
    RevokedTold, ServerStanding, ServerTold, Stopped, Text, UserAdded, UserOf, UserShown, UserTold,
    WatchedFrom, What, Word, WordTold, WordsTold, write_line,
};
use std::alloc::{AllocError, Global};
use std::rt::HostRuntime;

fn text(alloc: Global, text: &str) -> Result<Text, AllocError> {
    Ok(Text::from_string(String::from_str(alloc, text)?))
}

fn numbers(alloc: Global, numbers: &[u16]) -> Result<List<u16>, AllocError> {
    Ok(List::from_vec(Vec::from_slice(alloc, numbers)?))
}

/// A list of one item.
fn one<T: Drop>(alloc: Global, item: T) -> Result<List<T>, AllocError> {
    let mut items = Vec::new(alloc);
    match items.push(item) {
        Ok(()) => Ok(List::from_vec(items)),
        Err(_) => Err(AllocError),
    }
}

/// Writes the answer to a request whose id is the text `a`.
fn answer(alloc: Global, out: &mut Vec<u8>, answer: Answer) -> Result<(), AllocError> {
    let id = Id::Text(text(alloc, "a")?);
    let outcome = Ok(answer);
    let _ = write_line(alloc, out, &Response { id, outcome })?;
    Ok(())
}

/// Writes an error for a request whose id is 1.
fn failure(
    alloc: Global,
    out: &mut Vec<u8>,
    name: ErrorName,
    about: About,
) -> Result<(), AllocError> {
    match Numeral::new(alloc, "1")? {
        None => Ok(()),
        Some(numeral) => {
            let id = Id::Number(numeral);
            let outcome = Err(Failure { name, about });
            let _ = write_line(alloc, out, &Response { id, outcome })?;
            Ok(())
        }
    }
}

/// Writes what is told of conference 7.
fn told(alloc: Global, out: &mut Vec<u8>, what: Happened) -> Result<(), AllocError> {
    let told = Notification::Server(ServerTold {
        conference: 7,
        what,
    });
    let _ = write_line(alloc, out, &told)?;
    Ok(())
}

/// Writes an event of conference 7 that shows nothing else.
fn event(alloc: Global, out: &mut Vec<u8>, what: What) -> Result<(), AllocError> {
    let told = Notification::Event(EventTold {
        conference: 7,
        place: 3,
        time: None,
        what,
        requests: List::from_vec(Vec::new(alloc)),
        cut: List::from_vec(Vec::new(alloc)),
        floors: List::from_vec(Vec::new(alloc)),
    });
    let _ = write_line(alloc, out, &told)?;
    Ok(())
}

fn shown_request(alloc: Global) -> Result<RequestShown, AllocError> {
    let floors = one(
        alloc,
        FloorStatus {
            floor: 1,
            status: RequestStatus::Granted,
        },
    )?;
    let info = Some(text(alloc, "Budget")?);
    let since = Some(text(alloc, "2026-11-29T16:00:00.000Z")?);
    Ok(RequestShown {
        request: 9,
        user: 3,
        by: Some(2),
        floors,
        status: RequestStatus::Granted,
        position: 0,
        priority: Some(4),
        info,
        reason: None,
        since,
        granted: None,
    })
}

const ANSWERS: &str = r#"{"jsonrpc":"2.0","id":"a","result":{}}
{"jsonrpc":"2.0","id":"a","result":{"place":130}}
{"jsonrpc":"2.0","id":"a","result":{"conference":7,"users":[1,2],"floors":[]}}
{"jsonrpc":"2.0","id":"a","result":{"conferences":[{"conference":7,"title":"T","phase":"open","members":1,"ongoing":2,"events":3,"kept":true}],"more":false}}
{"jsonrpc":"2.0","id":"a","result":{"user":1,"place":2}}
{"jsonrpc":"2.0","id":"a","result":{"floor":1,"place":2}}
{"jsonrpc":"2.0","id":"a","result":{"request":9,"status":"Accepted","position":1,"place":2}}
{"jsonrpc":"2.0","id":"a","result":{"words":{"title":"\"T\""}}}
{"jsonrpc":"2.0","id":"a","result":{"next":[{"conference":7,"next":4}]}}
{"jsonrpc":"2.0","id":"a","result":{"entries":[{"place":1,"time":null,"line":"1 join 10"}],"next":2}}
{"jsonrpc":"2.0","id":"a","result":{"version":"0.1.0","since":"2026-11-29T16:00:00.000Z","conferences":1,"connections":2,"memory":3,"draining":false}}
{"jsonrpc":"2.0","id":"a","result":{"seats":1,"events":2}}
{"jsonrpc":"2.0","id":"a","result":{"methods":["conference.open","conference.list","conference.get","conference.close","conference.forget","user.add","floor.add","floor.chair","member.remove","user.admit","request.create","request.release","request.accept","request.grant","request.deny","request.revoke","word.set","word.get","watch","unwatch","journal","server.status","server.drain","server.stop","help"]}}
"#;

fn write_answers(alloc: Global) -> Result<Vec<u8>, AllocError> {
    let mut out = Vec::new(alloc);
    answer(alloc, &mut out, Answer::Done)?;
    answer(alloc, &mut out, Answer::Placed(Placed { place: 130 }))?;
    let users = numbers(alloc, &[1, 2])?;
    let floors = numbers(alloc, &[])?;
    let opened = Opened {
        conference: 7,
        users,
        floors,
    };
    answer(alloc, &mut out, Answer::Opened(opened))?;
    let title = Some(text(alloc, "T")?);
    let standing = ConferenceStanding {
        conference: 7,
        title,
        phase: Phase::Running,
        members: 1,
        ongoing: 2,
        events: 3,
        kept: true,
    };
    let conferences = one(alloc, standing)?;
    let more = false;
    answer(
        alloc,
        &mut out,
        Answer::Conferences(Conferences { conferences, more }),
    )?;
    answer(
        alloc,
        &mut out,
        Answer::UserAdded(UserAdded { user: 1, place: 2 }),
    )?;
    answer(
        alloc,
        &mut out,
        Answer::FloorChanged(FloorChanged { floor: 1, place: 2 }),
    )?;
    let created = Created {
        request: 9,
        status: RequestStatus::Accepted,
        position: 1,
        place: 2,
    };
    answer(alloc, &mut out, Answer::Created(created))?;
    write_more_answers(alloc, &mut out)?;
    Ok(out)
}

fn write_more_answers(alloc: Global, out: &mut Vec<u8>) -> Result<(), AllocError> {
    let key = text(alloc, "title")?;
    let word = text(alloc, "\"T\"")?;
    let words = one(alloc, Word { key, text: word })?;
    answer(alloc, out, Answer::Words(WordsTold { words }))?;
    let next = one(
        alloc,
        NextPlace {
            conference: 7,
            next: 4,
        },
    )?;
    answer(alloc, out, Answer::Watched(WatchedFrom { next }))?;
    let line = text(alloc, "1 join 10")?;
    let entry = JournalEntry {
        place: 1,
        time: None,
        line,
    };
    let entries = one(alloc, entry)?;
    answer(
        alloc,
        out,
        Answer::Journal(JournalPart { entries, next: 2 }),
    )?;
    let version = text(alloc, "0.1.0")?;
    let since = text(alloc, "2026-11-29T16:00:00.000Z")?;
    let server = ServerStanding {
        version,
        since,
        conferences: 1,
        connections: 2,
        memory: 3,
        draining: false,
    };
    answer(alloc, out, Answer::Server(server))?;
    answer(
        alloc,
        out,
        Answer::Stopped(Stopped {
            seats: 1,
            events: 2,
        }),
    )?;
    answer(alloc, out, Answer::Help)
}

#[test]
fn each_answer_is_written(rt: HostRuntime) -> Result<(), AllocError> {
    let out = write_answers(rt.alloc())?;
    assert_eq!(rt; std::str::from_utf8(&out).unwrap_or(""), ANSWERS);
    Ok(())
}

const PICTURE: &str =
    r#"{"jsonrpc":"2.0","id":"a","result":{"next":4,"phase":"ended","members":1,"ongoing":1,"title":null,"limit":1,"connections":8,"kept":false,"users":[{"user":3,"name":"Eva","uri":null,"proxy":false,"port":7003,"removed":true,"members":[{"member":1,"behind":1024,"cut":false,"away":30}]}],"floors":[{"floor":1,"title":null,"room":1,"chair":2,"holders":[9],"waiting":[],"pending":[10,11]}],"requests":[{"request":9,"user":3,"by":2,"floors":[{"floor":1,"status":"Granted"}],"status":"Granted","position":0,"priority":4,"info":"Budget","reason":null,"since":"2026-11-29T16:00:00.000Z","granted":null}],"words":{}}}
"#;

fn write_picture(alloc: Global) -> Result<Vec<u8>, AllocError> {
    let member = MemberShown {
        member: 1,
        behind: 1024,
        cut: false,
        away: Some(30),
    };
    let members = one(alloc, member)?;
    let name = Some(text(alloc, "Eva")?);
    let user = UserShown {
        user: 3,
        name,
        uri: None,
        proxy: false,
        port: Some(7003),
        removed: true,
        members,
    };
    let users = one(alloc, user)?;
    let holders = numbers(alloc, &[9])?;
    let waiting = numbers(alloc, &[])?;
    let pending = numbers(alloc, &[10, 11])?;
    let floor = FloorShown {
        floor: 1,
        title: None,
        room: 1,
        chair: Some(2),
        holders,
        waiting,
        pending,
    };
    let floors = one(alloc, floor)?;
    let request = shown_request(alloc)?;
    let requests = one(alloc, request)?;
    let picture = Picture {
        next: 4,
        phase: Phase::Ended,
        members: 1,
        ongoing: 1,
        title: None,
        limit: 1,
        connections: 8,
        kept: false,
        users,
        floors,
        requests,
        words: List::from_vec(Vec::new(alloc)),
    };
    let mut out = Vec::new(alloc);
    answer(alloc, &mut out, Answer::Picture(picture))?;
    Ok(out)
}

#[test]
fn a_picture_is_written(rt: HostRuntime) -> Result<(), AllocError> {
    let out = write_picture(rt.alloc())?;
    assert_eq!(rt; std::str::from_utf8(&out).unwrap_or(""), PICTURE);
    Ok(())
}

const TOLD: &str =
    r#"{"jsonrpc":"2.0","method":"event","params":{"conference":7,"place":3,"time":null,"what":{"event":"joined","member":1,"user":3},"requests":[],"cut":[],"floors":[]}}
{"jsonrpc":"2.0","method":"event","params":{"conference":7,"place":3,"time":null,"what":{"event":"left","member":1,"user":3},"requests":[],"cut":[],"floors":[]}}
{"jsonrpc":"2.0","method":"event","params":{"conference":7,"place":3,"time":null,"what":{"event":"closed"},"requests":[],"cut":[],"floors":[]}}
{"jsonrpc":"2.0","method":"event","params":{"conference":7,"place":3,"time":null,"what":{"event":"user","user":3,"name":null,"uri":null,"proxy":true,"port":null},"requests":[],"cut":[],"floors":[]}}
{"jsonrpc":"2.0","method":"event","params":{"conference":7,"place":3,"time":null,"what":{"event":"floor","floor":1,"room":2,"chair":null},"requests":[],"cut":[],"floors":[]}}
{"jsonrpc":"2.0","method":"event","params":{"conference":7,"place":3,"time":null,"what":{"event":"chair","floor":1,"chair":3},"requests":[],"cut":[],"floors":[]}}
{"jsonrpc":"2.0","method":"event","params":{"conference":7,"place":3,"time":null,"what":{"event":"revoked","request":9},"requests":[],"cut":[],"floors":[]}}
{"jsonrpc":"2.0","method":"event","params":{"conference":7,"place":130,"time":"2026-11-29T16:00:00.000Z","what":{"event":"message","member":null,"user":3,"primitive":"FloorRequest","request":9},"requests":[{"request":9,"user":3,"by":2,"floors":[{"floor":1,"status":"Granted"}],"status":"Granted","position":0,"priority":4,"info":"Budget","reason":null,"since":"2026-11-29T16:00:00.000Z","granted":null}],"cut":[{"member":4,"user":5}],"floors":[{"floor":1,"holders":[{"request":9,"user":3}]}]}}
{"jsonrpc":"2.0","method":"server","params":{"conference":7,"what":{"event":"opened"}}}
{"jsonrpc":"2.0","method":"server","params":{"conference":7,"what":{"event":"forgotten"}}}
{"jsonrpc":"2.0","method":"server","params":{"conference":7,"what":{"event":"broken"}}}
{"jsonrpc":"2.0","method":"server","params":{"conference":7,"what":{"event":"unkept"}}}
{"jsonrpc":"2.0","method":"server","params":{"conference":7,"what":{"event":"away","member":1,"user":3}}}
{"jsonrpc":"2.0","method":"server","params":{"conference":7,"what":{"event":"back","member":1,"user":3}}}
{"jsonrpc":"2.0","method":"server","params":{"conference":7,"what":{"event":"removed","user":3}}}
{"jsonrpc":"2.0","method":"server","params":{"conference":7,"what":{"event":"admitted","user":3}}}
{"jsonrpc":"2.0","method":"server","params":{"conference":7,"what":{"event":"word","key":"title","text":null}}}
"#;

fn write_told(alloc: Global) -> Result<Vec<u8>, AllocError> {
    let mut out = Vec::new(alloc);
    let (member, user, floor) = (1, 3, 1);
    event(alloc, &mut out, What::Joined(MemberOf { member, user }))?;
    event(alloc, &mut out, What::Left(MemberOf { member, user }))?;
    event(alloc, &mut out, What::Closed)?;
    let added = UserTold {
        user,
        name: None,
        uri: None,
        proxy: true,
        port: None,
    };
    event(alloc, &mut out, What::User(added))?;
    let added = FloorTold {
        floor,
        room: 2,
        chair: None,
    };
    event(alloc, &mut out, What::Floor(added))?;
    let chair = Some(user);
    event(alloc, &mut out, What::Chair(ChairTold { floor, chair }))?;
    event(alloc, &mut out, What::Revoked(RevokedTold { request: 9 }))?;
    write_a_message(alloc, &mut out)?;
    told(alloc, &mut out, Happened::Opened)?;
    told(alloc, &mut out, Happened::Forgotten)?;
    told(alloc, &mut out, Happened::Broken)?;
    told(alloc, &mut out, Happened::Unkept)?;
    told(alloc, &mut out, Happened::Away(MemberOf { member, user }))?;
    told(alloc, &mut out, Happened::Back(MemberOf { member, user }))?;
    told(alloc, &mut out, Happened::Removed(UserOf { user }))?;
    told(alloc, &mut out, Happened::Admitted(UserOf { user }))?;
    let key = text(alloc, "title")?;
    told(
        alloc,
        &mut out,
        Happened::Word(WordTold { key, text: None }),
    )?;
    Ok(out)
}

fn write_a_message(alloc: Global, out: &mut Vec<u8>) -> Result<(), AllocError> {
    let what = What::Message(MessageOf {
        member: None,
        user: 3,
        primitive: Primitive::FloorRequest,
        request: Some(9),
    });
    let time = Some(text(alloc, "2026-11-29T16:00:00.000Z")?);
    let request = shown_request(alloc)?;
    let requests = one(alloc, request)?;
    let cut = one(alloc, MemberOf { member: 4, user: 5 })?;
    let holders = one(
        alloc,
        Holder {
            request: 9,
            user: 3,
        },
    )?;
    let floors = one(alloc, FloorHolders { floor: 1, holders })?;
    let told = Notification::Event(EventTold {
        conference: 7,
        place: 130,
        time,
        what,
        requests,
        cut,
        floors,
    });
    let _ = write_line(alloc, out, &told)?;
    Ok(())
}

#[test]
fn each_notification_is_written(rt: HostRuntime) -> Result<(), AllocError> {
    let out = write_told(rt.alloc())?;
    assert_eq!(rt; std::str::from_utf8(&out).unwrap_or(""), TOLD);
    Ok(())
}

const FAILED: &str =
    r#"{"jsonrpc":"2.0","id":1,"error":{"code":1,"message":"NoConference","data":{"conference":7}}}
{"jsonrpc":"2.0","id":1,"error":{"code":13,"message":"NoUser","data":{"user":3}}}
{"jsonrpc":"2.0","id":1,"error":{"code":14,"message":"NoMember","data":{"member":4}}}
{"jsonrpc":"2.0","id":1,"error":{"code":15,"message":"NoFloor","data":{"floor":1}}}
{"jsonrpc":"2.0","id":1,"error":{"code":16,"message":"NoRequest","data":{"request":9}}}
{"jsonrpc":"2.0","id":1,"error":{"code":17,"message":"Unauthorized","data":{"place":130}}}
{"jsonrpc":"2.0","id":1,"error":{"code":29,"message":"Syntax","data":{"line":2}}}
{"jsonrpc":"2.0","id":1,"error":{"code":7,"message":"Forbidden","data":null}}
"#;

fn write_failures(alloc: Global) -> Result<Vec<u8>, AllocError> {
    let mut out = Vec::new(alloc);
    failure(
        alloc,
        &mut out,
        ErrorName::NoConference,
        About::Conference(7),
    )?;
    failure(alloc, &mut out, ErrorName::NoUser, About::User(3))?;
    failure(alloc, &mut out, ErrorName::NoMember, About::Member(4))?;
    failure(alloc, &mut out, ErrorName::NoFloor, About::Floor(1))?;
    failure(alloc, &mut out, ErrorName::NoRequest, About::Request(9))?;
    failure(alloc, &mut out, ErrorName::Unauthorized, About::Place(130))?;
    failure(alloc, &mut out, ErrorName::Syntax, About::Line(2))?;
    failure(alloc, &mut out, ErrorName::Forbidden, About::All)?;
    Ok(out)
}

#[test]
fn each_kind_of_error_is_written(rt: HostRuntime) -> Result<(), AllocError> {
    let out = write_failures(rt.alloc())?;
    assert_eq!(rt; std::str::from_utf8(&out).unwrap_or(""), FAILED);
    Ok(())
}
