//! What the administrator of a conference does.

ghost use Rattle.std.specs.Prelude.{◌≡◌, ◌≤◌, Some, None, IfOk, IfErr, true, false, if◌then◌else◌, length, take, MatchResult};
ghost use Rattle.floor_machine.specs.declared.act.Act.TheVariants.{AddFloor, Close, Revoke, SetChair};
ghost use Rattle.floor_ffi.specs.Gives.{ActGives, PutsReply, SayGives, UserGives};
ghost use Rattle.floor_ffi.specs.declared.outcome.Outcome.TheVariants.{NotUtf8, Refused};

use crate::answers::FloorSaid;
use crate::opening::outcome_of;
use crate::outcome::Outcome;
use floor_config::Text;
use floor_hub::{Act, AddedUser, Floor, Hub, HubRefusal, User};
use floor_wire::SharedFrame;
use std::alloc::{AllocError, Global};

/// Ends a conference.
pub(crate) fn close(hub: &mut Hub, conference: u32) -> u32
    ensures gives { ActGives hub.old conference Close hub.new result }
{
    outcome_of(hub.admin(conference, Act::Close)).number()
}

/// Takes a floor request's floors away.
pub(crate) fn revoke(hub: &mut Hub, conference: u32, request: u16) -> u32
    ensures gives { ActGives hub.old conference (Revoke request) hub.new result }
{
    outcome_of(hub.admin(conference, Act::Revoke(request))).number()
}

/// Adds a floor.
pub(crate) fn add_floor(
    hub: &mut Hub,
    conference: u32,
    id: u16,
    room: u16,
    has_chair: bool,
    chair: u16,
) -> u32
    ensures gives { ActGives hub.old conference
        (AddFloor record { id = id; room = room; chair = if has_chair then Some chair else None })
        hub.new result }
{
    let chair = chair_of(has_chair, chair);
    let floor = Floor { id, room, chair };
    outcome_of(hub.admin(conference, Act::AddFloor(floor))).number()
}

/// Gives a floor a chair, or none.
pub(crate) fn set_chair(
    hub: &mut Hub,
    conference: u32,
    floor: u16,
    has_chair: bool,
    chair: u16,
) -> u32
    ensures gives { ActGives hub.old conference
        (SetChair floor (if has_chair then Some chair else None)) hub.new result }
{
    let chair = chair_of(has_chair, chair);
    outcome_of(hub.admin(conference, Act::SetChair(floor, chair))).number()
}

/// A floor's chair, where it has one.
fn chair_of(has_chair: bool, chair: u16) -> Option<u16>
    ensures value { result ≡ (if has_chair then Some chair else None) }
{
    if has_chair { Some(chair) } else { None }
}

/// Adds a user.
pub(crate) fn add_user(
    hub: &mut Hub,
    alloc: Global,
    conference: u32,
    id: u16,
    proxy: bool,
    name: &[u8],
    uri: &[u8],
) -> u32
    ensures gives { UserGives hub.old conference id proxy name.now uri.now hub.new result }
{
    let Ok(name) = std::str::from_utf8(name) else {
        return Outcome::NotUtf8.number();
    };
    let Ok(uri) = std::str::from_utf8(uri) else {
        return Outcome::NotUtf8.number();
    };
    match user_of(alloc, id, proxy, name, uri) {
        Ok(user) => outcome_of(hub.admin(conference, Act::AddUser(user))).number(),
        Err(_) => Outcome::Refused(HubRefusal::Memory).number(),
    }
}

/// A user of these texts.
fn user_of(
    alloc: Global,
    id: u16,
    proxy: bool,
    name: &str,
    uri: &str,
) -> Result<AddedUser, AllocError>
    ensures value { IfOk result (λ user. user ≡ record {
      id = id;
      name = Some name.now;
      uri = Some uri.now;
      proxy = proxy;
      port = None;
    }) }
{
    let name = Text::from_string(String::from_str(alloc, name)?);
    let uri = Text::from_string(String::from_str(alloc, uri)?);
    AddedUser::new(
        alloc,
        User {
            id,
            name: Some(name),
            uri: Some(uri),
            proxy,
            port: None,
        },
    )
}

/// Says a message for a user, and writes what answers it, where there is room for that.
pub(crate) fn say(
    hub: &mut Hub,
    alloc: Global,
    conference: u32,
    user: u16,
    message: &[u8],
    room: &mut [u8],
) -> FloorSaid
    ensures gives { SayGives hub.old conference user message.now hub.new result.result
        result.place result.len room.old room.new }
{
    match hub.say(alloc, conference, user, message) {
        Ok(said) => {
            let len = put_reply(&said.reply, room);
            FloorSaid {
                result: Outcome::Done.number(),
                place: said.place,
                len,
            }
        }
        Err(refusal) => FloorSaid {
            result: Outcome::Refused(refusal).number(),
            place: 0,
            len: 0,
        },
    }
}

/// Writes an answer, where there is one and room for it, and gives its length: 0 where there is none.
fn put_reply(reply: &Option<SharedFrame>, room: &mut [u8]) -> usize
    ensures puts { PutsReply reply.now result room.old room.new }
{
    match reply {
        Some(reply) => {
            let len = reply.len();
            if len <= room.len() {
                fill(reply, room);
            }
            len
        }
        None => 0,
    }
}

/// Puts an answer to the front of a room that has place for it.
fn fill(reply: &SharedFrame, room: &mut [u8])
    requires room { length reply.now ≤ length room.old }
    ensures bytes { take (length reply.now) room.new ≡ reply.now }
{
    let header = reply.header();
    let payload = reply.payload();
    let (front, rest) = room.split_at_mut(header.len());
    front.copy_from_slice(header);
    let (middle, _) = rest.split_at_mut(payload.len());
    middle.copy_from_slice(payload);
}
