//! What an event of a conference is, as it is told.

ghost use Rattle.std.specs.Prelude.{◌≡◌, IfOk};
ghost use Rattle.floor_shown.specs.Events.{is_told_always};

use crate::showing::user_among;
use crate::texts::text_where;
use floor_config::User;
use floor_machine::Event;
use floor_message::Primitive;
use floor_rpc::{ChairTold, FloorTold, MemberOf, MessageOf, RevokedTold, UserTold, What};
use floor_wire::Frame;
use std::alloc::{AllocError, Global};

/// The user whom an event is of: of who leaves, sends a message or has one said; 0 for others. These have joined.
pub(crate) fn sender_of(joiners: &[u16], event: &Event) -> u16 {
    match event {
        Event::Message { n, .. } | Event::Leave { n } => user_among(joiners, *n),
        Event::Say { user, .. } => *user,
        Event::Join { .. }
        | Event::Took { .. }
        | Event::Revoke { .. }
        | Event::Close
        | Event::AddUser { .. }
        | Event::AddFloor { .. }
        | Event::SetChair { .. } => 0,
    }
}

/// Whether an event is told, whatever it changes.
pub(crate) fn is_told_always(event: &Event) -> bool
    ensures value { result ≡ is_told_always event.now }
{
    match event {
        Event::Join { .. }
        | Event::Leave { .. }
        | Event::Close
        | Event::AddUser { .. }
        | Event::AddFloor { .. }
        | Event::SetChair { .. } => true,
        Event::Message { .. } | Event::Took { .. } | Event::Revoke { .. } | Event::Say { .. } =>
            false,
    }
}

/// What an event is. Of who joins `member` is the number; `user` is whom it is of, and `made` the floor request that it
/// made.
pub(crate) fn what_of(
    alloc: Global,
    event: &Event,
    member: u32,
    user: u16,
    made: Option<u16>,
) -> Result<What, AllocError> {
    Ok(match event {
        Event::Join { user } => What::Joined(MemberOf {
            member,
            user: *user,
        }),
        Event::Message { n, frame } => What::Message(message_told(Some(*n), user, frame, made)),
        Event::Say { user, frame } => What::Message(message_told(None, *user, frame, made)),
        // What is acknowledged is never told.
        Event::Took { n, .. } | Event::Leave { n } => What::Left(MemberOf { member: *n, user }),
        Event::Revoke { request } => What::Revoked(RevokedTold { request: *request }),
        Event::Close => What::Closed,
        Event::AddUser { user } => What::User(user_told(alloc, user.as_user())?),
        Event::AddFloor { floor } => What::Floor(FloorTold {
            floor: floor.id,
            room: floor.room,
            chair: floor.chair,
        }),
        Event::SetChair { floor, chair } => What::Chair(ChairTold {
            floor: *floor,
            chair: *chair,
        }),
    })
}

/// A user that was added.
fn user_told(alloc: Global, user: &User) -> Result<UserTold, AllocError> {
    Ok(UserTold {
        user: user.id,
        name: text_where(alloc, &user.name)?,
        uri: text_where(alloc, &user.uri)?,
        proxy: user.proxy,
        port: user.port,
    })
}

/// A message, with the floor request that it made or names.
fn message_told(member: Option<u32>, user: u16, frame: &Frame, made: Option<u16>) -> MessageOf {
    let primitive = match Primitive::of_number(frame.header().primitive()) {
        Some(primitive) => primitive,
        // Nothing is told of one that isn't known.
        None => Primitive::Error,
    };
    let request = match made {
        Some(request) => Some(request),
        None => request_named(frame.bytes()),
    };
    MessageOf {
        member,
        user,
        primitive,
        request,
    }
}

/// The floor request that a message names, by the FLOOR-REQUEST-ID (RFC 8855, section 5.2.3) or the
/// FLOOR-REQUEST-INFORMATION (section 5.2.15) that stands first.
fn request_named(message: &[u8]) -> Option<u16> {
    match message.get(12..16)? {
        [kind, _, high, low] if is_named_first(*kind) => { Some(u16::from_be_bytes([*high, *low])) }
        _ => None,
    }
}

/// Whether an attribute whose first byte this is begins with the number of a floor request.
fn is_named_first(kind: u8) -> bool {
    matches!(kind >> 1, 3 | 15)
}
