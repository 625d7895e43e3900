//! Notifications, written as JSON.

ghost use Rattle.std.specs.Prelude.{◌≡◌};
ghost use Rattle.json.specs.Tree.{json_tokens};
ghost use Rattle.floor_rpc.specs.Json.{Adds};
ghost use Rattle.floor_rpc.specs.Notifications.{bare_event, event_of, event_of_two, event_told_json, floor_holders_json, floor_told_event, happened_json, holder_json, member_of_json, message_of_event, notification_json, server_told_json, told_json, user_told_event, what_json};

use crate::names::primitive_name;
use crate::notification::{
    EventTold, FloorHolders, FloorTold, Happened, Holder, MemberOf, MessageOf, Notification,
    ServerTold, UserTold, What,
};
use crate::value::{ToJson, member, text_member, write_two};
use json::Writer;
use std::alloc::AllocError;

impl ToJson for MemberOf {
    ghost json = { member_of_json };

    fn write(&self, writer: &mut Writer) -> Result<(), AllocError> {
        write_two(writer, "member", &self.member, "user", &self.user)
    }
}

impl ToJson for Holder {
    ghost json = { holder_json };

    fn write(&self, writer: &mut Writer) -> Result<(), AllocError> {
        write_two(writer, "request", &self.request, "user", &self.user)
    }
}

impl ToJson for FloorHolders {
    ghost json = { floor_holders_json };

    fn write(&self, writer: &mut Writer) -> Result<(), AllocError> {
        write_two(writer, "floor", &self.floor, "holders", &self.holders)
    }
}

/// Writes the word for what happened, and what it names.
fn write_event_of<T: ToJson>(
    writer: &mut Writer,
    event: &str,
    key: &str,
    value: &T,
) -> Result<(), AllocError>
    ensures { Adds result writer.old writer.new
        (json_tokens (event_of event.now key.now (T.json value.now))) }
{
    writer.begin_object()?;
    text_member(writer, "event", event)?;
    member(writer, key, value)?;
    writer.end_object()
}

/// Writes the word for what happened, and the two things that it names.
fn write_event_of_two<A: ToJson, B: ToJson>(
    writer: &mut Writer,
    event: &str,
    key: &str,
    value: &A,
    other_key: &str,
    other: &B,
) -> Result<(), AllocError>
    ensures { Adds result writer.old writer.new
        (json_tokens (event_of_two event.now key.now (A.json value.now) other_key.now (B.json other.now))) }
{
    writer.begin_object()?;
    text_member(writer, "event", event)?;
    member(writer, key, value)?;
    member(writer, other_key, other)?;
    writer.end_object()
}

/// Writes a message that was sent, behind the word for what happened.
fn write_message_of(writer: &mut Writer, event: &str, message: &MessageOf) -> Result<(), AllocError>
    ensures { Adds result writer.old writer.new (json_tokens (message_of_event event.now message.now)) }
{
    writer.begin_object()?;
    text_member(writer, "event", event)?;
    member(writer, "member", &message.member)?;
    member(writer, "user", &message.user)?;
    text_member(writer, "primitive", primitive_name(&message.primitive))?;
    member(writer, "request", &message.request)?;
    writer.end_object()
}

/// Writes a user that was added, behind the word for what happened.
fn write_user_told(writer: &mut Writer, event: &str, user: &UserTold) -> Result<(), AllocError>
    ensures { Adds result writer.old writer.new (json_tokens (user_told_event event.now user.now)) }
{
    writer.begin_object()?;
    text_member(writer, "event", event)?;
    member(writer, "user", &user.user)?;
    member(writer, "name", &user.name)?;
    member(writer, "uri", &user.uri)?;
    member(writer, "proxy", &user.proxy)?;
    member(writer, "port", &user.port)?;
    writer.end_object()
}

/// Writes a floor that was added, behind the word for what happened.
fn write_floor_told(writer: &mut Writer, event: &str, floor: &FloorTold) -> Result<(), AllocError>
    ensures { Adds result writer.old writer.new (json_tokens (floor_told_event event.now floor.now)) }
{
    writer.begin_object()?;
    text_member(writer, "event", event)?;
    member(writer, "floor", &floor.floor)?;
    member(writer, "room", &floor.room)?;
    member(writer, "chair", &floor.chair)?;
    writer.end_object()
}

/// Writes a word for what happened, alone.
fn write_bare(writer: &mut Writer, event: &str) -> Result<(), AllocError>
    ensures { Adds result writer.old writer.new (json_tokens (bare_event event.now)) }
{
    writer.begin_object()?;
    text_member(writer, "event", event)?;
    writer.end_object()
}

impl ToJson for What {
    ghost json = { what_json };

    fn write(&self, writer: &mut Writer) -> Result<(), AllocError> {
        match self {
            What::Closed => write_bare(writer, "closed"),
            What::Joined(who) => {
                write_event_of_two(writer, "joined", "member", &who.member, "user", &who.user)
            }
            What::Left(who) => {
                write_event_of_two(writer, "left", "member", &who.member, "user", &who.user)
            }
            What::Message(message) => write_message_of(writer, "message", message),
            What::User(user) => write_user_told(writer, "user", user),
            What::Floor(floor) => write_floor_told(writer, "floor", floor),
            What::Chair(told) => {
                write_event_of_two(writer, "chair", "floor", &told.floor, "chair", &told.chair)
            }
            What::Revoked(told) => write_event_of(writer, "revoked", "request", &told.request),
        }
    }
}

impl ToJson for Happened {
    ghost json = { happened_json };

    fn write(&self, writer: &mut Writer) -> Result<(), AllocError> {
        match self {
            Happened::Opened => write_bare(writer, "opened"),
            Happened::Forgotten => write_bare(writer, "forgotten"),
            Happened::Broken => write_bare(writer, "broken"),
            Happened::Unkept => write_bare(writer, "unkept"),
            Happened::Word(word) => {
                write_event_of_two(writer, "word", "key", &word.key, "text", &word.text)
            }
            Happened::Away(who) => {
                write_event_of_two(writer, "away", "member", &who.member, "user", &who.user)
            }
            Happened::Back(who) => {
                write_event_of_two(writer, "back", "member", &who.member, "user", &who.user)
            }
            Happened::Removed(who) => write_event_of(writer, "removed", "user", &who.user),
            Happened::Admitted(who) => write_event_of(writer, "admitted", "user", &who.user),
        }
    }
}

impl ToJson for EventTold {
    ghost json = { event_told_json };

    fn write(&self, writer: &mut Writer) -> Result<(), AllocError> {
        writer.begin_object()?;
        member(writer, "conference", &self.conference)?;
        member(writer, "place", &self.place)?;
        member(writer, "time", &self.time)?;
        member(writer, "what", &self.what)?;
        member(writer, "requests", &self.requests)?;
        member(writer, "cut", &self.cut)?;
        member(writer, "floors", &self.floors)?;
        writer.end_object()
    }
}

impl ToJson for ServerTold {
    ghost json = { server_told_json };

    fn write(&self, writer: &mut Writer) -> Result<(), AllocError> {
        write_two(writer, "conference", &self.conference, "what", &self.what)
    }
}

/// Writes a notification's method and its parameters.
fn write_told<T: ToJson>(writer: &mut Writer, method: &str, params: &T) -> Result<(), AllocError>
    ensures { Adds result writer.old writer.new
        (json_tokens (told_json method.now (T.json params.now))) }
{
    writer.begin_object()?;
    text_member(writer, "jsonrpc", "2.0")?;
    text_member(writer, "method", method)?;
    member(writer, "params", params)?;
    writer.end_object()
}

impl ToJson for Notification {
    ghost json = { notification_json };

    fn write(&self, writer: &mut Writer) -> Result<(), AllocError> {
        match self {
            Notification::Event(event) => write_told(writer, "event", event),
            Notification::Server(server) => write_told(writer, "server", server),
        }
    }
}
