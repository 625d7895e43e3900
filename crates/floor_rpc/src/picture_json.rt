//! Whole conferences, written as JSON.

ghost use Rattle.floor_rpc.specs.Pictures.{floor_shown_json, floor_status_json, member_shown_json, picture_json, request_shown_json, user_shown_json};

use crate::picture::{FloorShown, FloorStatus, MemberShown, Picture, RequestShown, UserShown};
use crate::value::{ToJson, member, text_member, write_two};
use crate::words::words_member;
use json::Writer;
use std::alloc::AllocError;

impl ToJson for MemberShown {
    ghost json = { member_shown_json };

    fn write(&self, writer: &mut Writer) -> Result<(), AllocError> {
        writer.begin_object()?;
        member(writer, "member", &self.member)?;
        member(writer, "behind", &self.behind)?;
        member(writer, "cut", &self.cut)?;
        member(writer, "away", &self.away)?;
        writer.end_object()
    }
}

impl ToJson for UserShown {
    ghost json = { user_shown_json };

    fn write(&self, writer: &mut Writer) -> Result<(), AllocError> {
        writer.begin_object()?;
        member(writer, "user", &self.user)?;
        member(writer, "name", &self.name)?;
        member(writer, "uri", &self.uri)?;
        member(writer, "proxy", &self.proxy)?;
        member(writer, "port", &self.port)?;
        member(writer, "removed", &self.removed)?;
        member(writer, "members", &self.members)?;
        writer.end_object()
    }
}

impl ToJson for FloorShown {
    ghost json = { floor_shown_json };

    fn write(&self, writer: &mut Writer) -> Result<(), AllocError> {
        writer.begin_object()?;
        member(writer, "floor", &self.floor)?;
        member(writer, "title", &self.title)?;
        member(writer, "room", &self.room)?;
        member(writer, "chair", &self.chair)?;
        member(writer, "holders", &self.holders)?;
        member(writer, "waiting", &self.waiting)?;
        member(writer, "pending", &self.pending)?;
        writer.end_object()
    }
}

impl ToJson for FloorStatus {
    ghost json = { floor_status_json };

    fn write(&self, writer: &mut Writer) -> Result<(), AllocError> {
        write_two(writer, "floor", &self.floor, "status", &self.status)
    }
}

impl ToJson for RequestShown {
    ghost json = { request_shown_json };

    fn write(&self, writer: &mut Writer) -> Result<(), AllocError> {
        writer.begin_object()?;
        member(writer, "request", &self.request)?;
        member(writer, "user", &self.user)?;
        member(writer, "by", &self.by)?;
        member(writer, "floors", &self.floors)?;
        member(writer, "status", &self.status)?;
        member(writer, "position", &self.position)?;
        member(writer, "priority", &self.priority)?;
        member(writer, "info", &self.info)?;
        member(writer, "reason", &self.reason)?;
        member(writer, "since", &self.since)?;
        member(writer, "granted", &self.granted)?;
        writer.end_object()
    }
}

impl ToJson for Picture {
    ghost json = { picture_json };

    fn write(&self, writer: &mut Writer) -> Result<(), AllocError> {
        writer.begin_object()?;
        member(writer, "next", &self.next)?;
        text_member(writer, "phase", self.phase.name())?;
        member(writer, "members", &self.members)?;
        member(writer, "ongoing", &self.ongoing)?;
        member(writer, "title", &self.title)?;
        member(writer, "limit", &self.limit)?;
        member(writer, "connections", &self.connections)?;
        member(writer, "kept", &self.kept)?;
        member(writer, "users", &self.users)?;
        member(writer, "floors", &self.floors)?;
        member(writer, "requests", &self.requests)?;
        words_member(writer, "words", &self.words)?;
        writer.end_object()
    }
}
