//! Requests, written as JSON.
#![tactic(auto, using(crate::proofs::Fields::members_tokens_of))]

ghost use Rattle.std.specs.Prelude.{◌≡◌};
ghost use Rattle.json.specs.Tree.{json_tokens};
ghost use Rattle.floor_rpc.specs.CallsWritten.{chair_setting_json, creation_json, decision_json, floor_addition_json, journal_from_json, listing_json, method_of, new_floor_json, new_user_json, of_conference_json, opening_json, params_json, parts_json, release_json, removal_json, request_json, unwatching_json, user_addition_json, watched_json, watching_json, word_setting_json, words_of_json};
ghost use Rattle.floor_rpc.specs.Json.{Adds};

use crate::call::{
    Call, ChairSetting, Creation, Decision, FloorAddition, JournalFrom, Listing, NewFloor, NewUser,
    OfConference, Opening, Parts, Release, Removal, Unwatching, UserAddition, Watched, Watching,
    Whom, WordSetting, WordsOf,
};
use crate::method::Method;
use crate::request::Request;
use crate::value::{
    ToJson, member, optional_member, text_member, write_nothing, write_one, write_two,
};
use json::Writer;
use std::alloc::AllocError;

impl ToJson for NewUser {
    ghost json = { new_user_json };

    fn write(&self, writer: &mut Writer) -> Result<(), AllocError> {
        writer.begin_object()?;
        optional_member(writer, "id", &self.id)?;
        optional_member(writer, "name", &self.name)?;
        optional_member(writer, "uri", &self.uri)?;
        optional_member(writer, "proxy", &self.proxy.then_some(true))?;
        optional_member(writer, "port", &self.port)?;
        writer.end_object()
    }
}

impl ToJson for NewFloor {
    ghost json = { new_floor_json };

    fn write(&self, writer: &mut Writer) -> Result<(), AllocError> {
        writer.begin_object()?;
        optional_member(writer, "id", &self.id)?;
        optional_member(writer, "room", &self.room)?;
        optional_member(writer, "chair", &self.chair)?;
        optional_member(writer, "title", &self.title)?;
        writer.end_object()
    }
}

impl ToJson for Parts {
    ghost json = { parts_json };

    fn write(&self, writer: &mut Writer) -> Result<(), AllocError> {
        writer.begin_object()?;
        optional_member(writer, "id", &self.id)?;
        optional_member(writer, "title", &self.title)?;
        optional_member(writer, "limit", &self.limit)?;
        optional_member(writer, "connections", &self.connections)?;
        member(writer, "users", &self.users)?;
        member(writer, "floors", &self.floors)?;
        writer.end_object()
    }
}

impl ToJson for OfConference {
    ghost json = { of_conference_json };

    fn write(&self, writer: &mut Writer) -> Result<(), AllocError> {
        write_one(writer, "conference", &self.conference)
    }
}

impl ToJson for ChairSetting {
    ghost json = { chair_setting_json };

    fn write(&self, writer: &mut Writer) -> Result<(), AllocError> {
        writer.begin_object()?;
        member(writer, "conference", &self.conference)?;
        member(writer, "floor", &self.floor)?;
        member(writer, "chair", &self.chair)?;
        writer.end_object()
    }
}

impl ToJson for Creation {
    ghost json = { creation_json };

    fn write(&self, writer: &mut Writer) -> Result<(), AllocError> {
        writer.begin_object()?;
        member(writer, "conference", &self.conference)?;
        member(writer, "for", &self.beneficiary)?;
        member(writer, "floors", &self.floors)?;
        optional_member(writer, "priority", &self.priority)?;
        optional_member(writer, "info", &self.info)?;
        optional_member(writer, "by", &self.by)?;
        writer.end_object()
    }
}

impl ToJson for Release {
    ghost json = { release_json };

    fn write(&self, writer: &mut Writer) -> Result<(), AllocError> {
        writer.begin_object()?;
        member(writer, "conference", &self.conference)?;
        member(writer, "request", &self.request)?;
        optional_member(writer, "by", &self.by)?;
        writer.end_object()
    }
}

impl ToJson for Decision {
    ghost json = { decision_json };

    fn write(&self, writer: &mut Writer) -> Result<(), AllocError> {
        writer.begin_object()?;
        member(writer, "conference", &self.conference)?;
        member(writer, "request", &self.request)?;
        optional_member(writer, "floors", &self.floors)?;
        optional_member(writer, "reason", &self.reason)?;
        optional_member(writer, "by", &self.by)?;
        writer.end_object()
    }
}

impl ToJson for WordSetting {
    ghost json = { word_setting_json };

    fn write(&self, writer: &mut Writer) -> Result<(), AllocError> {
        writer.begin_object()?;
        member(writer, "conference", &self.conference)?;
        member(writer, "key", &self.key)?;
        member(writer, "text", &self.text)?;
        writer.end_object()
    }
}

impl ToJson for WordsOf {
    ghost json = { words_of_json };

    fn write(&self, writer: &mut Writer) -> Result<(), AllocError> {
        writer.begin_object()?;
        member(writer, "conference", &self.conference)?;
        optional_member(writer, "key", &self.key)?;
        writer.end_object()
    }
}

impl ToJson for Watched {
    ghost json = { watched_json };

    fn write(&self, writer: &mut Writer) -> Result<(), AllocError> {
        writer.begin_object()?;
        member(writer, "conference", &self.conference)?;
        optional_member(writer, "from", &self.from)?;
        writer.end_object()
    }
}

impl ToJson for Watching {
    ghost json = { watching_json };

    fn write(&self, writer: &mut Writer) -> Result<(), AllocError> {
        writer.begin_object()?;
        member(writer, "conferences", &self.conferences)?;
        optional_member(writer, "all", &self.all.then_some(true))?;
        writer.end_object()
    }
}

impl ToJson for Unwatching {
    ghost json = { unwatching_json };

    fn write(&self, writer: &mut Writer) -> Result<(), AllocError> {
        writer.begin_object()?;
        member(writer, "conferences", &self.conferences)?;
        optional_member(writer, "all", &self.all.then_some(true))?;
        writer.end_object()
    }
}

impl ToJson for JournalFrom {
    ghost json = { journal_from_json };

    fn write(&self, writer: &mut Writer) -> Result<(), AllocError> {
        writer.begin_object()?;
        member(writer, "conference", &self.conference)?;
        optional_member(writer, "from", &self.from)?;
        optional_member(writer, "count", &self.count)?;
        writer.end_object()
    }
}

impl ToJson for UserAddition {
    ghost json = { user_addition_json };

    fn write(&self, writer: &mut Writer) -> Result<(), AllocError> {
        writer.begin_object()?;
        member(writer, "conference", &self.conference)?;
        optional_member(writer, "id", &self.user.id)?;
        optional_member(writer, "name", &self.user.name)?;
        optional_member(writer, "uri", &self.user.uri)?;
        optional_member(writer, "proxy", &self.user.proxy.then_some(true))?;
        optional_member(writer, "port", &self.user.port)?;
        writer.end_object()
    }
}

impl ToJson for FloorAddition {
    ghost json = { floor_addition_json };

    fn write(&self, writer: &mut Writer) -> Result<(), AllocError> {
        writer.begin_object()?;
        member(writer, "conference", &self.conference)?;
        optional_member(writer, "id", &self.floor.id)?;
        optional_member(writer, "room", &self.floor.room)?;
        optional_member(writer, "chair", &self.floor.chair)?;
        optional_member(writer, "title", &self.floor.title)?;
        writer.end_object()
    }
}

impl ToJson for Removal {
    ghost json = { removal_json };

    fn write(&self, writer: &mut Writer) -> Result<(), AllocError> {
        match &self.whom {
            Whom::Member(n) => write_two(writer, "conference", &self.conference, "member", n),
            Whom::User(user) => write_two(writer, "conference", &self.conference, "user", user),
        }
    }
}

impl ToJson for Listing {
    ghost json = { listing_json };

    fn write(&self, writer: &mut Writer) -> Result<(), AllocError> {
        match self {
            Listing::First => write_nothing(writer),
            Listing::Only(conference) => write_one(writer, "conference", conference),
            Listing::After(conference) => write_one(writer, "after", conference),
        }
    }
}

impl ToJson for Opening {
    ghost json = { opening_json };

    fn write(&self, writer: &mut Writer) -> Result<(), AllocError> {
        match self {
            Opening::Toml(text) => write_one(writer, "toml", text),
            Opening::Parts(parts) => parts.write(writer),
        }
    }
}

impl Call {
    /// The method that is called. Takes no memory.
    pub fn method(&self) -> Method
        ensures value { result ≡ method_of self.now }
    {
        match self {
            Call::ConferenceOpen(_) => Method::ConferenceOpen,
            Call::ConferenceList(_) => Method::ConferenceList,
            Call::ConferenceGet(_) => Method::ConferenceGet,
            Call::ConferenceClose(_) => Method::ConferenceClose,
            Call::ConferenceForget(_) => Method::ConferenceForget,
            Call::UserAdd(_) => Method::UserAdd,
            Call::FloorAdd(_) => Method::FloorAdd,
            Call::FloorChair(_) => Method::FloorChair,
            Call::MemberRemove(_) => Method::MemberRemove,
            Call::UserAdmit(_) => Method::UserAdmit,
            Call::RequestCreate(_) => Method::RequestCreate,
            Call::RequestRelease(_) => Method::RequestRelease,
            Call::RequestAccept(_) => Method::RequestAccept,
            Call::RequestGrant(_) => Method::RequestGrant,
            Call::RequestDeny(_) => Method::RequestDeny,
            Call::RequestRevoke(_) => Method::RequestRevoke,
            Call::WordSet(_) => Method::WordSet,
            Call::WordGet(_) => Method::WordGet,
            Call::Watch(_) => Method::Watch,
            Call::Unwatch(_) => Method::Unwatch,
            Call::Journal(_) => Method::Journal,
            Call::ServerStatus => Method::ServerStatus,
            Call::ServerDrain => Method::ServerDrain,
            Call::ServerStop => Method::ServerStop,
            Call::Help => Method::Help,
        }
    }
}

/// Writes the parameters of a call.
fn write_params(writer: &mut Writer, call: &Call) -> Result<(), AllocError>
    ensures { Adds result writer.old writer.new (json_tokens (params_json call.now)) }
{
    match call {
        Call::ConferenceOpen(params) => params.write(writer),
        Call::ConferenceList(params) => params.write(writer),
        Call::ConferenceGet(params) => params.write(writer),
        Call::ConferenceClose(params) => params.write(writer),
        Call::ConferenceForget(params) => params.write(writer),
        Call::UserAdd(params) => params.write(writer),
        Call::FloorAdd(params) => params.write(writer),
        Call::FloorChair(params) => params.write(writer),
        Call::MemberRemove(params) => params.write(writer),
        Call::UserAdmit(of) => write_two(writer, "conference", &of.conference, "user", &of.user),
        Call::RequestCreate(params) => params.write(writer),
        Call::RequestRelease(params) => params.write(writer),
        Call::RequestAccept(params) => params.write(writer),
        Call::RequestGrant(params) => params.write(writer),
        Call::RequestDeny(params) => params.write(writer),
        Call::RequestRevoke(of) => {
            write_two(writer, "conference", &of.conference, "request", &of.request)
        }
        Call::WordSet(params) => params.write(writer),
        Call::WordGet(params) => params.write(writer),
        Call::Watch(params) => params.write(writer),
        Call::Unwatch(params) => params.write(writer),
        Call::Journal(params) => params.write(writer),
        Call::ServerStatus | Call::ServerDrain | Call::ServerStop | Call::Help => write_nothing(
            writer,
        ),
    }
}

impl ToJson for Request {
    ghost json = { request_json };

    fn write(&self, writer: &mut Writer) -> Result<(), AllocError> {
        writer.begin_object()?;
        text_member(writer, "jsonrpc", "2.0")?;
        optional_member(writer, "id", &self.id)?;
        text_member(writer, "method", self.call.method().name())?;
        writer.key("params")?;
        write_params(writer, &self.call)?;
        writer.end_object()
    }
}
