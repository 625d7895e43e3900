//! What the parameters of each method say.

ghost use Rattle.std.specs.Prelude.{◌≡◌};
ghost use Rattle.json.specs.Value.{value_view};
ghost use Rattle.floor_rpc.specs.Calls.{call_of, chair_setting, creation, decision, floor_addition, journal_from, known_call, listing, new_floor, new_user, of_conference, of_request, of_user, opening, parts, release, removal, unwatching, user_addition, watching, whom_in, word_setting, words_of};
ghost use Rattle.floor_rpc.specs.Params.{Reads};

use crate::call::{
    Call, ChairSetting, Creation, Decision, FloorAddition, JournalFrom, Listing, NewFloor, NewUser,
    OfConference, OfRequest, OfUser, Opening, Parts, Release, Removal, Unwatching, UserAddition,
    Watching, Whom, WordSetting, WordsOf,
};
use crate::fault::RequestFault;
use crate::lists::{read_list_or_empty, read_needed_list, read_optional_list};
use crate::method::Method;
use crate::params::{flag, needed, only, optional, optional_priority};
use json::Value;
use std::alloc::Global;

/// The call of a method with these parameters. One that the method doesn't know is refused first, and then
/// they are looked at in the order in which the method has them.
pub(crate) fn call_of(
    alloc: Global,
    method: Method,
    params: &Value<'_>,
) -> Result<Call, RequestFault>
    ensures { Reads (call_of method (value_view params.now)) result }
{
    only(alloc, params, method.parameters())?;
    known_call(alloc, method, params)
}

fn known_call(alloc: Global, method: Method, params: &Value<'_>) -> Result<Call, RequestFault>
    ensures { Reads (known_call method (value_view params.now)) result }
{
    Ok(match method {
        Method::ConferenceOpen => Call::ConferenceOpen(read_opening(alloc, params)?),
        Method::ConferenceList => Call::ConferenceList(read_listing(alloc, params)?),
        Method::ConferenceGet => Call::ConferenceGet(read_conference(alloc, params)?),
        Method::ConferenceClose => Call::ConferenceClose(read_conference(alloc, params)?),
        Method::ConferenceForget => Call::ConferenceForget(read_conference(alloc, params)?),
        Method::UserAdd => Call::UserAdd(read_user_addition(alloc, params)?),
        Method::FloorAdd => Call::FloorAdd(read_floor_addition(alloc, params)?),
        Method::FloorChair => Call::FloorChair(read_chair_setting(alloc, params)?),
        Method::MemberRemove => Call::MemberRemove(read_removal(alloc, params)?),
        Method::UserAdmit => Call::UserAdmit(read_user(alloc, params)?),
        Method::RequestCreate => Call::RequestCreate(read_creation(alloc, params)?),
        Method::RequestRelease => Call::RequestRelease(read_release(alloc, params)?),
        Method::RequestAccept => Call::RequestAccept(read_decision(alloc, params)?),
        Method::RequestGrant => Call::RequestGrant(read_decision(alloc, params)?),
        Method::RequestDeny => Call::RequestDeny(read_decision(alloc, params)?),
        Method::RequestRevoke => Call::RequestRevoke(read_request(alloc, params)?),
        Method::WordSet => Call::WordSet(read_word_setting(alloc, params)?),
        Method::WordGet => Call::WordGet(read_words_of(alloc, params)?),
        Method::Watch => Call::Watch(read_watching(alloc, params)?),
        Method::Unwatch => Call::Unwatch(read_unwatching(alloc, params)?),
        Method::Journal => Call::Journal(read_journal_from(alloc, params)?),
        Method::ServerStatus => Call::ServerStatus,
        Method::ServerDrain => Call::ServerDrain,
        Method::ServerStop => Call::ServerStop,
        Method::Help => Call::Help,
    })
}

fn read_opening(alloc: Global, params: &Value<'_>) -> Result<Opening, RequestFault>
    ensures { Reads (opening (value_view params.now)) result }
{
    match params.get("toml") {
        // A configuration's text stands alone.
        Some(_) => {
            only(alloc, params, &["toml"])?;
            let text = needed(alloc, params, "toml")?;
            Ok(Opening::Toml(text))
        }
        None => Ok(Opening::Parts(read_parts(alloc, params)?)),
    }
}

fn read_parts(alloc: Global, params: &Value<'_>) -> Result<Parts, RequestFault>
    ensures { Reads (parts (value_view params.now)) result }
{
    let id = optional(alloc, params, "id")?;
    let title = optional(alloc, params, "title")?;
    let limit = optional(alloc, params, "limit")?;
    let connections = optional(alloc, params, "connections")?;
    let users = read_needed_list(alloc, params, "users")?;
    let floors = read_needed_list(alloc, params, "floors")?;
    Ok(Parts {
        id,
        title,
        limit,
        connections,
        users,
        floors,
    })
}

/// A user that is to be added.
pub(crate) fn read_new_user(alloc: Global, params: &Value<'_>) -> Result<NewUser, RequestFault>
    ensures { Reads (new_user (value_view params.now)) result }
{
    let id = optional(alloc, params, "id")?;
    let name = optional(alloc, params, "name")?;
    let uri = optional(alloc, params, "uri")?;
    let proxy = flag(alloc, params, "proxy")?;
    let port = optional(alloc, params, "port")?;
    Ok(NewUser {
        id,
        name,
        uri,
        proxy,
        port,
    })
}

/// A floor that is to be added.
pub(crate) fn read_new_floor(alloc: Global, params: &Value<'_>) -> Result<NewFloor, RequestFault>
    ensures { Reads (new_floor (value_view params.now)) result }
{
    let id = optional(alloc, params, "id")?;
    let room = optional(alloc, params, "room")?;
    let chair = optional(alloc, params, "chair")?;
    let title = optional(alloc, params, "title")?;
    Ok(NewFloor {
        id,
        room,
        chair,
        title,
    })
}

fn read_listing(alloc: Global, params: &Value<'_>) -> Result<Listing, RequestFault>
    ensures { Reads (listing (value_view params.now)) result }
{
    match params.get("conference") {
        // One conference stands alone.
        Some(_) => {
            only(alloc, params, &["conference"])?;
            let conference = needed(alloc, params, "conference")?;
            Ok(Listing::Only(conference))
        }
        None => match optional(alloc, params, "after")? {
            Some(conference) => Ok(Listing::After(conference)),
            None => Ok(Listing::First),
        },
    }
}

/// A conference, and nothing else.
pub(crate) fn read_conference(
    alloc: Global,
    params: &Value<'_>,
) -> Result<OfConference, RequestFault>
    ensures { Reads (of_conference (value_view params.now)) result }
{
    let conference = needed(alloc, params, "conference")?;
    Ok(OfConference { conference })
}

fn read_user_addition(alloc: Global, params: &Value<'_>) -> Result<UserAddition, RequestFault>
    ensures { Reads (user_addition (value_view params.now)) result }
{
    let conference = needed(alloc, params, "conference")?;
    let user = read_new_user(alloc, params)?;
    Ok(UserAddition { conference, user })
}

fn read_floor_addition(alloc: Global, params: &Value<'_>) -> Result<FloorAddition, RequestFault>
    ensures { Reads (floor_addition (value_view params.now)) result }
{
    let conference = needed(alloc, params, "conference")?;
    let floor = read_new_floor(alloc, params)?;
    Ok(FloorAddition { conference, floor })
}

fn read_chair_setting(alloc: Global, params: &Value<'_>) -> Result<ChairSetting, RequestFault>
    ensures { Reads (chair_setting (value_view params.now)) result }
{
    let conference = needed(alloc, params, "conference")?;
    let floor = needed(alloc, params, "floor")?;
    let chair = needed(alloc, params, "chair")?;
    Ok(ChairSetting {
        conference,
        floor,
        chair,
    })
}

fn read_removal(alloc: Global, params: &Value<'_>) -> Result<Removal, RequestFault>
    ensures { Reads (removal (value_view params.now)) result }
{
    let conference = needed(alloc, params, "conference")?;
    let whom = read_whom(alloc, params)?;
    Ok(Removal { conference, whom })
}

fn read_whom(alloc: Global, params: &Value<'_>) -> Result<Whom, RequestFault>
    ensures { Reads (whom_in (value_view params.now)) result }
{
    match params.get("member") {
        // No user stands beside a member.
        Some(_) => {
            only(alloc, params, &["conference", "member"])?;
            let n = needed(alloc, params, "member")?;
            Ok(Whom::Member(n))
        }
        None => {
            let user = needed(alloc, params, "user")?;
            Ok(Whom::User(user))
        }
    }
}

fn read_user(alloc: Global, params: &Value<'_>) -> Result<OfUser, RequestFault>
    ensures { Reads (of_user (value_view params.now)) result }
{
    let conference = needed(alloc, params, "conference")?;
    let user = needed(alloc, params, "user")?;
    Ok(OfUser { conference, user })
}

fn read_creation(alloc: Global, params: &Value<'_>) -> Result<Creation, RequestFault>
    ensures { Reads (creation (value_view params.now)) result }
{
    let conference = needed(alloc, params, "conference")?;
    let beneficiary = needed(alloc, params, "for")?;
    let floors = read_needed_list(alloc, params, "floors")?;
    let priority = optional_priority(alloc, params, "priority")?;
    let info = optional(alloc, params, "info")?;
    let by = optional(alloc, params, "by")?;
    Ok(Creation {
        conference,
        beneficiary,
        floors,
        priority,
        info,
        by,
    })
}

fn read_release(alloc: Global, params: &Value<'_>) -> Result<Release, RequestFault>
    ensures { Reads (release (value_view params.now)) result }
{
    let conference = needed(alloc, params, "conference")?;
    let request = needed(alloc, params, "request")?;
    let by = optional(alloc, params, "by")?;
    Ok(Release {
        conference,
        request,
        by,
    })
}

fn read_decision(alloc: Global, params: &Value<'_>) -> Result<Decision, RequestFault>
    ensures { Reads (decision (value_view params.now)) result }
{
    let conference = needed(alloc, params, "conference")?;
    let request = needed(alloc, params, "request")?;
    let floors = read_optional_list(alloc, params, "floors")?;
    let reason = optional(alloc, params, "reason")?;
    let by = optional(alloc, params, "by")?;
    Ok(Decision {
        conference,
        request,
        floors,
        reason,
        by,
    })
}

fn read_request(alloc: Global, params: &Value<'_>) -> Result<OfRequest, RequestFault>
    ensures { Reads (of_request (value_view params.now)) result }
{
    let conference = needed(alloc, params, "conference")?;
    let request = needed(alloc, params, "request")?;
    Ok(OfRequest {
        conference,
        request,
    })
}

fn read_word_setting(alloc: Global, params: &Value<'_>) -> Result<WordSetting, RequestFault>
    ensures { Reads (word_setting (value_view params.now)) result }
{
    let conference = needed(alloc, params, "conference")?;
    let key = needed(alloc, params, "key")?;
    let text = needed(alloc, params, "text")?;
    Ok(WordSetting {
        conference,
        key,
        text,
    })
}

fn read_words_of(alloc: Global, params: &Value<'_>) -> Result<WordsOf, RequestFault>
    ensures { Reads (words_of (value_view params.now)) result }
{
    let conference = needed(alloc, params, "conference")?;
    let key = optional(alloc, params, "key")?;
    Ok(WordsOf { conference, key })
}

fn read_watching(alloc: Global, params: &Value<'_>) -> Result<Watching, RequestFault>
    ensures { Reads (watching (value_view params.now)) result }
{
    let conferences = read_list_or_empty(alloc, params, "conferences")?;
    let all = flag(alloc, params, "all")?;
    Ok(Watching { conferences, all })
}

fn read_unwatching(alloc: Global, params: &Value<'_>) -> Result<Unwatching, RequestFault>
    ensures { Reads (unwatching (value_view params.now)) result }
{
    let conferences = read_list_or_empty(alloc, params, "conferences")?;
    let all = flag(alloc, params, "all")?;
    Ok(Unwatching { conferences, all })
}

fn read_journal_from(alloc: Global, params: &Value<'_>) -> Result<JournalFrom, RequestFault>
    ensures { Reads (journal_from (value_view params.now)) result }
{
    let conference = needed(alloc, params, "conference")?;
    let from = optional(alloc, params, "from")?;
    let count = optional(alloc, params, "count")?;
    Ok(JournalFrom {
        conference,
        from,
        count,
    })
}
