//! A whole conference at one place, as `conference.get` answers it.

use crate::floor::floors_shown;
use crate::known::Known;
use crate::refused::Refused;
use crate::request::request_shown;
use crate::texts::text_where;
use crate::title::TITLE;
use crate::words::Words;
use floor_config::{Config, User};
use floor_loop::{Live, Loop};
use floor_message::SharedInfo;
use floor_rpc::{List, MemberShown, Picture, RequestShown, UserShown};
use std::alloc::{AllocError, Global};

/// A conference as it stands, so late. Whoever comes as one of the users that are removed isn't let in.
pub fn picture_of(
    alloc: Global,
    hub: &Loop,
    conference: u32,
    known: &Known,
    removed: &[u16],
    millis: u64,
) -> Result<Picture, Refused> {
    let status = match hub.status(conference) {
        Ok(status) => status,
        Err(refusal) => return Err(Refused::of_conference(refusal, conference)),
    };
    let config = match hub.config(conference) {
        Ok(config) => config,
        Err(refusal) => return Err(Refused::of_conference(refusal, conference)),
    };
    let shown = hub.shown(conference).unwrap_or(&[]);
    let title = known.words.title(alloc, TITLE)?;
    let users = users_shown(alloc, hub, config, known, removed, millis)?;
    let floors = floors_shown(alloc, &known.words, config, shown)?;
    let requests = requests_shown(alloc, known, shown)?;
    let words = known.words.copies(alloc, None)?;
    Ok(Picture {
        next: u64::from(status.events).saturating_add(1),
        phase: status.phase,
        members: status.members,
        ongoing: status.ongoing,
        title,
        limit: config.limit(),
        connections: config.connections(),
        kept: known.is_kept,
        users,
        floors,
        requests,
        words: List::from_vec(words),
    })
}

/// The users, each with its members.
fn users_shown(
    alloc: Global,
    hub: &Loop,
    config: &Config,
    known: &Known,
    removed: &[u16],
    millis: u64,
) -> Result<List<UserShown>, AllocError> {
    let live = hub.members(config.conference()).unwrap_or(&[]);
    let mut users = Vec::new(alloc);
    for user in config.users() {
        let members = members_shown(alloc, hub, config.conference(), user.id, live, millis)?;
        let port = user.port.or(known.port_of(user.id));
        users.push(user_shown(alloc, user, port, removed.contains(&user.id), members)?)?;
    }
    Ok(List::from_vec(users))
}

fn user_shown(
    alloc: Global,
    user: &User,
    port: Option<u16>,
    removed: bool,
    members: List<MemberShown>,
) -> Result<UserShown, AllocError> {
    let name = text_where(alloc, &user.name)?;
    let uri = text_where(alloc, &user.uri)?;
    Ok(UserShown {
        user: user.id,
        name,
        uri,
        proxy: user.proxy,
        port,
        removed,
        members,
    })
}

/// The live members of a user.
fn members_shown(
    alloc: Global,
    hub: &Loop,
    conference: u32,
    user: u16,
    live: &[Live],
    millis: u64,
) -> Result<List<MemberShown>, AllocError> {
    let mut members = Vec::new(alloc);
    for one in live {
        if is_of(hub, conference, one, user) {
            members.push(member_shown(hub, conference, one, millis))?;
        }
    }
    Ok(List::from_vec(members))
}

/// Whether a live member is of this user.
fn is_of(hub: &Loop, conference: u32, one: &Live, user: u16) -> bool {
    match hub.user_of(conference, one.n) {
        Ok(of) => of == Some(user),
        Err(_) => false,
    }
}

fn member_shown(hub: &Loop, conference: u32, one: &Live, millis: u64) -> MemberShown {
    let behind = match hub.backlog(conference, one.n) {
        Ok(behind) => u64::from(behind),
        Err(_) => 0,
    };
    let away = match hub.away_for(one.number, millis) {
        Some(away) => Some(away / 1_000),
        None => None,
    };
    MemberShown {
        member: one.n,
        behind,
        cut: hub.is_cut(one.number),
        away,
    }
}

/// The ongoing floor requests, ascending.
fn requests_shown(
    alloc: Global,
    known: &Known,
    shown: &[SharedInfo],
) -> Result<List<RequestShown>, AllocError> {
    let mut requests = Vec::new(alloc);
    for info in shown {
        let times = known.times_of(info.as_info().request);
        requests.push(request_shown(alloc, info.as_info(), times)?)?;
    }
    Ok(List::from_vec(requests))
}
