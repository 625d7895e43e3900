//! Requests are carried out: what is answered by looking, what is kept beside conferences, and what the server does.
#![tactic(auto, using(crate::proofs::Moving::unmoved, crate::proofs::Moving::moved_then, crate::proofs::Moving::moved_and_same, crate::proofs::Attending::unattended, crate::proofs::Attending::attended_then, crate::proofs::Attending::attended_and_same, crate::proofs::Attending::carried_too))]

ghost use Rattle.floor_turn.specs.Moves.{Moves, nothing_taken};
ghost use Rattle.floor_desk.specs.Attending.{Attends, beside, carried};

use crate::looking::{get, journal, list, words};
use crate::watching::watch;
use crate::{adding, asking, changing, opening, removing};
use floor_desk::{Desk, Done, drain, set_word, status, stop, unwatch};
use floor_message::Verdict;
use floor_rpc::{Answer, Call, OfConference};
use floor_shown::Refused;
use floor_turn::Server;
use std::alloc::{AllocError, Global};

/// Carries out what the client at a socket asks for.
pub(crate) fn carry_out(
    server: &mut Server,
    desk: &mut Desk,
    socket: usize,
    call: Call,
) -> Result<Done, Refused>
    ensures moves { Moves nothing_taken server.old.meetings server.new.meetings }
    ensures attends { Attends (carried socket) desk.old.callers desk.new.callers }
{
    match call {
        Call::ConferenceOpen(opening) => opening::open(server, desk, opening),
        Call::ConferenceList(listing) => now(list(desk, server.hub(), &listing)),
        Call::ConferenceGet(of) => look(desk, server, &of),
        Call::ConferenceClose(of) => changing::close(server, desk, &of),
        Call::ConferenceForget(of) => changing::forget(server, desk, &of),
        Call::UserAdd(addition) => adding::add_user(server, desk, addition),
        Call::FloorAdd(addition) => changing::add_floor(server, desk, &addition),
        Call::FloorChair(setting) => changing::set_chair(server, desk, &setting),
        Call::MemberRemove(removal) => removing::remove(server, desk, &removal),
        Call::UserAdmit(of) => removing::admit(server, desk, &of),
        Call::RequestCreate(creation) => asking::create(server, desk, &creation),
        Call::RequestRelease(release) => asking::release(server, desk, &release),
        Call::RequestAccept(decision) => asking::decide(server, desk, &decision, Verdict::Accepted),
        Call::RequestGrant(decision) => asking::decide(server, desk, &decision, Verdict::Granted),
        Call::RequestDeny(decision) => asking::decide(server, desk, &decision, Verdict::Denied),
        Call::RequestRevoke(of) => changing::revoke(server, desk, &of),
        Call::WordSet(setting) => now(set_word(desk, server.hub(), setting)),
        Call::WordGet(of) => now(words(desk, server.hub(), &of)),
        Call::Watch(watching) => now(watch(server, desk, socket, &watching)),
        Call::Unwatch(unwatching) => now(unwatch(desk, socket, &unwatching)),
        Call::Journal(asked) => now(journal(desk, server.hub(), &asked)),
        Call::ServerStatus => status(desk),
        Call::ServerDrain => now(drain(desk)),
        Call::ServerStop => stop(desk),
        Call::Help => Ok(Done::Now(Answer::Help)),
    }
}

/// `conference.get`: with the users who aren't let in.
fn look(desk: &Desk, server: &Server, of: &OfConference) -> Result<Done, Refused> {
    let removed = removed_of(desk.alloc, server, of.conference)?;
    now(get(desk, server.hub(), of, &removed))
}

/// The users of a conference who aren't let in.
fn removed_of(alloc: Global, server: &Server, conference: u32) -> Result<Vec<u16>, AllocError> {
    let mut removed = Vec::new(alloc);
    if let Ok(config) = server.hub().config(conference) {
        for user in config.users() {
            if server.is_banned(conference, user.id) {
                removed.push(user.id)?;
            }
        }
    }
    Ok(removed)
}

/// It is answered at once.
fn now(answer: Result<Answer, Refused>) -> Result<Done, Refused> {
    match answer {
        Ok(answer) => Ok(Done::Now(answer)),
        Err(refused) => Err(refused),
    }
}
