//! Who is let in.

use crate::fault::{Fault, demand};
use crate::model::{Cause, Coming, Logged, Model};
use crate::peer::Stage;
use floor_proxy::{MAX_HEADER, ProxyRead, read_proxy};
use floor_turn::{Bounds, Entry, Who};

/// How many sockets there may be of one user in a conference, and of a conference.
pub const BOUNDS: Bounds = Bounds {
    of_user: 62,
    of_conference: 63,
};

/// How many members of a conference may be live, one fewer where a place is kept for who comes back.
const MAX_LIVE: usize = 64;

impl Model {
    /// Why a user may not join a conference now, by its name.
    fn refusal(&self, conference: u32, user: u16) -> Option<&'static str> {
        let Some(meeting) = self.meeting(conference) else {
            let is_forgotten = self.forgotten.contains(&conference);
            return Some(if is_forgotten {
                "Forgotten"
            } else {
                "NoConference"
            });
        };
        let most = if self.grace == 0 {
            MAX_LIVE
        } else {
            MAX_LIVE - 1
        };
        let of_user = meeting.connections().min(BOUNDS.of_user);
        if of_user <= self.count(conference, Some(user)) {
            Some("UserConnections")
        } else if BOUNDS.of_conference <= self.count(conference, None) {
            Some("Connections")
        } else if !meeting.is_open() {
            Some("Ended")
        } else if !meeting.has_user(user) {
            Some("NoUser")
        } else if most <= meeting.live().len() && !meeting.has_away(Some(user)) {
            Some("Full")
        } else {
            None
        }
    }

    /// A peer comes as this user. Gives the name of why it isn't let in.
    pub fn comes(&mut self, peer: usize, conference: u32, user: u16) -> Option<&'static str> {
        let refusal = self.refusal(conference, user);
        let who = Who {
            conference,
            user,
            n: 0,
        };
        self.cause = Cause::Comes(Coming {
            peer,
            who,
            has_joined: false,
            refusal,
        });
        refusal
    }

    /// Whoever came has joined, or is turned away.
    pub fn has_come(&mut self, coming: Coming) -> Result<(), Fault> {
        let (peer, who, refusal) = (coming.peer, coming.who, coming.refusal);
        demand(
            coming.has_joined == refusal.is_none(),
            "who is let in doesn't join",
            peer,
        )?;
        if refusal.is_some() {
            return self.turn_away(peer, refusal);
        }
        let peer = self.world.peer(peer)?.named(peer);
        self.log(Entry::Joined { peer, who })
    }

    /// A peer isn't let in, which the log is told, unless there is no name.
    pub fn turn_away(&mut self, number: usize, name: Option<&'static str>) -> Result<(), Fault> {
        if self.life(number).is_ok() {
            self.end(number)?;
            self.life_mut(number)?.stage = Stage::Refused;
        }
        if let Some(name) = name {
            self.logged
                .push_back(Logged::Refused { peer: number, name })?;
        }
        Ok(())
    }

    /// Bytes came of a peer at a door: more have to come, it says who it is, or isn't let in.
    pub fn hear_at_door(&mut self, number: usize) -> Result<(), Fault> {
        let peer = self.world.peer(number)?;
        let given = peer.given();
        let front = given.get(..MAX_HEADER).unwrap_or(given);
        match read_proxy(peer.binding.named_by, front) {
            Ok(ProxyRead::More) => Ok(()),
            Ok(ProxyRead::Local) => self.turn_away(number, None),
            Ok(
                ProxyRead::Named {
                    conference,
                    user,
                    len,
                },
            ) => {
                self.life_mut(number)?.served = len;
                let _refusal = self.comes(number, conference, user);
                Ok(())
            }
            Err(refusal) => self.turn_away(number, Some(refusal.name())),
        }
    }
}
