//! What clients watch: the lines of each event of a conference, in order, and none left out.
//!
//! Those who have caught up with a conference share one replica of it. Who is behind has a replica of its own until
//! then, and is told as it takes it.

ghost use Rattle.std.specs.Prelude.{◌≡◌, ◌<◌, ◌≤◌, ◌-◌, ◌==◌, EachIndex, IfOk, MatchOption, None, false, find, max, option_copied, option_map, slice_index, true};
ghost use Rattle.floor_socket.specs.Followers.{lasts_ahead};

use crate::client::Behind;
use crate::desk::Desk;
use crate::replica::Replica;
use crate::words::Words;
use floor_console::BoardRefusal;
use floor_control::{ControlRefusal, Watcher};
use floor_poll::Answer;
use floor_server::Config;
use std::alloc::{AllocError, Global};
use std::fs::File;
use std::net::Net;
use std::rt::Files;
use std::sync::Wait;
use std::thread::Threads;
use std::time::Clock;

/// A conference that was opened and isn't forgotten.
#[derive(Drop)]
pub struct Meeting {
    /// The configuration that it was opened with.
    config: Config,
    pub words: Words,
    pub followed: Option<Followed>,
}

/// What those share who have caught up with a conference.
#[derive(Drop)]
pub struct Followed {
    pub replica: Replica,
    pub followers: Vec<Follower>,
    /// Whether it stands among those of which there is something to show.
    pub is_queued: bool,
    /// Whether the conference is broken off.
    pub breaks: bool,
    /// Whether that was told.
    pub is_broken: bool,
}

/// One who has caught up.
#[derive(Clone, Copy, Debug)]
pub struct Follower {
    pub client: u64,
    /// The first place whose lines it is told.
    pub from: u64,
}

impl Meeting {
    /// A conference that was just opened. Takes no memory.
    pub fn new(alloc: Global, config: Config) -> Meeting {
        Meeting {
            config,
            words: Words::new(alloc),
            followed: None,
        }
    }

    /// A replica of the conference as it was opened.
    pub fn replica(&self, alloc: Global) -> Result<Replica, AllocError> {
        let watcher = Watcher::new(alloc, self.config.copy(alloc)?)?;
        Ok(Replica::new(alloc, watcher))
    }

    /// Takes in one who has nothing to catch up with, and says whether that was so.
    fn take_in(&mut self, follower: Follower) -> Result<bool, AllocError>
        ensures alone { self.old.followed ≡ None → IfOk result (λ is_in. is_in ≡ false) }
        ensures ahead { MatchOption self.old.followed (Unit {0}) (λ followed.
            followed.replica.watcher.place < follower.from → IfOk result (λ is_in. is_in ≡ true)) }
        ensures behind { MatchOption self.old.followed (Unit {0}) (λ followed.
            follower.from ≤ followed.replica.watcher.place → IfOk result (λ is_in. is_in ≡ false)) }
    {
        match &mut self.followed {
            Some(followed) if followed.replica.place() < follower.from => {
                followed.followers.push(follower)?;
                Ok(true)
            }
            _ => Ok(false),
        }
    }

    /// Takes in one who has caught up. Its replica is the one that all share, where there was none.
    pub fn join(
        &mut self,
        alloc: Global,
        follower: Follower,
        replica: Replica,
    ) -> Result<(), AllocError> {
        match &mut self.followed {
            Some(followed) => Ok(followed.followers.push(follower)?),
            None => {
                let mut followers = Vec::new(alloc);
                followers.push(follower)?;
                self.followed = Some(Followed {
                    replica,
                    followers,
                    is_queued: false,
                    breaks: false,
                    is_broken: false,
                });
                Ok(())
            }
        }
    }
}

impl Followed {
    /// Takes what a loop answers who was asked for events.
    pub fn take(&mut self, answer: Answer) -> Result<(), ControlRefusal> {
        let is_broken = self.replica.take_answer(answer)?;
        self.breaks = self.breaks || is_broken;
        Ok(())
    }

    /// Up to which place all are shown the same: those who begin behind it are left out until then.
    pub fn until(&self) -> u64
        ensures none { let lasts = lasts_ahead self.now.replica.watcher.place self.now.followers.items in
            EachIndex lasts (λ k. result ≤ slice_index lasts k) }
    {
        until_of(self.replica.place(), &self.followers)
    }

    /// Up to which place a client was told what is shown, where it is one of those who have caught up.
    fn reached(&self, number: u64) -> Option<u64>
        ensures value { result ≡ option_map (λ follower. max self.now.replica.watcher.place (follower.from - 1))
            (find (λ follower. follower.client == number) self.now.followers.items) }
    {
        let follower = find_client(&self.followers, number)?;
        Some(self.replica.place().max(follower.from.saturating_sub(1)))
    }
}

/// The first of those who have caught up that is this client.
fn find_client(followers: &[Follower], number: u64) -> Option<&Follower>
    ensures value { option_copied result ≡ find (λ follower. follower.client == number) followers.now }
{
    followers.iter().find(|follower| follower.client == number)
}

/// Up to which place those are all shown the same who have come to one place: up to where the next of them begins.
fn until_of(place: u64, followers: &[Follower]) -> u64
    ensures none { let lasts = lasts_ahead place followers.now in
        EachIndex lasts (λ k. result ≤ slice_index lasts k) }
{
    followers
        .iter()
        .map(|follower| follower.from.saturating_sub(1))
        .filter(|last| place < *last)
        .min()
        .unwrap_or(u64::MAX)
}

impl<R> Desk<R>
where
    R: Net
        + Files<File = File>
        + AllocGlobal
        + Clock
        + Threads
        + Wait
        + Copy
        + Drop
        + Send
        + 'static,
{
    /// A conference that was opened and isn't forgotten.
    pub fn meeting(&mut self, conference: u32) -> Result<&mut Meeting, ControlRefusal> {
        let is_owned = self.server.owner(conference).is_some();
        match self.meetings.get_mut(&conference) {
            Some(meeting) => Ok(meeting),
            None if is_owned => Err(ControlRefusal::Forgotten),
            None => Err(ControlRefusal::ByBoard(BoardRefusal::NoConference)),
        }
    }

    /// Whether a client watches a conference.
    pub fn watches(&self, number: u64, conference: u32) -> bool {
        match self.clients.get(&number) {
            Some(seat) => seat.watched.get(&conference).is_some(),
            None => false,
        }
    }

    /// Takes room for a conference more that a client watches.
    pub fn reserve_watch(&mut self, number: u64) -> Result<(), AllocError> {
        match self.clients.get_mut(&number) {
            Some(seat) => {
                seat.watched.reserve(1)?;
                seat.behind.reserve(1)
            }
            None => Ok(()),
        }
    }

    /// Has a client watch a conference, from this place on. Where it was forgotten behind the answer the client is
    /// closed: what there was can't be told.
    pub fn begin_watch(
        &mut self,
        number: u64,
        conference: u32,
        from: u64,
    ) -> Result<(), AllocError> {
        let follower = Follower {
            client: number,
            from,
        };
        let Some(meeting) = self.meetings.get_mut(&conference) else {
            self.fail(number);
            return Ok(());
        };
        if !meeting.take_in(follower)? {
            let behind = Behind {
                conference,
                from,
                replica: None,
                is_hurried: false,
            };
            self.fall_behind(number, behind)?;
        }
        if let Some(seat) = self.clients.get_mut(&number) {
            let _watched = seat.watched.insert(conference, ())?;
        }
        Ok(())
    }

    /// Takes down that a client is behind with a conference.
    fn fall_behind(&mut self, number: u64, behind: Behind) -> Result<(), AllocError> {
        match self.clients.get_mut(&number) {
            Some(seat) => match seat.behind.push_back(behind) {
                Ok(()) => Ok(()),
                Err(_) => Err(AllocError),
            },
            None => Ok(()),
        }
    }

    /// Has a client watch a conference no longer, where it does.
    pub fn unwatch(&mut self, number: u64, conference: u32) {
        self.unfollow(conference, number);
        let Some(seat) = self.clients.get_mut(&number) else {
            return;
        };
        let _watched = seat.leave(conference);
    }

    /// Takes a client out of those who have caught up with a conference; with the last of them the replica goes.
    pub fn unfollow(&mut self, conference: u32, number: u64) {
        let Some(meeting) = self.meetings.get_mut(&conference) else {
            return;
        };
        let Some(followed) = &mut meeting.followed else {
            return;
        };
        let place = followed
            .followers
            .iter()
            .position(|follower| follower.client == number);
        if let Some(place) = place {
            let _follower = followed.followers.remove(place);
        }
        if followed.followers.is_empty() {
            meeting.followed = None;
            self.following = self.following.saturating_sub(1);
        }
    }

    /// Up to which place a client has been told what a conference's events show; `None` where it doesn't watch it.
    pub fn reached(&self, number: u64, conference: u32) -> Option<u64> {
        let seat = self.clients.get(&number)?;
        let _watched = seat.watched.get(&conference)?;
        let caught_up = match &self.meetings.get(&conference)?.followed {
            Some(followed) => followed.reached(number),
            None => None,
        };
        caught_up.or(seat.reached(conference))
    }
}
