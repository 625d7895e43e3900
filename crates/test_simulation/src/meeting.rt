//! A conference as the floor machine alone has it, of what the server's journal says happened.

use crate::fault::{Fault, demand};
use crate::serving::SHUT;
use floor_machine::{Config, Event, Machine, Parcel, SharedInfo};
use floor_turn::Who;
use std::alloc::{AllocError, Global};

/// A member: what it is called for, and how much of it was taken.
#[derive(Drop)]
pub struct Member {
    /// Whose it is.
    pub peer: usize,
    pub who: Who,
    /// All that the events so far send it, and where each of its messages ends in that.
    bytes: Vec<u8>,
    ends: Vec<usize>,
    /// How many of the bytes its socket has taken, and how many messages are acknowledged.
    pub taken: usize,
    acknowledged: usize,
    /// Since when it is away.
    pub away: Option<u64>,
}

impl Member {
    /// What it wasn't sent yet.
    pub fn rest(&self) -> &[u8] {
        self.bytes.get(self.taken..).unwrap_or(&[])
    }

    /// The first so many of its messages that aren't acknowledged are. Gives whether its socket has taken them whole.
    fn acknowledge(&mut self, count: usize) -> bool {
        self.acknowledged = self.acknowledged.saturating_add(count);
        match self.ends.get(self.acknowledged.saturating_sub(1)) {
            Some(end) => *end <= self.taken,
            None => false,
        }
    }
}

/// A conference: its machine, and what each member is called for.
#[derive(Drop)]
pub struct Meeting {
    alloc: Global,
    pub conference: u32,
    machine: Machine,
    /// How many events it has had, and since when it has ended.
    pub events: usize,
    pub ended: Option<u64>,
    /// The members, by their numbers, the first of which is 1.
    members: Vec<Member>,
    out: Vec<Parcel>,
    changed: Vec<SharedInfo>,
}

impl Meeting {
    /// A conference that opens.
    pub fn new(alloc: Global, config: Config) -> Result<Meeting, AllocError> {
        Ok(Meeting {
            alloc,
            conference: config.conference(),
            machine: Machine::new(alloc, config)?,
            events: 0,
            ended: None,
            members: Vec::new(alloc),
            out: Vec::new(alloc),
            changed: Vec::new(alloc),
        })
    }

    pub fn is_open(&self) -> bool {
        self.machine.is_open()
    }

    /// How many sockets a user may have at once.
    pub fn connections(&self) -> usize {
        usize::from(self.machine.config().connections())
    }

    /// Whether a user of it has this number.
    pub fn has_user(&self, user: u16) -> bool {
        self.machine.config().users().iter().any(|u| u.id == user)
    }

    /// The numbers of the live members.
    pub fn live(&self) -> &[u32] {
        self.machine.live_numbers()
    }

    /// Whether a member of this user is away, or of any.
    pub fn has_away(&self, user: Option<u16>) -> bool {
        self.members
            .iter()
            .filter(|member| user.is_none() || user == Some(member.who.user))
            .any(|member| member.away.is_some())
    }

    /// Until when a member stays that is away since then, with this grace.
    pub fn stays_until(&self, away: u64, grace: u64) -> u64 {
        let ended = self.ended.unwrap_or(u64::MAX);
        away.saturating_add(grace).min(ended.saturating_add(SHUT))
    }

    pub fn is_cut(&self, n: u32) -> bool {
        self.machine.cut_numbers().contains(&n)
    }

    pub fn members(&self) -> &[Member] {
        self.members.as_slice()
    }

    /// The member with this number.
    pub fn member(&self, n: u32) -> Option<&Member> {
        self.members.get((n as usize).checked_sub(1)?)
    }

    pub fn member_mut(&mut self, n: u32) -> Result<&mut Member, Fault> {
        match self.members.get_mut((n as usize).wrapping_sub(1)) {
            Some(member) => Ok(member),
            None => Err(Fault::of("no member has the number", n as usize)),
        }
    }

    /// A user joins by a peer's socket, as this member.
    pub fn join(&mut self, peer: usize, user: u16) -> Result<Who, Fault> {
        self.events = self.events.saturating_add(1);
        let Ok(n) = self.machine.join(user) else {
            return Err(Fault::of("a join isn't lawful", peer));
        };
        let who = Who {
            conference: self.conference,
            user,
            n,
        };
        self.members.push(Member {
            peer,
            who,
            bytes: Vec::new(self.alloc),
            ends: Vec::new(self.alloc),
            taken: 0,
            acknowledged: 0,
            away: None,
        })?;
        Ok(who)
    }

    /// Another event happens, and what it tells is called for.
    pub fn apply(&mut self, event: &Event) -> Result<(), Fault> {
        self.events = self.events.saturating_add(1);
        if let Event::Took { n, k } = event {
            let was_taken = self.member_mut(*n)?.acknowledge(*k as usize);
            demand(was_taken, "what isn't taken is acknowledged", *n as usize)?;
        }
        self.out.clear();
        self.changed.clear();
        let applied = self.machine.apply(event, &mut self.out, &mut self.changed);
        demand(applied.is_ok(), "an event isn't lawful", self.events)?;
        for parcel in self.out.iter() {
            if let Some(member) = self.members.get_mut((parcel.n() as usize).wrapping_sub(1)) {
                member.bytes.extend_from_slice(parcel.header())?;
                member.bytes.extend_from_slice(parcel.payload())?;
                member.ends.push(member.bytes.len())?;
            }
        }
        Ok(())
    }
}
