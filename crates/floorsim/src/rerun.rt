//! A conference whose journal is run again.

use crate::standing::add_floor;
use crate::telling::tell_of;
use floor_client::{Ask, AskRefusal, Client, Numbers, Tell, ask_fits};
use floor_config::{Config, Floor};
use floor_machine::{Event, Parcel};
use floor_room::{Ledger, Phase, Refusal, RoomRefusal, SharedInfo};
use std::alloc::{AllocError, Global};
use std::fmt::Write;

/// A member that joined.
#[derive(Clone, Copy, Debug)]
struct Joined {
    user: u16,
    /// How many messages to it weren't acknowledged.
    behind: u32,
}

/// A conference whose journal is run again, event by event: `run` gives what each tells, and `standing` how
/// the conference stands behind it.
#[derive(Drop)]
pub struct Rerun {
    alloc: Global,
    conference: u32,
    ledger: Ledger,
    /// What the last event changed, which nobody asks for.
    changed: Vec<SharedInfo>,
    /// A user of the conference, if it has one.
    user: Option<u16>,
    floors: Vec<Floor>,
    members: Vec<Joined>,
    place: u32,
}

impl Rerun {
    /// The conference as it opened.
    pub fn new(alloc: Global, config: Config) -> Result<Rerun, AllocError> {
        let conference = config.conference();
        let user = match config.users() {
            [first, ..] => Some(first.id),
            [] => None,
        };
        let floors = Vec::from_slice(alloc, config.floors())?;
        let ledger = Ledger::new(alloc, config)?;
        Ok(Rerun {
            alloc,
            conference,
            ledger,
            changed: Vec::new(alloc),
            user,
            floors,
            members: Vec::new(alloc),
            place: 0,
        })
    }

    /// The place of the last event, and 0 before the first.
    pub fn place(&self) -> u32 {
        self.place
    }

    /// Adds an event to the ledger.
    fn add(&mut self, event: Event) -> Result<Vec<Parcel>, RoomRefusal> {
        self.ledger.add(event, &mut self.changed)
    }

    /// Runs the next event, and gives what it tells.
    pub fn run(&mut self, event: Event) -> Result<Vec<Parcel>, RoomRefusal> {
        self.note(&event)?;
        let parcels = self.add(event)?;
        self.place = self.place.saturating_add(1);
        for parcel in parcels.iter() {
            if let Some(member) = self.member(parcel.n()) {
                member.behind = member.behind.saturating_add(1);
            }
        }
        Ok(parcels)
    }

    /// Notes who joins, what is acknowledged, and which users, floors and chairs there are.
    fn note(&mut self, event: &Event) -> Result<(), AllocError> {
        match event {
            Event::Join { user } => self.members.push(Joined {
                user: *user,
                behind: 0,
            })?,
            Event::Took { n, k } => {
                if let Some(member) = self.member(*n) {
                    member.behind = member.behind.saturating_sub(*k);
                }
            }
            Event::AddUser { user } => self.user = Some(user.as_user().id),
            Event::AddFloor { floor } => self.floors.push(*floor)?,
            Event::SetChair { floor, chair } => self.put_chair(*floor, *chair),
            Event::Message { .. }
            | Event::Leave { .. }
            | Event::Revoke { .. }
            | Event::Close
            | Event::Say { .. } => {}
        }
        Ok(())
    }

    /// Notes a floor's chair.
    fn put_chair(&mut self, id: u16, chair: Option<u16>) {
        for floor in self.floors.iter_mut() {
            if floor.id == id {
                floor.chair = chair;
            }
        }
    }

    /// The member with this number.
    fn member(&mut self, n: u32) -> Option<&mut Joined> {
        let index = n.checked_sub(1)?;
        self.members.get_mut(index as usize)
    }

    /// How the conference stands, as lines: its counts, its live members, and of an open one each floor, as
    /// the machine answers whoever asks for it. Nothing is asked of it behind that.
    pub fn standing(mut self) -> Result<String, RoomRefusal> {
        let mut text = String::new(self.alloc);
        let status = self.ledger.status();
        let conference = self.conference;
        let members = status.members;
        let ongoing = status.ongoing;
        let events = status.events;
        let phase = status.phase.name();
        write!(
            text,
            "conference {conference} members {members} ongoing {ongoing} events {events} {phase}\n"
        )?;
        self.add_members(&mut text)?;
        if status.phase == Phase::Running {
            self.add_floors(&mut text)?;
        }
        Ok(text)
    }

    /// Adds a line for each live member.
    fn add_members(&mut self, text: &mut String) -> Result<(), AllocError> {
        for n in self.ledger.live_numbers() {
            let index = n.saturating_sub(1);
            let Some(member) = self.members.get(index as usize) else {
                continue;
            };
            let user = member.user;
            let behind = member.behind;
            let cut = if self.ledger.is_cut(*n) { " cut" } else { "" };
            write!(text, "member {n} user {user} behind {behind}{cut}\n")?;
        }
        Ok(())
    }

    /// Adds a line for each floor.
    fn add_floors(&mut self, text: &mut String) -> Result<(), RoomRefusal> {
        let parcels = self.asked()?;
        for parcel in parcels.iter() {
            if let Some(
                Tell::FloorStatus {
                    floor: Some(id),
                    infos,
                },
            ) = tell_of(self.alloc, parcel)?
            {
                for floor in self.floors.iter() {
                    if floor.id == id {
                        add_floor(text, floor, infos.as_slice())?;
                    }
                }
            }
        }
        Ok(())
    }

    /// What answers a FloorQuery of all floors (RFC 8855, section 12.1), asked by a member that joins for it,
    /// or where 64 are live by one of them, which acknowledges first what it was told.
    fn asked(&mut self) -> Result<Vec<Parcel>, RoomRefusal> {
        let Some((n, user)) = self.asker()? else {
            return Ok(Vec::new(self.alloc));
        };
        let ask = Ask::FloorQuery {
            floors: self.floor_ids()?,
        };
        if !ask_fits(&ask) {
            return Ok(Vec::new(self.alloc));
        }
        let mut client = Client::new(self.alloc, self.conference, user);
        let frame = match client.ask(ask) {
            Ok(frame) => frame,
            Err(AskRefusal::NoTransaction) | Err(AskRefusal::Memory) => {
                return Err(RoomRefusal::Refused(Refusal::Memory));
            }
        };
        self.add(Event::Message { n, frame })
    }

    /// The Floor IDs.
    fn floor_ids(&self) -> Result<Numbers, AllocError> {
        let mut ids = Vec::new(self.alloc);
        for floor in self.floors.iter() {
            ids.push(floor.id)?;
        }
        Ok(Numbers::from_vec(ids))
    }

    /// A live member that may ask, with its user; `None` where there is no user.
    fn asker(&mut self) -> Result<Option<(u32, u16)>, RoomRefusal> {
        let Some(user) = self.user else {
            return Ok(None);
        };
        match self.add(Event::Join { user }) {
            Ok(_) => {
                let n = self.members.len().saturating_add(1);
                return Ok(Some((u32::try_from(n).unwrap_or(u32::MAX), user)));
            }
            Err(RoomRefusal::Refused(Refusal::Full)) => {}
            Err(refusal) => return Err(refusal),
        }
        let Some((n, member)) = self.uncut() else {
            return Err(RoomRefusal::Refused(Refusal::Full));
        };
        if member.behind > 0 {
            self.add(Event::Took {
                n,
                k: member.behind,
            })?;
        }
        Ok(Some((n, member.user)))
    }

    /// A live member that isn't cut.
    fn uncut(&self) -> Option<(u32, Joined)> {
        for n in self.ledger.live_numbers() {
            if self.ledger.is_cut(*n) {
                continue;
            }
            let index = n.saturating_sub(1);
            if let Some(member) = self.members.get(index as usize) {
                return Some((*n, *member));
            }
        }
        None
    }
}
