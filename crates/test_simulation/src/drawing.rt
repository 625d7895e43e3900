//! What happens is drawn by a seed.
//!
//! Each run has a theme, so that what is rare in one is frequent in another: many who connect at once, many messages,
//! readers that take nothing, doors, a want of descriptors.

use crate::happening::{ALL, DOOR, Does, HEALTH, Happening, ID, Message, port_of};
use floor_turn::Place;
use rand_core::{Rng, SeedableRng};
use rand_xoshiro::Xoshiro256PlusPlus;

/// Times beyond some of those that are waited for, in microseconds.
const LONG: [u64; 6] = [
    100_000, 1_000_000, 4_999_000, 5_000_000, 9_998_000, 10_001_000,
];

/// What is frequent in a run.
#[derive(Clone, Copy, Debug, PartialEq, Eq)]
enum Theme {
    Even,
    Crowds,
    Floods,
    Slow,
    Doors,
    Starved,
}

/// What happens next is drawn here.
#[derive(Drop)]
pub struct Drawing {
    random: Xoshiro256PlusPlus,
    theme: Theme,
    /// How many peers have connected, and how many of a crowd have yet to, at which place.
    peers: usize,
    crowd: u64,
    place: Place,
    /// Whether the last that has connected is at a door, and says who it is next; and what happens next, where that is
    /// known: what somebody has said just now is sent, or a conference is opened that has no port.
    is_at_door: bool,
    then: Option<Happening>,
}

impl Drawing {
    /// What happens in the run of a seed.
    pub fn new(seed: u64) -> Drawing {
        let mut random = Xoshiro256PlusPlus::seed_from_u64(seed);
        let theme = match random.next_u64() % 8 {
            0 => Theme::Crowds,
            1 => Theme::Floods,
            2 | 3 => Theme::Slow,
            4 => Theme::Doors,
            5 => Theme::Starved,
            _ => Theme::Even,
        };
        Drawing {
            random,
            theme,
            peers: 0,
            crowd: 0,
            place: ID,
            is_at_door: false,
            then: None,
        }
    }

    /// A number below this one.
    fn below(&mut self, most: u64) -> u64 {
        self.random.next_u64() % most.max(1)
    }

    fn one_in(&mut self, most: u64) -> bool {
        self.below(most) == 0
    }

    /// What happens first: how long members outlive their sockets.
    pub fn first(&mut self) -> Happening {
        match self.below(if self.theme == Theme::Crowds { 2 } else { 6 }) {
            0 => Happening::GraceForAll(1 + self.below(30_000)),
            1 => Happening::Grace(1 + self.below(30_000)),
            _ => Happening::Grace(0),
        }
    }

    /// What happens next: at first conferences are opened.
    pub fn next(&mut self, place: u32) -> Happening {
        match place {
            0 | 1 => return Happening::Open(1 + place),
            2 if !self.one_in(25) => return Happening::Turn,
            2 => return Happening::Deny,
            _ => {}
        }
        if self.crowd != 0 {
            self.crowd -= 1;
            return self.connect();
        }
        if self.is_at_door {
            self.is_at_door = false;
            let message = self.header();
            return self.say(self.peers.saturating_sub(1), 1, message);
        }
        match self.then.take() {
            Some(happening) => happening,
            None => self.draw(),
        }
    }

    fn draw(&mut self) -> Happening {
        match self.below(200) {
            0..=15 => {
                self.place = self.place();
                self.connect()
            }
            16..=75 => self.say_some(),
            76..=85 => of(self.somebody(), Does::Send(self.count())),
            86..=90 => of(self.somebody(), Does::End),
            91..=93 => of(self.somebody(), Does::Reset),
            94 => of(self.somebody(), Does::Break),
            95..=109 => self.take(),
            110..=148 => Happening::Turn,
            149..=163 => Happening::Deeds(1 + self.below(6) as u32),
            164..=179 => Happening::Pass(self.below(300_000)),
            180..=183 => Happening::Pass(LONG[self.below(6) as usize]),
            184 => Happening::Back(self.below(4_000_000)),
            185..=188 => Happening::Stray {
                kind: self.below(8) as u16,
                slot: self.below(40) as usize,
            },
            189..=193 => self.administer(),
            194 if self.theme == Theme::Starved || self.one_in(6) => Happening::Starve,
            194..=196 => Happening::Feed,
            _ if self.theme == Theme::Crowds || self.one_in(12) => {
                self.place = self.place();
                self.crowd = 40 + self.below(60);
                self.connect()
            }
            _ => Happening::Turn,
        }
    }

    /// Where somebody connects.
    fn place(&mut self) -> Place {
        let doors = if self.theme == Theme::Doors { 8 } else { 3 };
        match self.below(30) {
            0 => HEALTH,
            kind if kind / 3 < doors => { if self.one_in(2) { ID } else { DOOR } }
            _ => match self.below(7) {
                0..=2 => port_of(1, 10 + self.below(3) as u16),
                3..=4 => port_of(2, 10 + self.below(2) as u16),
                _ => port_of(3, 10),
            },
        }
    }

    fn connect(&mut self) -> Happening {
        let peer = self.peers;
        self.peers += 1;
        self.is_at_door = match self.place {
            Place::Door { .. } => self.crowd == 0 && !self.one_in(8),
            Place::Port { .. } | Place::Health { .. } | Place::Control | Place::Observe => false,
        };
        of(peer, Does::Connect(self.place))
    }

    /// One of those who have connected, the last ones rather than others.
    fn somebody(&mut self) -> usize {
        let last = if self.one_in(3) { 64 } else { 6 };
        let back = self.below(last) as usize % self.peers.max(1);
        self.peers.saturating_sub(1 + back)
    }

    /// A peer says something, most of which is sent next.
    fn say(&mut self, peer: usize, times: u32, message: Message) -> Happening {
        if !self.one_in(6) {
            self.then = Some(of(peer, Does::Send(self.count())));
        }
        of(peer, Does::Say { times, message })
    }

    fn say_some(&mut self) -> Happening {
        let most = match self.theme {
            Theme::Floods => 120,
            Theme::Slow => 1 + self.below(3) * 300,
            _ => 4,
        };
        let times = 1 + self.below(most) as u32;
        let message = if self.one_in(30) {
            self.header()
        } else {
            self.message()
        };
        let peer = self.somebody();
        self.say(peer, times, message)
    }

    fn header(&mut self) -> Message {
        match self.below(24) {
            0 => Message::Local,
            1 => Message::Broken,
            2 => Message::Nameless,
            kind => Message::Header {
                conference: match kind {
                    3 | 4 => 9,
                    5..=7 => 3,
                    8..=13 => 2,
                    _ => 1,
                },
                user: match self.below(8) {
                    0 => 99,
                    1 => 20,
                    other => 10 + other as u16 % 4,
                },
            },
        }
    }

    fn message(&mut self) -> Message {
        let floor = 1 + self.below(3) as u16;
        let request = 1 + self.below(30) as u16;
        match self.below(32) {
            0..=9 => Message::Request(floor),
            10..=15 => Message::Release(request),
            16..=19 => Message::Watch(floor),
            20..=21 => Message::Grant(request),
            22 => Message::Refuse(request),
            23 if self.one_in(8) => Message::Bytes(self.below(1 << 32) as u32),
            24 if self.one_in(4) => Message::Long(self.below(2_500) as u16),
            _ => Message::Hello,
        }
    }

    /// How many bytes are sent of what a peer has said.
    fn count(&mut self) -> usize {
        match self.below(4) {
            0 => 1 + self.below(400) as usize,
            1 => 1 + self.below(12) as usize,
            _ => ALL,
        }
    }

    fn take(&mut self) -> Happening {
        let peer = self.somebody();
        let slow = if self.theme == Theme::Slow { 4 } else { 2 };
        of(
            peer,
            match self.below(8) {
                0 => Does::Take(ALL),
                kind if kind <= slow => Does::Stall,
                _ => Does::Take(1 + self.below(600) as usize),
            },
        )
    }

    fn administer(&mut self) -> Happening {
        let conference = 1 + self.below(3) as u32;
        match self.below(24) {
            0..=3 => Happening::Open(conference),
            4..=6 => Happening::Forget(conference),
            7 => Happening::Close(conference),
            8 | 9 => Happening::Close(3),
            10 | 11 => {
                self.then = Some(Happening::Open(3));
                Happening::Deny
            }
            12..=14 => Happening::Allow,
            15 if self.one_in(4) => Happening::Stop,
            _ => Happening::Revoke(1 + self.below(20) as u16),
        }
    }
}

fn of(peer: usize, does: Does) -> Happening {
    Happening::Of { peer, does }
}

/// What happens at the end of each run: all that was said is served, and what is late is shut.
pub const LAST: [Happening; 6] = [
    Happening::Feed,
    Happening::Turn,
    Happening::Pass(200_000),
    Happening::Turn,
    Happening::Pass(10_100_000),
    Happening::Turn,
];
