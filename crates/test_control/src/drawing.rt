//! What happens is drawn by a seed.

use crate::happening::{ALL, Ask, Does, Happening, Message, Way};
use crate::journals::CONFERENCES;
use rand_core::{Rng, SeedableRng};
use rand_xoshiro::Xoshiro256PlusPlus;

/// What happens next is drawn here.
#[derive(Drop)]
pub struct Drawing {
    random: Xoshiro256PlusPlus,
    /// How each peer has connected; and what happens next, where that is known.
    ways: [Option<Way>; 24],
    peers: usize,
    then: Option<Happening>,
    /// Whether clients of this run take nothing now and then.
    is_slow: bool,
}

impl Drawing {
    /// What happens in the run of a seed.
    pub fn new(seed: u64) -> Drawing {
        let mut random = Xoshiro256PlusPlus::seed_from_u64(seed);
        let is_slow = random.next_u64() % 3 == 0;
        Drawing {
            random,
            ways: [None; 24],
            peers: 0,
            then: None,
            is_slow,
        }
    }

    /// A number below this one.
    fn below(&mut self, most: u64) -> u64 {
        self.random.next_u64() % most.max(1)
    }

    fn one_in(&mut self, most: u64) -> bool {
        self.below(most) == 0
    }

    /// What happens next: at first two conferences are opened, and an observer watches one from its first place on.
    pub fn next(&mut self, place: u32) -> Happening {
        match place {
            0 if self.one_in(2) => Happening::Serially,
            0 => Happening::Turn,
            1 => self.connect(Way::Control),
            2 => ask_of(0, Ask::Open(1)),
            3 => ask_of(0, Ask::Open(2)),
            4 => of(0, Does::Send(ALL)),
            5 => Happening::Turn,
            6 => self.connect(Way::Observe),
            7 => ask_of(1, watch(1, Some(1))),
            8 => of(1, Does::Send(ALL)),
            9 => self.connect(Way::Member {
                conference: 1,
                user: 10,
            }),
            10 => Happening::Turn,
            _ => match self.then.take() {
                Some(happening) => happening,
                None => self.draw(),
            },
        }
    }

    fn draw(&mut self) -> Happening {
        match self.below(100) {
            0..=5 => {
                let way = self.way();
                self.connect(way)
            }
            6..=49 => self.say_some(),
            50..=57 => {
                let count = self.count();
                of(self.somebody(), Does::Send(count))
            }
            58 if self.one_in(3) => of(self.somebody(), Does::End),
            59 if self.one_in(5) => of(self.somebody(), Does::Reset),
            60..=63 if self.is_slow => of(self.somebody(), Does::Stall),
            60..=69 => {
                let count = if self.one_in(2) {
                    ALL
                } else {
                    1 + self.below(900) as usize
                };
                of(self.somebody(), Does::Take(count))
            }
            70..=75 => Happening::Pass(1 + self.below(900_000)),
            76 => Happening::Pass(1 + self.below(12_000_000)),
            _ => Happening::Turn,
        }
    }

    fn way(&mut self) -> Way {
        match self.below(8) {
            0 | 1 => Way::Control,
            2..=4 => Way::Observe,
            _ => Way::Member {
                conference: self.conference(),
                user: 10 + self.below(3) as u16,
            },
        }
    }

    fn connect(&mut self, way: Way) -> Happening {
        let peer = self.peers;
        if self.ways.len() <= peer {
            return Happening::Turn;
        }
        self.ways[peer] = Some(way);
        self.peers += 1;
        of(peer, Does::Connect(way))
    }

    /// One of those who have connected.
    fn somebody(&mut self) -> usize {
        let most = self.peers as u64;
        self.below(most) as usize
    }

    fn conference(&mut self) -> u32 {
        let most = u64::from(CONFERENCES);
        let below = if self.one_in(6) { most } else { 2 };
        1 + self.below(below) as u32
    }

    /// How many bytes are sent of what a peer has asked or said.
    fn count(&mut self) -> usize {
        match self.below(5) {
            0 => 1 + self.below(300) as usize,
            1 => 1 + self.below(12) as usize,
            _ => ALL,
        }
    }

    /// A peer asks or says something, most of which is sent next.
    fn say_some(&mut self) -> Happening {
        let peer = self.somebody();
        let way = match self.ways.get(peer) {
            Some(Some(way)) => *way,
            _ => Way::Control,
        };
        if !self.one_in(5) {
            let count = self.count();
            self.then = Some(of(peer, Does::Send(count)));
        }
        let does = match way {
            Way::Member { .. } => Does::Say {
                times: 1 + self.below(4) as u32,
                message: self.message(),
            },
            Way::Control | Way::Observe => {
                let ask = self.ask(peer, way);
                // By its answer it is known from where on a client watches.
                Does::Ask {
                    ask,
                    is_answered: is_watching(ask) || !self.one_in(12),
                }
            }
        };
        of(peer, does)
    }

    fn message(&mut self) -> Message {
        let floor = 1 + self.below(3) as u16;
        match self.below(8) {
            0..=2 => Message::Request(floor),
            3 | 4 => Message::Release(self.request()),
            5 => Message::Watch(floor),
            _ => Message::Hello,
        }
    }

    fn request(&mut self) -> u16 {
        1 + self.below(20) as u16
    }

    /// What a client asks for. Every fourth watches all, and no other does. An observer asks for an act now and then.
    fn ask(&mut self, peer: usize, way: Way) -> Ask {
        let is_act = if way == Way::Control { 2 } else { 3 };
        if self.one_in(is_act) {
            return self.act();
        }
        let conference = self.conference();
        if self.one_in(3) {
            return self.watching(peer, conference);
        }
        match self.below(12) {
            0 => Ask::List,
            1..=3 => Ask::Get(conference),
            4..=6 => Ask::Journal {
                conference,
                from: self.below(30),
            },
            7 => Ask::Status,
            8 => Ask::Words(conference),
            9 if self.one_in(4) => Ask::Help,
            10 if self.one_in(3) => Ask::NoJson,
            11 if self.one_in(3) => Ask::NoMethod,
            _ => Ask::Get(conference),
        }
    }

    fn watching(&mut self, peer: usize, conference: u32) -> Ask {
        let ends = self.one_in(4);
        if peer % 4 == 3 {
            return if ends { Ask::UnwatchAll } else { Ask::WatchAll };
        }
        if ends {
            return Ask::Unwatch(conference);
        }
        let from = match self.below(4) {
            0 | 1 => Some(1),
            2 => Some(self.below(12)),
            _ => None,
        };
        watch(conference, from)
    }

    fn act(&mut self) -> Ask {
        let conference = self.conference();
        let request = self.request();
        let user = 10 + self.below(4) as u16;
        let floor = 1 + self.below(3) as u16;
        match self.below(40) {
            0 | 1 => Ask::Open(conference),
            2 => Ask::OpenText(conference),
            3 if self.one_in(3) => Ask::Close(conference),
            4 => Ask::Forget(conference),
            5 => Ask::AddUser(conference),
            6 => Ask::AddPort { conference, user },
            7 => Ask::AddFloor(conference),
            8 => Ask::SetChair {
                conference,
                floor,
                user: if self.one_in(2) { 0 } else { 1 },
            },
            9 => Ask::Remove { conference, user },
            10 => Ask::RemoveMember {
                conference,
                n: 1 + self.below(6) as u32,
            },
            11 | 12 => Ask::Admit { conference, user },
            13..=22 => Ask::Create {
                conference,
                user,
                floor,
            },
            23..=26 => Ask::Release {
                conference,
                request,
            },
            27 | 28 => Ask::Accept {
                conference,
                request,
            },
            29..=31 => Ask::Grant {
                conference,
                request,
            },
            32 | 33 => Ask::Deny {
                conference,
                request,
            },
            34 | 35 => Ask::Revoke {
                conference,
                request,
            },
            36 | 37 => Ask::SetWord { conference, user },
            38 => Ask::NoParams,
            _ => Ask::Create {
                conference,
                user: 1,
                floor,
            },
        }
    }
}

fn is_watching(ask: Ask) -> bool {
    matches!(
        ask,
        Ask::Watch { .. } | Ask::WatchAll | Ask::Unwatch(_) | Ask::UnwatchAll
    )
}

fn watch(conference: u32, from: Option<u64>) -> Ask {
    Ask::Watch { conference, from }
}

fn ask_of(peer: usize, ask: Ask) -> Happening {
    of(
        peer,
        Does::Ask {
            ask,
            is_answered: true,
        },
    )
}

fn of(peer: usize, does: Does) -> Happening {
    Happening::Of { peer, does }
}
