//! What a client watches.

ghost use Rattle.std.specs.Prelude.{◌≡◌, ◌<◌, ℕ, None, OnErr, OnOk, Some, false, nat_eq};
ghost use Rattle.floor_clients.specs.Watched.{Sets, next_of, passed_at, watches_nothing};

use indexmap::IndexMap;
use std::alloc::{AllocError, Global};
use std::marker::Model;

/// The conferences that a client watches, each with the place that it is told next, and whether it watches all others
/// too.
#[derive(Drop)]
pub(crate) struct Watched {
    all: bool,
    places: IndexMap<u32, u64>,
}

impl Model for Watched {
    ghost use Rattle.floor_clients.specs.Watched.{Watched};

    ghost Value = { Watched };

    ghost view = { λ w. record { all = w.all; places = w.places.entries } };
}

impl Watched {
    /// Nothing. Takes no memory.
    pub(crate) fn new(alloc: Global) -> Watched
        ensures value { result ≡ watches_nothing }
    {
        Watched {
            all: false,
            places: IndexMap::new(alloc),
        }
    }

    /// Whether it is all others too.
    pub(crate) fn has_all(&self) -> bool
        ensures value { result ≡ self.now.all }
    {
        self.all
    }

    /// The place of a conference that is told next, where it is watched by its number.
    pub(crate) fn next_of(&self, conference: u32) -> Option<u64>
        ensures value { result ≡ next_of self.now conference }
    {
        self.places.get(&conference).copied()
    }

    /// All others are watched too, or aren't.
    pub(crate) fn set_all(&mut self, all: bool)
        ensures next { self.new ≡ record self.old { all = all } }
    {
        self.all = all;
    }

    /// A conference is watched from a place on. After an error nothing has changed.
    pub(crate) fn watch(&mut self, conference: u32, place: u64) -> Result<(), AllocError>
        ensures took { OnOk result (Sets conference (Some place) self.old self.new) }
        ensures left { OnErr result (self.new ≡ self.old) }
    {
        match self.places.insert(conference, place) {
            Ok(_) => Ok(()),
            Err(_) => Err(AllocError),
        }
    }

    /// A conference isn't watched by its number any more.
    pub(crate) fn unwatch(&mut self, conference: u32)
        ensures next { Sets conference None self.old self.new }
    {
        let _before = self.places.swap_remove(&conference);
    }

    /// The event at this place of a conference is past. Whoever watches that place is told the next one next.
    pub(crate) fn pass(&mut self, conference: u32, place: u64)
        requires { place < 18446744073709551615 }
        ensures next { Sets conference (passed_at place (next_of self.old conference))
            self.old self.new }
    {
        match self.next_of(conference) {
            Some(next) if next == place => {
                // Of a conference that is there no memory is taken.
                let _before = self.places.insert(conference, place + 1);
            }
            _ => {}
        }
    }
}
