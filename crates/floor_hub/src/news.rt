//! What the events of conferences that are watched change, gathered until it is cleared.

ghost use Rattle.std.specs.List.{list_any};
ghost use Rattle.std.specs.Prelude.{◌≡◌, ◌==◌, ◌++◌, ◌∷◌, ℕ, [], false, true, filter, length, nat_eq, not, IfOk, OnErr, OnOk};
ghost use Rattle.indexmap.specs.IndexMap.{get};
ghost use Rattle.floor_machine.specs.Conference.{AreCut};
ghost use Rattle.floor_room.specs.Ledger.{conference_of};
ghost use Rattle.floor_hub.specs.News.{has};
ghost use Rattle.floor_hub.specs.steps.Gathering.{GathersFor, GathersIn, IsBefore, IsNewsIn};

use floor_numbered::Numbered;
use floor_room::{Effects, Room, SharedInfo};
use indexmap::IndexSet;
use std::alloc::{AllocError, Global};
use std::marker::Model;

/// What one event of a conference changed, for whoever watches the conference.
#[derive(Debug, Drop)]
pub struct News {
    pub conference: u32,
    /// Where the event stands in the conference's journal, counted from 1.
    pub place: u64,
    /// What is shown now of each floor request that it changed, ascending: of a new one, of one that ended with
    /// its status, and of one that is shown otherwise than before.
    pub changed: Vec<SharedInfo>,
    /// The numbers of the members that it cut, in no order.
    pub cut: Vec<u32>,
}

/// How a conference stood before an event: how many events it had, and which of its live members were cut, where memory
/// wasn't refused for that.
#[derive(Drop)]
pub(crate) struct Before {
    pub(crate) conference: u32,
    pub(crate) events: usize,
    pub(crate) cut: Vec<u32>,
    pub(crate) is_known: bool,
}

/// Which conferences are watched, what their events changed since it was cleared, and whether memory was
/// refused for some of it. The memory that the list grew to stays with it.
#[derive(Drop)]
pub(crate) struct Gathered {
    watched: IndexSet<u32>,
    news: Vec<News>,
    missed: bool,
}

impl Model for Gathered {
    ghost use Rattle.floor_hub.specs.News.{Gathered};

    ghost Value = { Gathered };

    ghost view = { λ g. record {
      watched = g.watched.keys;
      news = g.news.items;
      missed = g.missed;
    } };
}

impl Gathered {
    /// No conference is watched. Takes no memory.
    pub(crate) fn new(alloc: Global) -> Gathered
        ensures watched { result.watched ≡ [] }
        ensures news { result.news ≡ [] }
        ensures missed { result.missed ≡ false }
    {
        Gathered {
            watched: IndexSet::new(alloc),
            news: Vec::new(alloc),
            missed: false,
        }
    }

    /// Whether no conference is watched. Takes no memory.
    #[inline(always)]
    pub(crate) fn is_idle(&self) -> bool
        ensures value { result ≡ true → self.now.watched ≡ [] }
    {
        self.watched.is_empty()
    }

    /// Whether a conference is watched. Takes no memory.
    pub(crate) fn watches(&self, conference: u32) -> bool
        ensures value { result ≡ has self.now.watched conference }
    {
        self.watched.contains(&conference)
    }

    /// A conference is watched from now on. After an error nothing has changed.
    pub(crate) fn watch(&mut self, conference: u32) -> Result<(), AllocError>
        ensures watched { OnOk result (has self.new.watched conference ≡ true) }
        ensures others { (c : ℕ) → nat_eq conference c ≡ false
            → has self.new.watched c ≡ has self.old.watched c }
        ensures news { self.new ≡ record self.old { watched = self.new.watched } }
        ensures left { OnErr result (self.new ≡ self.old) }
    {
        match self.watched.insert(conference) {
            Ok(_) => Ok(()),
            Err(_) => Err(AllocError),
        }
    }

    /// A conference is watched no more. Takes no memory.
    pub(crate) fn unwatch(&mut self, conference: u32)
        ensures unwatched { has self.new.watched conference ≡ false }
        ensures others { (c : ℕ) → nat_eq conference c ≡ false
            → has self.new.watched c ≡ has self.old.watched c }
        ensures news { self.new ≡ record self.old { watched = self.new.watched } }
    {
        let _was = self.watched.swap_remove(&conference);
    }

    /// What was gathered.
    pub(crate) fn news(&self) -> &[News]
        ensures value { result.now ≡ self.now.news }
    {
        self.news.as_slice()
    }

    /// Whether memory was refused for some of it.
    pub(crate) fn missed(&self) -> bool
        ensures value { result ≡ self.now.missed }
    {
        self.missed
    }

    /// Nothing was gathered. Takes no memory.
    pub(crate) fn clear(&mut self)
        ensures next { self.new ≡ record self.old { news = []; missed = false } }
    {
        self.news.clear();
        self.missed = false;
    }

    /// How a conference stands, where it is watched.
    pub(crate) fn before(&self, rooms: &Numbered<Room>, conference: u32) -> Option<Before>
        ensures before { IsBefore self.now.watched (get nat_eq rooms.now conference) conference
            result }
    {
        if self.is_idle() {
            return None;
        }
        if !self.watches(conference) {
            return None;
        }
        match rooms.get(u64::from(conference)) {
            Some(room) => Some(before_in(*self.news.allocator(), room, conference)),
            None => None,
        }
    }

    /// Gathers what the event changed that has come to the journal since, if one has.
    pub(crate) fn gather(
        &mut self,
        rooms: &Numbered<Room>,
        before: Option<Before>,
        effects: &Effects,
    )
        ensures next { GathersFor before (get nat_eq rooms.now) effects.now.changed.items
            self.old self.new }
    {
        match before {
            Some(before) => match rooms.get(u64::from(before.conference)) {
                Some(room) => self.gather_in(room, &before, effects),
                None => {}
            },
            None => {}
        }
    }

    /// The same of this room.
    fn gather_in(&mut self, room: &Room, before: &Before, effects: &Effects)
        ensures next { GathersIn before.now room.now effects.now.changed.items
            self.old self.new }
    {
        if room.journal().len() <= before.events {
            return;
        }
        match news_in(*self.news.allocator(), room, before, effects) {
            Ok(news) => match self.news.push(news) {
                Ok(()) => {}
                Err(_) => self.missed = true,
            },
            Err(_) => self.missed = true,
        }
    }
}

/// How the conference of a room stands.
fn before_in(alloc: Global, room: &Room, conference: u32) -> Before
    ensures conference { result.conference ≡ conference }
    ensures events { result.events ≡ length room.now.ledger.journal }
    ensures cut { result.is_known ≡ true → room.now.ledger.is_broken ≡ false
        → AreCut (conference_of room.now.ledger).members result.cut.items }
{
    let events = room.journal().len();
    match Vec::from_slice(alloc, room.cut_numbers()) {
        Ok(cut) => Before {
            conference,
            events,
            cut,
            is_known: true,
        },
        Err(_) => Before {
            conference,
            events,
            cut: Vec::new(alloc),
            is_known: false,
        },
    }
}

/// What the event changed that stands last in the journal of a room.
fn news_in(
    alloc: Global,
    room: &Room,
    before: &Before,
    effects: &Effects,
) -> Result<News, AllocError>
    ensures value { IfOk result (IsNewsIn before.now room.now effects.now.changed.items) }
{
    if !before.is_known {
        return Err(AllocError);
    }
    let cut = newly_cut(alloc, before.cut.as_slice(), room.cut_numbers())?;
    let changed = shared(alloc, effects.changed.as_slice())?;
    Ok(News {
        conference: before.conference,
        place: room.journal().len() as u64,
        changed,
        cut,
    })
}

/// The same, for another owner.
fn shared(alloc: Global, changed: &[SharedInfo]) -> Result<Vec<SharedInfo>, AllocError>
    ensures value { IfOk result (λ shared. shared.items ≡ changed.now) }
{
    let mut shared = Vec::with_capacity(alloc, changed.len())?;
    for info in changed {
        shared.push(info.share()?)?;
    }
    Ok(shared)
}

/// Whether a number is one of these.
fn is_among(numbers: &[u32], n: u32) -> bool
    ensures value { result ≡ list_any (λ k. k == n) numbers.now }
{
    numbers.iter().any(|k| *k == n)
}

/// Whether a number is none of those before.
fn is_new(before: &[u32], n: u32) -> bool
    ensures value { result ≡ not (list_any (λ k. k == n) before.now) }
{
    !is_among(before, n)
}

/// Those that are none of those before.
fn newly_cut(alloc: Global, before: &[u32], now: &[u32]) -> Result<Vec<u32>, AllocError>
    ensures value { IfOk result (λ cut. cut.items
        ≡ filter (λ n. not (list_any (λ k. k == n) before.now)) now.now) }
{
    now.iter()
        .filter(|n| is_new(before, **n))
        .copied()
        .collect(alloc)
}
