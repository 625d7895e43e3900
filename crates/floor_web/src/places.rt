//! The places of browsers' connections that go on, WebSockets and what pages are told: so many in all, of one
//! user, and of one network, so that nobody shuts out others.

ghost use Rattle.std.specs.Prelude.{◌≡◌, ◌++◌, [], ◌∷◌, Some, None, OnOk, IfErr, IfSome, OnErr, ◌<◌, length};
ghost use Rattle.std.specs.List.{position};
ghost use Rattle.floor_web.specs.Places as spec;

use std::alloc::{AllocFailed, Global};
use std::marker::Model;

/// How many places one user has: eight pages, each of a WebSocket and of what it is told.
pub const MAX_OF_USER: usize = 16;

/// How many places one network has.
pub const MAX_OF_NETWORK: usize = 64;

/// Who holds a place.
#[derive(Clone, Copy, Debug)]
pub struct Holder {
    pub conference: u32,
    pub user: u16,
    /// The network that the connection comes from: a number of its own for each. None where networks aren't
    /// counted, as for connections of this machine.
    pub network: Option<u64>,
}

/// Why a place isn't granted. The first that applies is told.
#[derive(Clone, Copy, Debug, PartialEq, Eq)]
pub enum NoPlace {
    /// The user holds as many as one user may.
    OfUser,
    /// The network holds as many as one network may.
    OfNetwork,
    /// All are held.
    OfAll,
    /// Memory was refused.
    Memory,
}

/// How many places there are, and who holds them: a connection holds one from `take` to `give_back`.
#[derive(Drop)]
pub struct Places {
    most: usize,
    holders: Vec<Holder>,
}

impl Model for Places {
    ghost use Rattle.floor_web.specs.Places.{Places};

    ghost Value = { Places };

    ghost view = { λ p. record { most = p.most; holders = p.holders.items } };
}

impl Places {
    /// So many places, all free. Takes no memory.
    pub fn new(alloc: Global, most: usize) -> Places
        ensures value { result ≡ record { most = most; holders = [] } }
    {
        Places {
            most,
            holders: Vec::new(alloc),
        }
    }

    /// Grants a place, where the user, the network and all together hold fewer than they may.
    pub fn take(&mut self, holder: Holder) -> Result<(), NoPlace>
        ensures took { OnOk result (spec.refusal self.old holder ≡ None) }
        ensures next { OnOk result (self.new
            ≡ record self.old { holders = self.old.holders ++ holder ∷ [] }) }

        ensures refused { IfErr result (λ why. spec.Refuses self.old holder why) }
        ensures left { OnErr result (self.new ≡ self.old) }
    {
        if let Some(why) = self.refusal(holder) {
            return Err(why);
        }
        match self.holders.push(holder) {
            Ok(()) => Ok(()),
            Err(AllocFailed { value: _ }) => Err(NoPlace::Memory),
        }
    }

    /// Why the holder isn't granted a place.
    fn refusal(&self, holder: Holder) -> Option<NoPlace>
        ensures value { result ≡ spec.refusal self.now holder }
    {
        let holders = self.holders.as_slice();
        if MAX_OF_USER <= of_user(holders, holder.conference, holder.user) {
            Some(NoPlace::OfUser)
        } else if MAX_OF_NETWORK <= of_network(holders, holder.network) {
            Some(NoPlace::OfNetwork)
        } else if self.most <= holders.len() {
            Some(NoPlace::OfAll)
        } else {
            None
        }
    }

    /// Gives a place back that the holder holds.
    pub fn give_back(&mut self, holder: Holder)
        ensures next { self.new ≡ spec.given_back holder self.old }
    {
        if let Some(place) = place_of(self.holders.as_slice(), holder) {
            let _holder = self.holders.remove(place);
        }
    }
}

/// How many places a user holds.
fn of_user(holders: &[Holder], conference: u32, user: u16) -> usize
    ensures value { result ≡ spec.of_user conference user holders.now }
{
    holders
        .iter()
        .filter(|h| h.conference == conference && h.user == user)
        .count()
}

/// How many places a network holds.
fn of_network(holders: &[Holder], network: Option<u64>) -> usize
    ensures value { result ≡ spec.of_network network holders.now }
{
    match network {
        None => 0,
        Some(network) => of_one_network(holders, network),
    }
}

fn of_one_network(holders: &[Holder], network: u64) -> usize
    ensures value { result ≡ spec.of_network (Some network) holders.now }
{
    holders
        .iter()
        .filter(|h| is_network(h.network, network))
        .count()
}

fn is_network(network: Option<u64>, other: u64) -> bool
    ensures value { result ≡ spec.is_network network other }
{
    match network {
        None => false,
        Some(network) => network == other,
    }
}

/// Where a place of this holder stands.
fn place_of(holders: &[Holder], holder: Holder) -> Option<usize>
    ensures value { result ≡ position (spec.is_same holder) holders.now }
    ensures within { IfSome result (λ place. place < length holders.now) }
{
    holders.iter().position(|other| is_same(&holder, other))
}

fn is_same(holder: &Holder, other: &Holder) -> bool
    ensures value { result ≡ spec.is_same holder.now other.now }
{
    other.conference == holder.conference
        && other.user == holder.user
        && is_same_network(holder.network, other.network)
}

fn is_same_network(network: Option<u64>, other: Option<u64>) -> bool
    ensures value { result ≡ spec.is_same_network network other }
{
    match network {
        None => other.is_none(),
        Some(network) => is_network(other, network),
    }
}
