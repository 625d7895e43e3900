//! The ports that are listened on: where, and which are given back at a refused `open`, at `close`
//! and at `stop`.

ghost use Rattle.std.specs.Prelude.{◌≡◌, ◌<◌, ◌++◌, ◌∷◌, [], List, None, OnErr, OnOk, length, map, option_to_list, reverse};
ghost use Rattle.std.specs.Fn.{CalledAt};
ghost use Rattle.std.specs.List.{FoldsTo};
ghost use Rattle.std.specs.Net.Addr.{ipv4_octets};
ghost use Rattle.std.specs.Net.Socket.{v4_ip, v4_port};
ghost use Rattle.floor_listen.specs.Ports.{given, is_chosen, kept, IsLastGivenBack};
ghost use Rattle.floor_listen.specs.declared.ports.Listening.{Listening};

use std::alloc::{AllocError, Global};
use std::marker::Model;
use std::net::{Ipv4Addr, SocketAddrV4};

/// Where a port is listened on: at the machine's own address alone, since no peer proves who it is.
pub fn listening_address(port: u16) -> SocketAddrV4
    ensures ip { ipv4_octets (v4_ip result) ≡ 127 ∷ 0 ∷ 0 ∷ 1 ∷ [] }
    ensures port { v4_port result ≡ port }
{
    SocketAddrV4::new(Ipv4Addr::new(127, 0, 0, 1), port)
}

/// Which ports are given back.
#[derive(Clone, Copy, Debug, PartialEq, Eq)]
pub enum Chosen {
    /// Those of a conference: its `open` is refused, or it is closed.
    Of(u32),
    /// All: the server stops.
    All,
}

/// A port that is listened on.
#[derive(Drop)]
pub struct Listening<L> {
    /// The conference that it leads to.
    pub conference: u32,
    /// What listens on it.
    pub listener: L,
}

/// The ports that are listened on, in the order in which that began.
///
/// `reserve` and then `add` take a port in: room for it is there before it is listened on, so that
/// none that is listened on is lost. `give_back` hands each out again, and `give_back_refused` the last
/// alone.
#[derive(Drop)]
pub struct Ports<L> {
    listening: Vec<Listening<L>>,
}

impl<L> Model for Ports<L> {
    ghost use Rattle.std.specs.Prelude.{◌-◌, vec_capacity, vec_len};
    ghost use Rattle.floor_listen.specs.Ports.{Ports};

    ghost Value = { Ports L };

    ghost view = { λ p. record {
      listening = p.listening.items;
      room = vec_capacity p.listening - vec_len p.listening;
    } };
}

impl<L: Drop> Ports<L> {
    /// No port is listened on. Takes no memory.
    pub fn new(alloc: Global) -> Ports<L>
        ensures listening { result.listening ≡ [] }
    {
        Ports {
            listening: Vec::new(alloc),
        }
    }

    /// Takes room for one more.
    pub fn reserve(&mut self) -> Result<(), AllocError>
        ensures room { OnOk result (0 < self.new.room) }
        ensures listening { self.new.listening ≡ self.old.listening }
    {
        self.listening.reserve(1)
    }

    /// Takes in a port that is listened on and leads to the conference.
    pub fn add(&mut self, conference: u32, listener: L)
        requires room { 0 < self.old.room }
        ensures listening { self.new.listening
            ≡ self.old.listening ++ record { conference = conference; listener = listener } ∷ [] }
    {
        self.listening.push_reserved(Listening {
            conference,
            listener,
        });
    }

    /// Calls the function with what listens on each port, in the order in which that began.
    pub fn each<F: FnMut(&L)>(&self, mut visit: F)
        requires { F.IsAlwaysCallable visit }
        ensures each { (last : F) × FoldsTo (λ p x q. CalledAt F.FnMut p x tt q) visit
            (map (λ l. l.listener) self.now.listening) last }
    {
        let mut rest = self.listening.as_slice();
        while let Some((first, behind)) = rest.split_first() {
            visit(&first.listener);
            rest = behind;
        }
    }

    /// Takes out the port that was taken in last, and hands out what listens on it, where what it was
    /// taken in for was refused; where it was done the port stays. Takes no memory.
    pub fn give_back_refused<E>(&mut self, outcome: &Result<(), E>) -> Option<L>
        ensures kept { OnOk outcome.now
            ((result ≡ None) × (self.new.listening ≡ self.old.listening)) }
        ensures given { OnErr outcome.now
            (IsLastGivenBack self.old.listening result self.new.listening) }
    {
        match outcome {
            Ok(()) => None,
            Err(_) => match self.listening.pop() {
                None => None,
                Some(
                    Listening {
                        conference: _,
                        listener,
                    },
                ) => Some(listener),
            },
        }
    }

    /// Hands what listens on each of the chosen ports to the function, once, the last first. Of the
    /// others none is touched. Takes no memory.
    pub fn give_back<F: FnMut(L)>(&mut self, chosen: Chosen, mut close: F)
        requires { F.IsAlwaysCallable close }
        ensures given { (last : F) × FoldsTo (λ p x q. F.step p x tt q) close
            (reverse (given chosen self.old.listening)) last }
        ensures next { self.new.listening ≡ kept chosen self.old.listening }
    {
        let mut place = self.listening.len();
        while let Some(before) = place.checked_sub(1) {
            give_back_at(&mut self.listening, before, chosen, &mut close);
            place = before;
        }
    }
}

/// Hands what listens on the port at this place to the function, if it is chosen.
fn give_back_at<L, F: FnMut(L)>(
    listening: &mut Vec<Listening<L>>,
    place: usize,
    chosen: Chosen,
    close: &mut F,
)
    requires within { place < length listening.old.items }
    requires callable { F.IsAlwaysCallable close.old }
    ensures took { (front back : List (Listening L)) (x : Listening L)
        → listening.old.items ≡ front ++ x ∷ back → length front ≡ place
        → FoldsTo (λ p x q. F.step p x tt q) close.old (given chosen (x ∷ [])) close.new
        × (listening.new.items ≡ front ++ kept chosen (x ∷ []) ++ back) }
    ensures callable { F.IsAlwaysCallable close.new }
{
    match taken_at(listening, place, chosen) {
        Some(listener) => close(listener),
        None => {}
    }
}

/// What listens on the port at this place, if it is chosen: then the port is taken out.
fn taken_at<L>(listening: &mut Vec<Listening<L>>, place: usize, chosen: Chosen) -> Option<L>
    requires within { place < length listening.old.items }
    ensures took { (front back : List (Listening L)) (x : Listening L)
        → listening.old.items ≡ front ++ x ∷ back → length front ≡ place
        → (option_to_list result ≡ given chosen (x ∷ []))
        × (listening.new.items ≡ front ++ kept chosen (x ∷ []) ++ back) }
{
    if is_chosen(chosen, listening[place].conference) {
        let Listening {
            conference: _,
            listener,
        } = listening.remove(place);
        Some(listener)
    } else {
        None
    }
}

/// Whether a port that leads to this conference is one of the chosen.
fn is_chosen(chosen: Chosen, conference: u32) -> bool
    ensures { result ≡ is_chosen chosen conference }
{
    match chosen {
        Chosen::Of(chosen) => conference == chosen,
        Chosen::All => true,
    }
}
