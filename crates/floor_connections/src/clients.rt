//! The sockets of control clients, whose bytes are the caller's.

ghost use Rattle.std.specs.Prelude.{◌≡◌, ◌&&◌, ℕ, IfErr, IfOk, Some, false, nat_eq, not, option_map, true};
ghost use Rattle.floor_sockets.specs.Life.{held, lent};
ghost use Rattle.floor_sockets.specs.Sockets.{life_at};
ghost use Rattle.floor_connections.specs.Asked.{is_ending, is_over};
ghost use Rattle.floor_connections.specs.Steps.{Steps};
ghost use Rattle.floor_connections.specs.Table.{socket_at};
ghost use Rattle.floor_connections.specs.declared.refusal.Refusal.TheVariants as refusals;
ghost use Rattle.floor_connections.specs.declared.table.Socket.TheVariants.{Client};

use crate::asked::is_over;
use crate::connections::Connections;
use crate::place::Place;
use crate::refusal::Refusal;
use crate::table::Socket;
use floor_sockets::{Role, Sockets};

impl Connections {
    /// A socket of a control client, by this place. They share their turns with each other and with who is at a door.
    pub fn open_client(&mut self, place: Place, role: Role) -> Result<usize, Refusal>
        ensures there { IfOk result (λ slot. socket_at self.new.table slot ≡ Some (Client place)) }
        ensures refused { IfErr result (λ why. why ≡ refusals.Memory) }
        ensures steps { Steps self.old.sockets self.new.sockets }
    {
        self.open(role, 0, Socket::Client(place))
    }

    /// Bytes are lent to a client, or none; it is neither read nor served, or is. One that ends has ten seconds to take
    /// what is lent, and is shut before where nothing is.
    pub fn lend_client(&mut self, slot: usize, has_bytes: bool, is_held: bool, ends: bool)
        ensures goes_on { ends ≡ false → is_over (life_at self.old.sockets slot) ≡ false
            → life_at self.new.sockets slot
            ≡ option_map (λ l. held is_held (lent has_bytes l)) (life_at self.old.sockets slot) }
        ensures ends { ends ≡ true → is_ending (life_at self.new.sockets slot) ≡ true }
        ensures others { (k : ℕ) → nat_eq slot k ≡ false
            → life_at self.new.sockets k ≡ life_at self.old.sockets k }
        ensures table { self.new.table ≡ self.old.table }
        ensures steps { Steps self.old.sockets self.new.sockets }
    {
        self.sockets.lend(slot, has_bytes);
        self.sockets.hold(slot, is_held);
        let goes_on = goes_on(&self.sockets, slot, ends);
        if goes_on {
            return;
        }
        self.end_client(slot);
    }

    /// A client is to be shut once what is lent to it is taken, at latest after ten seconds.
    pub fn end_client(&mut self, slot: usize)
        ensures ends { is_ending (life_at self.new.sockets slot) ≡ true }
        ensures others { (k : ℕ) → nat_eq slot k ≡ false
            → life_at self.new.sockets k ≡ life_at self.old.sockets k }
        ensures table { self.new.table ≡ self.old.table }
        ensures steps { Steps self.old.sockets self.new.sockets }
    {
        let has_bytes = has_bytes(&self.sockets, slot);
        self.sockets.end(slot);
        if has_bytes {
            return;
        }
        self.sockets.fail(slot);
    }
}

/// Whether a client is served on: it doesn't end, and isn't to be shut down already.
fn goes_on(sockets: &Sockets, slot: usize, ends: bool) -> bool
    ensures value { result ≡ (not ends && not (is_over (life_at sockets.now slot))) }
{
    !ends && !is_over(sockets, slot)
}

/// Whether bytes are lent to a socket.
fn has_bytes(sockets: &Sockets, slot: usize) -> bool {
    match sockets.get(slot) {
        Some(life) => life.has_bytes,
        None => false,
    }
}
