//! Conferences that are held: who was named at a door for one waits, and who was to be read, served or accepted there.

ghost use Rattle.std.specs.Prelude.{◌≡◌, IfSome, OnErr, OnOk, Some, drop, false};
ghost use Rattle.floor_connections.specs.Conferences.{is_held};
ghost use Rattle.floor_connections.specs.Steps.{Steps};
ghost use Rattle.floor_connections.specs.Table.{IsWaiting, OthersStay, Same, peer_of, socket_at, waiting_of};
ghost use Rattle.floor_connections.specs.declared.place.Peer.{Peer as Guest};
ghost use Rattle.floor_connections.specs.declared.table.Named.{Named as Who};

use crate::connections::Connections;
use crate::table::Named;
use floor_sockets::{MAX_READ, Role, Sockets};
use std::alloc::AllocError;

impl Connections {
    /// Somebody at a door is this user of a conference that is held, and waits: of the bytes that came last its own stand
    /// behind so many. Where memory is refused it doesn't.
    pub fn wait(
        &mut self,
        slot: usize,
        conference: u32,
        user: u16,
        bytes: &[u8],
        at: usize,
    ) -> Result<(), AllocError>
        ensures waits { OnOk result ((peer : Guest)
            → peer_of (socket_at self.old.table slot) ≡ Some peer
            → IsWaiting slot conference user (drop at bytes.now) self.new.table) }
        ensures others { OthersStay slot self.old.table self.new.table }
        ensures left { OnErr result (Same self.old.table self.new.table) }
        ensures conferences { self.new.conferences ≡ self.old.conferences }
        ensures steps { Steps self.old.sockets self.new.sockets }
    {
        let mut kept = Vec::new(self.alloc);
        kept.extend_from_slice(bytes)?;
        self.waiting.reserve(1)?;
        let named = Named {
            conference,
            user,
            bytes: kept,
            at,
        };
        self.table.wait(slot, named);
        let _put = self.waiting.push_back(slot);
        let group = self.conferences.group(conference);
        self.sockets.came(slot, bytes.len(), true);
        self.sockets.hold(slot, true);
        self.sockets.become_role(slot, Role::MemberByDoor, group);
        Ok(())
    }

    /// Who waits since longest of those whose conference isn't held any more.
    pub fn next_waiting(&mut self) -> Option<usize>
        ensures found { IfSome result (λ slot. (n : Who)
            × (waiting_of (socket_at self.new.table slot) ≡ Some n)
            × (is_held self.new.conferences n.conference ≡ false)) }
        ensures sockets { self.new.sockets ≡ self.old.sockets }
        ensures table { self.new.table ≡ self.old.table }
        ensures conferences { self.new.conferences ≡ self.old.conferences }
    {
        for _look in 0..self.waiting.len() {
            let slot = self.waiting.pop_front()?;
            match self.table.waiting(slot) {
                Some(conference) => {
                    if !self.conferences.is_held(conference) {
                        return Some(slot);
                    }
                    let _put = self.waiting.push_back(slot);
                }
                None => {}
            }
        }
        None
    }

    /// Members of a conference have gone while it was held, and are to leave now. Where memory is refused for that it is
    /// said.
    pub fn part_later(&mut self, conference: u32) -> Result<(), AllocError>
        ensures sockets { self.new.sockets ≡ self.old.sockets }
        ensures table { self.new.table ≡ self.old.table }
        ensures conferences { self.new.conferences ≡ self.old.conferences }
    {
        match self.parting.push_back(conference) {
            Ok(()) => Ok(()),
            Err(_) => Err(AllocError),
        }
    }

    /// The next conference of which members have gone.
    pub fn next_parting(&mut self) -> Option<u32>
        ensures sockets { self.new.sockets ≡ self.old.sockets }
        ensures table { self.new.table ≡ self.old.table }
        ensures conferences { self.new.conferences ≡ self.old.conferences }
    {
        self.parting.pop_front()
    }

    /// What was asked of a member's socket isn't done now, since its conference is held: it is neither read nor served until
    /// `resume`. A read of it that was asked wasn't made, and a turn that was wasn't served.
    pub fn put_off(&mut self, slot: usize)
        ensures table { self.new.table ≡ self.old.table }
        ensures conferences { self.new.conferences ≡ self.old.conferences }
        ensures steps { Steps self.old.sockets self.new.sockets }
    {
        self.sockets.came(slot, MAX_READ, false);
        self.sockets.served(slot, true);
        self.sockets.hold(slot, true);
    }

    /// It is read and served again.
    pub fn resume(&mut self, slot: usize)
        ensures table { self.new.table ≡ self.old.table }
        ensures conferences { self.new.conferences ≡ self.old.conferences }
        ensures steps { Steps self.old.sockets self.new.sockets }
    {
        self.sockets.hold(slot, false);
    }

    /// At each port of a conference it is accepted again.
    pub fn resume_listeners(&mut self, conference: u32)
        ensures table { self.new.table ≡ self.old.table }
        ensures conferences { self.new.conferences ≡ self.old.conferences }
        ensures steps { Steps self.old.sockets self.new.sockets }
    {
        resume_each(&mut self.sockets, self.conferences.listeners(conference));
    }
}

/// Each of these slots isn't held any more.
fn resume_each(sockets: &mut Sockets, slots: &[usize])
    ensures steps { Steps sockets.old sockets.new }
{
    for slot in slots {
        sockets.hold(*slot, false);
    }
}
