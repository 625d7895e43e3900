//! Who is at which socket, of the control clients.
#![tactic(auto)]

ghost use Rattle.std.specs.Prelude.{◌≡◌, ◌≢◌, ◌<◌, ◌⊎◌, ℕ, IfOk, None, OnErr, OnOk, Some, length, min, option_map, slice_index_or};
ghost use Rattle.floor_clients.specs.Clients.{came, closed, ended, full, new_client, took_by};
ghost use Rattle.floor_clients.specs.Outgoing.{lent};
ghost use Rattle.floor_clients.specs.declared.standing.CloseReason.TheVariants as reason;
ghost use Rattle.floor_desk.specs.Attending.{Attends, beside, carried};
ghost use Rattle.std.specs.Option.{option_copied};
ghost use Rattle.floor_desk.specs.Clients.{OrCloses, PassesOrStays, ServesOrCloses, TellsOrCloses, Watches};
ghost use Rattle.floor_desk.specs.Callers.{GoesOnBy, IsNew, OthersStay, Same, caller_at, lent_to};
ghost use Rattle.floor_desk.specs.declared.caller.Caller.{Caller as Known};

mod awaiting;

use crate::caller::{Caller, ClientId, Lack, PlaceOf, Task};
use floor_clients::{
    Client, CloseReason, MAX_CLIENTS, MAX_NOTICES, Mode, Next, Standing, Told, Workspace,
};
use std::alloc::{AllocError, Global};

/// The control clients, by the slots of their sockets.
#[derive(Drop)]
pub struct Callers {
    slots: Vec<Option<Caller>>,
    /// The slots where somebody is.
    taken: Vec<usize>,
    /// How many there ever were.
    given: u64,
}

impl Callers {
    /// Nobody. Takes no memory.
    pub fn new(alloc: Global) -> Callers
        ensures none { (slot : ℕ) → caller_at result slot ≡ None }
    {
        Callers {
            slots: Vec::new(alloc),
            taken: Vec::new(alloc),
            given: 0,
        }
    }

    /// A client is at a socket from now on. There is a place for 64 at each socket; as many more are told that there is
    /// none, and are to be closed. Where memory is refused, or there are more, nobody is.
    pub fn put(
        &mut self,
        alloc: Global,
        work: &mut Workspace,
        slot: usize,
        mode: Mode,
    ) -> Result<(), AllocError>
        ensures there { OnOk result ((c : Known) × (caller_at self.new slot ≡ Some c) × IsNew mode c) }
        ensures others { OthersStay slot self.old self.new }
        ensures left { OnErr result (Same self.old self.new) }
    {
        let number = self.given.saturating_add(1);
        let caller = new_caller(alloc, work, number, mode, self.count(mode))?;
        self.put_caller(slot, caller)
    }

    fn put_caller(&mut self, slot: usize, caller: Caller) -> Result<(), AllocError>
        ensures there { OnOk result (caller_at self.new slot ≡ Some caller) }
        ensures others { OthersStay slot self.old self.new }
        ensures left { OnErr result (Same self.old self.new) }
    {
        grow(&mut self.slots, slot)?;
        self.taken.push(slot)?;
        self.given = caller.number;
        self.write(slot, caller);
        Ok(())
    }

    fn write(&mut self, slot: usize, caller: Caller)
        ensures there { slot < length self.old.slots.items
            → caller_at self.new slot ≡ Some caller }
        ensures others { OthersStay slot self.old self.new }
    {
        if let Some(place) = self.slots.get_mut(slot) {
            *place = Some(caller);
        }
    }

    /// How many are there that came by the same socket.
    fn count(&self, mode: Mode) -> usize {
        let mut count = 0usize;
        for slot in &self.taken {
            if let Some(caller) = self.get(*slot) {
                if caller.client.mode() == mode {
                    count = count.saturating_add(1);
                }
            }
        }
        count
    }

    /// Nobody is at a socket any more.
    pub fn remove(&mut self, slot: usize)
        ensures gone { caller_at self.new slot ≡ None }
        ensures others { OthersStay slot self.old self.new }
    {
        if let Some(place) = self.slots.get_mut(slot) {
            *place = None;
        }
        self.taken.retain(|taken| *taken != slot);
    }

    /// Who is at a socket.
    pub fn get(&self, slot: usize) -> Option<&Caller>
        ensures found { option_copied result ≡ caller_at self.now slot }
    {
        match self.slots.get(slot) {
            Some(Some(caller)) => Some(caller),
            Some(None) | None => None,
        }
    }

    /// Who is at a socket; number 0 where nobody is.
    pub fn who(&self, slot: usize) -> ClientId {
        let client = match self.get(slot) {
            Some(caller) => caller.number,
            None => 0,
        };
        ClientId {
            client,
            socket: slot,
        }
    }

    /// How many there are.
    pub fn len(&self) -> usize {
        self.taken.len()
    }

    /// The slot of one of them; one where nobody is behind the last.
    pub fn slot_of(&self, index: usize) -> usize {
        match self.taken.get(index) {
            Some(slot) => *slot,
            None => usize::MAX,
        }
    }

    /// The bytes that wait for who is at a socket.
    pub fn lent(&self, slot: usize) -> &[u8]
        ensures value { result.now ≡ lent_to (caller_at self.now slot) }
    {
        match self.get(slot) {
            Some(caller) => caller.client.lent(),
            None => &[],
        }
    }

    /// Bytes came from a socket. A client for which memory is refused is to be closed. Says whether a line may be served.
    pub fn came(&mut self, slot: usize, bytes: &[u8]) -> bool
        ensures here { GoesOnBy (OrCloses (came bytes.now))
            (caller_at self.old slot) (caller_at self.new slot) }
        ensures others { OthersStay slot self.old self.new }
    {
        let Some(place) = self.slots.get_mut(slot) else {
            return false;
        };
        match place {
            Some(caller) => caller.came(bytes),
            None => false,
        }
    }

    /// The stream of a socket has ended: its whole lines are answered yet.
    pub fn ended(&mut self, slot: usize)
        ensures here { GoesOnBy (λ old new. new ≡ ended old)
            (caller_at self.old slot) (caller_at self.new slot) }
        ensures others { OthersStay slot self.old self.new }
    {
        if let Some(place) = self.slots.get_mut(slot) {
            if let Some(caller) = place {
                caller.ended();
            }
        }
    }

    /// A socket took so many of the bytes that were lent. Says how many were.
    pub fn took(&mut self, slot: usize, count: usize) -> usize
        ensures value { result ≡ length (lent_to (caller_at self.old slot)) }
        ensures here { GoesOnBy (λ old new. new
            ≡ took_by (min count (length (lent old.outgoing))) old)
            (caller_at self.old slot) (caller_at self.new slot) }
        ensures others { OthersStay slot self.old self.new }
    {
        let Some(place) = self.slots.get_mut(slot) else {
            return 0;
        };
        match place {
            Some(caller) => caller.took(count),
            None => 0,
        }
    }

    /// Whether the socket of a client is to be shut once nothing waits for it.
    pub fn is_done(&mut self, slot: usize) -> bool
        ensures same { Same self.old self.new }
    {
        let Some(place) = self.slots.get_mut(slot) else {
            return false;
        };
        match place {
            Some(caller) => caller.client.is_done(),
            None => false,
        }
    }

    /// What follows from the next line of a client. One for which memory is refused is to be closed.
    pub fn next(
        &mut self,
        alloc: Global,
        work: &mut Workspace,
        slot: usize,
        is_draining: bool,
    ) -> Next
        ensures here { GoesOnBy (ServesOrCloses is_draining result)
            (caller_at self.old slot) (caller_at self.new slot) }
        ensures others { OthersStay slot self.old self.new }
    {
        let Some(place) = self.slots.get_mut(slot) else {
            return Next::Nothing;
        };
        match place {
            Some(caller) => caller.next(alloc, work, is_draining),
            None => Next::Nothing,
        }
    }

    /// A client watches a conference from a place on. After an error nothing has changed.
    pub fn watch(&mut self, slot: usize, conference: u32, place: u64) -> Result<(), AllocError>
        ensures here { OnOk result (GoesOnBy (Watches conference (Some place))
            (caller_at self.old slot) (caller_at self.new slot)) }
        ensures others { OthersStay slot self.old self.new }
        ensures left { OnErr result (Same self.old self.new) }
        ensures attends { Attends (carried slot) self.old self.new }
    {
        self.watch_at(slot, conference, place)
    }

    fn watch_at(&mut self, slot: usize, conference: u32, place: u64) -> Result<(), AllocError>
        ensures here { OnOk result (GoesOnBy (Watches conference (Some place))
            (caller_at self.old slot) (caller_at self.new slot)) }
        ensures others { OthersStay slot self.old self.new }
        ensures left { OnErr result (Same self.old self.new) }
    {
        let Some(place_of) = self.slots.get_mut(slot) else {
            return Ok(());
        };
        match place_of {
            Some(caller) => caller.watch(conference, place),
            None => Ok(()),
        }
    }

    /// A client doesn't watch a conference by its number any more.
    pub fn unwatch(&mut self, slot: usize, conference: u32)
        ensures here { GoesOnBy (Watches conference None)
            (caller_at self.old slot) (caller_at self.new slot) }
        ensures others { OthersStay slot self.old self.new }
        ensures attends { Attends beside self.old self.new }
    {
        self.unwatch_at(slot, conference);
    }

    fn unwatch_at(&mut self, slot: usize, conference: u32)
        ensures here { GoesOnBy (Watches conference None)
            (caller_at self.old slot) (caller_at self.new slot) }
        ensures others { OthersStay slot self.old self.new }
    {
        if let Some(place) = self.slots.get_mut(slot) {
            if let Some(caller) = place {
                caller.unwatch(conference);
            }
        }
    }

    /// Nobody watches a conference by its number any more.
    pub fn unwatch_for_all(&mut self, conference: u32)
        ensures attends { Attends beside self.old self.new }
    {
        for index in 0..self.len() {
            let slot = self.slot_of(index);
            self.unwatch(slot, conference);
        }
    }

    /// A client watches all other conferences too, or doesn't.
    pub fn watch_all(&mut self, slot: usize, all: bool)
        ensures here { GoesOnBy (λ old new. new
            ≡ record old { watched = record old.watched { all = all } })
            (caller_at self.old slot) (caller_at self.new slot) }
        ensures others { OthersStay slot self.old self.new }
        ensures attends { Attends (carried slot) self.old self.new }
    {
        self.watch_all_at(slot, all);
    }

    fn watch_all_at(&mut self, slot: usize, all: bool)
        ensures here { GoesOnBy (λ old new. new
            ≡ record old { watched = record old.watched { all = all } })
            (caller_at self.old slot) (caller_at self.new slot) }
        ensures others { OthersStay slot self.old self.new }
    {
        if let Some(place) = self.slots.get_mut(slot) {
            if let Some(caller) = place {
                caller.watch_all(all);
            }
        }
    }

    /// The place of a conference that a client is told next, where it watches it by its number.
    pub fn next_of(&self, slot: usize, conference: u32) -> Option<u64> {
        self.get(slot)?.client.next_of(conference)
    }

    /// Whether anybody watches a conference.
    pub fn are_watching(&self, conference: u32) -> bool {
        for slot in &self.taken {
            if is_watching(self.get(*slot), conference) {
                return true;
            }
        }
        false
    }

    /// Whether anybody lacks anything of a conference.
    pub fn are_lacking(&self, conference: u32) -> bool {
        for slot in &self.taken {
            if is_lacking(self.get(*slot), conference) {
                return true;
            }
        }
        false
    }

    /// A client is told what happened, if it watches that; one for which memory is refused is to be closed.
    pub fn tell(&mut self, slot: usize, told: &Told)
        ensures here { GoesOnBy (TellsOrCloses told.now)
            (caller_at self.old slot) (caller_at self.new slot) }
        ensures others { OthersStay slot self.old self.new }
        ensures attends { Attends beside self.old self.new }
    {
        self.tell_at(slot, told);
    }

    fn tell_at(&mut self, slot: usize, told: &Told)
        ensures here { GoesOnBy (TellsOrCloses told.now)
            (caller_at self.old slot) (caller_at self.new slot) }
        ensures others { OthersStay slot self.old self.new }
    {
        let Some(place) = self.slots.get_mut(slot) else {
            return;
        };
        if let Some(caller) = place {
            caller.tell(told);
        }
    }

    /// Whoever watches it is told what happened.
    pub fn tell_all(&mut self, told: &Told)
        ensures attends { Attends beside self.old self.new }
    {
        for index in 0..self.len() {
            let slot = self.slot_of(index);
            self.tell(slot, told);
        }
    }

    /// An event shows nothing: to a client that watches it it is past.
    pub fn pass(&mut self, slot: usize, told: PlaceOf)
        ensures here { GoesOnBy (PassesOrStays told)
            (caller_at self.old slot) (caller_at self.new slot) }
        ensures others { OthersStay slot self.old self.new }
        ensures attends { Attends beside self.old self.new }
    {
        self.pass_at(slot, told);
    }

    fn pass_at(&mut self, slot: usize, told: PlaceOf)
        ensures here { GoesOnBy (PassesOrStays told)
            (caller_at self.old slot) (caller_at self.new slot) }
        ensures others { OthersStay slot self.old self.new }
    {
        if let Some(place) = self.slots.get_mut(slot) {
            if let Some(caller) = place {
                caller.pass(told);
            }
        }
    }

    /// To whoever watches it it is past.
    pub fn pass_all(&mut self, told: PlaceOf)
        ensures attends { Attends beside self.old self.new }
    {
        for index in 0..self.len() {
            let slot = self.slot_of(index);
            self.pass(slot, told);
        }
    }

    /// A client is to be closed.
    pub fn close(&mut self, slot: usize, reason: CloseReason)
        ensures here { GoesOnBy (λ old new. new ≡ closed reason old)
            (caller_at self.old slot) (caller_at self.new slot) }
        ensures others { OthersStay slot self.old self.new }
        ensures attends { Attends beside self.old self.new }
    {
        self.close_at(slot, reason);
    }

    fn close_at(&mut self, slot: usize, reason: CloseReason)
        ensures here { GoesOnBy (λ old new. new ≡ closed reason old)
            (caller_at self.old slot) (caller_at self.new slot) }
        ensures others { OthersStay slot self.old self.new }
    {
        if let Some(place) = self.slots.get_mut(slot) {
            if let Some(caller) = place {
                caller.close(reason);
            }
        }
    }

    /// Each client is to be closed.
    pub fn close_all(&mut self, reason: CloseReason)
        ensures attends { Attends beside self.old self.new }
    {
        for index in 0..self.len() {
            let slot = self.slot_of(index);
            self.close(slot, reason);
        }
    }

    /// Memory was refused for what is told of a conference: whoever watches it is to be closed.
    pub fn close_watching(&mut self, conference: u32)
        ensures attends { Attends beside self.old self.new }
    {
        for index in 0..self.len() {
            let slot = self.slot_of(index);
            self.close_where_watching(slot, conference);
        }
    }

    fn close_where_watching(&mut self, slot: usize, conference: u32)
        ensures attends { Attends beside self.old self.new }
    {
        if is_watching(self.get(slot), conference) {
            self.close(slot, CloseReason::Memory);
        }
    }

    /// A client lacks this too. Where memory is refused it doesn't.
    pub fn add_lack(&mut self, slot: usize, lack: Lack) -> Result<(), AllocError>
        ensures here { GoesOnBy (λ old new. new ≡ old)
            (caller_at self.old slot) (caller_at self.new slot) }
        ensures others { OthersStay slot self.old self.new }
        ensures attends { Attends beside self.old self.new }
    {
        self.add_lack_at(slot, lack)
    }

    fn add_lack_at(&mut self, slot: usize, lack: Lack) -> Result<(), AllocError>
        ensures here { GoesOnBy (λ old new. new ≡ old)
            (caller_at self.old slot) (caller_at self.new slot) }
        ensures others { OthersStay slot self.old self.new }
    {
        let Some(place) = self.slots.get_mut(slot) else {
            return Ok(());
        };
        match place {
            Some(caller) => caller.add_lack(lack),
            None => Ok(()),
        }
    }

    /// What a client lacks first, or first of a conference, which it is told now.
    pub fn take_lack(&mut self, slot: usize, conference: Option<u32>) -> Option<Lack>
        ensures here { GoesOnBy (λ old new. new ≡ old)
            (caller_at self.old slot) (caller_at self.new slot) }
        ensures others { OthersStay slot self.old self.new }
        ensures attends { Attends beside self.old self.new }
    {
        self.take_lack_at(slot, conference)
    }

    fn take_lack_at(&mut self, slot: usize, conference: Option<u32>) -> Option<Lack>
        ensures here { GoesOnBy (λ old new. new ≡ old)
            (caller_at self.old slot) (caller_at self.new slot) }
        ensures others { OthersStay slot self.old self.new }
    {
        let Some(place) = self.slots.get_mut(slot) else {
            return None;
        };
        match place {
            Some(caller) => caller.take_lack(conference),
            None => None,
        }
    }

    /// Whether a client lacks anything.
    pub fn is_lacking_any(&self, slot: usize) -> bool {
        match self.get(slot) {
            Some(caller) => !caller.lacks.is_empty(),
            None => false,
        }
    }

    /// Whether a client may be told more of what it lacks: it isn't to be closed, and has taken the most of what it was
    /// told.
    pub fn has_room(&self, slot: usize) -> bool {
        match self.get(slot) {
            Some(caller) => match caller.client.standing() {
                Standing::Over(_) => false,
                Standing::Serving | Standing::Ended => {
                    caller.client.notices_len() < MAX_NOTICES / 4
                }
            },
            None => false,
        }
    }
}

/// Has a place for this slot, and for all before it.
fn grow(slots: &mut Vec<Option<Caller>>, slot: usize) -> Result<(), AllocError>
    ensures room { OnOk result (slot < length slots.new.items) }
    ensures same { (k : ℕ) → slice_index_or slots.new.items k None
        ≡ slice_index_or slots.old.items k None }
{
    while slots.len() <= slot {
        match slots.push(None) {
            Ok(()) => {}
            Err(_) => return Err(AllocError),
        }
    }
    Ok(())
}

/// Somebody new, where so many are there that came by the same socket.
fn new_caller(
    alloc: Global,
    work: &mut Workspace,
    number: u64,
    mode: Mode,
    count: usize,
) -> Result<Caller, AllocError>
    ensures value { IfOk result (IsNew mode) }
{
    let client = client_at(alloc, work, mode, count)?;
    Ok(Caller {
        number,
        is_watching_all: false,
        client,
        task: Task::Nothing,
        lacks: Vec::new(alloc),
    })
}

/// A client, where so many are there that came by the same socket.
fn client_at(
    alloc: Global,
    work: &mut Workspace,
    mode: Mode,
    count: usize,
) -> Result<Client, AllocError>
    ensures value { IfOk result (λ c. (c ≡ new_client mode) ⊎ (c ≡ full mode)) }
{
    if count < MAX_CLIENTS {
        return Ok(Client::new(alloc, mode));
    }
    if count < MAX_CLIENTS + MAX_CLIENTS {
        return Client::full(alloc, work, mode);
    }
    Err(AllocError)
}

fn is_watching(caller: Option<&Caller>, conference: u32) -> bool {
    match caller {
        Some(caller) => caller.is_watching_all || caller.client.next_of(conference).is_some(),
        None => false,
    }
}

fn is_lacking(caller: Option<&Caller>, conference: u32) -> bool {
    match caller {
        Some(caller) => caller
            .lacks
            .iter()
            .any(|lack| lack.conference == conference),
        None => false,
    }
}
