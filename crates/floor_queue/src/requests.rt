//! The ongoing floor requests of one conference (RFC 8855, sections 10, 11 and 13).

ghost use Rattle.std.specs.Prelude.{◌≡◌, ◌<◌, ◌≤◌, ◌+◌, ◌↔◌, ◌==◌, ◌&&◌, ◌||◌, ℕ, IfOk, OnOk, OnErr, Some, None, IsSome, IsTrue, false, if◌then◌else◌, count_by, length, map, filter};
ghost use Rattle.std.specs.List.{list_any};
ghost use Rattle.std.specs.Option.{option_copied};
ghost use Rattle.floor_config.specs.Changed.{chaired};
ghost use Rattle.floor_config.specs.Lookup.{is_floor};
ghost use Rattle.floor_queue.specs.Order.{settle, due_numbers, holders, names, granted_if};
ghost use Rattle.floor_queue.specs.Queue.{HasFloor, IsAddable, IsQueue, IsReason, IsSettled, MaySetFloor, after_add, after_add_floor, after_clear, after_end, after_set_chair, after_set_floor, after_set_reason, after_settle, are_ascending, empty_queue, first_floor, involves, is_one_of, loses_chair, numbers_of, position_of, request_at};
ghost use Rattle.floor_queue.specs.steps.Lines.{AreLines};
ghost use Rattle.floor_queue.specs.steps.Parties.{numbers_with};

use crate::index::lines::Lines;
use crate::index::parties::Parties;
use crate::index::rank::rank_of;
use crate::ongoing::Ongoing;
use crate::request::{New, Request};
use crate::requested_floor::{FloorStatus, RequestedFloor, RequestedFloors, Word};
use crate::{addable, due, naming, order};
use floor_config::{Config, Floor};
use floor_wire::{Numbers, Octets};
use std::alloc::{AllocError, AllocFailed, Global};
use std::marker::Model;

/// How many floor requests may be ongoing in one conference, so that each queue position fits the
/// byte that it is told in (RFC 8855, section 5.2.5).
pub const MAX_ONGOING: usize = 256;

/// Why no floor request is added. The first that applies is answered.
#[derive(Clone, Copy, Debug, PartialEq, Eq)]
pub enum AddRefusal {
    /// 256 floor requests are ongoing.
    Full,
    /// The number 65,535 was given, and none is given twice.
    NoNumber,
    /// Memory was refused.
    Memory,
}

/// The ongoing floor requests of one conference, by ascending number. Contracts see them with the
/// floors of the configuration and the last number that was given.
///
/// `add`, `set_floor`, `set_reason`, `end` and `clear` change the requests, `add_floor` and `set_chair`
/// the floors, and `settle` grants the requests that are due: whoever changes settles before it asks
/// for a `position`. All other calls read.
#[derive(Debug, Drop)]
pub struct Requests {
    floors: Vec<Floor>,
    given: u16,
    ongoing: Ongoing,
    lines: Lines,
    parties: Parties,
}

impl Model for Requests {
    ghost use Rattle.floor_queue.specs.Queue.{Queue, IsQueue};
    ghost use Rattle.floor_queue.specs.steps.Lines.{AreLines, AreMarked};
    ghost use Rattle.floor_queue.specs.steps.Parties.{AreParties};

    ghost Value = { Queue };

    ghost view = { λ q.
        record { floors = q.floors.items; given = q.given; ongoing = q.ongoing } };

    ghost invariant = { λ q.
        IsQueue record { floors = q.floors.items; given = q.given; ongoing = q.ongoing }
        × AreLines q.floors.items q.ongoing q.lines
        × AreMarked q.floors.items q.ongoing q.lines
        × AreParties q.ongoing q.parties };
}

impl Requests {
    /// No request yet, for the floors of a configuration.
    pub fn new(alloc: Global, config: &Config) -> Result<Requests, AllocError>
        ensures { IfOk result (λ requests. requests ≡ empty_queue config.now.floors) }
    {
        let floors = Vec::from_slice(alloc, config.floors())?;
        let lines = Lines::new(alloc, config.floors())?;
        Ok(Requests {
            floors,
            given: 0,
            ongoing: Ongoing::new(alloc),
            lines,
            parties: Parties::new(alloc),
        })
    }

    /// How many requests are ongoing. Takes no memory.
    pub fn len(&self) -> usize
        ensures { result ≡ length self.now.ongoing }
    {
        self.ongoing.len()
    }

    /// Whether no request is ongoing. Takes no memory.
    pub fn is_empty(&self) -> bool
        ensures { IsTrue result ↔ (length self.now.ongoing ≡ 0) }
    {
        self.ongoing.is_empty()
    }

    /// How many requests were ever added: the last number that was given. Takes no memory.
    pub fn given(&self) -> u16
        ensures { result ≡ self.now.given }
    {
        self.given
    }

    /// The ongoing requests, by ascending number. Takes no memory.
    pub fn ongoing(&self) -> &[Request]
        ensures value { result.now ≡ self.now.ongoing }
        ensures kept { IsQueue self.now }
    {
        self.ongoing.as_slice()
    }

    /// The ongoing request with this number. Takes no memory.
    pub fn get(&self, request: u16) -> Option<&Request>
        ensures { option_copied result ≡ request_at self.now.ongoing request }
    {
        self.ongoing.find(request)
    }

    /// How many requests hold the floor. Takes no memory.
    pub fn holders(&self, floor: u16) -> usize
        ensures { result ≡ holders self.now.ongoing floor }
    {
        match self.lines.of(floor) {
            Some(line) => line.holders(),
            None => 0,
        }
    }

    /// Whether the request may be added: the condition of `add`. Takes no memory.
    pub fn is_addable(&self, new: &New) -> bool
        ensures { IsTrue result ↔ IsAddable self.now.floors new.now }
    {
        addable::is_addable(&self.floors, new)
    }

    /// Whether the request is ongoing and names the floor: a condition of `position`. Takes no
    /// memory.
    pub fn has_floor(&self, request: u16, floor: u16) -> bool
        ensures { IsTrue result ↔ HasFloor self.now request floor }
    {
        match self.get(request) {
            Some(found) => found.names(floor),
            None => false,
        }
    }

    /// Whether the floor's chair may say a word on the request: the condition of `set_floor`. Takes
    /// no memory.
    pub fn may_set_floor(&self, request: u16, floor: u16) -> bool
        ensures { IsTrue result ↔ MaySetFloor self.now request floor }
    {
        match self.get(request) {
            Some(found) => found.names(floor) && !found.is_granted,
            None => false,
        }
    }

    /// Whether `settle` would grant no request: a condition of `position`. Takes no memory.
    pub fn is_settled(&self) -> bool
        ensures { IsTrue result ↔ IsSettled self.now }
    {
        !due::has_due(&self.floors, &self.lines, &self.ongoing)
    }

    /// The queue position of the request for one of its floors: 0 where it doesn't wait (RFC 8855,
    /// section 5.2.5). Takes no memory.
    pub fn position(&self, request: u16, floor: u16) -> u8
        requires asked { HasFloor self.now request floor }
        requires settled { IsSettled self.now }
        ensures { result ≡ position_of self.now request floor }
    {
        match self.get(request) {
            Some(found) => self.position_of(found, floor),
            None => 0,
        }
    }

    /// The same for an ongoing request that is at hand, which isn't looked for. Takes no memory.
    pub fn position_of(&self, request: &Request, floor: u16) -> u8
        requires ongoing { request_at self.now.ongoing request.now.number ≡ Some request.now }
        requires named { IsTrue (names request.now floor) }
        requires settled { IsSettled self.now }
        ensures { result ≡ position_of self.now request.now.number floor }
    {
        if !request.waits() {
            return 0;
        }
        match self.lines.of(floor) {
            Some(line) => (line.place(rank_of(&self.floors, request)) - line.holders() + 1) as u8,
            None => 0,
        }
    }

    /// The numbers of the requests that name the floor, ascending.
    pub fn of_floor(&self, floor: u16) -> Result<Numbers, AllocError>
        ensures { IfOk result (λ numbers.
            numbers ≡ numbers_of (filter (λ r. names r floor) self.now.ongoing)) }
    {
        let alloc = self.ongoing.allocator();
        let numbers = numbers_of_floor(alloc, self.ongoing.as_slice(), floor)?;
        Ok(Numbers::from_vec(numbers))
    }

    /// The numbers of the requests of which the user is requester or beneficiary, ascending.
    pub fn of_user(&self, user: u16) -> Result<Numbers, AllocError>
        ensures { IfOk result (λ numbers.
            numbers ≡ numbers_of (filter (λ r. involves r user) self.now.ongoing)) }
    {
        let alloc = self.ongoing.allocator();
        let numbers = numbers_of_user(alloc, &self.parties, user)?;
        Ok(Numbers::from_vec(numbers))
    }

    /// How many requests name the floor. Takes no memory.
    pub fn count_on(&self, floor: u16) -> usize
        ensures { result ≡ count_by (λ r. names r floor) self.now.ongoing }
    {
        match self.lines.of(floor) {
            Some(line) => line.ranks().len(),
            None => 0,
        }
    }

    /// These numbers and those of the requests that name one of the floors, ascending, each once.
    /// Looks at the requests of these floors alone.
    pub fn numbers_on(&self, floors: &[u16], others: &[u16]) -> Result<Numbers, AllocError>
        ensures value { IfOk result (λ numbers. (number : ℕ) → is_one_of number numbers
            ≡ (is_one_of number others.now || list_any (λ r. r.number == number
            && list_any (names r) floors.now) self.now.ongoing)) }
        ensures ascending { IfOk result (λ numbers. IsTrue (are_ascending numbers)) }
    {
        let alloc = self.ongoing.allocator();
        let numbers = naming::numbers_with(alloc, &self.lines, floors, others)?;
        Ok(Numbers::from_vec(numbers))
    }

    /// Adds a request, which gets the next number. A floor without a chair is Accepted at once, one
    /// with a chair is Pending. Refused by `Full` where 256 are ongoing, then by `NoNumber` where the
    /// number 65,535 was given, then by `Memory`; nothing has changed then.
    pub fn add(&mut self, new: New) -> Result<u16, AddRefusal>
        requires { IsAddable self.old.floors new }
        ensures number { IfOk result (λ number. number ≡ self.old.given + 1) }
        ensures next { OnOk result (self.new ≡ after_add self.old new) }

        ensures full { (result ≡ Err AddRefusal.Full) ↔ (length self.old.ongoing ≡ 256) }
        ensures no_number { (result ≡ Err AddRefusal.NoNumber)
            ↔ ((length self.old.ongoing < 256) × (self.old.given ≡ 65535)) }
        ensures left { OnErr result (self.new ≡ self.old) }
    {
        if self.ongoing.len() >= MAX_ONGOING {
            return Err(AddRefusal::Full);
        }
        if self.given == u16::MAX {
            return Err(AddRefusal::NoNumber);
        }
        let number = self.add_with_room(new)?;
        Ok(number)
    }

    /// Adds a request as `add` does, where fewer than 256 are ongoing and a number is left, as `len`
    /// and `given` tell. After an error nothing has changed.
    pub fn add_with_room(&mut self, new: New) -> Result<u16, AllocError>
        requires addable { IsAddable self.old.floors new }
        requires room { length self.old.ongoing < 256 }
        requires number_left { self.old.given < 65535 }
        ensures number { IfOk result (λ number. number ≡ self.old.given + 1) }
        ensures next { OnOk result (self.new ≡ after_add self.old new) }

        ensures left { OnErr result (self.new ≡ self.old) }
    {
        let alloc = self.ongoing.allocator();
        let floors = first_floors(alloc, &self.floors, new.floors.as_slice())?;
        let number = self.given + 1;
        let request = Request {
            number,
            requester: new.requester,
            beneficiary: new.beneficiary,
            priority: new.priority,
            info: new.info,
            reason: None,
            floors: RequestedFloors::from_vec(floors),
            is_granted: false,
        };
        self.ongoing
            .add(&self.floors, &mut self.lines, &mut self.parties, request)?;
        self.given = number;
        Ok(number)
    }

    /// Stores the word of a floor's chair, which makes the floor Accepted. Takes no memory.
    pub fn set_floor(&mut self, request: u16, floor: u16, word: Word)
        requires { MaySetFloor self.old request floor }
        ensures next { self.new ≡ after_set_floor self.old request floor word }
        ensures still { (other id : ℕ) →
            MaySetFloor self.old other id → MaySetFloor self.new other id }
    {
        self.ongoing
            .store_word(&self.floors, &mut self.lines, request, floor, word);
    }

    /// Stores why a chair decided so, in place of what one said before: `end` gives the request with
    /// it. The request may be granted already. Takes no memory.
    pub fn set_reason(&mut self, request: u16, reason: Octets)
        requires ongoing { IsSome (request_at self.old.ongoing request) }
        requires text { IsReason reason }
        ensures next { self.new ≡ after_set_reason self.old request reason }
        ensures still_ongoing { (other : ℕ) → IsSome (request_at self.old.ongoing other)
            → IsSome (request_at self.new.ongoing other) }
        ensures still { (other id : ℕ) →
            MaySetFloor self.old other id → MaySetFloor self.new other id }
    {
        self.ongoing.set_reason(request, reason);
    }

    /// Takes a request out: it was cancelled, denied, released or revoked. Takes no memory.
    pub fn end(&mut self, request: u16) -> Request
        requires { IsSome (request_at self.old.ongoing request) }
        ensures ended { request_at self.old.ongoing request ≡ Some result }
        ensures next { self.new ≡ after_end self.old request }
    {
        let ended = self.ongoing.end(request);
        let rank = rank_of(&self.floors, &ended);
        self.lines.take(&ended, rank);
        self.lines.mark(&ended);
        self.parties.end(request);
        ended
    }

    /// Takes all requests out, as at the end of the conference. Their numbers are not given again.
    /// Takes no memory.
    pub fn clear(&mut self)
        ensures { self.new ≡ after_clear self.old }
    {
        self.ongoing.clear();
        self.lines.clear();
        self.parties.clear();
    }

    /// Adds a floor behind the others. All requests stay, and none of them names it yet. After an
    /// error nothing has changed.
    pub fn add_floor(&mut self, floor: Floor) -> Result<(), AllocError>
        requires differs { is_floor self.old.floors floor.id ≡ false }
        requires room { 1 ≤ floor.room }
        ensures next { OnOk result (self.new ≡ after_add_floor self.old floor) }

        ensures left { OnErr result (self.new ≡ self.old) }
    {
        self.floors.reserve(1)?;
        self.lines.add_floor(floor)?;
        let _pushed = self.floors.push(floor);
        Ok(())
    }

    /// Gives a floor another chair, or none. The order of all requests goes by it from then on, and a
    /// floor that loses its chair is Accepted in each request that names it, without a word. After an
    /// error nothing has changed.
    pub fn set_chair(&mut self, floor: u16, chair: Option<u16>) -> Result<(), AllocError>
        ensures next { OnOk result (self.new ≡ after_set_chair self.old floor chair) }

        ensures left { OnErr result (self.new ≡ self.old) }
    {
        let before = Vec::from_slice(self.ongoing.allocator(), &self.floors)?;
        let lost = lost_chair(&before, floor, chair);
        put_chair(&mut self.floors, floor, chair);
        self.ongoing
            .change_chairs(&before, &self.floors, &mut self.lines, lost);
        // The order may be another one in each line.
        self.lines.mark_all();
        Ok(())
    }

    /// Grants each request that is due, and gives their numbers, ascending. After an error nothing
    /// has changed.
    pub fn settle(&mut self) -> Result<Numbers, AllocError>
        ensures granted { IfOk result (λ numbers.
            numbers ≡ due_numbers self.old.floors self.old.ongoing) }
        ensures next { OnOk result (self.new ≡ after_settle self.old) }
        ensures settled { OnOk result (IsSettled self.new) }

        ensures left { OnErr result (self.new ≡ self.old) }
    {
        let alloc = self.ongoing.allocator();
        let numbers = due::due_numbers(alloc, &self.floors, &self.lines, &self.ongoing)?;
        grant_all(&self.floors, &mut self.ongoing, &mut self.lines, &numbers);
        self.lines.unmark();
        Ok(Numbers::from_vec(numbers))
    }
}

fn numbers_of_floor(alloc: Global, requests: &[Request], floor: u16) -> Result<Vec<u16>, AllocError>
    ensures { IfOk result (λ numbers.
        numbers.items ≡ numbers_of (filter (λ r. names r floor) requests.now)) }
{
    requests
        .iter()
        .filter(|r| r.names(floor))
        .map(|r| r.number)
        .collect(alloc)
}

fn numbers_of_user(alloc: Global, parties: &Parties, user: u16) -> Result<Vec<u16>, AllocError>
    ensures { IfOk result (λ numbers. numbers.items ≡ numbers_with user parties.now) }
{
    parties.of(user).iter().map(|p| p.number).collect(alloc)
}

/// The floors of a request as it is added.
fn first_floors(
    alloc: Global,
    floors: &[Floor],
    numbers: &[u16],
) -> Result<Vec<RequestedFloor>, AllocError>
    ensures { IfOk result (λ requested. requested.items
        ≡ map (first_floor floors.now) numbers.now) }
{
    numbers
        .iter()
        .map(|floor| first_floor(floors, *floor))
        .collect(alloc)
}

fn first_floor(floors: &[Floor], floor: u16) -> RequestedFloor
    ensures { result ≡ first_floor floors.now floor }
{
    let status = if order::is_chaired(floors, floor) {
        FloorStatus::Pending
    } else {
        FloorStatus::Accepted
    };
    RequestedFloor {
        floor,
        status,
        word: None,
    }
}

/// The floor, if it loses its chair where it gets this one, or none.
fn lost_chair(floors: &[Floor], floor: u16, chair: Option<u16>) -> Option<u16>
    ensures { result ≡ (if loses_chair floors.now floor chair then Some floor else None) }
{
    if order::is_chaired(floors, floor) && chair.is_none() {
        Some(floor)
    } else {
        None
    }
}

fn put_chair(floors: &mut Vec<Floor>, floor: u16, chair: Option<u16>)
    ensures { floors.new.items ≡ map (chaired floor chair) floors.old.items }
{
    for known in floors.iter_mut() {
        give_chair(known, floor, chair);
    }
}

/// Gives a floor this chair, or none, if it is the one with this id.
fn give_chair(known: &mut Floor, floor: u16, chair: Option<u16>)
    ensures { known.new ≡ chaired floor chair known.old }
{
    if known.id == floor {
        known.chair = chair;
    }
}

fn grant_all(floors: &[Floor], requests: &mut Ongoing, lines: &mut Lines, numbers: &[u16])
    requires { AreLines floors.now requests.old lines.old }
    ensures next { requests.new
        ≡ map (λ r. granted_if (list_any (λ n. n == r.number) numbers.now) r) requests.old }
    ensures lines { AreLines floors.now requests.new lines.new }
{
    for number in numbers {
        requests.grant(floors, lines, *number);
    }
}

impl From<AllocError> for AddRefusal {
    ghost use Rattle.std.specs.Prelude.{◌≡◌};
    ghost use Rattle.floor_queue.specs.declared.requests.AddRefusal.TheVariants.{Memory};

    ghost from_gives = { λ _ e. e ≡ Memory };

    fn from(_e: AllocError) -> AddRefusal {
        AddRefusal::Memory
    }
}

impl<T: Drop> From<AllocFailed<T>> for AddRefusal {
    ghost use Rattle.std.specs.Prelude.{◌≡◌};
    ghost use Rattle.floor_queue.specs.declared.requests.AddRefusal.TheVariants.{Memory};

    ghost from_gives = { λ _ e. e ≡ Memory };

    fn from(_e: AllocFailed<T>) -> AddRefusal {
        AddRefusal::Memory
    }
}
