//! Sockets that are members', by their slots.

ghost use Rattle.std.specs.Prelude.{◌≡◌, ◌≤◌, ◌<◌, ◌⊎◌, ℕ, IfErr, IfNone, IfOk, IfSome, IsSome, MatchOption, None, Ok, OnErr, OnOk, Some, [], false, length, max, min, nat_eq, true};
ghost use Rattle.floor_room.specs.Room.{Room};
ghost use Rattle.floor_hub.specs.Connections.{connection_at};
ghost use Rattle.floor_hub.specs.Hub.{room_at};
ghost use Rattle.floor_hub.specs.declared.connection.Connection.{Connection};
ghost use Rattle.floor_hub.specs.Rooms.{Forgets, IsRemembered, OneRoom, Opens, admin_event, by_broken, refusal_in, say_event};
ghost use Rattle.floor_hub.specs.StandsFor.{StandsFor};
ghost use Rattle.floor_hub.specs.World.{answer_said, nothing};
ghost use Rattle.floor_hub.specs.declared.step.Step.TheVariants.{Admin, Open, Say};
ghost use Rattle.floor_loop.specs.Done.{AtMost, LeavesIf, NoSteps};
ghost use Rattle.floor_loop.specs.Loop.{IsFilled, outgoing_at, over_at, ready_at};
ghost use Rattle.floor_loop.specs.Returned.{IsKeptPlace, IsOldestOf};
ghost use Rattle.floor_loop.specs.Written.{IsOver, IsServing, Spares, Wakes};
ghost use Rattle.floor_meetings.specs.Calls.{Comes, Drops, Ends, Fails, Leaves, Parts, Quiet, Takes};
ghost use Rattle.floor_meetings.specs.Joined.{HasPlaces, IsRefused, Joins, LeftBy, SameSlots, is_late};
ghost use Rattle.floor_meetings.specs.Meetings.{AreCalledFor, due_as, lent_at, member_at, ready_as, shut_by};
ghost use Rattle.floor_meetings.specs.Members.{IsPaired, slot_of};
ghost use Rattle.floor_meetings.specs.declared.members.Member.{Member as Known};

use crate::bounds::Bounds;
use crate::counting::{count_in_slots, count_of_user};
use crate::members::{Member, Members};
use crate::refusal::JoinRefusal;
use crate::turn::{come, drop_waiting, end, fail, leave, part, take};
use floor_loop::{Act, Config, ConnNo, Grace, HubRefusal, Loop, Said};
use std::alloc::Global;

/// How many messages of a socket are served in a turn at most: our choice. One may take a hundred thousand times as
/// long as another.
pub const MAX_TURN: u32 = 8;

/// Who has something to be written, or is to be shut down.
#[derive(Clone, Copy, Debug, PartialEq, Eq)]
pub enum Ready {
    /// The member in this slot.
    Member(usize),
    /// A member that is away, by its connection's number: what waits for it is to be dropped, by `discard`.
    Away(ConnNo),
}

/// Whose time is over.
#[derive(Clone, Copy, Debug, PartialEq, Eq)]
pub enum Due {
    /// That of the member in this slot: its socket is to be shut, and then it has `left`.
    Member(usize),
    /// That of a member that is away, by its connection's number: it is to leave, by `leave_away`.
    Away(ConnNo),
}

/// Conferences, and which socket is which member of them. Times are milliseconds; one that is earlier than the last
/// counts as the last.
///
/// - Conferences: `open`, `act`, `say`, `forget`; `hub` lends the loop, by which they are read. `begin_keeping`, `keep` and
///   `end_keeping` say how many of its events are kept.
/// - A socket's life: `join`, behind `check` and `make_room`; `came` as bytes come, and `serve` while that says that more may wait;
///   `ended` and `failed` at the end of the stream and of the socket; `left` once the socket was shut, or `leave`.
/// - Writing: `ready` names who has something to be written, `lent` lends it, and `took` takes it that the socket took
///   so much of it.
/// - Shutting down: a socket that has an `until` is to be shut down once nothing is lent to it, and by that time; `due`
///   names one whose time is over, and `next_due` says when it is wanted.
/// - Who is away has no slot: `discard` drops what waits for it, and `leave_away` has it leave.
///
/// A slot without a member changes nothing.
#[derive(Drop)]
pub struct Meetings {
    pub(crate) hub: Loop,
    pub(crate) members: Members,
    pub(crate) bounds: Bounds,
}

impl Meetings {
    /// No conference and no member, within these bounds. Whose socket is shut leaves at once. Takes no memory.
    pub fn new(alloc: Global, bounds: Bounds) -> Meetings
        ensures value { StandsFor result.hub.hub nothing }
        ensures members { (slot : ℕ) → member_at result slot ≡ None }
        ensures bounds { result.bounds ≡ bounds }
    {
        Meetings {
            hub: Loop::new(alloc),
            members: Members::new(alloc),
            bounds,
        }
    }

    /// The same, where a member whose socket was shut stays for a while, away, and the last place of a conference is
    /// kept for who comes back.
    pub fn with_grace(alloc: Global, bounds: Bounds, grace: Grace) -> Meetings
        ensures value { StandsFor result.hub.hub nothing }
        ensures members { (slot : ℕ) → member_at result slot ≡ None }
        ensures bounds { result.bounds ≡ bounds }
        ensures grace { result.hub.attended.away.grace ≡ grace }
    {
        Meetings {
            hub: Loop::with_grace(alloc, grace),
            members: Members::new(alloc),
            bounds,
        }
    }

    /// Opens a conference, as the hub does.
    pub fn open(&mut self, alloc: Global, config: Config) -> Result<(), HubRefusal>
        ensures quiet { Quiet (AtMost 1 (Open config)) self.old.hub self.new.hub }
        ensures opened { OnOk result (Opens config self.old.hub.hub self.new.hub.hub) }
        ensures attended { self.new.hub.attended ≡ self.old.hub.attended }
        ensures members { self.new.members ≡ self.old.members }
        ensures bounds { self.new.bounds ≡ self.old.bounds }
    {
        self.hub.open(alloc, config)
    }

    /// Gives the memory of a conference back that has ended and of which no connection is live, as the hub does.
    pub fn forget(&mut self, conference: u32) -> Result<(), HubRefusal>
        ensures quiet { Quiet NoSteps self.old.hub self.new.hub }
        ensures forgot { OnOk result (Forgets conference self.old.hub.hub self.new.hub.hub) }
        ensures refused { IfErr result (IsRemembered conference self.old.hub.hub) }
        ensures left { OnErr result (self.new.hub ≡ self.old.hub) }
        ensures attended { self.new.hub.attended ≡ self.old.hub.attended }
        ensures members { self.new.members ≡ self.old.members }
        ensures bounds { self.new.bounds ≡ self.old.bounds }
    {
        self.hub.forget(conference)
    }

    /// Does what the administrator of a conference does, as the hub does.
    pub fn act(&mut self, conference: u32, act: Act, now: u64) -> Result<(), HubRefusal>
        ensures quiet { Quiet (AtMost 1 (Admin conference act)) self.old.hub self.new.hub }
        ensures room { OneRoom by_broken (refusal_in result) (admin_event act) conference
            self.old.hub.hub self.new.hub.hub }
        ensures woke { Wakes self.old.hub self.new.hub }
        ensures spares { Spares self.old.hub self.new.hub }
        ensures members { self.new.members ≡ self.old.members }
        ensures bounds { self.new.bounds ≡ self.old.bounds }
    {
        self.hub.admin(conference, act, now)
    }

    /// Says a message for a user, who needs no socket, as the hub does: gives its place in the journal and what answers
    /// it, which no member is told.
    pub fn say(
        &mut self,
        alloc: Global,
        conference: u32,
        user: u16,
        message: &[u8],
        now: u64,
    ) -> Result<Said, HubRefusal>
        ensures quiet { Quiet (AtMost 1 (Say conference user message.now))
            self.old.hub self.new.hub }
        ensures said { IfOk result (λ said. (r : Room)
            × (room_at self.old.hub.hub conference ≡ Some r)
            × (said ≡ answer_said r.ledger user message.now)) }
        ensures room { OneRoom by_broken (refusal_in result) (say_event user message.now)
            conference self.old.hub.hub self.new.hub.hub }
        ensures woke { Wakes self.old.hub self.new.hub }
        ensures spares { Spares self.old.hub self.new.hub }
        ensures members { self.new.members ≡ self.old.members }
        ensures bounds { self.new.bounds ≡ self.old.bounds }
    {
        self.hub.say(alloc, conference, user, message, now)
    }

    /// Lends the loop, by which conferences are read.
    pub fn hub(&self) -> &Loop
        ensures value { result.now ≡ self.now.hub }
    {
        &self.hub
    }

    /// The member in a slot. No other slot has it.
    pub fn get(&self, slot: usize) -> Option<Member>
        ensures value { result ≡ member_at self.now slot }
    {
        self.members.get(slot)
    }

    /// The slot of the member whose connection has this number.
    pub fn slot_of(&self, number: ConnNo) -> Option<usize>
        ensures value { result ≡ slot_of self.now.members number }
        ensures kept { IsPaired self.now.members }
    {
        self.members.slot_of(number)
    }

    /// Where a conference is full, whoever of this user's members there is away since longest leaves, and is named: to
    /// be called before `join`, behind `check`, so that the user can come back. Where memory is refused for the search nobody leaves.
    pub fn make_room(
        &mut self,
        alloc: Global,
        conference: u32,
        user: u16,
        now: u64,
    ) -> Option<ConnNo>
        ensures quiet { Quiet (LeavesIf result) self.old.hub self.new.hub }
        ensures woke { Wakes self.old.hub self.new.hub }
        ensures spares { Spares self.old.hub self.new.hub }
        ensures found { IfSome result (λ number. IsOldestOf self.old.hub.hub
            self.old.hub.attended.away conference user number) }
        ensures members { self.new.members ≡ self.old.members }
        ensures bounds { self.new.bounds ≡ self.old.bounds }
    {
        self.hub.make_room(alloc, conference, user, now)
    }

    /// Whether a user may join in a slot, so far as it can be told before: to be called before `make_room`, so that nobody
    /// leaves for who is refused.
    ///
    /// Refused by the first that applies of: `InUse`; `ByHub`, where there is no such conference; `UserConnections`;
    /// `Connections`.
    pub fn check(&self, slot: usize, conference: u32, user: u16) -> Result<(), JoinRefusal>
        ensures free { OnOk result (member_at self.now slot ≡ None) }
        ensures places { OnOk result (HasPlaces conference user self.now) }
        ensures refused { IfErr result (IsRefused slot conference user self.now) }
    {
        match self.members.get(slot) {
            Some(_) => return Err(JoinRefusal::InUse),
            None => {}
        }
        let live = match self.hub.members(conference) {
            Ok(live) => live,
            Err(refusal) => return Err(JoinRefusal::ByHub(refusal)),
        };
        if self.bounds.of_user <= count_of_user(&self.members, live, user) {
            return Err(JoinRefusal::UserConnections);
        }
        if self.bounds.of_conference <= count_in_slots(&self.members, live) {
            return Err(JoinRefusal::Connections);
        }
        Ok(())
    }

    /// A user's socket, in a slot that has no member, joins a conference, as the loop's `attach` has it join: the user's
    /// members leave that are away there. Its life begins. Whether it may is `check`'s to say.
    ///
    /// Refused by `Memory`, where memory is refused for the slot, and by `ByHub`, as the loop refuses it.
    pub fn join(
        &mut self,
        alloc: Global,
        slot: usize,
        conference: u32,
        user: u16,
        now: u64,
    ) -> Result<(), JoinRefusal>
        requires free { member_at self.old slot ≡ None }
        ensures took { OnOk result (Joins slot conference user self.old self.new) }
        ensures refused { IfErr result (λ r. is_late r ≡ true) }
        ensures full { (r : Room) → room_at self.old.hub.hub conference ≡ Some r
            → IsKeptPlace conference user r self.old.hub → OnOk result ⊥ }
        ensures left { IfErr result (λ r. LeftBy r conference user self.old.hub self.new.hub) }
        ensures slots { OnErr result (SameSlots self.old self.new) }
        ensures bounds { self.new.bounds ≡ self.old.bounds }
    {
        match self.members.reserve(slot) {
            Ok(()) => {}
            Err(_) => return Err(JoinRefusal::Memory),
        }
        match self.hub.attach(alloc, conference, user, now) {
            Ok(number) => {
                let member = Member {
                    number,
                    conference,
                    user,
                };
                self.members.put(slot, member);
                Ok(())
            }
            Err(refusal) => Err(JoinRefusal::ByHub(refusal)),
        }
    }

    /// Bytes came from the socket in a slot: a turn of its messages is served. Says whether more may wait. Refused as
    /// the hub refuses the bytes or a message: then the socket is to be shut down.
    pub fn came(&mut self, slot: usize, bytes: &[u8], now: u64) -> Result<bool, HubRefusal>
        ensures took { MatchOption (member_at self.old slot) (self.new.hub ≡ self.old.hub)
            (λ m. Comes m.number bytes.now self.old.hub self.new.hub result) }
        ensures nobody { member_at self.old slot ≡ None → result ≡ Ok false }
        ensures members { self.new.members ≡ self.old.members }
        ensures bounds { self.new.bounds ≡ self.old.bounds }
    {
        match self.members.get(slot) {
            Some(member) => come(&mut self.hub, member.number, bytes, now),
            None => Ok(false),
        }
    }

    /// A further turn of the messages that the socket in a slot has left over. Says whether more may wait. Refused as
    /// `came` is.
    pub fn serve(&mut self, slot: usize, now: u64) -> Result<bool, HubRefusal>
        ensures took { MatchOption (member_at self.old slot) (self.new.hub ≡ self.old.hub)
            (λ m. Comes m.number [] self.old.hub self.new.hub result) }
        ensures nobody { member_at self.old slot ≡ None → result ≡ Ok false }
        ensures members { self.new.members ≡ self.old.members }
        ensures bounds { self.new.bounds ≡ self.old.bounds }
    {
        self.came(slot, &[], now)
    }

    /// The peer ended its stream: what came is served to its end, and the socket is to be shut down, at latest after 10
    /// seconds.
    pub fn ended(&mut self, slot: usize, now: u64)
        ensures took { MatchOption (member_at self.old slot) (self.new.hub ≡ self.old.hub)
            (λ m. Ends m.number self.old.hub self.new.hub) }
        ensures members { self.new.members ≡ self.old.members }
        ensures bounds { self.new.bounds ≡ self.old.bounds }
    {
        match self.members.get(slot) {
            Some(member) => end(&mut self.hub, member.number, now),
            None => {}
        }
    }

    /// The socket failed: what came is served to its end, and the socket is to be shut down at once.
    pub fn failed(&mut self, slot: usize, now: u64)
        ensures took { MatchOption (member_at self.old slot) (self.new.hub ≡ self.old.hub)
            (λ m. Fails m.number self.old.hub self.new.hub) }
        ensures members { self.new.members ≡ self.old.members }
        ensures bounds { self.new.bounds ≡ self.old.bounds }
    {
        match self.members.get(slot) {
            Some(member) => fail(&mut self.hub, member.number, now),
            None => {}
        }
    }

    /// The socket in a slot was shut: its member leaves, or stays for the grace, away, and says whether it stays. Its
    /// life ends, and the slot is free, also where the hub refuses the leave.
    pub fn left(&mut self, slot: usize, now: u64) -> Result<bool, HubRefusal>
        ensures took { MatchOption (member_at self.old slot) (self.new.hub ≡ self.old.hub)
            (λ m. Parts m.number now self.old.hub self.new.hub result) }
        ensures nobody { member_at self.old slot ≡ None → result ≡ Ok false }
        ensures free { member_at self.new slot ≡ None }
        ensures gone { (m : Known) → member_at self.old slot ≡ Some m
            → slot_of self.new.members m.number ≡ None }
        ensures others { (k : ℕ) → nat_eq slot k ≡ false
            → member_at self.new k ≡ member_at self.old k }
        ensures bounds { self.new.bounds ≡ self.old.bounds }
    {
        match self.members.get(slot) {
            Some(member) => {
                self.members.remove(slot);
                part(&mut self.hub, member.number, now)
            }
            None => Ok(false),
        }
    }

    /// The member in a slot leaves at once, and doesn't stay, away. Its life ends, and the slot is free, also where the hub
    /// refuses the leave.
    pub fn leave(&mut self, slot: usize, now: u64) -> Result<(), HubRefusal>
        ensures took { MatchOption (member_at self.old slot) (self.new.hub ≡ self.old.hub)
            (λ m. Leaves m.number self.old.hub self.new.hub) }
        ensures free { member_at self.new slot ≡ None }
        ensures gone { (m : Known) → member_at self.old slot ≡ Some m
            → slot_of self.new.members m.number ≡ None }
        ensures others { (k : ℕ) → nat_eq slot k ≡ false
            → member_at self.new k ≡ member_at self.old k }
        ensures bounds { self.new.bounds ≡ self.old.bounds }
    {
        let Some(member) = self.members.get(slot) else {
            return Ok(());
        };
        self.members.remove(slot);
        leave(&mut self.hub, member.number, now)
    }

    /// What is to be written to the socket in a slot, 64 KiB at most.
    pub fn lent(&self, slot: usize) -> &[u8]
        ensures value { result.now ≡ lent_at self.now slot }
        ensures called { MatchOption (member_at self.now slot) (result.now ≡ [])
            (λ m. AreCalledFor self.now.hub m.number result.now) }
    {
        match self.members.get(slot) {
            Some(member) => self.hub.writing(member.number),
            None => &[],
        }
    }

    /// The socket in a slot took so many of the bytes that were lent. A count above what was lent counts as all of it.
    pub fn took(&mut self, slot: usize, count: usize, now: u64)
        ensures took { MatchOption (member_at self.old slot) (self.new.hub ≡ self.old.hub)
            (λ m. Takes m.number (min count (length (lent_at self.old slot)))
            self.old.hub self.new.hub) }
        ensures members { self.new.members ≡ self.old.members }
        ensures bounds { self.new.bounds ≡ self.old.bounds }
    {
        match self.members.get(slot) {
            Some(member) => take(&mut self.hub, member.number, count, now),
            None => {}
        }
    }

    /// Who has something to be written or is to be shut down since longest, and wasn't named since: each once. What waits
    /// for it is taken from the hub, so that `lent` lends it.
    pub fn ready(&mut self) -> Option<Ready>
        ensures quiet { Quiet NoSteps self.old.hub self.new.hub }
        ensures found { IfSome result (λ r. (number : ℕ)
            × (r ≡ ready_as (slot_of self.old.members number) number)
            × IsSome (ready_at self.old.hub number) × (ready_at self.new.hub number ≡ None)
            × IsFilled self.new.hub number × ((k : ℕ) → nat_eq number k ≡ false
            → outgoing_at self.new.hub k ≡ outgoing_at self.old.hub k)) }
        ensures none { IfNone result ((number : ℕ) → ready_at self.old.hub number ≡ None) }
        ensures spares { Spares self.old.hub self.new.hub }
        ensures members { self.new.members ≡ self.old.members }
        ensures bounds { self.new.bounds ≡ self.old.bounds }
    {
        match self.hub.ready() {
            Some(number) => Some(self.ready_as(number)),
            None => None,
        }
    }

    /// Whoever is ready, by its slot where it has one.
    fn ready_as(&self, number: ConnNo) -> Ready
        ensures value { result ≡ ready_as (slot_of self.now.members number) number }
    {
        match self.members.slot_of(number) {
            Some(slot) => Ready::Member(slot),
            None => Ready::Away(number),
        }
    }

    /// By when the socket in a slot is to be shut down, where it is to be. It is so before where nothing is lent to it.
    pub fn until(&self, slot: usize) -> Option<u64>
        ensures value { result ≡ shut_by self.now slot }
        ensures over { (m : Known) (x : Connection) (r : Room) → member_at self.now slot ≡ Some m
            → connection_at self.now.hub.hub.connections m.number ≡ Some x
            → room_at self.now.hub.hub x.conference ≡ Some r → IsOver r x.n → IsSome result }
        ensures serving { IsServing self.now.hub }
    {
        match self.members.get(slot) {
            Some(member) => self.hub.until(member.number),
            None => {
                // No connection has this number.
                let _none = self.hub.until(0);
                None
            }
        }
    }

    /// Somebody whose time is over by now: a socket that is to be shut, whatever is lent to it, or a member that has been
    /// away for as long as it may.
    pub fn due(&mut self, now: u64) -> Option<Due>
        ensures hub { self.new.hub.hub ≡ self.old.hub.hub }
        ensures attended { self.new.hub.attended ≡ record self.old.hub.attended {
          time = max self.old.hub.attended.time now;
        } }
        ensures found { IfSome result (λ d. (number until : ℕ)
            × (d ≡ due_as (slot_of self.old.members number) number)
            × (over_at self.old.hub number ≡ Some until)
            × (until ≤ max self.old.hub.attended.time now)) }
        ensures none { IfNone result ((number until : ℕ)
            → over_at self.old.hub number ≡ Some until
            → max self.old.hub.attended.time now < until) }
        ensures members { self.new.members ≡ self.old.members }
        ensures bounds { self.new.bounds ≡ self.old.bounds }
    {
        match self.hub.due(now) {
            Some(number) => Some(self.due_as(number)),
            None => None,
        }
    }

    /// Whose time is over, by its slot where it has one.
    fn due_as(&self, number: ConnNo) -> Due
        ensures value { result ≡ due_as (slot_of self.now.members number) number }
    {
        match self.members.slot_of(number) {
            Some(slot) => Due::Member(slot),
            None => Due::Away(number),
        }
    }

    /// When `due` is wanted next.
    pub fn next_due(&mut self) -> Option<u64>
        ensures next { self.new.hub ≡ self.old.hub }
        ensures found { IfSome result (λ until. (number : ℕ)
            × (over_at self.old.hub number ≡ Some until)) }
        ensures first { IfSome result (λ first. (number until : ℕ)
            → over_at self.old.hub number ≡ Some until → first ≤ until) }
        ensures none { IfNone result ((number : ℕ) → over_at self.old.hub number ≡ None) }
        ensures members { self.new.members ≡ self.old.members }
        ensures bounds { self.new.bounds ≡ self.old.bounds }
    {
        self.hub.next_due()
    }

    /// What waits for a member that is away is dropped, and never acknowledged, so that it is cut as any other. Of one
    /// that is in a slot nothing is.
    pub fn discard(&mut self, number: ConnNo)
        ensures took { MatchOption (slot_of self.old.members number)
            (Drops number self.old.hub self.new.hub) (λ slot. self.new.hub ≡ self.old.hub) }
        ensures members { self.new.members ≡ self.old.members }
        ensures bounds { self.new.bounds ≡ self.old.bounds }
    {
        match self.members.slot_of(number) {
            Some(_) => {}
            None => drop_waiting(&mut self.hub, number),
        }
    }

    /// A member that is away leaves. One that is in a slot doesn't. Refused as the hub refuses it.
    pub fn leave_away(&mut self, number: ConnNo, now: u64) -> Result<(), HubRefusal>
        ensures took { MatchOption (slot_of self.old.members number)
            (Leaves number self.old.hub self.new.hub)
            (λ slot. self.new.hub ≡ self.old.hub) }
        ensures here { (slot : ℕ) → slot_of self.old.members number ≡ Some slot → OnErr result ⊥ }
        ensures members { self.new.members ≡ self.old.members }
        ensures bounds { self.new.bounds ≡ self.old.bounds }
    {
        match self.members.slot_of(number) {
            Some(_) => Ok(()),
            None => leave(&mut self.hub, number, now),
        }
    }
}
