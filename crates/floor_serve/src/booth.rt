//! One conference with its journal, and a place for each member that ever joined, with its sender
//! until it has left.

ghost use Rattle.std.specs.Prelude.{◌≡◌, ◌↔◌, ◌+◌, ◌-◌, ◌++◌, ◌⊎◌, [], None, IfErr, IfOk, IsSomeAnd, IsTrue, OnOk, OnErr, Err, length, slice_set};
ghost use Rattle.floor_machine.specs.declared.event.Event.TheVariants.{Join, Leave, Message, Say, Took};
ghost use Rattle.floor_machine.specs.Machine.{event_of_act};
ghost use Rattle.floor_machine.specs.Reply.{said_reply};
ghost use Rattle.floor_room.specs.declared.refusal.RoomRefusal.TheVariants.{Refused};
ghost use Rattle.floor_machine.specs.declared.machine.Refusal.TheVariants.{Memory};
ghost use Rattle.floor_room.specs.Ledger.{Added, IsRefusedBy, Unadded, broken_off, conference_of, refusal};
ghost use Rattle.floor_room.specs.Room.{joined, parcels_to};
ghost use Rattle.floor_room.specs.Status.{IsStatus};
ghost use Rattle.floor_serve.specs.Booth.{Applied, IsBooth, HasParted, IsClosed, IsGone, Left, LeftJoin, new_booth, off, opened};
ghost use Rattle.floor_serve.specs.steps.Last.{last_message};
ghost use Rattle.floor_serve.specs.Senders.{IsInPart, IsPut, fed, pairs_of, sender_of, without};

use crate::seat::Sent;
use crate::senders::{close, close_all, deliver};
use crate::wakers::Wakers;
use floor_outbox::{Outbox, Parcel, Sender, Taker, pair, rejoin};
use floor_room::{
    Act, Called, Config, Event, Frame, Ledger, Phase, Place, Refusal, RoomRefusal, Said,
    SharedFrame, SharedInfo, Status,
};
use std::alloc::{AllocError, Global};
use std::marker::Model;
use std::sync::Wait;

/// One conference with its journal, and a place for each member that ever joined, with its sender
/// until it has left.
///
/// Changes: `join`, `submit`, `took` and `leave` of a member, `admin` and `say` of the administrator, and
/// `reclaim` or `release` of what is left of a member.
/// What they put wakes nobody yet: after each of them, also after a refusal, `wakers` gives whom to
/// wake, once a lock that is held is given back. Readers: `journal`, `status`, `fits`.
#[derive(Drop)]
pub struct Booth {
    ledger: Ledger,
    senders: Vec<Option<Sender>>,
    wakers: Wakers,
    // What the last event changed: nobody watches here.
    changed: Vec<SharedInfo>,
}

impl Model for Booth {
    ghost use Rattle.floor_serve.specs.Booth.{AreKept, Booth};

    ghost Value = { Booth };

    ghost view = { λ b. record {
      ledger = b.ledger;
      senders = b.senders.items;
      waking = b.wakers;
    } };

    ghost invariant = { λ b. AreKept b.ledger b.senders.items };
}

impl Booth {
    /// The booth of a conference that opens.
    pub fn new(alloc: Global, config: Config) -> Result<Booth, AllocError>
        ensures { IfOk result (λ booth. booth ≡ new_booth config) }
    {
        let ledger = Ledger::new(alloc, config)?;
        Ok(Booth {
            ledger,
            senders: Vec::new(alloc),
            wakers: Wakers::new(alloc),
            changed: Vec::new(alloc),
        })
    }

    /// Whom to wake of those for whom something was put since the last such call. Takes no memory.
    pub fn wakers(&mut self) -> Wakers
        ensures value { result ≡ self.old.waking }
        ensures next { self.new ≡ record self.old { waking = [] } }
    {
        self.wakers.take()
    }

    /// What happened so far. Takes no memory.
    pub fn journal(&self) -> &[Event]
        ensures value { result.now ≡ self.now.ledger.journal }
        ensures kept { IsBooth self.now }
    {
        self.ledger.journal()
    }

    /// How the conference stands. Takes no memory.
    pub fn status(&self) -> Status
        ensures value { IsStatus self.now.ledger result }
        ensures kept { IsBooth self.now }
    {
        // The booth's own facts are those of its ledger and its senders.
        let _journal = self.journal();
        self.ledger.status()
    }

    /// Whether an event was broken off. Takes no memory.
    pub(crate) fn is_broken(&self) -> bool
        ensures { result ≡ self.now.ledger.is_broken }
    {
        self.status().phase == Phase::Broken
    }

    /// Whether no event is taken any more: the conference has ended, or an event was broken off.
    /// Takes no memory.
    pub(crate) fn is_closed(&self) -> bool
        ensures { IsTrue result ↔ IsClosed self.now }
    {
        match self.status().phase {
            Phase::Running => false,
            Phase::Ended | Phase::Broken => true,
        }
    }

    /// How many members ever joined. Takes no memory.
    fn members(&self) -> u32
        ensures { result ≡ length self.now.senders }
    {
        self.senders.len() as u32
    }

    /// Adds an event that is no join, where nothing refuses it, puts what it tells, and sets the closed
    /// mark of each member that it cut.
    fn tell<R: Wait>(&mut self, rt: &R, event: Event) -> Result<(), RoomRefusal>
        requires { joined event ≡ [] }
        ensures took { OnOk result (Applied self.old self.new event []) }
        ensures refused { IsRefusedBy (refusal self.old.ledger event) result }
        ensures left { IfErr result (Left self.old self.new event) }
    {
        self.add(rt, event)?;
        self.close_cut();
        Ok(())
    }

    /// Sets the closed mark of each live member that is cut. Takes no memory.
    fn close_cut(&self) {
        for n in self.ledger.cut_numbers() {
            close_of(&self.senders, *n);
        }
    }

    /// Adds an event that is no join, where nothing refuses it, and puts what it tells.
    fn add<R: Wait>(&mut self, rt: &R, event: Event) -> Result<(), RoomRefusal>
        requires { joined event ≡ [] }
        ensures took { OnOk result (Applied self.old self.new event []) }
        ensures refused { IsRefusedBy (refusal self.old.ledger event) result }
        ensures left { IfErr result (Left self.old self.new event) }
    {
        let out = add(&mut self.ledger, &self.senders, &mut self.changed, event)?;
        feed(
            rt,
            &mut self.ledger,
            &mut self.senders,
            out,
            &mut self.wakers,
        )
    }

    /// Takes a connection of the user as a member, and gives its number and what takes its parcels.
    /// Refused are, in this order, `Broken`, `Ended`, `JournalFull`, `NoUser` and `Full`, and nothing has
    /// changed; but `Memory` for its outbox comes before them all, and changes nothing. After a `Memory`
    /// behind them the conference is broken off.
    pub fn join<R: Wait>(&mut self, rt: &R, user: u16) -> Result<(u32, Taker), RoomRefusal>
        ensures number { IfOk result (λ r. r.0 ≡ length (conference_of self.old.ledger).members + 1) }
        ensures taken { IfOk result (λ r. r.1.taken ≡ []) }
        ensures took { IfOk result (λ r. Applied self.old self.new (Join user) (opened r.1.pair)) }
        ensures refused { IsRefusedBy (refusal self.old.ledger (Join user)) result
            ⊎ ((result ≡ Err (Refused Memory)) × (self.new ≡ self.old)) }
        ensures left { IfErr result (LeftJoin self.old self.new (Join user)) }
    {
        // The senders are as many as the members.
        let _journal = self.journal();
        let (sender, taker) = pair(*self.senders.allocator())?;
        self.senders.reserve(1)?;
        let out = add(
            &mut self.ledger,
            &self.senders,
            &mut self.changed,
            Event::Join { user },
        )?;
        self.senders.push_reserved(Some(sender));
        feed(
            rt,
            &mut self.ledger,
            &mut self.senders,
            out,
            &mut self.wakers,
        )?;
        Ok((self.members(), taker))
    }

    /// Takes a message of a member, and gives its place in the journal. Refused are, in this order,
    /// `Broken`, `Ended`, `JournalFull`, `NoMember` and `Cut`, and nothing has changed; after a `Memory`
    /// the conference is broken off, with the message in its journal or without it.
    pub fn submit<R: Wait>(&mut self, rt: &R, n: u32, frame: Frame) -> Result<Place, RoomRefusal>
        ensures place { IfOk result (λ place. place ≡ length self.new.ledger.journal) }
        ensures took { OnOk result (Applied self.old self.new (Message n frame) []) }
        ensures refused { IsRefusedBy (refusal self.old.ledger (Message n frame)) result }
        ensures left { IfErr result (Left self.old self.new (Message n frame)) }
    {
        self.tell(rt, Event::Message { n, frame })?;
        Ok(self.journal().len() as u32)
    }

    /// Takes a message of a member, and gives what its seat keeps of it. Where that can't share the
    /// journal's memory, the conference is broken off, with the message in its journal.
    #[tactic(auto, using(crate::proofs::Keeping::began_whole, crate::proofs::Keeping::last_taken))]
    pub(crate) fn keep<R: Wait>(
        &mut self,
        rt: &R,
        n: u32,
        frame: Frame,
    ) -> Result<Sent, RoomRefusal>
        ensures sent { IfOk result (λ sent. sent
            ≡ record { place = length self.new.ledger.journal; bytes = frame }) }
        ensures took { OnOk result (Applied self.old self.new (Message n frame) []) }
        ensures refused { IsRefusedBy (refusal self.old.ledger (Message n frame)) result }
        ensures left { IfErr result (Left self.old self.new (Message n frame)) }
    {
        let place = self.submit(rt, n, frame)?;
        match last_message(self.journal()) {
            Ok(Some(bytes)) => Ok(Sent { place, bytes }),
            Ok(None) => unreachable!(),
            Err(_) => {
                self.break_off();
                Err(RoomRefusal::Refused(Refusal::Memory))
            }
        }
    }

    /// Breaks the conference off, and sets every closed mark. Takes no memory.
    pub(crate) fn break_off(&mut self)
        ensures { self.new ≡ off self.old }
    {
        self.ledger.break_off();
        close_all(&self.senders);
    }

    /// Takes it that so many of the parcels to a member were brought to their end, so that it is so many
    /// less behind. Nobody is told, and nobody is woken. Refused are, in this order, `Broken`, `Ended`,
    /// `JournalFull`, `NoMember`, and `BadCount` where that is none or more than the member's backlog, and
    /// nothing has changed; after a `Memory` the conference is broken off.
    pub fn took<R: Wait>(&mut self, rt: &R, n: u32, k: u32) -> Result<(), RoomRefusal>
        ensures took { OnOk result (Applied self.old self.new (Took n k) []) }
        ensures refused { IsRefusedBy (refusal self.old.ledger (Took n k)) result }
        ensures left { IfErr result (Left self.old self.new (Took n k)) }
    {
        self.add(rt, Event::Took { n, k })
    }

    /// Takes it that a member has left. Its sender's closed mark is set, also after a refusal. Refused
    /// are, in this order, `Broken`, `Ended`, `JournalFull` and `NoMember`; after a `Memory` the conference
    /// is broken off.
    pub fn leave<R: Wait>(&mut self, rt: &R, n: u32) -> Result<(), RoomRefusal>
        ensures took { OnOk result (Applied self.old self.new (Leave n) []) }
        ensures refused { IsRefusedBy (refusal self.old.ledger (Leave n)) result }
        ensures left { IfErr result (Left self.old self.new (Leave n)) }
    {
        let left = self.tell(rt, Event::Leave { n });
        close_of(&self.senders, n);
        left
    }

    /// Takes it that a member has left, and takes its sender out: also where the leave is refused and
    /// the conference has ended or is broken off. Its taker still takes what was put. Refused as `leave`:
    /// `Broken`, `Ended`, `JournalFull`, `NoMember`.
    #[tactic(auto, using(crate::proofs::Leaving::gone_took))]
    pub fn part<R: Wait>(&mut self, rt: &R, n: u32) -> Result<(), RoomRefusal>
        ensures done { HasParted result self.old self.new n }
    {
        let left = self.leave(rt, n);
        if left.is_ok() || self.is_closed() {
            self.release(n);
        }
        left
    }

    /// Does what the administrator does. A Close sets the closed mark of every sender. Refused are, in
    /// this order, `Broken`, `Ended`, `JournalFull`, then for a Revoke `NoRequest`, for a new user
    /// `OutOfRange`, `DoubleUser`, for a new floor `OutOfRange`, `DoubleFloor`, `UnknownChair`, for a chair
    /// `NoFloor`, `UnknownChair`, and nothing has changed; after a `Memory` the conference is broken off.
    pub fn admin<R: Wait>(&mut self, rt: &R, act: Act) -> Result<(), RoomRefusal>
        ensures took { OnOk result (Applied self.old self.new (event_of_act act) []) }
        ensures refused { IsRefusedBy (refusal self.old.ledger (event_of_act act)) result }
        ensures left { IfErr result (Left self.old self.new (event_of_act act)) }
    {
        self.tell(rt, Event::of(act))?;
        if self.is_closed() {
            close_all(&self.senders);
        }
        Ok(())
    }

    /// Takes a message that the administrator says for a user, and gives its place in the journal and
    /// what answers it, which no member is told. Refused are, in this order, `Broken`, `Ended`,
    /// `JournalFull` and `NoUser`, and nothing has changed; after a `Memory` the conference is broken off,
    /// with the message in its journal or without it.
    pub fn say<R: Wait>(&mut self, rt: &R, user: u16, frame: Frame) -> Result<Said, RoomRefusal>
        ensures place { IfOk result (λ said. said.place ≡ length self.new.ledger.journal) }
        ensures reply { IfOk result (λ said. said.reply
            ≡ said_reply (conference_of self.old.ledger) (Say user frame)) }
        ensures took { OnOk result (Applied self.old self.new (Say user frame) []) }
        ensures refused { IsRefusedBy (refusal self.old.ledger (Say user frame)) result }
        ensures left { IfErr result (Left self.old self.new (Say user frame)) }
    {
        let reply = self.add_said(rt, user, frame)?;
        self.close_cut();
        let place = self.journal().len() as u32;
        Ok(Said { place, reply })
    }

    /// Adds a message that is said for a user, where nothing refuses it, puts what it tells, and gives
    /// what answers it.
    fn add_said<R: Wait>(
        &mut self,
        rt: &R,
        user: u16,
        frame: Frame,
    ) -> Result<Option<SharedFrame>, RoomRefusal>
        ensures reply { IfOk result (λ reply. reply
            ≡ said_reply (conference_of self.old.ledger) (Say user frame)) }
        ensures took { OnOk result (Applied self.old self.new (Say user frame) []) }
        ensures refused { IsRefusedBy (refusal self.old.ledger (Say user frame)) result }
        ensures left { IfErr result (Left self.old self.new (Say user frame)) }
    {
        let called = say(
            &mut self.ledger,
            &self.senders,
            &mut self.changed,
            user,
            frame,
        )?;
        let Called { parcels, reply } = called;
        feed(
            rt,
            &mut self.ledger,
            &mut self.senders,
            parcels,
            &mut self.wakers,
        )?;
        Ok(reply)
    }

    /// Both ends of the outbox of a member that isn't live any more, or of any where the conference
    /// has ended or is broken off.
    pub fn reclaim<R: Wait>(&mut self, rt: &R, n: u32, taker: Taker) -> Outbox
        requires pair { IsSomeAnd (sender_of self.old.senders n) (λ s. s.pair ≡ taker.pair) }
        requires gone { IsGone self.old n }
        ensures next { self.new ≡ record self.old { senders = slice_set self.old.senders (n - 1) None } }
        ensures taken { result.taken ≡ taker.taken }
        ensures all { result.put ≡ result.taken ++ result.held }
        ensures sent { IsPut (parcels_to self.old.ledger.config self.old.ledger.journal n)
            result.put self.old.ledger.is_broken }
    {
        let Some(sender) = self.senders[n as usize - 1].take() else {
            unreachable!()
        };
        rejoin(rt, sender, taker)
    }

    /// Takes out the sender of a member that isn't live any more, or of any where the conference has
    /// ended or is broken off. Its taker still takes what was put. Takes no memory.
    pub fn release(&mut self, n: u32)
        requires gone { IsGone self.old n }
        ensures next { self.new ≡ record self.old { senders = without self.old.senders n } }
    {
        let_go(&mut self.senders, n);
    }
}

/// The last message of the journal, if its last event is one. It shares the journal's memory.
fn last_message(journal: &[Event]) -> Result<Option<Frame>, AllocError>
    ensures { IfOk result (λ last. last ≡ last_message journal.now) }
{
    let Some(event) = journal.last() else {
        return Ok(None);
    };
    match event.message() {
        Some(frame) => Ok(Some(frame.share()?)),
        None => Ok(None),
    }
}

/// Takes out the sender of n, if there is one.
fn let_go(senders: &mut Vec<Option<Sender>>, n: u32)
    ensures { senders.new.items ≡ without senders.old.items n }
{
    let Some(index) = (n as usize).checked_sub(1) else {
        return;
    };
    match senders.get_mut(index) {
        Some(place) => *place = None,
        None => {}
    }
}

/// Adds an event to the ledger, where nothing refuses it, and gives what it tells. Where it is
/// broken off, every closed mark is set.
fn add(
    ledger: &mut Ledger,
    senders: &[Option<Sender>],
    changed: &mut Vec<SharedInfo>,
    event: Event,
) -> Result<Vec<Parcel>, RoomRefusal>
    ensures took { IfOk result (λ out. Added ledger.old ledger.new event out.items) }
    ensures refused { IsRefusedBy (refusal ledger.old event) result }
    ensures left { IfErr result (Unadded ledger.old ledger.new) }
{
    let added = ledger.add(event, changed);
    match &added {
        Err(RoomRefusal::Refused(Refusal::Memory)) => close_all(senders),
        Ok(_) | Err(_) => {}
    }
    added
}

/// Adds a message that is said for a user to the ledger, where nothing refuses it, and gives what it
/// calls for. Where it is broken off, every closed mark is set.
fn say(
    ledger: &mut Ledger,
    senders: &[Option<Sender>],
    changed: &mut Vec<SharedInfo>,
    user: u16,
    frame: Frame,
) -> Result<Called, RoomRefusal>
    ensures took { IfOk result (λ called.
        Added ledger.old ledger.new (Say user frame) called.parcels.items) }
    ensures reply { IfOk result (λ called. called.reply
        ≡ said_reply (conference_of ledger.old) (Say user frame)) }
    ensures refused { IsRefusedBy (refusal ledger.old (Say user frame)) result }
    ensures left { IfErr result (Unadded ledger.old ledger.new) }
{
    let said = ledger.say(user, frame, changed);
    match &said {
        Err(RoomRefusal::Refused(Refusal::Memory)) => close_all(senders),
        Ok(_) | Err(_) => {}
    }
    said
}

/// Puts what an event tells, and adds whom to wake. Where memory is refused, the ledger is broken
/// off.
fn feed<R: Wait>(
    rt: &R,
    ledger: &mut Ledger,
    senders: &mut Vec<Option<Sender>>,
    out: Vec<Parcel>,
    wakers: &mut Wakers,
) -> Result<(), RoomRefusal>
    ensures senders { OnOk result (senders.new.items ≡ fed out.items 1 senders.old.items) }
    ensures told { OnOk result (wakers.new ≡ wakers.old ++ pairs_of senders.old.items out.items) }
    ensures ledger { OnOk result (ledger.new ≡ ledger.old) }
    ensures memory { IfErr result (λ refusal. refusal ≡ Refused Memory) }
    ensures left { OnErr result (IsInPart out.items senders.old.items senders.new.items) }
    ensures broken { OnErr result (ledger.new ≡ broken_off ledger.old) }
{
    match deliver(rt, senders, out, wakers) {
        Ok(()) => Ok(()),
        Err(_) => {
            ledger.break_off();
            close_all(senders);
            Err(RoomRefusal::Refused(Refusal::Memory))
        }
    }
}

/// Sets the closed mark of the member's pair.
fn close_of(senders: &[Option<Sender>], n: u32) {
    let Some(index) = (n as usize).checked_sub(1) else {
        return;
    };
    match senders.get(index) {
        Some(place) => close(place),
        None => {}
    }
}
