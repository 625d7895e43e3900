//! The floor machine of one conference (RFC 8855, sections 8 to 13).

ghost use Rattle.std.specs.Prelude.{◌≡◌, ◌+◌, ◌<◌, ◌≤◌, [], None, IfOk, IfErr, OnErr, OnOk, false, length, count_by, true};
ghost use Rattle.floor_machine.specs.Conference.{AreCut, backlog, is_cut, live_numbers, opening, user_of};
ghost use Rattle.floor_machine.specs.Laws.{IsWhole};
ghost use Rattle.floor_machine.specs.declared.event.Event.{Event};
ghost use Rattle.floor_machine.specs.declared.event.Event.TheVariants.{Join, Leave, Message, Took};
ghost use Rattle.floor_machine.specs.declared.machine.Refusal.TheVariants.{Memory};
ghost use Rattle.floor_machine.specs.Machine.{Applied, IsRefusedBy, Left, event_refusal, infos_changed, is_backlog, join_refusal, leave_refusal, member_refusal, message_refusal, refusal_of, took_refusal, unless_refused, whole};
ghost use Rattle.floor_machine.specs.Reply.{infos, said_reply};
ghost use Rattle.floor_machine.specs.steps.Deciding.{ComesTo, IsMessageOf, MayChange};
ghost use Rattle.floor_machine.specs.steps.Fitting.{DetailsFit};
ghost use Rattle.floor_machine.specs.steps.Frame.{IsTried, done};

mod administrator;
mod saying;

use crate::conference::State;
use crate::decision::{Change, Decision, Sender};
use crate::parcel::Parcel;
use floor_config::Config;
use floor_message::{SharedInfo, what_is_shown_fits};
use floor_wire::{Frame, SharedFrame};
use std::alloc::{AllocError, Global};
use std::marker::Model;

/// How many live members a conference has at most.
const MAX_LIVE: usize = 64;

/// Why an event is not taken. The first that applies is answered.
#[derive(Clone, Copy, Debug, PartialEq, Eq)]
pub enum Refusal {
    /// Want of memory has broken off an earlier event.
    Broken,
    /// The conference has ended.
    Ended,
    /// No live member has the number.
    NoMember,
    /// No user of the conference has the id.
    NoUser,
    /// 64 members are live.
    Full,
    /// No ongoing floor request has the number.
    NoRequest,
    /// The member is cut: it came to be more than 1,024 messages behind.
    Cut,
    /// Nothing is acknowledged, or more than the backlog of the member.
    BadCount,
    /// The conference has 256 users or 32 floors, or a number or the length of a text is beyond its
    /// range.
    OutOfRange,
    /// A user of the conference has the id.
    DoubleUser,
    /// A floor of the conference has the id.
    DoubleFloor,
    /// No floor of the conference has the id.
    NoFloor,
    /// The chair is no user of the conference.
    UnknownChair,
    /// Memory was refused: the machine is broken from then on.
    Memory,
}

impl Refusal {
    ghost use Rattle.floor_machine.specs.Names.{name_of};

    /// The name of the variant. Takes no memory.
    pub fn name(self) -> &'static str
        ensures value { result.now ≡ name_of self }
    {
        match self {
            Refusal::Broken => "Broken",
            Refusal::Ended => "Ended",
            Refusal::NoMember => "NoMember",
            Refusal::NoUser => "NoUser",
            Refusal::Full => "Full",
            Refusal::NoRequest => "NoRequest",
            Refusal::Cut => "Cut",
            Refusal::BadCount => "BadCount",
            Refusal::OutOfRange => "OutOfRange",
            Refusal::DoubleUser => "DoubleUser",
            Refusal::DoubleFloor => "DoubleFloor",
            Refusal::NoFloor => "NoFloor",
            Refusal::UnknownChair => "UnknownChair",
            Refusal::Memory => "Memory",
        }
    }
}

impl From<AllocError> for Refusal {
    ghost use Rattle.std.specs.Prelude.{◌≡◌};
    ghost use Rattle.floor_machine.specs.declared.machine.Refusal.TheVariants.{Memory};

    ghost from_gives = { λ _ e. e ≡ Memory };

    fn from(_e: AllocError) -> Refusal {
        Refusal::Memory
    }
}

/// The floor machine of one conference: whole messages of its members in, parcels to them out.
///
/// Readers, which take no memory: `config`, `joins`, `live_members`, `live_numbers`, `cut_numbers`,
/// `ongoing_requests`, `shown`, `is_open`, `is_broken`, `is_cut`, `user_of`, `backlog`. Changes: `join`,
/// `message`, `took`, `leave`, `admin` and `say`, each an event; `apply` takes any event by the one of its
/// kind, and `run` many. A refused call changes nothing, but that `Memory` leaves the machine broken, and from
/// then on it answers `Broken`.
///
/// `message`, `leave`, `admin`, `say` and `apply` put into their last argument, in place of what stood there, what
/// is shown now of each floor request that the event changed, ascending: of a new one, of one that ended
/// with its status, and of one that is shown otherwise than before. After a refusal that is none.
#[derive(Debug, Drop)]
pub struct Machine {
    state: State,
    is_broken: bool,
}

impl Model for Machine {
    ghost use Rattle.floor_machine.specs.Machine.{Machine};
    ghost use Rattle.floor_machine.specs.steps.Serving.{IsMachine, conference_of};

    ghost Value = { Machine };

    ghost view = { λ m. record { conference = conference_of m.state; is_broken = m.is_broken } };

    ghost invariant = { λ m. IsMachine m.state m.is_broken };
}

impl Machine {
    /// The machine of a conference that opens.
    pub fn new(alloc: Global, config: Config) -> Result<Machine, AllocError>
        ensures value { IfOk result (λ machine. machine ≡ whole (opening config)) }
    {
        let state = State::new(alloc, config)?;
        Ok(Machine {
            state,
            is_broken: false,
        })
    }

    /// The configuration that stands now, with the users and floors that were added and the chairs that
    /// were changed. Takes no memory.
    pub fn config(&self) -> &Config
        ensures value { result.now ≡ self.now.conference.config }
    {
        &self.state.config
    }

    /// How many members ever joined. Takes no memory.
    pub fn joins(&self) -> usize
        ensures value { result ≡ length self.now.conference.members }
    {
        self.state.members.len()
    }

    /// Whether the conference has not ended. Takes no memory.
    pub fn is_open(&self) -> bool
        ensures value { result ≡ self.now.conference.is_open }
    {
        self.state.is_open
    }

    /// Whether want of memory has broken off an event. Takes no memory.
    pub fn is_broken(&self) -> bool
        ensures value { result ≡ self.now.is_broken }
    {
        self.is_broken
    }

    /// How many members are live. Takes no memory.
    pub fn live_members(&self) -> usize
        ensures value { result ≡ count_by (λ m. m.is_live) self.now.conference.members }
    {
        self.state.members.live()
    }

    /// The numbers of the live members, ascending. Takes no memory.
    pub fn live_numbers(&self) -> &[u32]
        ensures value { result.now ≡ live_numbers self.now.conference.members }
    {
        self.state.members.live_numbers()
    }

    /// The numbers of the live members that are cut, in no order. Takes no memory.
    pub fn cut_numbers(&self) -> &[u32]
        ensures value { AreCut self.now.conference.members result.now }
    {
        self.state.members.cut_numbers()
    }

    /// How many floor requests are ongoing. Takes no memory.
    pub fn ongoing_requests(&self) -> usize
        ensures value { result ≡ length self.now.conference.ongoing }
        ensures range { result ≤ 256 }
    {
        self.state.requests.ongoing().len()
    }

    /// What is shown of the ongoing floor requests, ascending; a broken machine shows none. Takes no
    /// memory.
    pub fn shown(&self) -> &[SharedInfo]
        ensures value { self.now.is_broken ≡ false → result.now ≡ infos self.now.conference }
        ensures broken { self.now.is_broken ≡ true → result.now ≡ [] }
    {
        if self.is_broken {
            return &[];
        }
        self.state.shown.as_slice()
    }

    /// The user whose connection a live member is, and 0 where no live member has the number. Takes no
    /// memory.
    pub fn user_of(&self, n: u32) -> u16
        ensures value { result ≡ user_of self.now.conference n }
    {
        self.state.user_of(n)
    }

    /// How many messages were told to the member with this number and not acknowledged, also once it
    /// has left. Of a number that never joined it is 0. Takes no memory.
    pub fn backlog(&self, n: u32) -> u32
        ensures value { result ≡ backlog self.now.conference n }
    {
        self.state.members.backlog(n)
    }

    /// Whether the member with this number is cut: it came to be more than 1,024 messages behind, and
    /// is told nothing more, also once it has left. Of a number that never joined it is false. Takes
    /// no memory.
    pub fn is_cut(&self, n: u32) -> bool
        ensures value { result ≡ is_cut self.now.conference n }
    {
        self.state.members.is_cut(n)
    }

    /// Why the user may not join.
    fn join_refusal(&self, user: u16) -> Option<Refusal>
        ensures { result ≡ join_refusal self.now user }
    {
        if self.is_broken {
            Some(Refusal::Broken)
        } else if !self.state.is_open {
            Some(Refusal::Ended)
        } else if !self.state.config.is_user(user) {
            Some(Refusal::NoUser)
        } else if self.state.members.live() >= MAX_LIVE {
            Some(Refusal::Full)
        } else {
            None
        }
    }

    /// Why nothing of this member is taken; where it is a live one, the other refusal, if there is one.
    fn member_refusal(&self, n: u32, other: Option<Refusal>) -> Option<Refusal>
        ensures { result ≡ member_refusal self.now n other }
    {
        if self.is_broken {
            Some(Refusal::Broken)
        } else if !self.state.is_open {
            Some(Refusal::Ended)
        } else if !self.state.has_live(n) {
            Some(Refusal::NoMember)
        } else {
            other
        }
    }

    /// Why no message of this member is taken.
    fn message_refusal(&self, n: u32) -> Option<Refusal>
        ensures { result ≡ message_refusal self.now n }
    {
        let cut = if self.is_cut(n) {
            Some(Refusal::Cut)
        } else {
            None
        };
        self.member_refusal(n, cut)
    }

    /// Whether so many of the messages to this member may be acknowledged.
    fn is_backlog(&self, n: u32, k: u32) -> bool
        ensures { result ≡ is_backlog self.now.conference n k }
    {
        0 < k && k <= self.state.members.backlog(n)
    }

    /// Why it isn't taken that so many of the messages to this member are acknowledged.
    fn took_refusal(&self, n: u32, k: u32) -> Option<Refusal>
        ensures { result ≡ took_refusal self.now n k }
    {
        let count = if self.is_backlog(n, k) {
            None
        } else {
            Some(Refusal::BadCount)
        };
        self.member_refusal(n, count)
    }

    /// Why nothing is taken: the machine is broken, the conference has ended, or this applies.
    fn refusal_of(&self, other: Option<Refusal>) -> Option<Refusal>
        ensures { result ≡ refusal_of self.now other }
    {
        if self.is_broken {
            Some(Refusal::Broken)
        } else if !self.state.is_open {
            Some(Refusal::Ended)
        } else {
            other
        }
    }

    /// Takes a connection of the user as a member, and gives its number: 1 for the first that ever
    /// joined. Nobody is told, and each floor request is shown as before. Refused are, in this order,
    /// `Broken`, `Ended`, `NoUser` and `Full`; after a refusal nothing has changed, but that `Memory`, which
    /// comes last, leaves the machine broken.
    #[tactic(auto, using(crate::proofs::Bounds::shown_fits))]
    pub fn join(&mut self, user: u16) -> Result<u32, Refusal>
        requires { length self.old.conference.members < 4294967295 }
        ensures number { IfOk result (λ n. n ≡ length self.old.conference.members + 1) }
        ensures took { OnOk result (Applied self.old (Join user) self.new [] []) }
        ensures still { OnOk result (infos_changed self.old.conference (Join user) ≡ []) }
        ensures refused { IsRefusedBy (join_refusal self.old user) result }
        ensures left { IfErr result (Left self.old (Join user) self.new [] []) }
    {
        match self.join_refusal(user) {
            Some(refusal) => return Err(refusal),
            None => {}
        }
        what_is_shown_fits();
        let n = (self.joins() + 1) as u32;
        self.is_broken = true;
        self.state.join(n, user)?;
        self.is_broken = false;
        Ok(n)
    }

    /// Takes the message of a member, appends what it tells the members to `out`, by ascending member,
    /// and puts what is shown of the floor requests that it changed into `changed`. Whoever would come to
    /// be more than 1,024 messages behind is told nothing of it, not even the answer to its own message,
    /// and is cut from then on. Refused are, in this order, `Broken`, `Ended`, `NoMember` and `Cut`; after
    /// a refusal nothing has changed, but that `Memory` leaves the machine broken.
    pub fn message(
        &mut self,
        n: u32,
        frame: &Frame,
        out: &mut Vec<Parcel>,
        changed: &mut Vec<SharedInfo>,
    ) -> Result<(), Refusal>
        ensures took { OnOk result
            (Applied self.old (Message n frame.now) self.new out.old.items out.new.items) }
        ensures changed { OnOk result
            (changed.new.items ≡ infos_changed self.old.conference (Message n frame.now)) }
        ensures unchanged { OnErr result (changed.new.items ≡ []) }
        ensures refused { IsRefusedBy (message_refusal self.old n) result }
        ensures left { IfErr result
            (Left self.old (Message n frame.now) self.new out.old.items out.new.items) }
    {
        changed.clear();
        match self.message_refusal(n) {
            Some(refusal) => Err(refusal),
            None => self.take_message(n, frame, out, changed),
        }
    }

    /// Takes the message of a member that may send one.
    fn take_message(
        &mut self,
        n: u32,
        frame: &Frame,
        out: &mut Vec<Parcel>,
        changed: &mut Vec<SharedInfo>,
    ) -> Result<(), Refusal>
        requires free { None ≡ message_refusal self.old n }
        requires empty { changed.old.items ≡ [] }
        ensures tried { IsTried self.old (Message n frame.now) self.new out.old.items
            out.new.items changed.new.items result }
    {
        // A frame is one message, which makes the event a lawful one.
        let _bytes = frame.bytes();
        let sender = self.state.sender(n, frame);
        match self.take_sent(sender, frame, out, changed) {
            Ok(_answer) => Ok(()),
            Err(refusal) => Err(refusal),
        }
    }

    /// Takes a message, whoever sent it, and gives the answer to one that no member sent.
    fn take_sent(
        &mut self,
        sender: Sender,
        frame: &Frame,
        out: &mut Vec<Parcel>,
        changed: &mut Vec<SharedInfo>,
    ) -> Result<Option<SharedFrame>, Refusal>
        requires whole { self.old.is_broken ≡ false }
        requires empty { changed.old.items ≡ [] }
        ensures tried { (e : Event) → IsMessageOf self.old.conference e sender frame.now
            → IsWhole e → None ≡ event_refusal self.old e
            → IsTried self.old e self.new out.old.items out.new.items changed.new.items
            (done result) }
        ensures said { (e : Event) → IsMessageOf self.old.conference e sender frame.now
            → IfOk result (λ said. said ≡ said_reply self.old.conference e) }
    {
        match self.state.decide(self.allocator(), &sender, frame) {
            Ok(decision) => self.take_answered(Some(sender), decision, out, changed),
            Err(refused) => Err(self.break_off(refused)),
        }
    }

    /// Takes it that so many of the messages that were told to a member were brought to their end, so
    /// that its backlog is so many less. Nobody is told, and each floor request is shown as before.
    /// Refused are, in this order, `Broken`, `Ended`, `NoMember` and `BadCount`; after a refusal nothing
    /// has changed. Takes no memory.
    #[tactic(auto, using(crate::proofs::Bounds::shown_fits))]
    pub fn took(&mut self, n: u32, k: u32) -> Result<(), Refusal>
        ensures took { OnOk result (Applied self.old (Took n k) self.new [] []) }
        ensures still { OnOk result (infos_changed self.old.conference (Took n k) ≡ []) }
        ensures refused { result ≡ unless_refused (took_refusal self.old n k) }
        ensures left { IfErr result (Left self.old (Took n k) self.new [] []) }
    {
        match self.took_refusal(n, k) {
            Some(refusal) => return Err(refusal),
            None => {}
        }
        what_is_shown_fits();
        self.state.took(n, k);
        Ok(())
    }

    /// Takes it that a member has left, appends what that tells the others to `out`, by ascending
    /// member, and puts what is shown of the floor requests that it changed into `changed`. Where it was
    /// the last connection of its user, the floor requests for that user end. Refused are, in this order,
    /// `Broken`, `Ended` and `NoMember`; after a refusal nothing has changed, but that `Memory`, which
    /// comes last, leaves the machine broken.
    pub fn leave(
        &mut self,
        n: u32,
        out: &mut Vec<Parcel>,
        changed: &mut Vec<SharedInfo>,
    ) -> Result<(), Refusal>
        ensures took { OnOk result
            (Applied self.old (Leave n) self.new out.old.items out.new.items) }
        ensures changed { OnOk result
            (changed.new.items ≡ infos_changed self.old.conference (Leave n)) }
        ensures unchanged { OnErr result (changed.new.items ≡ []) }
        ensures refused { IsRefusedBy (leave_refusal self.old n) result }
        ensures left { IfErr result
            (Left self.old (Leave n) self.new out.old.items out.new.items) }
    {
        changed.clear();
        match self.member_refusal(n, None) {
            Some(refusal) => Err(refusal),
            None => self.take(None, Decision::to(Change::Leave(n)), out, changed),
        }
    }

    /// Breaks the machine off, for want of memory. Takes no memory.
    fn break_off(&mut self, refused: AllocError) -> Refusal
        ensures value { result ≡ Memory }
        ensures broken { self.new.is_broken ≡ true }
    {
        self.is_broken = true;
        Refusal::from(refused)
    }

    /// Where memory is taken. Takes none.
    fn allocator(&self) -> Global {
        self.state.members.allocator()
    }

    /// Does what a lawful event comes to, which this member sent, where it is a message. Want of memory
    /// leaves the machine broken, and hands nothing out.
    fn take(
        &mut self,
        sender: Option<Sender>,
        decision: Decision,
        out: &mut Vec<Parcel>,
        changed: &mut Vec<SharedInfo>,
    ) -> Result<(), Refusal>
        requires whole { self.old.is_broken ≡ false }
        requires empty { changed.old.items ≡ [] }
        requires may { MayChange self.old.conference decision.change }
        requires details { DetailsFit decision.reply }
        ensures tried { (e : Event) → ComesTo self.old.conference e sender decision → IsWhole e
            → None ≡ event_refusal self.old e
            → IsTried self.old e self.new out.old.items out.new.items changed.new.items result }
    {
        match self.take_answered(sender, decision, out, changed) {
            Ok(_answer) => Ok(()),
            Err(refusal) => Err(refusal),
        }
    }

    /// Does the same, and gives the answer to a message that no member sent.
    fn take_answered(
        &mut self,
        sender: Option<Sender>,
        decision: Decision,
        out: &mut Vec<Parcel>,
        changed: &mut Vec<SharedInfo>,
    ) -> Result<Option<SharedFrame>, Refusal>
        requires whole { self.old.is_broken ≡ false }
        requires empty { changed.old.items ≡ [] }
        requires may { MayChange self.old.conference decision.change }
        requires details { DetailsFit decision.reply }
        ensures tried { (e : Event) → ComesTo self.old.conference e sender decision → IsWhole e
            → None ≡ event_refusal self.old e
            → IsTried self.old e self.new out.old.items out.new.items changed.new.items
            (done result) }
        ensures said { (e : Event) → ComesTo self.old.conference e sender decision
            → IfOk result (λ said. said ≡ said_reply self.old.conference e) }
    {
        what_is_shown_fits();
        // Whatever breaks the event off leaves it so.
        self.is_broken = true;
        match self.state.serve(sender, decision, out, changed) {
            Ok(answer) => {
                self.is_broken = false;
                Ok(answer)
            }
            Err(refused) => {
                changed.clear();
                Err(Refusal::from(refused))
            }
        }
    }
}
