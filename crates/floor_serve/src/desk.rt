//! One conference as threads share it.

ghost use Rattle.std.specs.Prelude.{◌≡◌, ◌∷◌, ◌++◌, [], IfOk, OnErr, length, string_bytes};
ghost use Rattle.floor_room.specs.Status.{IsStatus};
ghost use Rattle.std.specs.Fn.{FnOnceReturnsAtMut};
ghost use Rattle.floor_serve.specs.Booth as spec;
ghost use Rattle.floor_serve.specs.Booth.{IsBooth};
ghost use Rattle.floor_serve.specs.Held.{IsFound, IsJoined, IsText};
ghost use Rattle.floor_serve.specs.steps.Pieces.{IsPiece};

use crate::booth::Booth;
use crate::gate::Gate;
use crate::member_taker::MemberTaker;
use crate::seat::{Receipt, Seat};
use floor_room::{Act, Frame, RoomRefusal, Said, Status, add_end, add_lines};
use std::alloc::{AllocError, Global};
use std::marker::Model;
use std::sync::{Arc, Mutex, Wait};

/// No member has this number.
const NOBODY: u32 = 0;

/// One conference as threads share it. Each call but `journal_text` is one hold of the conference's
/// lock, and wakes whom it told something once the lock is given back. Contracts see its number.
///
/// Changes: `join`, `submit` and `leave` of a member, `admin` and `say` of the administrator. Readers:
/// `conference`, `status`, `journal_text`. What the calls do to the conference stands in the
/// contracts of [`Booth`].
#[derive(Drop)]
pub struct Desk {
    conference: u32,
    booth: Arc<Mutex<Booth>, Global>,
    pub(crate) alloc: Global,
}

impl Model for Desk {
    ghost use Rattle.floor_serve.specs.Seat.{Desk};

    ghost Value = { Desk };

    ghost view = { λ d. record { conference = d.conference } };
}

impl Desk {
    /// A desk of the conference with this number.
    pub(crate) fn new(alloc: Global, conference: u32, booth: Arc<Mutex<Booth>, Global>) -> Desk
        ensures { result.conference ≡ conference }
    {
        Desk {
            conference,
            booth,
            alloc,
        }
    }

    /// The number of the conference. Takes no memory.
    pub fn conference(&self) -> u32
        ensures { result ≡ self.now.conference }
    {
        self.conference
    }

    /// Another desk of the conference. Takes no memory.
    fn share(&self) -> Result<Desk, AllocError>
        ensures { IfOk result (λ desk. desk ≡ self.now) }
    {
        let booth = Arc::try_clone(&self.booth)?;
        Ok(Desk::new(self.alloc, self.conference, booth))
    }

    /// Takes a connection of the user as a member, and gives its seat and what takes its parcels, which
    /// has a desk of its own. Refused as [`Booth::join`]: `Broken`, `Ended`, `JournalFull`, `NoUser`,
    /// `Full`.
    pub fn join<R: Wait>(&self, rt: &R, user: u16) -> Result<(Seat, MemberTaker), RoomRefusal>
        ensures seat { IfOk result (λ joined. joined.0.conference ≡ self.now.conference) }
        ensures sent { IfOk result (λ joined. joined.0.sent ≡ []) }
        ensures conference { IfOk result (λ joined. joined.1.conference ≡ self.now.conference) }
        ensures number { IfOk result (λ joined. joined.1.n ≡ joined.0.n) }
        ensures taken { IfOk result (λ joined. joined.1.taker.taken ≡ []) }
        ensures joined { IfOk result (λ joined.
            IsJoined user joined.1.n joined.1.taker.pair) }
    {
        let desk = self.share()?;
        let (n, taker) = self.hold(rt, NOBODY, |booth| booth.join(rt, user))?;
        let seat = Seat::new(self.alloc, self.conference, n);
        Ok((seat, MemberTaker { desk, n, taker }))
    }

    /// Submits a message of the seat's member, which keeps it with its place in the journal, in the
    /// journal's own memory. After a refusal the seat is as it was. Refused by `Memory` with nothing
    /// changed where the seat can't grow, else as [`Booth::submit`]: `Broken`, `Ended`, `JournalFull`,
    /// `NoMember`, `Cut`.
    pub fn submit<G: Gate, R: Wait>(
        &self,
        rt: &R,
        seat: &mut Seat,
        frame: Frame,
        gate: &G,
    ) -> Result<Receipt, RoomRefusal>
        requires { seat.old.conference ≡ self.now.conference }
        ensures took { IfOk result (λ receipt. seat.new ≡ record seat.old {
          sent = seat.old.sent ++ record { place = receipt.place; bytes = frame } ∷ [];
        }) }
        ensures left { OnErr result (seat.new ≡ seat.old) }
    {
        // The seat's memory is taken first, so that a message that was taken is recorded.
        seat.sent.reserve(1)?;
        let n = seat.n();
        let conference = self.conference;
        let sent = self.hold(rt, n, |booth| {
            let kept = booth.keep(rt, n, frame);
            match &kept {
                Ok(_) => gate.pass(conference, n),
                Err(_) => {}
            }
            kept
        })?;
        let place = sent.place;
        seat.sent.push_reserved(sent);
        Ok(Receipt { place })
    }

    /// Takes it that so many of the parcels to a member were brought to their end, as its writer says.
    /// Refused as [`Booth::took`]: `Broken`, `Ended`, `JournalFull`, `NoMember`, `BadCount`.
    pub(crate) fn took<R: Wait>(&self, rt: &R, n: u32, k: u32) -> Result<(), RoomRefusal> {
        self.hold(rt, NOBODY, |booth| booth.took(rt, n, k))
    }

    /// Takes it that the seat's member has left, and lets its writer end, also after a refusal.
    /// Refused as [`Booth::leave`]: `Broken`, `Ended`, `JournalFull`, `NoMember`. Of a member that is gone
    /// nothing stays but its taker, until the writer has taken what was put.
    pub fn leave<R: Wait>(&self, rt: &R, seat: &mut Seat) -> Result<(), RoomRefusal>
        requires { seat.old.conference ≡ self.now.conference }
        ensures kept { seat.new ≡ seat.old }
    {
        let n = seat.n();
        self.hold(rt, NOBODY, |booth| booth.part(rt, n))
    }

    /// Does what the administrator does. A Close lets every writer end. Refused as [`Booth::admin`]:
    /// `Broken`, `Ended`, `JournalFull`, then what the act itself is refused by.
    pub fn admin<R: Wait>(&self, rt: &R, act: Act) -> Result<(), RoomRefusal> {
        self.hold(rt, NOBODY, |booth| booth.admin(rt, act))
    }

    /// Says a message for a user, and gives its place in the journal and what answers it. Refused as
    /// [`Booth::say`]: `Broken`, `Ended`, `JournalFull`, `NoUser`.
    pub fn say<R: Wait>(&self, rt: &R, user: u16, frame: Frame) -> Result<Said, RoomRefusal> {
        self.hold(rt, NOBODY, |booth| booth.say(rt, user, frame))
    }

    /// Does this with the conference, in one hold of its lock. Whom it told something is woken once the
    /// lock is given back, the member `first` before the others.
    fn hold<R: Wait, T, F: FnOnce(&mut Booth) -> T>(&self, rt: &R, first: u32, change: F) -> T
        requires { F.IsAlwaysCallable change }
        ensures { (before : spec.Booth) × (after : spec.Booth) × IsBooth before
            × FnOnceReturnsAtMut F.FnOnce change before result after }
    {
        let mut booth = self.booth.lock(rt);
        // The type hands out what holds of each booth.
        let _journal = booth.journal();
        let done = change(&mut booth);
        let wakers = booth.wakers();
        drop(booth);
        wakers.wake_first(first);
        done
    }

    /// How the conference stands. Takes no memory.
    pub fn status<R: Wait>(&self, rt: &R) -> Status
        ensures value { IsFound (λ booth. IsStatus booth.ledger result) }
    {
        let booth = self.booth.lock(rt);
        booth.status()
    }

    /// The lines of the conference's journal, a line for each event, and their number: of all events
    /// that it had when the call began, and perhaps of some behind them. Taken in pieces, a hold of the
    /// lock each ([`add_lines`]), so that nobody in the conference waits for a long journal.
    pub fn journal_text<R: Wait>(&self, rt: &R) -> Result<String, AllocError>
        ensures value { IfOk result (λ text. IsText (string_bytes text)) }
    {
        let mut text = String::new(self.alloc);
        let count = self.count(rt);
        let mut done = 0;
        while done < count {
            let added = self.add_piece(rt, &mut text, done)?;
            if added == 0 {
                break; // never: a journal only grows
            }
            done += added;
        }
        add_end(self.alloc, &mut text, done)?;
        Ok(text)
    }

    /// How many events there are.
    fn count<R: Wait>(&self, rt: &R) -> usize
        ensures value { IsFound (λ booth. result ≡ length booth.ledger.journal) }
    {
        let booth = self.booth.lock(rt);
        booth.journal().len()
    }

    /// Adds the lines of some events behind the first `done`, and gives how many it added: none only
    /// where there is none.
    fn add_piece<R: Wait>(
        &self,
        rt: &R,
        text: &mut String,
        done: usize,
    ) -> Result<usize, AllocError>
        ensures value { IfOk result (λ added.
            IsPiece (string_bytes text.old) (string_bytes text.new) done added) }
    {
        let booth = self.booth.lock(rt);
        add_lines(self.alloc, text, booth.journal(), done)
    }
}
