//! A member is told all that an event calls for, or nothing: nothing where it would come to be more than
//! 1,024 messages behind, and then it is cut.

ghost use Rattle.std.specs.Option.{option_map_or};
ghost use Rattle.std.specs.Prelude.{ℕ, List, ◌≡◌, ◌++◌, ◌&&◌, OnOk, [], false, map, not, option_and_then, true};
ghost use Rattle.floor_machine.specs.Conference.{AreCut, live_numbers, member_with};
ghost use Rattle.floor_machine.specs.steps.Counting.{AreWatching, counted_of, due_at, members_at, members_each, told_at, told_each, told_of_all};
ghost use Rattle.floor_machine.specs.steps.Telling.{is_concerned, noticed_to, noticed_to_all};

use crate::joined::Joined;
use crate::members::Members;
use crate::parcel::Parcel;
use crate::replied::Replied;
use crate::tell::changed::Updates;
use crate::tell::due::Due;
use std::alloc::{AllocError, Global};

impl Members {
    /// Tells the live members, by ascending number, what is due to each, or cuts it.
    pub(crate) fn tell(
        &mut self,
        alloc: Global,
        out: &mut Vec<Parcel>,
        due: &Due<'_>,
    ) -> Result<(), AllocError>
        ensures told { OnOk result (out.new.items ≡ out.old.items ++ told_of_all
            (noticed_to_all due.now.conference due.now.reply.now due.now.updates.now
            due.now.notices.now self.old) self.old) }
        ensures counted { OnOk result (self.new ≡ map (counted_of
            (noticed_to_all due.now.conference due.now.reply.now due.now.updates.now
            due.now.notices.now self.old)) self.old) }
    {
        tell_each(alloc, out, &mut self.joined, &self.live, due)
    }

    /// Tells the member that sent a message what answers it, or cuts it. All others are told nothing,
    /// and aren't looked at.
    pub(crate) fn tell_sender(
        &mut self,
        alloc: Global,
        out: &mut Vec<Parcel>,
        conference: u32,
        reply: &Option<Replied>,
    ) -> Result<(), AllocError>
        ensures told { OnOk result (out.new.items ≡ out.old.items ++ told_of_all
            (noticed_to_all conference reply.now [] [] self.old) self.old) }
        ensures counted { OnOk result (self.new ≡ map (counted_of
            (noticed_to_all conference reply.now [] [] self.old)) self.old) }
    {
        match sender_of(reply) {
            Some(n) => {
                let none = Updates::new(alloc);
                let sender = [n];
                let due = Due {
                    conference,
                    reply,
                    updates: &none,
                    notices: &[],
                };
                tell_each(alloc, out, &mut self.joined, &sender, &due)
            }
            None => Ok(()),
        }
    }
}

/// The number of the member that a reply is to.
fn sender_of(reply: &Option<Replied>) -> Option<u32>
    ensures { result ≡ option_and_then (λ r. r.n) reply.now }
{
    match reply {
        Some(reply) => reply.n,
        None => None,
    }
}

/// Tells the live members with these numbers, one after another, what is due to each, or cuts it.
fn tell_each(
    alloc: Global,
    out: &mut Vec<Parcel>,
    joined: &mut Joined,
    live: &[u32],
    due: &Due<'_>,
) -> Result<(), AllocError>
    ensures told { OnOk result (out.new.items ≡ out.old.items
        ++ told_each (noticed_to due.now.conference due.now.reply.now due.now.updates.now
        due.now.notices.now) live.now joined.old.members.items) }
    ensures counted { OnOk result (joined.new.members.items
        ≡ members_each (noticed_to due.now.conference due.now.reply.now due.now.updates.now
        due.now.notices.now) live.now joined.old.members.items) }
    ensures live { live_numbers joined.new.members.items ≡ live_numbers joined.old.members.items }
    ensures watching { (numbers : List ℕ) → AreWatching joined.old.members.items numbers
        → AreWatching joined.new.members.items numbers }
    ensures cut { AreCut joined.old.members.items joined.old.cut.items
        → AreCut joined.new.members.items joined.new.cut.items }
{
    for n in live {
        tell_one(alloc, out, joined, *n, due)?;
    }
    Ok(())
}

/// Tells the member with this number what is due to it, or cuts it.
fn tell_one(
    alloc: Global,
    out: &mut Vec<Parcel>,
    joined: &mut Joined,
    n: u32,
    due: &Due<'_>,
) -> Result<(), AllocError>
    ensures told { OnOk result (out.new.items ≡ out.old.items
        ++ told_at (noticed_to due.now.conference due.now.reply.now due.now.updates.now
        due.now.notices.now) n joined.old.members.items) }
    ensures counted { OnOk result (joined.new.members.items
        ≡ members_at (noticed_to due.now.conference due.now.reply.now due.now.updates.now
        due.now.notices.now) n joined.old.members.items) }
    ensures live { live_numbers joined.new.members.items ≡ live_numbers joined.old.members.items }
    ensures watching { (numbers : List ℕ) → AreWatching joined.old.members.items numbers
        → AreWatching joined.new.members.items numbers }
    ensures cut { AreCut joined.old.members.items joined.old.cut.items
        → AreCut joined.new.members.items joined.new.cut.items }
{
    // Whoever is cut, or whom the event doesn't concern, costs no more than this look.
    if !may_be_told(joined, n, due) {
        return Ok(());
    }
    tell_whole(alloc, out, joined, n, due)
}

/// Tells the member with this number all that is due to it, or cuts it.
// A call of its own, so that the look before it stays short.
#[inline(never)]
fn tell_whole(
    alloc: Global,
    out: &mut Vec<Parcel>,
    joined: &mut Joined,
    n: u32,
    due: &Due<'_>,
) -> Result<(), AllocError>
    requires concerned { option_map_or
        (λ m. not m.is_cut && is_concerned due.now.reply.now due.now.updates.now
        due.now.notices.now m) (member_with joined.old.members.items n) false ≡ true }
    ensures told { OnOk result (out.new.items ≡ out.old.items
        ++ told_at (noticed_to due.now.conference due.now.reply.now due.now.updates.now
        due.now.notices.now) n joined.old.members.items) }
    ensures counted { OnOk result (joined.new.members.items
        ≡ members_at (noticed_to due.now.conference due.now.reply.now due.now.updates.now
        due.now.notices.now) n joined.old.members.items) }
    ensures live { live_numbers joined.new.members.items ≡ live_numbers joined.old.members.items }
    ensures watching { (numbers : List ℕ) → AreWatching joined.old.members.items numbers
        → AreWatching joined.new.members.items numbers }
    ensures cut { AreCut joined.old.members.items joined.old.cut.items
        → AreCut joined.new.members.items joined.new.cut.items }
{
    let before = out.len();
    put_due(alloc, out, joined, n, due)?;
    let count = out.len() - before;
    joined.note_cut(n, count)?;
    if !joined.take_on(n, count) {
        out.truncate(before);
    }
    Ok(())
}

/// Whether the member with this number is live and not cut, and the event concerns it: where the answer
/// is no it is told nothing.
fn may_be_told(joined: &Joined, n: u32, due: &Due<'_>) -> bool
    ensures { result ≡ option_map_or
        (λ m. not m.is_cut && is_concerned due.now.reply.now due.now.updates.now
        due.now.notices.now m) (member_with joined.now.members.items n) false }
{
    match joined.find_live(n) {
        Some(member) => !member.is_cut && due.concerns(member),
        None => false,
    }
}

/// Puts what is due to the member with this number, if it is live.
fn put_due(
    alloc: Global,
    out: &mut Vec<Parcel>,
    joined: &Joined,
    n: u32,
    due: &Due<'_>,
) -> Result<(), AllocError>
    ensures { OnOk result (out.new.items ≡ out.old.items
        ++ due_at (noticed_to due.now.conference due.now.reply.now due.now.updates.now
        due.now.notices.now) n joined.now.members.items) }
{
    match joined.find_live(n) {
        Some(member) => due.put(alloc, out, member),
        None => Ok(()),
    }
}
