//! Laws of the floor machine. Each is the contract of a function that does nothing.

ghost use Rattle.floor_machine.specs.Amount.{CalledForIsFew, MessageIsShort, SaidIsAnsweredOnce, ToldIsFew};
ghost use Rattle.floor_machine.specs.Laws.{InfosSameIsEqual, SaidIsSent, SameIsEqual, SentIsTold, TakenIsLawful};
ghost use Rattle.floor_machine.specs.Membership.{AfterBoth, BothLawful, JoinsAdd, JoinsLive, ParcelsOfBoth, SentToMembers, SettlesAsQueue, StaysLive, ToldByBoth, ToldOnceJoined, WasLive};
ghost use Rattle.floor_machine.specs.Reachable.{Counted, Grown, Kept, Quiet, SaidQuiet, Sent, Silent, StaysCut};
ghost use Rattle.floor_machine.specs.Returning.{LeaveEndsNothing, RequestsStay};

use floor_message::what_is_asked_fits;
use floor_queue::{positions_fit, settles_once};

/// Two floor requests are shown alike exactly where all that is shown of them is equal, so that a
/// request is told again exactly where anything that is shown of it differs. The same holds of
/// lists of them, so that a floor is told again exactly where any of its requests is.
pub fn shown_alike_is_equal()
    ensures one { SameIsEqual }
    ensures many { InfosSameIsEqual }
{}

/// Of all parcels that lawful events call for, those to one member are what the events tell it.
pub fn sent_is_told()
    ensures { SentIsTold }
{}

/// Of all parcels that a journal calls for, those to one member have the bytes that it calls for
/// there.
pub fn sent_is_called_for()
    ensures { Sent }
{}

/// A machine that isn't broken takes exactly the lawful events, where each message is one whole
/// message: what it refuses, but for want of memory, may not happen then.
pub fn taken_is_lawful()
    ensures { TakenIsLawful }
{}

/// Each journal of a configuration keeps its conference: the configuration of now keeps its limits and
/// has grown from the opening one, of which nothing but chairs has changed; the requests are settled
/// and their numbers ascend, at most 256 are ongoing, no floor has more holders than room, each queue
/// position fits a byte, each member's user is a user, at most 64 members are live, and no backlog is
/// above 1,024.
pub fn journals_keep()
    ensures { Kept }
{
    what_is_asked_fits();
    settles_once();
    positions_fit();
}

/// A user or a floor that is added changes nothing but the configuration, and tells nobody anything.
pub fn additions_grow_alone()
    ensures { Grown }
{
    what_is_asked_fits();
    settles_once();
}

/// A message that is refused or left unanswered leaves the conference as it is, but for its sender's
/// backlog and whether its sender is cut, and tells nobody but its sender anything. One that is said for
/// a user leaves all as it is then, and tells nobody anything.
pub fn refusals_are_quiet()
    ensures sent { Quiet }
    ensures said { SaidQuiet }
{
    what_is_asked_fits();
    settles_once();
}

/// A FloorRequest, a FloorRelease or a ChairAction that is said for a user changes what the same message
/// of a connection of the user would, and is answered the same.
pub fn said_is_sent()
    ensures { SaidIsSent }
{}

/// The backlog of a member is what a journal calls for there, less what the journal acknowledges.
pub fn backlogs_are_counted()
    ensures { Counted }
{}

/// Whoever is cut stays so, and is told nothing more, whatever happens.
pub fn cut_stays_silent()
    ensures stays { StaysCut }
    ensures told { Silent }
{}

/// Who joins is live until it leaves, nobody else comes, and each parcel is to one of the members
/// and after it joined.
pub fn members_come_and_stay()
    ensures joins { JoinsAdd }
    ensures live { JoinsLive }
    ensures stays { StaysLive }
    ensures was { WasLive }
    ensures sent { SentToMembers }
    ensures told { ToldOnceJoined }
{}

/// Where a user's new connection has joined before an old one leaves, no floor request ends by that leave, whoever's it
/// is: the ongoing ones stay as they are, whatever else happens in between, while the new one is live.
pub fn returns_end_nothing()
    ensures ends { LeaveEndsNothing }
    ensures stay { RequestsStay }
{
    journals_keep();
}

/// Whatever may happen after a journal, it tells a member at most 289 messages, so that a journal calls
/// for at most 289 at a member for each of its events. Whatever is said for a user is answered by one
/// message at most. A message that can be written has at most 262,152 bytes.
pub fn events_tell_few()
    ensures told { ToldIsFew }
    ensures called { CalledForIsFew }
    ensures answered { SaidIsAnsweredOnce }
    ensures bytes { MessageIsShort }
{
    what_is_asked_fits();
    settles_once();
}

/// A run of events and then another are the run of both.
pub fn runs_add_up()
    ensures after { AfterBoth }
    ensures parcels { ParcelsOfBoth }
    ensures told { ToldByBoth }
    ensures lawful { BothLawful }
{}

/// An event settles the ongoing requests as the queue of floor requests does, of which the laws of
/// floor_queue speak.
pub fn settles_as_queue()
    ensures { SettlesAsQueue }
{}
