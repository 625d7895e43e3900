//! The law of lives. It is the contract of a function that does nothing.

ghost use Rattle.floor_meetings.specs.Examples.{OneIsWritten};
ghost use Rattle.floor_meetings.specs.Laws.{JoinsAreApart, OthersStay, TakenIsCalledFor};

use floor_loop::{hello_is_written, written_is_called_for};

/// For any list of calls, each of which did what its contract says: where the conference of a member met no want of
/// memory, the bytes that were lent to its socket and that it took are a front of what that conference's floor machine
/// alone calls for, whatever other conferences and other sockets ask, leave or close.
pub fn taken_is_called_for()
    ensures { TakenIsCalledFor }
{
    written_is_called_for();
}

/// For any list of calls of a value that had no conference and no member: a join leaves each other slot its member, and
/// gives a number that no other join gives, so that no member is another's.
pub fn joins_are_their_own()
    ensures others { OthersStay }
    ensures apart { JoinsAreApart }
{}

/// One run, computed: two members say Hello, and what one of them is told its socket takes in two parts, between which
/// the other's conference closes and its socket is shut.
pub fn one_is_written()
    ensures { OneIsWritten }
{
    hello_is_written();
}
