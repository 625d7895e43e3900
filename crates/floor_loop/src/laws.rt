//! The law of loops. It is the contract of a function that does nothing.

ghost use Rattle.floor_loop.specs.Examples.{HelloIsWritten};
ghost use Rattle.floor_loop.specs.Laws.{WrittenIsCalledFor};

use floor_hub::conference_alone;

/// For any list of calls of a loop, each of which did what its contract says: where the conference of a
/// connection met no want of memory, the bytes that its socket took are a front of what that conference's floor
/// machine alone calls for, whatever other conferences ask, leave or close; and each parcel that was acknowledged
/// was written whole.
pub fn written_is_called_for()
    ensures { WrittenIsCalledFor }
{
    conference_alone();
}

/// One run, computed: a Hello is served in one of two conferences, its answer is written in two parts,
/// between which the other conference closes, and acknowledged behind the second.
pub fn hello_is_written()
    ensures { HelloIsWritten }
{}
