//! Laws of a client. Each is the contract of a function that does nothing.

ghost use Rattle.floor_client.specs.Laws.{ClosesAlone, NextIsOne, OpensAlone, ResponseIsHeard, ResponseRestores};

use floor_message::a_written_tell_is_read;

/// The next number is from 1 to 65,535, and there is no other; there is none where all are open.
pub fn the_next_number_is_one()
    ensures { NextIsOne }
{}

/// To open a number opens that number alone, and to close an open one closes that number alone.
pub fn a_number_opens_and_closes_alone()
    ensures opens { OpensAlone }
    ensures closes { ClosesAlone }
{}

/// What a server answers to what a client asked is heard as the response to it, and leaves the
/// open numbers as they were before it was asked.
pub fn a_response_closes_its_transaction()
    ensures heard { ResponseIsHeard }
    ensures restored { ResponseRestores }
{
    a_written_tell_is_read();
}
