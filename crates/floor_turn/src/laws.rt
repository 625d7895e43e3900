//! The law of lives, what is left where nothing is to be done, and that whoever is to be shut down is. Each is the contract of a function that does nothing.

ghost use Rattle.floor_turn.specs.Examples.{OneIsWritten};
ghost use Rattle.floor_turn.specs.Laws.{NothingIsLeft, TakenIsCalledFor};
ghost use Rattle.floor_turn.specs.Over.{WhoFailsIsShut, WhoIsEndedIsShut};

/// For any list of calls of a server, each of which did what its contract says: where the conference of a member met no
/// want of memory, the bytes that were lent to its socket and that it took are a front of what that conference's floor
/// machine alone calls for, whatever other conferences and other sockets are asked, leave or close.
pub fn taken_is_called_for()
    ensures { TakenIsCalledFor }
{
    floor_meetings::taken_is_called_for();
}

/// One run, computed: two members say Hello, and what one of them is told its socket takes in two parts, between which
/// the other's takes something and whatever else is called.
pub fn one_is_written()
    ensures { OneIsWritten }
{
    floor_meetings::one_is_written();
}

/// Where `next` gives nothing: of a socket that isn't to be shut down, and of which no answer is awaited, nothing is left
/// to be read that the poll gave word of, no turn of its messages is left over, and nothing is lent to it that it takes.
pub fn nothing_is_left()
    ensures { NothingIsLeft }
{}

/// For any list of calls of a server, each of which did what its contract says: whoever is ended by one has had its
/// `Shut` once ten seconds have gone by and whatever was due is done, whatever else is told, asked and answered in between.
pub fn who_is_ended_is_shut()
    ensures { WhoIsEndedIsShut }
{
    floor_sockets::who_is_ended_is_shut();
}

/// The same of who fails, without the ten seconds.
pub fn who_fails_is_shut()
    ensures { WhoFailsIsShut }
{
    floor_sockets::who_fails_is_shut();
}
