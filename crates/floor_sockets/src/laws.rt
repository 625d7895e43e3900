//! What the calls come to over whole runs. Each law is the contract of a function that does nothing.

ghost use Rattle.floor_sockets.specs.Examples.{OneIsRead, OneIsShut};
ghost use Rattle.floor_sockets.specs.Laws.{WhoFailsIsShut, WhoIsEndedIsShut, WhoIsToldOfIsRead, WhoSaysNothingIsShut};

/// For any list of calls, each of which did what its contract says: whoever is ended has had its `Shut` once ten
/// seconds have gone by and whatever was due is done, whatever else was told, asked and answered in between.
pub fn who_is_ended_is_shut()
    ensures { WhoIsEndedIsShut }
{}

/// The same of who fails, without the ten seconds.
pub fn who_fails_is_shut()
    ensures { WhoFailsIsShut }
{}

/// The same of somebody at a door, by five seconds, unless it was told what the socket is for, or was ended or failed
/// before.
pub fn who_says_nothing_is_shut()
    ensures { WhoSaysNothingIsShut }
{}

/// For any list of calls: of whom the poll gave word was read, or accepted, until there was nothing, where `next`
/// gives nothing; unless it is over, held, was shut, or an answer is awaited of it.
pub fn who_is_told_of_is_read()
    ensures { WhoIsToldOfIsRead }
{}

/// One run, computed: a member is ended, and its `Shut` is given ten seconds later and not a microsecond before.
pub fn one_is_shut()
    ensures { OneIsShut }
{}

/// One run, computed: a member of which the poll gave word is read once, and nobody is left over.
pub fn one_is_read()
    ensures { OneIsRead }
{}
