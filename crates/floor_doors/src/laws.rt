//! What the words of the contracts mean. Each law is the contract of a function that does nothing.

ghost use Rattle.floor_doors.specs.Laws.{CutsChangeNothing};

/// However the bytes in front of a first message are cut, the same follows as of all at once, and the user is given
/// the same bytes: those behind the header, all of them and no others.
pub fn cuts_change_nothing()
    ensures { CutsChangeNothing }
{}
