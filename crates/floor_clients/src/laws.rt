//! What the words of the contracts mean. Each law is the contract of a function that does nothing.

ghost use Rattle.floor_clients.specs.Laws.{EachLineItsAnswer, NoticesAreBounded, WatchedIsTold};

/// For any list of calls of one client, each of which did what its contract says: the answers that were written are those
/// of its whole lines, in order, each once, however its bytes were cut; and what was taken is a front of what was written,
/// whole lines of answers and notifications.
pub fn each_line_its_answer()
    ensures { EachLineItsAnswer }
{}

/// For any list of calls of one client, each of which did what its contract says: of a conference that it watches by its
/// number it is told each place that shows anything, from the one on that it asked for, in order, each once, none left
/// out; until it is to be closed.
pub fn watched_is_told()
    ensures { WatchedIsTold }
{}

/// For any list of calls of one client, each of which did what its contract says: no more than 16 MiB of notifications
/// wait for it, though it takes nothing.
pub fn notices_are_bounded()
    ensures { NoticesAreBounded }
{}
