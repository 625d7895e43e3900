//! What the words of the contracts come to over whole runs. Each law is the contract of a function that does nothing.

ghost use Rattle.floor_service.specs.Laws.{EachLineItsAnswer, WatchedIsTold};
ghost use Rattle.floor_turn.specs.Laws.{TakenIsCalledFor};

/// For any list of calls of a service, each of which did to the clients what its contract says: from its coming on each
/// whole line of a client has its answer, in order and once, and what its socket took is a front of what was written for
/// it, whatever other clients and members ask, take, end or fail.
pub fn each_line_its_answer()
    ensures { EachLineItsAnswer }
{
    floor_clients::each_line_its_answer();
}

/// For any list of calls of a service, each of which did to the clients what its contract says: of a conference that a
/// client watches by its number it is told each place that shows anything, from the one on that it asked for, in order,
/// each once, none left out; until it is to be closed.
pub fn watched_is_told()
    ensures { WatchedIsTold }
{
    floor_clients::watched_is_told();
}

/// For any list of calls of a service, each of which did to the server what its contract says, as a call of the server
/// does: where the conference of a member met no want of memory, the bytes that were lent to its socket and that it took
/// are a front of what that conference's floor machine alone calls for, whatever control clients ask.
pub fn taken_is_called_for()
    ensures { TakenIsCalledFor }
{
    floor_turn::taken_is_called_for();
}
