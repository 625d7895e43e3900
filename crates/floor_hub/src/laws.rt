//! Laws of worlds. Each is the contract of a function that does nothing.

ghost use Rattle.floor_hub.specs.Kept.{IsKept};
ghost use Rattle.floor_hub.specs.Laws.{AnswersAlone, ArrivalsFit, ConfigurationStays, EventsAlone, EventsAreAJournal, Headline, IdleStays, JournalsAreEvents, JournalsAreOpened, JournalsAreQueued, JournalsAreResumed, NumbersAlone, QueuedIsCalledFor, StepAdds, StepKeeps, StepNumbers, TwoWorlds};
ghost use Rattle.floor_hub.specs.World.{nothing};

/// The first world is kept, and each step keeps it: so the events of every conference are a journal
/// of its configuration, and its connections are numbered from 1 on in order of joining.
pub fn kept_worlds()
    ensures nothing { IsKept nothing }
    ensures step { StepKeeps }
    ensures journal { EventsAreAJournal }
{}

/// A step adds to the events of a conference what its answer says and nothing else, and leaves the
/// configuration of each conference that is opened. One that is refused, or that finds no message,
/// changes nothing.
pub fn step_adds()
    ensures events { StepAdds }
    ensures configuration { ConfigurationStays }
    ensures idle { IdleStays }
{}

/// Each journal of a configuration is the events of its own steps: the Open, then an attach for a
/// Join, a piece and a serve for a Message, a took for a Took, a leave for a Leave, an act for an act.
/// So what it calls for at a member, wherever it stands, is what a hub queues by these steps.
pub fn each_journal_is_run()
    ensures events { JournalsAreEvents }
    ensures configuration { JournalsAreOpened }
    ensures queued { JournalsAreQueued }
{}

/// Each journal is resumed by its own steps, in any world that hasn't its conference and behind all connections that
/// were attached there: its events are the journal, and its state is the floor machine's after it.
pub fn each_journal_is_resumed()
    ensures { JournalsAreResumed }
{}

/// A conference alone has the same events, its steps have the same answers, and each of its
/// arrivals has the number n.
pub fn conference_alone()
    ensures events { EventsAlone }
    ensures answers { AnswersAlone }
    ensures numbers { NumbersAlone }
{}

/// What steps queue to a connection is what the events of its conference call for, so that two
/// worlds that give it the same events queue it the same bytes.
pub fn two_worlds()
    ensures queued { QueuedIsCalledFor }
    ensures equal { TwoWorlds }
{}

/// Numbers of arrivals fit 64 bits: each conference has an id of 32 bits, and at most 2,000,000
/// events.
pub fn arrivals_fit()
    ensures step { StepNumbers }
    ensures fits { ArrivalsFit }
{}

/// The headline: isolation over all interleavings. Where two runs give a conference one
/// configuration and the same events, each of its connections was queued the same bytes, and they
/// are what that conference's floor machine alone calls for.
pub fn headline()
    ensures { Headline }
{}
