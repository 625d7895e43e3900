//! Laws of what is watched. Each is the contract of a function that does nothing.

ghost use Rattle.floor_control.specs.WatchedRun.{RunIsWatched};
ghost use Rattle.floor_control.specs.Watching.{NothingShown, WatchedBoth, WatchedOn};

/// What is watched from a place on is the rest of what is watched from the first: whoever was away and
/// goes on behind the last place that ended has lost nothing, and has nothing twice.
pub fn watched_goes_on()
    ensures first { WatchedOn }
    ensures both { WatchedBoth }
{}

/// An event that shows nothing has no line, not even the end of its place.
pub fn nothing_shown_has_no_line()
    ensures { NothingShown }
{}

/// A worked run: what is watched of two users who ask for one floor, one after another. A Hello between
/// shows nothing.
pub fn a_run_is_watched()
    ensures { RunIsWatched }
{}
