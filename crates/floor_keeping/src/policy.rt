//! How conferences are kept, and what became of a deed.

ghost use Rattle.std.specs.Prelude.{◌≡◌, if◌then◌else◌};
ghost use Rattle.floor_keeping.specs.State.{asks_in_turn, asks_the_disk, is_done, sync_time};

use floor_keep::Syncing;

/// How long what was appended waits for the disk where it is asked once a second, in microseconds.
pub const SYNC_MICROS: u64 = 1_000_000;

/// How conferences are kept.
#[derive(Clone, Copy, Debug, PartialEq, Eq)]
pub struct Policy {
    /// When the disk is asked for what was appended.
    pub syncing: Syncing,
    /// Whether a conference is broken off that can't be kept any more. Else it goes on unkept.
    pub or_stop: bool,
}

impl Policy {
    /// How many events are kept: so many where the disk is asked in each turn, else so many.
    pub(crate) fn kept(self, in_turn: usize, at_once: usize) -> usize
        ensures value { result ≡ (if asks_in_turn self.syncing then in_turn else at_once) }
    {
        match self.syncing {
            Syncing::Turn => in_turn,
            Syncing::Second | Syncing::Never => at_once,
        }
    }

    /// Whether the disk is asked at all.
    pub(crate) fn asks_the_disk(self) -> bool
        ensures value { result ≡ asks_the_disk self.syncing }
    {
        match self.syncing {
            Syncing::Second | Syncing::Turn => true,
            Syncing::Never => false,
        }
    }

    /// When the disk is to be asked for what was appended at this time, where it was to be asked so before.
    pub(crate) fn sync_time(self, before: Option<u64>, now: u64) -> Option<u64>
        ensures value { result ≡ sync_time self.syncing before now }
    {
        match self.syncing {
            Syncing::Second => match before {
                Some(time) => Some(time),
                None => Some(now.saturating_add(SYNC_MICROS)),
            },
            Syncing::Turn => Some(0),
            Syncing::Never => None,
        }
    }
}

/// What became of a deed.
#[derive(Clone, Copy, Debug, PartialEq, Eq)]
pub enum Outcome {
    /// All of it was done.
    Done,
    /// The system refused it, or did a part of it.
    Failed,
}

impl Outcome {
    /// Whether all was done.
    pub(crate) fn is_done(self) -> bool
        ensures value { result ≡ is_done self }
    {
        match self {
            Outcome::Done => true,
            Outcome::Failed => false,
        }
    }
}
