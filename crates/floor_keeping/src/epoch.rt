//! The epoch of the folder, as it is read in each turn: the number by which whoever gives the folder to another server
//! fences the one that had it.

ghost use Rattle.std.specs.Prelude.{◌≡◌, None};
ghost use Rattle.floor_keeping.specs.Epochs as spec;

use floor_keep::KeepFault;

/// For how long it is read again where it can't be, in microseconds: our choice.
pub const MAX_UNREAD_MICROS: u64 = 30_000_000;

/// After how long it is read again, in microseconds: our choice.
pub const READ_AGAIN_MICROS: u64 = 100_000;

/// What is known of the epoch in a turn.
#[derive(Clone, Copy, Debug, PartialEq, Eq)]
pub(crate) enum Reading {
    /// It wasn't read in this turn.
    Unread,
    /// The answer is awaited. It isn't known since this time.
    Asked(u64),
    /// It was read in this turn, and is ours.
    Ours,
    /// It couldn't be read since the first time, and is read again at the second.
    Waits(u64, u64),
    /// Nothing is done any more: it is another one, or couldn't be read for too long.
    Over(KeepFault),
}

/// The epoch of the folder.
#[derive(Clone, Copy, Debug, PartialEq, Eq)]
pub(crate) struct Epoch {
    /// The number that it has to be: as is said, else as it was when it was read first.
    pub ours: Option<u64>,
    pub reading: Reading,
}

impl Epoch {
    /// Nothing was read. The number has to be this one, where there is one.
    pub(crate) fn new(ours: Option<u64>) -> Epoch
        ensures value { result ≡ record { ours = ours; reading = Reading.Unread } }
    {
        Epoch {
            ours,
            reading: Reading::Unread,
        }
    }

    /// Whether it was read in this turn, and is ours.
    pub(crate) fn is_ours(self) -> bool
        ensures value { result ≡ spec.is_ours self.reading }
    {
        match self.reading {
            Reading::Ours => true,
            Reading::Unread | Reading::Asked(_) | Reading::Waits(_, _) | Reading::Over(_) => false,
        }
    }

    /// Whether nothing is done any more.
    pub(crate) fn is_over(self) -> bool
        ensures value { result ≡ spec.is_over self.reading }
    {
        match self.reading {
            Reading::Over(_) => true,
            Reading::Unread | Reading::Asked(_) | Reading::Ours | Reading::Waits(_, _) => false,
        }
    }

    /// Why nothing is done any more.
    pub(crate) fn fault(self) -> Option<KeepFault>
        ensures value { result ≡ spec.fault_of self.reading }
    {
        match self.reading {
            Reading::Over(cause) => Some(cause),
            Reading::Unread | Reading::Asked(_) | Reading::Ours | Reading::Waits(_, _) => None,
        }
    }

    /// When the time is wanted next.
    pub(crate) fn due(self) -> Option<u64>
        ensures value { result ≡ spec.due_of self.reading }
    {
        match self.reading {
            Reading::Asked(since) => Some(since.saturating_add(MAX_UNREAD_MICROS)),
            Reading::Waits(since, again) => {
                Some(again.min(since.saturating_add(MAX_UNREAD_MICROS)))
            }
            Reading::Unread | Reading::Ours | Reading::Over(_) => None,
        }
    }

    /// It is so late.
    pub(crate) fn passed(self, now: u64) -> Epoch
        ensures value { result ≡ spec.passed now self }
    {
        match self.reading {
            Reading::Asked(since) | Reading::Waits(since, _)
                if since.saturating_add(MAX_UNREAD_MICROS) <= now => {
                self.ended(KeepFault::CannotKeep)
            }
            Reading::Unread
            | Reading::Asked(_)
            | Reading::Ours
            | Reading::Waits(_, _)
            | Reading::Over(_) => self,
        }
    }

    /// Nothing is done any more.
    pub(crate) fn ended(self, cause: KeepFault) -> Epoch
        ensures value { result ≡ spec.ended cause self }
    {
        Epoch {
            reading: Reading::Over(cause),
            ..self
        }
    }

    /// Whether it is to be read.
    pub(crate) fn is_to_be_read(self, now: u64) -> bool
        ensures value { result ≡ spec.is_to_be_read now self.reading }
    {
        match self.reading {
            Reading::Unread => true,
            Reading::Waits(_, again) => again <= now,
            Reading::Asked(_) | Reading::Ours | Reading::Over(_) => false,
        }
    }

    /// Behind the asking.
    pub(crate) fn asked(self, now: u64) -> Epoch
        ensures value { result ≡ spec.asked now self }
    {
        match self.reading {
            Reading::Unread => Epoch {
                reading: Reading::Asked(now),
                ..self
            },
            Reading::Waits(since, _) => Epoch {
                reading: Reading::Asked(since),
                ..self
            },
            Reading::Asked(_) | Reading::Ours | Reading::Over(_) => self,
        }
    }

    /// It was read, or couldn't be.
    pub(crate) fn read(self, now: u64, number: Option<u64>) -> Epoch
        ensures value { result ≡ spec.read now number self }
    {
        match self.reading {
            Reading::Asked(since) => self.answered(now, number, since),
            Reading::Unread | Reading::Ours | Reading::Waits(_, _) | Reading::Over(_) => self,
        }
    }

    fn answered(self, now: u64, number: Option<u64>, since: u64) -> Epoch
        ensures value { result ≡ spec.answered now number since self }
    {
        match number {
            None => Epoch {
                reading: Reading::Waits(since, now.saturating_add(READ_AGAIN_MICROS)),
                ..self
            },
            Some(number) => self.compared(number),
        }
    }

    fn compared(self, number: u64) -> Epoch
        ensures value { result
            ≡ record { ours = spec.first_of self.ours number; reading = spec.compared self.ours number } }
    {
        match self.ours {
            None => Epoch {
                ours: Some(number),
                reading: Reading::Ours,
            },
            Some(ours) if number == ours => Epoch {
                reading: Reading::Ours,
                ..self
            },
            Some(_) => self.ended(KeepFault::Lost),
        }
    }

    /// The turn is over.
    pub(crate) fn rested(self) -> Epoch
        ensures value { result ≡ spec.rested self }
    {
        match self.reading {
            Reading::Ours => Epoch {
                reading: Reading::Unread,
                ..self
            },
            Reading::Unread | Reading::Asked(_) | Reading::Waits(_, _) | Reading::Over(_) => self,
        }
    }
}
