//! What a run gives.

ghost use Rattle.std.specs.Prelude.{◌≡◌};

use crate::step::Answer;
use floor_wire::Octets;
use std::marker::Model;

/// What was queued to one arrival.
#[derive(Debug, Drop)]
pub struct Queued {
    /// The arrival's number over all conferences.
    pub number: u64,
    /// Its conference.
    pub conference: u32,
    /// Its number within the conference.
    pub n: u32,
    /// All bytes that were ever queued to it.
    pub bytes: Octets,
}

/// What was queued, an entry per arrival.
#[derive(Debug, Drop)]
pub struct Queues {
    items: Vec<Queued>,
}

impl Model for Queues {
    ghost use Rattle.std.specs.Prelude.{List};
    ghost use Rattle.floor_hub.specs.declared.transcript.Queued.{Queued};

    ghost Value = { List Queued };

    ghost view = { λ q. q.items.items };
}

/// Answers in order.
#[derive(Debug, Drop)]
pub struct Answers {
    items: Vec<Answer>,
}

impl Model for Answers {
    ghost use Rattle.std.specs.Prelude.{List};
    ghost use Rattle.floor_hub.specs.declared.step.Answer.{Answer};

    ghost Value = { List Answer };

    ghost view = { λ a. a.items.items };
}

/// What a run gives.
#[derive(Debug, Drop)]
pub struct Transcript {
    /// An answer per step.
    pub answers: Answers,
    /// What was queued, an entry per arrival.
    pub queued: Queues,
}

impl Queues {
    /// The entries of a vector. Takes no memory.
    pub fn from_vec(items: Vec<Queued>) -> Queues
        ensures { result ≡ items.items }
    {
        Queues { items }
    }

    /// The entries, in order.
    pub fn as_slice(&self) -> &[Queued]
        ensures { result.now ≡ self.now }
    {
        self.items.as_slice()
    }
}

impl Answers {
    /// The answers of a vector. Takes no memory.
    pub fn from_vec(items: Vec<Answer>) -> Answers
        ensures { result ≡ items.items }
    {
        Answers { items }
    }

    /// The answers, in order.
    pub fn as_slice(&self) -> &[Answer]
        ensures { result.now ≡ self.now }
    {
        self.items.as_slice()
    }
}
