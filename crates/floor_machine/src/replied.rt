//! What a message is answered (RFC 8855, section 13).

ghost use Rattle.std.specs.Prelude.{◌≡◌, ◌∷◌, []};

use crate::tell::changed::SharedStatus;
use floor_message::{Head, Tell};
use std::alloc::Global;
use std::marker::Model;

/// The messages of an answer. The status of a floor request shares what is shown of the request.
/// Contracts see the messages.
#[derive(Debug, Drop)]
pub(crate) struct Messages {
    /// The status of a floor request, where it is the first.
    pub status: Option<SharedStatus>,
    /// All others.
    pub others: Vec<Tell>,
}

impl Model for Messages {
    ghost use Rattle.std.specs.Prelude.{List, ◌++◌};
    ghost use Rattle.floor_message.specs.declared.tell.Tell.{Tell};
    ghost use Rattle.floor_machine.specs.steps.Telling.{listed};

    ghost Value = { List Tell };

    ghost view = { λ m. listed m.status ++ m.others.items };
}

impl Messages {
    /// These messages. Takes no memory.
    pub(crate) fn of(tells: Vec<Tell>) -> Messages
        ensures { result ≡ tells.items }
    {
        Messages {
            status: None,
            others: tells,
        }
    }

    /// The status of a floor request. Takes no memory.
    pub(crate) fn of_status(alloc: Global, status: SharedStatus) -> Messages
        ensures { result ≡ status ∷ [] }
    {
        Messages {
            status: Some(status),
            others: Vec::new(alloc),
        }
    }
}

/// What a message is answered. Each message of the answer shows no more than a conference has.
#[derive(Debug, Drop)]
pub(crate) struct Replied {
    /// The number of the member that sent it, where one did.
    pub n: Option<u32>,
    /// The head of the first message.
    pub head: Head,
    /// The messages.
    pub tells: Messages,
}

impl Model for Replied {
    ghost use Rattle.std.specs.Prelude.{All};
    ghost use Rattle.floor_message.specs.Shown.{IsShown};
    ghost use Rattle.floor_machine.specs.steps.Outcomes.{Replied};

    ghost Value = { Replied };

    ghost view = { λ r. record {
      n = r.n;
      head = r.head;
      tells = r.tells;
    } };

    ghost invariant = { λ r. All IsShown r.tells };
}

impl Replied {
    ghost use Rattle.floor_machine.specs.steps.Telling.{is_to};

    /// Whether it is to the member with this number.
    pub(crate) fn is_to(&self, n: u32) -> bool
        ensures { result ≡ is_to n self.now }
    {
        match self.n {
            Some(sender) => sender == n,
            None => false,
        }
    }
}
