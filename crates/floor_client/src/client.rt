//! A client of a floor control server: what it asks, and what it hears (RFC 8855, section 8).

ghost use Rattle.std.specs.Prelude.{◌≡◌, ◌↔◌, [], IfOk, IsErrOf, OnErr};
ghost use Rattle.floor_message.specs.Fits.{AskFits};
ghost use Rattle.floor_message.specs.Tell.{tell};
ghost use Rattle.floor_client.specs.Client as spec;
ghost use Rattle.floor_client.specs.Transactions.{IsFull};
ghost use Rattle.floor_client.specs.Names.{name_of};
ghost use Rattle.floor_client.specs.declared.client.AskRefusal.TheVariants.{Memory};

use crate::heard::Heard;
use crate::transactions::Transactions;
use floor_message::{Ask, Frame, Head, Tell, TellFault, read_tell, write_ask};
use std::alloc::{AllocError, AllocFailed, Global};
use std::marker::Model;

/// Why a client asks nothing.
#[derive(Clone, Copy, Debug, PartialEq, Eq)]
pub enum AskRefusal {
    /// All Transaction IDs from 1 to 65,535 are open.
    NoTransaction,
    /// Memory was refused.
    Memory,
}

impl AskRefusal {
    /// Its name.
    pub fn name(self) -> &'static str
        ensures { result.now ≡ name_of self }
    {
        match self {
            AskRefusal::NoTransaction => "NoTransaction",
            AskRefusal::Memory => "Memory",
        }
    }
}

impl From<AllocError> for AskRefusal {
    ghost from_gives = { λ _ e. e ≡ Memory };

    fn from(_e: AllocError) -> AskRefusal {
        AskRefusal::Memory
    }
}

impl<T: Drop> From<AllocFailed<T>> for AskRefusal {
    ghost from_gives = { λ _ e. e ≡ Memory };

    fn from(_e: AllocFailed<T>) -> AskRefusal {
        AskRefusal::Memory
    }
}

/// A user of a conference, as a client of its server.
///
/// [`Client::ask`] makes the frame of a question under a number of its own, which is open until
/// [`Client::heard`] is given its response. A call that is refused leaves the client as it was.
#[derive(Drop)]
pub struct Client {
    alloc: Global,
    conference: u32,
    user: u16,
    transactions: Transactions,
}

impl Model for Client {
    ghost use Rattle.floor_client.specs.Client.{Client};

    ghost Value = { Client };

    ghost view = { λ c. record {
      conference = c.conference;
      user = c.user;
      transactions = c.transactions;
    } };
}

impl Client {
    /// A client that has asked nothing. Takes no memory.
    pub fn new(alloc: Global, conference: u32, user: u16) -> Client
        ensures { result ≡ record {
          conference = conference;
          user = user;
          transactions = record { last = 0; open_numbers = [] };
        } }
    {
        Client {
            alloc,
            conference,
            user,
            transactions: Transactions::new(alloc),
        }
    }

    /// The frame that asks it, under the next number, which is open from then on (section 8.1). Refused
    /// by `NoTransaction` where all numbers from 1 to 65,535 are open, else by `Memory`; nothing has
    /// changed then, and no number is spent.
    pub fn ask(&mut self, ask: Ask) -> Result<Frame, AskRefusal>
        requires fits { AskFits ask }
        ensures took { IfOk result (λ frame. spec.Asks self.old ask frame self.new) }
        ensures refused { IsErrOf result AskRefusal.NoTransaction ↔ IsFull self.old.transactions }
        ensures left { OnErr result (self.new ≡ self.old) }
    {
        let Some(transaction) = self.transactions.next() else {
            return Err(AskRefusal::NoTransaction);
        };
        let head = Head {
            conference: self.conference,
            transaction,
            user: self.user,
        };
        let frame = write_ask(self.alloc, &head, &ask)?;
        self.transactions.begin(transaction)?;
        Ok(frame)
    }

    /// What a message from the server is to the client; a response ends its transaction.
    pub fn heard(&mut self, frame: &Frame) -> Result<Heard, AllocError>
        ensures took { IfOk result (λ heard. spec.Hears self.old (tell frame.now) heard self.new) }
        ensures left { OnErr result (self.new ≡ self.old) }
    {
        match read_tell(self.alloc, frame) {
            Ok((head, tell)) => Ok(self.told(&head, tell)),
            Err(TellFault::BadMessage) => Ok(Heard::BadMessage),
            Err(TellFault::Memory) => Err(AllocError),
        }
    }

    fn told(&mut self, head: &Head, tell: Tell) -> Heard
        ensures value { result ≡ spec.heard_of self.old (Some (head.now, tell)) }
        ensures next { self.new ≡ spec.hearing self.old result }
    {
        if head.conference != self.conference || head.user != self.user {
            return Heard::Stray;
        }
        if head.transaction == 0 {
            return Heard::Notice(tell);
        }
        if !self.transactions.is_open(head.transaction) {
            return Heard::Stray;
        }
        self.transactions.end(head.transaction);
        Heard::Reply(head.transaction, tell)
    }
}
