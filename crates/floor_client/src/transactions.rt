//! The numbers of a client's transactions (RFC 8855, section 8.1).

ghost use Rattle.std.specs.Prelude.{◌≡◌, [], MatchOption, OnOk, OnErr};
ghost use Rattle.floor_client.specs.Transactions as spec;

use std::alloc::{AllocError, Global};
use std::collections::BTreeSet;
use std::marker::Model;

/// The greatest Transaction ID: the header has 16 bits for it, and 0 stands in what the server
/// starts.
const MAX_TRANSACTION: u32 = 65_535;

/// The number that was chosen last, and the numbers of the transactions that are open: those that
/// wait for their response.
///
/// `next` and `is_open` read; `begin` and `end` change. A `begin` that finds no memory changes
/// nothing.
#[derive(Drop)]
pub struct Transactions {
    last: u16,
    open_numbers: BTreeSet<u16>,
}

impl Model for Transactions {
    ghost use Rattle.floor_client.specs.Transactions.{Transactions};

    ghost Value = { Transactions };

    ghost view = { λ t. record { last = t.last; open_numbers = t.open_numbers.keys } };

    ghost use Rattle.std.specs.Ordering.{nat_cmp};
    ghost use Rattle.std.specs.BTreeSet.{IsOrdered};

    ghost invariant = { λ t. IsOrdered nat_cmp t.open_numbers };
}

impl Transactions {
    /// No open transaction, and none before. Takes no memory.
    pub fn new(alloc: Global) -> Transactions
        ensures { result ≡ record { last = 0; open_numbers = [] } }
    {
        Transactions {
            last: 0,
            open_numbers: BTreeSet::new(alloc),
        }
    }

    /// Whether the transaction is open.
    pub fn is_open(&self, number: u16) -> bool
        ensures { result ≡ spec.is_open self.now.open_numbers number }
    {
        self.open_numbers.contains(&number)
    }

    /// The next number that isn't open, after the one that was chosen last: 1 comes after the
    /// greatest.
    pub fn next(&self) -> Option<u16>
        ensures { MatchOption result (spec.IsFull self.now) (spec.IsNext self.now) }
    {
        let last = u32::from(self.last);
        for places in 0..MAX_TRANSACTION {
            let number = ((last + places) % MAX_TRANSACTION + 1) as u16;
            if !self.is_open(number) {
                return Some(number);
            }
        }
        None
    }

    /// The number is chosen, and its transaction is open.
    pub fn begin(&mut self, number: u16) -> Result<(), AllocError>
        ensures next { OnOk result (self.new ≡ spec.opened self.old number) }
        ensures left { OnErr result (self.new ≡ self.old) }
    {
        self.open_numbers.insert(number)?;
        self.last = number;
        Ok(())
    }

    /// The transaction isn't open any more.
    pub fn end(&mut self, number: u16)
        ensures { self.new ≡ spec.closed self.old number }
    {
        self.open_numbers.remove(&number);
    }
}
