//! Numbers of requests in ascending order, each once.

ghost use Rattle.std.specs.Prelude.{◌≡◌, ◌==◌, [], OnOk, IsTrue, false, nat_lt, not};
ghost use Rattle.std.specs.List.{position_or_len, slice_get};
ghost use Rattle.std.specs.Option.{option_map_or};
ghost use Rattle.floor_queue.specs.steps.Numbers.{ascend, with_number};

use std::alloc::{AllocError, Global};
use std::marker::Model;

/// Numbers of requests in ascending order, each once. It has no memory while there are none.
#[derive(Debug, Drop)]
pub(crate) struct AscendingNumbers {
    numbers: Vec<u16>,
}

impl Model for AscendingNumbers {
    ghost use Rattle.std.specs.Prelude.{ℕ, IsTrue, List};
    ghost use Rattle.floor_queue.specs.steps.Numbers.{ascend};

    ghost Value = { List ℕ };

    ghost view = { λ n. n.numbers.items };

    ghost invariant = { λ n. IsTrue (ascend n.numbers.items) };
}

impl AscendingNumbers {
    /// No number yet. Takes no memory.
    pub(crate) fn new(alloc: Global) -> AscendingNumbers
        ensures { result ≡ [] }
    {
        AscendingNumbers {
            numbers: Vec::new(alloc),
        }
    }

    /// Puts the number among the others, unless it is one of them.
    pub(crate) fn add(&mut self, number: u16) -> Result<(), AllocError>
        ensures next { OnOk result (self.new ≡ with_number number self.old) }
    {
        let place = self.first_from(number);
        if !stands_at(&self.numbers, place, number) {
            self.numbers.insert(place, number)?;
        }
        Ok(())
    }

    /// The numbers. Takes no memory.
    pub(crate) fn into_vec(self) -> Vec<u16>
        ensures value { result.items ≡ self }
        ensures kept { IsTrue (ascend result.items) }
    {
        self.numbers
    }

    /// The place of the first number that isn't below this one.
    fn first_from(&self, number: u16) -> usize
        ensures { result ≡ position_or_len (λ n. not (nat_lt n number)) self.now }
    {
        self.numbers.partition_point(|n| *n < number)
    }
}

/// Whether the number stands at the place.
fn stands_at(numbers: &[u16], place: usize, number: u16) -> bool
    ensures { result ≡ option_map_or (λ n. n == number) (slice_get numbers.now place) false }
{
    match number_at(numbers, place) {
        Some(found) => found == number,
        None => false,
    }
}

fn number_at(numbers: &[u16], place: usize) -> Option<u16>
    ensures { result ≡ slice_get numbers.now place }
{
    numbers.get(place).copied()
}
