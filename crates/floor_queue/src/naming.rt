//! The numbers of ongoing floor requests by the floors that they name, of which the lines of these
//! floors alone are looked at.

ghost use Rattle.std.specs.Prelude.{◌≡◌, ◌==◌, ◌||◌, ℕ, IfOk, IsTrue, OnOk};
ghost use Rattle.std.specs.List.{list_any};
ghost use Rattle.floor_queue.specs.steps.Lines.{is_lined};
ghost use Rattle.floor_queue.specs.steps.Numbers.{ascend, is_in};

use crate::index::lines::Lines;
use crate::index::numbers::AscendingNumbers;
use crate::index::rank::Rank;
use std::alloc::{AllocError, Global};

/// These numbers and those of the requests that name one of the floors, ascending.
pub(crate) fn numbers_with(
    alloc: Global,
    lines: &Lines,
    floors: &[u16],
    others: &[u16],
) -> Result<Vec<u16>, AllocError>
    ensures numbers { IfOk result (λ numbers. (k : ℕ) → is_in k numbers.items
        ≡ (is_in k others.now || list_any (is_lined lines.now k) floors.now)) }
    ensures ascending { IfOk result (λ numbers. IsTrue (ascend numbers.items)) }
{
    let mut numbers = AscendingNumbers::new(alloc);
    add_numbers(others, &mut numbers)?;
    add_floors(lines, floors, &mut numbers)?;
    Ok(numbers.into_vec())
}

/// Adds these numbers.
fn add_numbers(others: &[u16], numbers: &mut AscendingNumbers) -> Result<(), AllocError>
    ensures { OnOk result ((k : ℕ) → is_in k numbers.new
        ≡ (is_in k numbers.old || is_in k others.now)) }
{
    for number in others {
        numbers.add(*number)?;
    }
    Ok(())
}

/// Adds the numbers of the requests that name one of the floors.
fn add_floors(
    lines: &Lines,
    floors: &[u16],
    numbers: &mut AscendingNumbers,
) -> Result<(), AllocError>
    ensures { OnOk result ((k : ℕ) → is_in k numbers.new
        ≡ (is_in k numbers.old || list_any (is_lined lines.now k) floors.now)) }
{
    for floor in floors {
        add_floor(lines, *floor, numbers)?;
    }
    Ok(())
}

/// Adds the numbers of the requests that name the floor.
fn add_floor(lines: &Lines, floor: u16, numbers: &mut AscendingNumbers) -> Result<(), AllocError>
    ensures { OnOk result ((k : ℕ) → is_in k numbers.new
        ≡ (is_in k numbers.old || is_lined lines.now k floor)) }
{
    match lines.of(floor) {
        Some(line) => add_ranks(line.ranks(), numbers),
        None => Ok(()),
    }
}

/// Adds the numbers of the ranks.
fn add_ranks(ranks: &[Rank], numbers: &mut AscendingNumbers) -> Result<(), AllocError>
    ensures { OnOk result ((k : ℕ) → is_in k numbers.new
        ≡ (is_in k numbers.old || list_any (λ x. x.number == k) ranks.now)) }
{
    for rank in ranks {
        numbers.add(rank.number)?;
    }
    Ok(())
}
