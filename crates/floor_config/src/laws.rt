//! What the words of the contracts mean.

ghost use Rattle.std.specs.Prelude.{List, ℕ};
ghost use Rattle.floor_config.specs.Doubles.{FindsDoubles};
ghost use Rattle.floor_config.specs.Building.{KeptIsBuilt};
ghost use Rattle.floor_config.specs.Parts.{ReadIsBuilt};

/// A double is found exactly where one number stands at two places.
pub fn doubles_are_found()
    ensures { (numbers : List ℕ) → FindsDoubles numbers }
{}

/// A table whose values have their kinds, and whose numbers fit their fields, is read as what is
/// built of its parts: both give one configuration, or the same first fault.
pub fn read_is_built()
    ensures { ReadIsBuilt }
{}

/// Each configuration that keeps the limits is built of its own parts, as it is.
pub fn kept_is_built()
    ensures { KeptIsBuilt }
{}
