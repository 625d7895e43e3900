//! What the numbers say.

ghost use Rattle.floor_ffi.specs.Laws.{NumbersTell};

/// Two outcomes have one number only where one of them is a configuration's want of memory, and the
/// other the hub's.
pub fn numbers_tell_outcomes()
    ensures { NumbersTell }
{}
