//! The rule of the queue: what was put is what was taken, and then what the queue holds.

use crossbeam_queue::protocol::{Join, Lesson, Outcome, Protocol, Split};
use crossbeam_queue::{RuledSegQueue, SegPass};
use floor_machine::Parcel;
use std::collections::LinkedList;

// What a pass may do, what it has put and what it has taken. No value of it is made.
pub struct Log {
    pub puts: bool,
    pub takes: bool,
    pub put: LinkedList<Parcel>,
    pub taken: LinkedList<Parcel>,
}

pub struct InOrder;

impl Protocol<Parcel, Log> for InOrder {
    ghost use Rattle.std.specs.Prelude.{true, []};
    ghost use Rattle.floor_outbox.specs.Rule.{log, Relayed};

    ghost holds = { Relayed };

    ghost first = { log true true [] [] };
}

pub struct Roles;

impl Split<Log> for Roles {
    ghost use Rattle.std.specs.Prelude.{true, false, []};
    ghost use Rattle.floor_outbox.specs.Rule.{log};

    ghost left = { λ v. log true false v.put [] };

    ghost right = { λ v. log false true [] v.taken };
}

impl Join<Log> for Roles {
    ghost use Rattle.std.specs.Prelude.{true, false, []};
    ghost use Rattle.floor_outbox.specs.Rule.{log};

    ghost both = { λ v w. log true true v.put w.taken };

    ghost spent = { log false false [] [] };
}

pub struct Puts;

impl Outcome<Parcel, Log> for Puts {
    ghost use Rattle.std.specs.Prelude.{◌≡◌, [], ◌∷◌, ◌++◌};
    ghost use Rattle.floor_outbox.specs.Rule.{log};

    ghost then = { λ v x w. w ≡ log v.puts v.takes (v.put ++ x ∷ []) v.taken };
}

pub struct Takes;

impl Outcome<Parcel, Log> for Takes {
    ghost use Rattle.std.specs.Prelude.{◌≡◌, [], ◌∷◌, ◌++◌};
    ghost use Rattle.floor_outbox.specs.Rule.{log};

    ghost then = { λ v x w. w ≡ log v.puts v.takes v.put (v.taken ++ x ∷ []) };
}

// A taker that finds nothing learns nothing that it can name.
impl Lesson<Parcel, Log> for Takes {
    ghost fact = { λ v items. Unit {0} };
}

pub struct Drains;

impl Outcome<Parcel, Log> for Drains {
    ghost use Rattle.floor_outbox.specs.Rule.{Drained};

    ghost then = { Drained };
}

impl Lesson<Parcel, Log> for Drains {
    ghost use Rattle.floor_outbox.specs.Rule.{Counted};

    ghost fact = { Counted };
}

pub type Queue = RuledSegQueue<Parcel, Log, InOrder>;

pub type Pass = SegPass<Parcel, Log>;
