//! The verdicts of a ChairAction (RFC 8855, section 5.3.9).

ghost use Rattle.std.specs.Prelude.{◌≡◌};

use std::marker::Model;

/// What a chair decides on a floor of a floor request (RFC 8855, section 5.2.5).
#[derive(Clone, Copy, Debug, PartialEq, Eq)]
pub enum Verdict {
    Accepted,
    Granted,
    Denied,
    Revoked,
}

/// Floors, each with a chair's verdict on it.
#[derive(Debug, Drop)]
pub struct Verdicts {
    items: Vec<(u16, Verdict)>,
}

impl Model for Verdicts {
    ghost use Rattle.std.specs.Prelude.{ℕ, List};
    ghost use Rattle.floor_message.specs.declared.verdicts.Verdict.{Verdict};

    ghost Value = { List (ℕ × Verdict) };

    ghost view = { λ v. v.items.items };
}

impl Verdicts {
    /// The floors and verdicts of a vector. Takes no memory.
    pub fn from_vec(items: Vec<(u16, Verdict)>) -> Verdicts
        ensures { result ≡ items.items }
    {
        Verdicts { items }
    }

    /// The floors and verdicts, in order.
    pub fn as_slice(&self) -> &[(u16, Verdict)]
        ensures { result.now ≡ self.now }
    {
        self.items.as_slice()
    }
}
