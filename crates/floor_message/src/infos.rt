//! Floor requests as they are shown (RFC 8855, section 5.2.15).

ghost use Rattle.std.specs.Prelude.{◌≡◌};

use crate::information::Info;
use std::marker::Model;

/// Floor requests as shown, in order.
#[derive(Debug, Drop)]
pub struct Infos {
    items: Vec<Info>,
}

impl Model for Infos {
    ghost use Rattle.std.specs.Prelude.{List};
    ghost use Rattle.floor_message.specs.declared.information.Info.{Info};

    ghost Value = { List Info };

    ghost view = { λ i. i.items.items };
}

impl Infos {
    /// The floor requests of a vector. Takes no memory.
    pub fn from_vec(items: Vec<Info>) -> Infos
        ensures { result ≡ items.items }
    {
        Infos { items }
    }

    /// The floor requests, in order.
    pub fn as_slice(&self) -> &[Info]
        ensures { result.now ≡ self.now }
    {
        self.items.as_slice()
    }
}
