//! The floors of a floor request as they are shown (RFC 8855, section 5.2.17).

ghost use Rattle.std.specs.Prelude.{◌≡◌, OnOk};

use std::alloc::AllocError;
use std::marker::Model;

/// Floors, each with its status and queue position where they are shown.
#[derive(Debug, Drop)]
pub struct FloorStatuses {
    items: Vec<(u16, Option<(u8, u8)>)>,
}

impl Model for FloorStatuses {
    ghost use Rattle.std.specs.Prelude.{ℕ, List, Option};

    ghost Value = { List (ℕ × Option (ℕ × ℕ)) };

    ghost view = { λ f. f.items.items };
}

impl FloorStatuses {
    /// The floors and statuses of a vector. Takes no memory.
    pub fn from_vec(items: Vec<(u16, Option<(u8, u8)>)>) -> FloorStatuses
        ensures { result ≡ items.items }
    {
        FloorStatuses { items }
    }

    /// The floors and statuses, in order.
    pub fn as_slice(&self) -> &[(u16, Option<(u8, u8)>)]
        ensures { result.now ≡ self.now }
    {
        self.items.as_slice()
    }

    /// Puts these floors and statuses in the stead of those that are there. Takes no memory where
    /// they are no more. After an error what is there is of no more use.
    pub fn assign(&mut self, items: &[(u16, Option<(u8, u8)>)]) -> Result<(), AllocError>
        ensures { OnOk result (self.new ≡ items.now) }
    {
        self.items.clear();
        self.items.extend_from_slice(items)
    }
}
