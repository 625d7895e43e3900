//! What a console's lines are about.

use floor_config::{ConfigFault, Floor, Text, User};
use floor_room::{RoomRefusal, Status};
use std::alloc::AllocError;

/// Why a board does not do what a line asks for.
#[derive(Clone, Copy, Debug, PartialEq, Eq)]
pub enum BoardRefusal {
    /// No conference has the number.
    NoConference,
    /// The conference refuses it.
    ByRoom(RoomRefusal),
    /// The file can't be read, or isn't UTF-8.
    CannotRead,
    /// The configuration is refused.
    ByConfiguration(ConfigFault),
    /// A port can't be had.
    CannotListen,
    /// The conference's number is in use, or was.
    Used,
    /// Memory was refused.
    Memory,
}

impl BoardRefusal {
    ghost use Rattle.std.specs.Prelude.{◌≡◌};
    ghost use Rattle.floor_console.specs.Names.{is_memory, name_of_refusal};

    /// The name of the variant, or of the refusal that it wraps. Takes no memory.
    pub fn name(&self) -> &'static str
        ensures value { result.now ≡ name_of_refusal self.now }
    {
        match self {
            BoardRefusal::NoConference => "NoConference",
            BoardRefusal::ByRoom(refusal) => refusal.name(),
            BoardRefusal::CannotRead => "CannotRead",
            BoardRefusal::ByConfiguration(fault) => fault.name(),
            BoardRefusal::CannotListen => "CannotListen",
            BoardRefusal::Used => "Used",
            BoardRefusal::Memory => "Memory",
        }
    }

    /// Whether it is want of memory, in whichever layer. Takes no memory.
    pub fn is_memory(&self) -> bool
        ensures value { result ≡ is_memory self.now }
    {
        match self {
            BoardRefusal::Memory | BoardRefusal::ByConfiguration(ConfigFault::Memory) => true,
            BoardRefusal::ByRoom(refusal) => refusal.is_memory(),
            _ => false,
        }
    }
}

impl From<AllocError> for BoardRefusal {
    ghost use Rattle.std.specs.Prelude.{◌≡◌};
    ghost use Rattle.floor_console.specs.declared.board.BoardRefusal.TheVariants.{Memory};

    ghost from_gives = { λ _ e. e ≡ Memory };

    fn from(_e: AllocError) -> BoardRefusal {
        BoardRefusal::Memory
    }
}

/// What a board that stopped looked after.
#[derive(Clone, Copy, Debug, PartialEq, Eq)]
pub struct Stopped {
    /// How many seats were ever made.
    pub seats: usize,
    /// How many events there were, over all conferences.
    pub events: u128,
}

/// What a board that stopped found wrong.
#[derive(Clone, Copy, Debug, PartialEq, Eq)]
pub enum StopRefusal {
    /// The conference is broken.
    Broken { conference: u32 },
    /// What the member n of the conference sent isn't what the conference's journal has.
    Mismatch { conference: u32, n: u32 },
}

/// The conferences that a console administers.
///
/// Its ghost members say which answers each call may give, and what becomes of the board: `opens`
/// for `open`, and so on. A board that other threads share may give any.
pub trait Board {
    ghost use Rattle.std.specs.Prelude.{List, ℕ, Option, Result};
    ghost use Rattle.floor_config.specs.declared.floors.Floor.{Floor};
    ghost use Rattle.floor_config.specs.declared.users.User.{User};
    ghost use Rattle.floor_room.specs.declared.status.Status.{Status};
    ghost use Rattle.floor_console.specs.declared.board.BoardRefusal.{BoardRefusal};
    ghost use Rattle.floor_console.specs.declared.board.StopRefusal.{StopRefusal};
    ghost use Rattle.floor_console.specs.declared.board.Stopped.{Stopped};

    ghost opens: { Self → List ℕ → Result ℕ BoardRefusal → Self → Type 0 };

    ghost closes: { Self → ℕ → Result (Unit {0}) BoardRefusal → Self → Type 0 };

    ghost revokes: { Self → ℕ → ℕ → Result (Unit {0}) BoardRefusal → Self → Type 0 };

    ghost adds_user: { Self → ℕ → User → Result (Unit {0}) BoardRefusal → Self → Type 0 };

    ghost adds_floor: { Self → ℕ → Floor → Result (Unit {0}) BoardRefusal → Self → Type 0 };

    ghost sets_chair: { Self → ℕ → ℕ → Option ℕ → Result (Unit {0}) BoardRefusal → Self → Type 0 };

    ghost stands: { Self → ℕ → Result Status BoardRefusal → Self → Type 0 };

    ghost lists: { Self → ℕ → Result (List ℕ) BoardRefusal → Self → Type 0 };

    ghost stops: { Self → Result Stopped StopRefusal → Self → Type 0 };

    /// Opens the conferences of the configuration that the file has, and tells how many.
    fn open(&mut self, path: &str) -> Result<usize, BoardRefusal>
        ensures { opens self.old path.now result self.new };

    /// Closes a conference.
    fn close(&mut self, conference: u32) -> Result<(), BoardRefusal>
        ensures { closes self.old conference result self.new };

    /// Revokes a floor request of a conference.
    fn revoke(&mut self, conference: u32, request: u16) -> Result<(), BoardRefusal>
        ensures { revokes self.old conference request result self.new };

    /// Adds a user to a conference. Where the user has a port, it is had before the user is added,
    /// and given back where that is refused.
    fn add_user(&mut self, conference: u32, user: User) -> Result<(), BoardRefusal>
        ensures { adds_user self.old conference user result self.new };

    /// Adds a floor to a conference.
    fn add_floor(&mut self, conference: u32, floor: Floor) -> Result<(), BoardRefusal>
        ensures { adds_floor self.old conference floor result self.new };

    /// Gives a floor of a conference this chair, or none.
    fn set_chair(
        &mut self,
        conference: u32,
        floor: u16,
        chair: Option<u16>,
    ) -> Result<(), BoardRefusal>
        ensures { sets_chair self.old conference floor chair result self.new };

    /// Tells how a conference stands.
    fn status(&mut self, conference: u32) -> Result<Status, BoardRefusal>
        ensures { stands self.old conference result self.new };

    /// Tells what happened in a conference, as the journal's text.
    fn journal(&mut self, conference: u32) -> Result<Text, BoardRefusal>
        ensures { lists self.old conference result self.new };

    /// Stops all.
    fn stop(&mut self) -> Result<Stopped, StopRefusal>
        ensures { stops self.old result self.new };
}
