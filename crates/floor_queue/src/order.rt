//! What the order of ongoing floor requests goes by: rooms, chairs and their words (RFC 8855, section
//! 13.1.1, leaves the order to the server).

ghost use Rattle.std.specs.Prelude.{◌≡◌, find, not, ◌&&◌, ◌||◌, ◌==◌};
ghost use Rattle.std.specs.List.{list_any, list_all};
ghost use Rattle.std.specs.Option.{option_copied};
ghost use Rattle.floor_queue.specs.Requested.{is_granting};
ghost use Rattle.floor_queue.specs.Order.{room_of, is_chaired, is_express};

use crate::request::Request;
use crate::requested_floor::{RequestedFloor, Word};
use floor_config::Floor;

/// How many requests may hold the floor at one time.
pub(crate) fn room_of(floors: &[Floor], floor: u16) -> usize
    ensures { result ≡ room_of floors.now floor }
{
    match find_floor(floors, floor) {
        Some(found) => usize::from(found.room),
        None => 0,
    }
}

fn find_floor(floors: &[Floor], floor: u16) -> Option<&Floor>
    ensures { option_copied result ≡ find (λ f. f.id == floor) floors.now }
{
    floors.iter().find(|f| f.id == floor)
}

/// Whether the floor has a chair.
pub(crate) fn is_chaired(floors: &[Floor], floor: u16) -> bool
    ensures { result ≡ is_chaired floors.now floor }
{
    floors.iter().any(|f| f.id == floor && f.chair.is_some())
}

/// Whether the chair's last word was Granted.
fn is_granting(word: Option<Word>) -> bool
    ensures { result ≡ is_granting word }
{
    match word {
        Some(Word::Granted) => true,
        Some(Word::Accepted) => false,
        None => false,
    }
}

/// Whether one of the floors has a chair.
fn has_chaired(floors: &[Floor], requested: &[RequestedFloor]) -> bool
    ensures { result ≡ list_any (λ f. is_chaired floors.now f.floor) requested.now }
{
    requested.iter().any(|f| is_chaired(floors, f.floor))
}

/// Whether the floor has no chair, or one whose last word was Granted.
fn is_urged(floors: &[Floor], requested: &RequestedFloor) -> bool
    ensures { result
        ≡ (not (is_chaired floors.now requested.now.floor) || is_granting requested.now.word) }
{
    !is_chaired(floors, requested.floor) || is_granting(requested.word)
}

/// Whether each chair's last word was Granted.
fn all_urged(floors: &[Floor], requested: &[RequestedFloor]) -> bool
    ensures { result ≡ list_all
        (λ f. not (is_chaired floors.now f.floor) || is_granting f.word) requested.now }
{
    requested.iter().all(|f| is_urged(floors, f))
}

/// Whether the request goes before those that no chair granted.
pub(crate) fn is_express(floors: &[Floor], request: &Request) -> bool
    ensures { result ≡ is_express floors.now request.now }
{
    let requested = request.floors.as_slice();
    has_chaired(floors, requested) && all_urged(floors, requested)
}
