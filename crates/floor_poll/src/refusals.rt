//! What a line is answered whom the hub refuses.

ghost use Rattle.std.specs.Prelude.{◌≡◌};
ghost use Rattle.floor_poll.specs.Refusals.{board_refusal, broken, ended, out_of_memory, refusal_of, refusal_of_act};

use floor_console::{BoardRefusal, Refusal, RoomRefusal};
use floor_control::ControlRefusal;
use floor_loop::HubRefusal;

/// What is answered where the hub refuses so.
pub fn refusal_of(refusal: HubRefusal) -> ControlRefusal
    ensures value { result ≡ refusal_of refusal }
{
    match refusal {
        HubRefusal::Used => ControlRefusal::ByBoard(BoardRefusal::Used),
        // No line asks for what a connection or a message that is said is refused by.
        HubRefusal::NoConference | HubRefusal::NoConnection | HubRefusal::BadMessage => {
            ControlRefusal::ByBoard(BoardRefusal::NoConference)
        }
        HubRefusal::Forgotten => ControlRefusal::Forgotten,
        HubRefusal::Running => ControlRefusal::Running,
        HubRefusal::Memory => ControlRefusal::ByBoard(BoardRefusal::Memory),
        HubRefusal::ByRoom(refusal) => ControlRefusal::ByBoard(BoardRefusal::ByRoom(refusal)),
    }
}

/// What is answered where the hub refuses to act upon a conference: a forgotten one is a closed one.
pub fn refusal_of_act(refusal: HubRefusal) -> ControlRefusal
    ensures value { result ≡ refusal_of_act refusal }
{
    match refusal {
        HubRefusal::Forgotten => ended(),
        other => refusal_of(other),
    }
}

/// What a closed conference refuses each act by.
pub fn ended() -> ControlRefusal
    ensures value { result ≡ ended }
{
    ControlRefusal::ByBoard(BoardRefusal::ByRoom(RoomRefusal::Refused(Refusal::Ended)))
}

/// What a conference that is broken off refuses each act by.
pub fn broken() -> ControlRefusal
    ensures value { result ≡ broken }
{
    ControlRefusal::ByBoard(BoardRefusal::ByRoom(RoomRefusal::Refused(Refusal::Broken)))
}

/// What is answered where memory was refused.
pub fn out_of_memory() -> ControlRefusal
    ensures value { result ≡ out_of_memory }
{
    ControlRefusal::ByBoard(BoardRefusal::Memory)
}

/// What the administrator of a board is answered where a line of the control socket is so. A board forgets no
/// conference.
pub fn board_refusal(refusal: ControlRefusal) -> BoardRefusal
    ensures value { result ≡ board_refusal refusal }
{
    match refusal {
        ControlRefusal::ByBoard(refusal) => refusal,
        _ => BoardRefusal::NoConference,
    }
}
