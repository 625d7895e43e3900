//! The fault that a refusal of the board is where it ends the server.

ghost use Rattle.std.specs.Prelude.{◌≡◌};
ghost use Rattle.floor_server.specs.Faults.{fault_of_keeping, fault_of_opening, fault_of_stop};

use floor_console::{BoardRefusal, StopRefusal};
use floor_keep::KeepFault;
use floor_listen::ServerFault;

/// Why the server ends whose first conferences can't be opened.
pub fn fault_of_opening(refusal: BoardRefusal) -> ServerFault
    ensures value { result ≡ fault_of_opening refusal }
{
    match refusal {
        BoardRefusal::CannotRead => ServerFault::CannotRead,
        BoardRefusal::ByConfiguration(fault) => ServerFault::ByConfiguration(fault),
        BoardRefusal::CannotListen => ServerFault::CannotListen,
        BoardRefusal::ByRoom(_) => ServerFault::Broken,
        // A configuration's numbers differ, and nothing was opened before it.
        BoardRefusal::NoConference | BoardRefusal::Used | BoardRefusal::Memory => {
            ServerFault::Memory
        }
    }
}

/// Why the server ends whose stop finds something wrong.
pub fn fault_of_stop(refusal: StopRefusal) -> ServerFault
    ensures value { result ≡ fault_of_stop refusal }
{
    match refusal {
        StopRefusal::Broken { conference: _ } => ServerFault::Broken,
        StopRefusal::Mismatch {
            conference: _,
            n: _,
        } => ServerFault::Mismatch,
    }
}

/// Why the server ends that can't keep its conferences.
pub fn fault_of_keeping(fault: KeepFault) -> ServerFault
    ensures value { result ≡ fault_of_keeping fault }
{
    match fault {
        KeepFault::CannotKeep | KeepFault::Descriptors => ServerFault::CannotKeep,
        KeepFault::Lost => ServerFault::Lost,
        KeepFault::Memory => ServerFault::Memory,
    }
}
