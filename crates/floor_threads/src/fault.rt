//! What a stop has found.

ghost use Rattle.std.specs.Prelude.{◌≡◌};
ghost use Rattle.floor_threads.specs.Faults.{stopped};

use floor_console::{StopRefusal, Stopped};
use floor_serve::{FinishFault, Report};

/// What a stop has found, as the administrator is told.
pub fn stopped(found: Result<Report, FinishFault>) -> Result<Stopped, StopRefusal>
    ensures value { result ≡ stopped found }
{
    match found {
        Ok(Report { seats, events }) => Ok(Stopped { seats, events }),
        Err(FinishFault::Broken { conference }) => Err(StopRefusal::Broken { conference }),
        Err(FinishFault::Mismatch { conference, n }) => {
            Err(StopRefusal::Mismatch { conference, n })
        }
    }
}
