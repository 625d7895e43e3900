//! The statuses of changed floors, each spelled once for all who watch the floor (RFC 8855, section
//! 12.1).

ghost use Rattle.std.specs.Prelude.{◌≡◌, ◌++◌, ◌∷◌, [], All, IfOk, OnOk, map};
ghost use Rattle.floor_config.specs.Configuration.{IsFloor};
ghost use Rattle.floor_message.specs.Shown.{AreShown};
ghost use Rattle.floor_machine.specs.steps.Fitting.{AreFloorsShown};
ghost use Rattle.floor_machine.specs.steps.Telling.{floor_notice, floor_update};

use floor_config::Floor;
use floor_message::{Head, SharedInfo, what_is_shown_fits, write_floor_status};
use floor_wire::SharedFrame;
use std::alloc::{AllocError, Global};

/// The status of a changed floor as it is written once, under User ID 0, for all who watch the
/// floor.
#[derive(Debug, Drop)]
pub(crate) struct FloorNotice {
    /// The Floor ID.
    pub floor: u16,
    /// The message.
    pub message: SharedFrame,
}

/// The statuses of these floors, as they are written. Each is spelled once, however many watch the
/// floor.
pub(crate) fn floor_notices(
    alloc: Global,
    conference: u32,
    floors: &[Floor],
    now: &[SharedInfo],
) -> Result<Vec<FloorNotice>, AllocError>
    requires floors { All IsFloor floors.now }
    requires shown { AreShown now.now }
    ensures value { IfOk result (λ notices. notices.items
        ≡ map (λ f. floor_notice conference (floor_update now.now f)) floors.now) }
    ensures shown { OnOk result (AreFloorsShown (map (floor_update now.now) floors.now)) }
{
    let mut notices = Vec::new(alloc);
    for floor in floors {
        write_floor_notice(alloc, &mut notices, conference, floor, now)?;
    }
    Ok(notices)
}

/// Writes the status of a changed floor.
fn write_floor_notice(
    alloc: Global,
    notices: &mut Vec<FloorNotice>,
    conference: u32,
    floor: &Floor,
    now: &[SharedInfo],
) -> Result<(), AllocError>
    requires floor { IsFloor floor.now }
    requires shown { AreShown now.now }
    ensures { OnOk result (notices.new.items ≡ notices.old.items
        ++ floor_notice conference (floor_update now.now floor.now) ∷ []) }
{
    what_is_shown_fits();
    let head = Head::notice(conference, 0);
    let frame = write_floor_status(alloc, &head, floor.id, now)?;
    notices.push(FloorNotice {
        floor: floor.id,
        message: SharedFrame::of(frame),
    })?;
    Ok(())
}
