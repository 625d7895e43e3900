//! The reason that a chair gives for its decision (RFC 8855, sections 5.2.9 and 11.1).

ghost use Rattle.std.specs.Prelude.{◌≡◌, ℕ, IfSome, IsSome, OnOk};
ghost use Rattle.floor_queue.specs.Queue.{IsReason, MaySetFloor, request_at};
ghost use Rattle.floor_machine.specs.Change.{reasoned_among};
ghost use Rattle.floor_machine.specs.steps.Marks.{KeepsNoted};

use crate::marks::{Mark, mark_ongoing};
use floor_queue::Requests;
use floor_wire::Octets;
use std::alloc::AllocError;

/// Stores the reason, where there is one, in place of what the request had, and marks the request: it
/// is shown otherwise than before, and no other is moved.
pub(crate) fn give_reason(
    requests: &mut Requests,
    marks: &mut Vec<Mark>,
    request: u16,
    reason: Option<Octets>,
) -> Result<(), AllocError>
    requires ongoing { IsSome (request_at requests.old.ongoing request) }
    requires text { IfSome reason IsReason }
    ensures next { OnOk result (requests.new ≡ record requests.old {
      ongoing = reasoned_among request reason requests.old.ongoing;
    }) }
    ensures still_ongoing { OnOk result (IsSome (request_at requests.new.ongoing request)) }
    ensures still { OnOk result ((id : ℕ)
        → MaySetFloor requests.old request id → MaySetFloor requests.new request id) }
    ensures noted { OnOk result (KeepsNoted requests.old.ongoing marks.old.items
        requests.new.ongoing marks.new.items) }
    ensures floors { requests.new.floors ≡ requests.old.floors }
{
    match reason {
        None => Ok(()),
        Some(reason) => {
            mark_ongoing(marks, requests, request)?;
            requests.set_reason(request, reason);
            Ok(())
        }
    }
}
