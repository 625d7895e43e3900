//! STATUS-INFO: the reason that a chair gives for its decision (RFC 8855, sections 5.2.9 and 11.1).

ghost use Rattle.std.specs.List.{list_any};
ghost use Rattle.std.specs.Prelude.{◌≡◌, ◌==◌, ◌≤◌, IfOk, None, length, take, option_copied, if◌then◌else◌};
ghost use Rattle.floor_message.specs.Fields as spec;
ghost use Rattle.floor_message.specs.steps.Reasons.{floors_named, reason_unless_named};

use crate::format::group::group_of;
use crate::format::octets::first_octets;
use crate::format::overall_request_status::overall_reason;
use crate::format::text::{LONGEST_REASON, text_kept};
use crate::kind::{FLOOR_REQUEST_STATUS, STATUS_INFO};
use floor_wire::{AttrsView, Octets};
use std::alloc::{AllocError, Global};

/// The reason as it is kept, where there is one; None where it isn't UTF-8. That of the whole floor
/// request counts before that of a floor. Our choice, since the RFC tells a chair's reason in
/// neither place alone.
pub(crate) fn reason_kept(
    alloc: Global,
    inside: &AttrsView,
) -> Result<Option<Option<Octets>>, AllocError>
    ensures { IfOk result (λ kept. kept ≡ spec.reason_kept inside.now) }
{
    let text = match overall_reason(inside) {
        Some(text) => Some(text),
        None => floor_reason(inside),
    };
    text_kept(alloc, text, LONGEST_REASON)
}

/// The text in the first STATUS-INFO inside the first FLOOR-REQUEST-STATUS that has one. Where a
/// floor is named twice, the first counts. Takes no memory: the floors that stand in front are looked
/// through again only where there is a text.
fn floor_reason<'a>(inside: &AttrsView<'a>) -> Option<&'a [u8]>
    ensures { option_copied result ≡ spec.floor_reason inside.now }
{
    // Counted for the bound: a place among them is a number.
    let _count = inside.len();
    let mut place = 0;
    let mut rest = inside.copy();
    while let Some(attr) = rest.next() {
        if let Some((floor, within)) = group_of(&attr, FLOOR_REQUEST_STATUS) {
            if let Some(text) = reason_unless_named(inside, place, floor, &within) {
                return Some(text);
            }
        }
        place += 1;
    }
    None
}

/// The text in the group of this floor, unless a group in front of it, among so many attributes, is
/// of the floor already.
fn reason_unless_named<'a>(
    inside: &AttrsView,
    place: usize,
    floor: u16,
    within: &AttrsView<'a>,
) -> Option<&'a [u8]>
    requires { place ≤ length inside.now }
    ensures { option_copied result
        ≡ reason_unless_named (floors_named (take place inside.now)) (floor, within.now) }
{
    let text = first_octets(within, STATUS_INFO)?;
    if is_named(inside, place, floor) {
        return None;
    }
    Some(text)
}

/// Whether one of the groups among so many attributes is of this floor.
fn is_named(inside: &AttrsView, place: usize, floor: u16) -> bool
    requires { place ≤ length inside.now }
    ensures { result
        ≡ list_any (λ named. floor == named) (floors_named (take place inside.now)) }
{
    let mut left = place;
    let mut rest = inside.copy();
    while left > 0 {
        left -= 1;
        let Some(attr) = rest.next() else {
            return false;
        };
        if let Some((named, _)) = group_of(&attr, FLOOR_REQUEST_STATUS) {
            if floor == named {
                return true;
            }
        }
    }
    false
}
