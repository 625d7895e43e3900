//! Copies of what is shown of floor requests, and the status of a floor, which is made of them.

ghost use Rattle.std.specs.List.{list_any};
ghost use Rattle.std.specs.Option.{option_map_or};
ghost use Rattle.std.specs.Prelude.{◌≡◌, ◌==◌, IfOk, Some, false};
ghost use Rattle.floor_message.specs.Shown.{AreShown, IsShown};
ghost use Rattle.floor_machine.specs.Reply as reply;
ghost use Rattle.floor_machine.specs.Reply.{infos_on};
ghost use Rattle.floor_machine.specs.steps.Telling.{infos_with_user, shows_user};

use floor_message::{Info, Infos, SharedInfo, Tell, Who};
use std::alloc::{AllocError, Global};

/// Whether the request that is shown names the floor.
fn shows_floor(info: &Info, floor: u16) -> bool
    ensures { result ≡ list_any (λ f. f.0 == floor) info.now.floors }
{
    info.floors.as_slice().iter().any(|f| f.0 == floor)
}

/// Copies of those that name the floor, in their order.
pub(crate) fn infos_on(
    alloc: Global,
    floor: u16,
    infos: &[SharedInfo],
) -> Result<Vec<Info>, AllocError>
    ensures { IfOk result (λ on. on.items ≡ infos_on floor infos.now) }
{
    let mut on = Vec::new(alloc);
    for shared in infos {
        let info = shared.as_info();
        if shows_floor(info, floor) {
            on.push(info.copy(alloc)?)?;
        }
    }
    Ok(on)
}

/// Whether the user is the one that is shown.
fn is_shown_user(who: &Option<Who>, user: u16) -> bool
    ensures { result ≡ option_map_or (λ shown. shown.user == user) who.now false }
{
    match who {
        Some(who) => who.user == user,
        None => false,
    }
}

/// Whether the user is the requester or the beneficiary of the request that is shown.
fn shows_user(info: &Info, user: u16) -> bool
    ensures { result ≡ shows_user user info.now }
{
    is_shown_user(&info.requester, user) || is_shown_user(&info.beneficiary, user)
}

/// Copies of those of which the user is requester or beneficiary, in their order.
pub(crate) fn infos_with_user(
    alloc: Global,
    user: u16,
    infos: &[SharedInfo],
) -> Result<Vec<Info>, AllocError>
    ensures { IfOk result (λ own. own.items ≡ infos_with_user user infos.now) }
{
    let mut own = Vec::new(alloc);
    for shared in infos {
        let info = shared.as_info();
        if shows_user(info, user) {
            own.push(info.copy(alloc)?)?;
        }
    }
    Ok(own)
}

/// The status of a floor.
pub(crate) fn floor_status(
    alloc: Global,
    floor: u16,
    now: &[SharedInfo],
) -> Result<Tell, AllocError>
    requires { AreShown now.now }
    ensures value { IfOk result (λ tell. tell
        ≡ Tell.FloorStatus (Some floor) (reply.infos_on floor now.now)) }
    ensures shown { IfOk result IsShown }
{
    let infos = infos_on(alloc, floor, now)?;
    Ok(Tell::FloorStatus {
        floor: Some(floor),
        infos: Infos::from_vec(infos),
    })
}
