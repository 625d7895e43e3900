//! A floor's holders and its queue, as a line.

use floor_client::Info;
use floor_config::Floor;
use std::alloc::AllocError;
use std::fmt::Write;

/// The status Granted (RFC 8855, section 5.2.5).
const GRANTED: u8 = 3;

/// Adds the line of a floor: who holds it, who waits for it in the order of their positions, and who else
/// asks for it, each as the number of the floor request and the user whom it is for.
pub fn add_floor(out: &mut String, floor: &Floor, infos: &[Info]) -> Result<(), AllocError> {
    let Floor { id, room, chair } = *floor;
    match chair {
        Some(user) => write!(out, "floor {id} room {room} chair {user}")?,
        None => write!(out, "floor {id} room {room} chair -")?,
    }
    add_those(out, " holders", id, infos, |status, _| status == GRANTED)?;
    add_waiting(out, id, infos)?;
    add_those(
        out,
        " pending",
        id,
        infos,
        |status, at| status != GRANTED && at == 0,
    )?;
    out.push_str("\n")
}

/// Adds those that wait for a floor, in the order of their positions, behind their name.
fn add_waiting(out: &mut String, floor: u16, infos: &[Info]) -> Result<(), AllocError> {
    let mut is_named = false;
    for position in 1..=u8::MAX {
        let name = if is_named { "" } else { " waiting" };
        if add_at(out, name, floor, infos, position)? {
            is_named = true;
        }
    }
    Ok(())
}

/// Adds those that wait for a floor at this position, behind their name, and says whether there are any.
fn add_at(
    out: &mut String,
    name: &str,
    floor: u16,
    infos: &[Info],
    position: u8,
) -> Result<bool, AllocError> {
    add_those(
        out,
        name,
        floor,
        infos,
        |status, at| status != GRANTED && at == position,
    )
}

/// Adds the floor requests whose status and position on a floor are such, behind their name, and says
/// whether there are any.
fn add_those<F: Fn(u8, u8) -> bool + Drop>(
    out: &mut String,
    name: &str,
    floor: u16,
    infos: &[Info],
    is_such: F,
) -> Result<bool, AllocError>
    requires { F.IsAlwaysCallable is_such }
{
    let mut is_first = true;
    for info in infos {
        let Some((status, position)) = on_floor(info, floor) else {
            continue;
        };
        if !is_such(status, position) {
            continue;
        }
        if is_first {
            out.push_str(name)?;
        }
        is_first = false;
        add_request(out, info)?;
    }
    Ok(!is_first)
}

/// The status and the position of a request on a floor.
fn on_floor(info: &Info, floor: u16) -> Option<(u8, u8)> {
    for (id, status) in info.floors.as_slice() {
        if *id == floor {
            return *status;
        }
    }
    None
}

/// Adds a floor request and the user whom it is for.
fn add_request(out: &mut String, info: &Info) -> Result<(), AllocError> {
    let request = info.request;
    match &info.beneficiary {
        Some(who) => {
            let user = who.user;
            write!(out, " {request}:{user}")
        }
        None => write!(out, " {request}:-"),
    }
}
