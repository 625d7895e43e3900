//! Floors, as they are shown: who holds each, who waits for it, and of whom its chair hasn't decided.

ghost use Rattle.std.specs.Prelude.{◌≡◌, IfOk};
ghost use Rattle.floor_shown.specs.Floors.{holders, holds, pending, pends, place_of, places, position_of, status_in, waits};

use crate::request::is_granted_at;
use crate::title::floor_key;
use crate::words::Words;
use floor_config::{Config, Floor};
use floor_message::{Info, SharedInfo};
use floor_rpc::{FloorShown, List};
use std::alloc::{AllocError, Global};

/// The floors of a conference, each with the floor requests for it.
pub(crate) fn floors_shown(
    alloc: Global,
    words: &Words,
    config: &Config,
    shown: &[SharedInfo],
) -> Result<List<FloorShown>, AllocError> {
    let mut floors = Vec::new(alloc);
    for floor in config.floors() {
        floors.push(floor_shown(alloc, words, floor, shown)?)?;
    }
    Ok(List::from_vec(floors))
}

fn floor_shown(
    alloc: Global,
    words: &Words,
    floor: &Floor,
    shown: &[SharedInfo],
) -> Result<FloorShown, AllocError> {
    let key = floor_key(alloc, floor.id)?;
    let title = words.title(alloc, key.as_str())?;
    let holders = holders(alloc, floor.id, shown)?;
    let waiting = waiting(alloc, floor.id, shown)?;
    let pending = pending(alloc, floor.id, shown)?;
    Ok(FloorShown {
        floor: floor.id,
        title,
        room: floor.room,
        chair: floor.chair,
        holders: List::from_vec(holders),
        waiting: List::from_vec(waiting),
        pending: List::from_vec(pending),
    })
}

/// Those that hold a floor, ascending.
fn holders(alloc: Global, floor: u16, shown: &[SharedInfo]) -> Result<Vec<u16>, AllocError>
    ensures value { IfOk result (λ found. found.items ≡ holders floor shown.now) }
{
    shown
        .iter()
        .filter(|info| holds(floor, info))
        .map(|info| number_of(info))
        .collect(alloc)
}

/// Those of which the chair of a floor hasn't decided, ascending.
fn pending(alloc: Global, floor: u16, shown: &[SharedInfo]) -> Result<Vec<u16>, AllocError>
    ensures value { IfOk result (λ found. found.items ≡ pending floor shown.now) }
{
    shown
        .iter()
        .filter(|info| pends(floor, info))
        .map(|info| number_of(info))
        .collect(alloc)
}

/// Those that wait for a floor, by ascending position.
fn waiting(alloc: Global, floor: u16, shown: &[SharedInfo]) -> Result<Vec<u16>, AllocError> {
    let mut found = places(alloc, floor, shown)?;
    found.sort()?;
    found.iter().map(|one| one.1).collect(alloc)
}

/// Those that wait for a floor, each behind its queue position.
fn places(alloc: Global, floor: u16, shown: &[SharedInfo]) -> Result<Vec<(u8, u16)>, AllocError>
    ensures value { IfOk result (λ found. found.items ≡ places floor shown.now) }
{
    shown
        .iter()
        .filter(|info| waits(floor, info))
        .map(|info| place_of(floor, info))
        .collect(alloc)
}

fn number_of(info: &SharedInfo) -> u16
    ensures value { result ≡ info.now.request }
{
    info.as_info().request
}

/// Its queue position for a floor, and its number.
fn place_of(floor: u16, info: &SharedInfo) -> (u8, u16)
    ensures value { result ≡ place_of floor info.now }
{
    let info = info.as_info();
    (position_of(status_in(floor, info)), info.request)
}

/// Whether a floor request holds a floor.
fn holds(floor: u16, info: &SharedInfo) -> bool
    ensures value { result ≡ holds floor info.now }
{
    is_granted_at(status_in(floor, info.as_info()).unwrap_or(None))
}

/// Whether it waits for a floor.
fn waits(floor: u16, info: &SharedInfo) -> bool
    ensures value { result ≡ waits floor info.now }
{
    !holds(floor, info) && position_of(status_in(floor, info.as_info())) != 0
}

/// Whether it is for a floor of which the chair hasn't decided.
fn pends(floor: u16, info: &SharedInfo) -> bool
    ensures value { result ≡ pends floor info.now }
{
    status_in(floor, info.as_info()).is_some() && !holds(floor, info) && !waits(floor, info)
}

/// How a floor request stands with a floor, where it is for it.
fn status_in(floor: u16, info: &Info) -> Option<Option<(u8, u8)>>
    ensures value { result ≡ status_in floor info.now }
{
    match info.floors.as_slice().iter().find(|shown| shown.0 == floor) {
        Some(shown) => Some(shown.1),
        None => None,
    }
}

/// The queue position; 0 where there is none.
fn position_of(status: Option<Option<(u8, u8)>>) -> u8
    ensures value { result ≡ position_of status }
{
    match status {
        Some(Some((_status, position))) => position,
        Some(None) | None => 0,
    }
}
