//! Conferences that are opened, and forgotten.

ghost use Rattle.std.specs.Prelude.{◌≡◌, ◌≤◌, ℕ, List, [], length, take, drop, true, false, Ok, MatchResult};
ghost use Rattle.floor_config.specs.Outcome.{Fails};
ghost use Rattle.floor_config.specs.Reading.{reading};
ghost use Rattle.floor_hub.specs.StandsFor.{StandsFor};
ghost use Rattle.floor_hub.specs.World.{nothing};
ghost use Rattle.floor_ffi.specs.declared.outcome.Outcome.{Outcome};
ghost use Rattle.floor_ffi.specs.Gives.{DiagnoseGives, ForgetGives, OpenGives, OpensFirst, PutsText, outcome_of};
ghost use Rattle.floor_ffi.specs.Numbers.{number_of};

use crate::answers::{FloorOpened, FloorText};
use crate::outcome::{Outcome, put_text};
use floor_config::{ConfigFault, read_configs};
use floor_diagnosis::diagnose;
use floor_hub::{Config, Hub, HubRefusal};
use std::alloc::Global;

/// No conference, and no connection.
pub(crate) fn fresh(alloc: Global) -> Hub
    ensures value { StandsFor result nothing }
{
    Hub::new(alloc)
}

/// Lets a hub go.
pub(crate) fn end(_hub: Hub) {}

/// The outcome of a call that is done or refused.
pub(crate) fn outcome_of(answer: Result<(), HubRefusal>) -> Outcome
    ensures value { result ≡ outcome_of answer }
{
    match answer {
        Ok(()) => Outcome::Done,
        Err(refusal) => Outcome::Refused(refusal),
    }
}

/// Opens the conferences of a text, in order, up to the first that the hub refuses.
pub(crate) fn open(hub: &mut Hub, alloc: Global, text: &[u8]) -> FloorOpened
    ensures gives { OpenGives hub.old text.now hub.new result.result result.opened }
{
    let Ok(text) = std::str::from_utf8(text) else {
        return refused(Outcome::NotUtf8);
    };
    match read_configs(alloc, text) {
        Ok(configs) => open_each(hub, alloc, configs),
        Err(fault) => refused(Outcome::Fault(fault)),
    }
}

/// No conference was opened.
fn refused(outcome: Outcome) -> FloorOpened
    ensures result { result.result ≡ number_of outcome }
    ensures opened { result.opened ≡ 0 }
{
    FloorOpened {
        result: outcome.number(),
        opened: 0,
    }
}

/// Opens these conferences, in order, up to the first that the hub refuses.
fn open_each(hub: &mut Hub, alloc: Global, configs: Vec<Config>) -> FloorOpened
    ensures opens { (outcome : Outcome) × (result.result ≡ number_of outcome)
        × OpensFirst configs.items hub.old hub.new outcome result.opened }
{
    let mut opened = 0;
    for config in configs {
        match hub.open(alloc, config) {
            Ok(()) => opened += 1,
            Err(refusal) => {
                return FloorOpened {
                    result: Outcome::Refused(refusal).number(),
                    opened,
                };
            }
        }
    }
    FloorOpened {
        result: Outcome::Done.number(),
        opened,
    }
}

/// Says why a text is no configuration, and writes a line that tells the place.
pub(crate) fn diagnose_text(alloc: Global, text: &[u8], room: &mut [u8]) -> FloorText
    ensures gives { DiagnoseGives text.now result.result result.len room.old room.new }
{
    let Ok(text) = std::str::from_utf8(text) else {
        return told(Outcome::NotUtf8, "the text isn't UTF-8", room);
    };
    match diagnose(alloc, text) {
        Ok(None) => told(Outcome::Done, "", room),
        Ok(Some(diagnosis)) => told(
            Outcome::Fault(diagnosis.fault),
            diagnosis.line.as_str(),
            room,
        ),
        Err(_) => told(Outcome::Fault(ConfigFault::Memory), "", room),
    }
}

/// An outcome, and a line that is written.
fn told(outcome: Outcome, line: &str, room: &mut [u8]) -> FloorText
    ensures result { result.result ≡ number_of outcome }
    ensures line { (written : List ℕ) × PutsText written result.len room.old room.new }
{
    FloorText {
        result: outcome.number(),
        len: put_text(line, room),
    }
}

/// Gives the memory of a conference back.
pub(crate) fn forget(hub: &mut Hub, conference: u32) -> u32
    ensures gives { ForgetGives hub.old conference hub.new result }
{
    outcome_of(hub.forget(conference)).number()
}
