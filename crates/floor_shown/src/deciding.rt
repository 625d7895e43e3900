//! Which chair decides on a floor request, and on which of its floors.

ghost use Rattle.std.specs.Prelude.{◌≡◌, ℕ, IfOk, List, Some, filter, map};
ghost use Rattle.floor_config.specs.Lookup.{chair_is};
ghost use Rattle.floor_shown.specs.Asking.{verdicts_on};

use crate::refused::Refused;
use crate::request::info_of;
use floor_config::Config;
use floor_loop::Loop;
use floor_message::{Info, Verdict};
use floor_rpc::{About, Decision, ErrorName, Why};
use std::alloc::{AllocError, Global};

/// A chair, and what it says of which floors.
#[derive(Drop)]
pub struct Chair {
    pub user: u16,
    pub verdicts: Vec<(u16, Verdict)>,
}

/// The chair who decides, and on which floors. Where no chair is named it is that of the floors, or of those of the floor
/// request that have one; where no floor is named they are those of the floor request that the chair has.
pub fn chair_of(
    alloc: Global,
    hub: &Loop,
    decision: &Decision,
    verdict: Verdict,
) -> Result<Chair, Refused>
    ensures by { (user : ℕ) → decision.now.by ≡ Some user
        → IfOk result (λ chair. chair.user ≡ user) }
    ensures given { (floors : List ℕ) → decision.now.floors ≡ Some floors
        → IfOk result (λ chair. chair.verdicts.items ≡ verdicts_on verdict floors) }
{
    let config = match hub.config(decision.conference) {
        Ok(config) => config,
        Err(refusal) => return Err(Refused::of_conference(refusal, decision.conference)),
    };
    let floors = match &decision.floors {
        Some(floors) => Vec::from_slice(alloc, floors.as_slice())?,
        None => floors_of(alloc, info_of(hub, decision.conference, decision.request)?)?,
    };
    let user = match decision.by {
        Some(by) => by,
        None => one_chair(alloc, config, &floors)?,
    };
    let own = match &decision.floors {
        Some(_) => floors,
        None => floors_with(alloc, config, &floors, user)?,
    };
    if own.is_empty() && decision.floors.is_none() {
        return Err(Refused::of(ErrorName::Unauthorized, About::Request(decision.request)));
    }
    let verdicts = verdicts_of(alloc, &own, verdict)?;
    Ok(Chair { user, verdicts })
}

/// The floors of a floor request.
fn floors_of(alloc: Global, info: &Info) -> Result<Vec<u16>, AllocError>
    ensures value { IfOk result (λ floors. floors.items ≡ map (λ f. f.0) info.now.floors) }
{
    info.floors
        .as_slice()
        .iter()
        .map(|floor| floor.0)
        .collect(alloc)
}

/// Those of the floors whose chair this user is.
fn floors_with(
    alloc: Global,
    config: &Config,
    floors: &[u16],
    user: u16,
) -> Result<Vec<u16>, AllocError>
    ensures value { IfOk result (λ own. own.items
        ≡ filter (λ floor. chair_is config.now floor user) floors.now) }
{
    floors
        .iter()
        .filter(|floor| config.has_chair(**floor, user))
        .copied()
        .collect(alloc)
}

/// The same verdict on each floor.
fn verdicts_of(
    alloc: Global,
    floors: &[u16],
    verdict: Verdict,
) -> Result<Vec<(u16, Verdict)>, AllocError>
    ensures value { IfOk result (λ verdicts. verdicts.items ≡ verdicts_on verdict floors.now) }
{
    floors.iter().map(|floor| (*floor, verdict)).collect(alloc)
}

/// The one chair of those of the floors that have one.
fn one_chair(alloc: Global, config: &Config, floors: &[u16]) -> Result<u16, Refused> {
    let mut chair = None;
    for floor in config.floors() {
        if floors.contains(&floor.id) {
            match (chair, floor.chair) {
                (_, None) => {}
                (None, Some(user)) => chair = Some(user),
                (Some(other), Some(user)) if other == user => {}
                (Some(_), Some(_)) => return Err(Refused::param(alloc, "by", Why::Missing)),
            }
        }
    }
    match chair {
        Some(user) => Ok(user),
        None => Err(Refused::whole(ErrorName::Unauthorized)),
    }
}
