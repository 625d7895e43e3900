//! What an event has made of a conference, for those who answer it and tell of it.

use crate::conference::State;
use crate::course::Ended;
use crate::tell::changed::Updates;
use std::marker::Model;

/// A conference between two events, the floor requests that the last of them ended, and the statuses of
/// those that it changed. Contracts see the conference, what is shown of its ongoing requests, those that
/// ended, and the statuses.
#[derive(Drop)]
pub(crate) struct Outcome<'a> {
    /// The conference, whose requests are settled, and which has what is shown of them.
    pub state: &'a State,
    /// The requests that the event ended.
    pub ended: &'a [Ended],
    /// The statuses of the requests that the event changed.
    pub updates: &'a Updates,
}

impl<'a> Model for Outcome<'a> {
    ghost use Rattle.floor_machine.specs.steps.Outcomes.{Outcome};

    ghost Value = { Outcome };

    ghost use Rattle.floor_machine.specs.steps.Fitting.{AreFit};
    ghost use Rattle.floor_machine.specs.steps.Serving.{IsAtRest, conference_of};
    ghost use Rattle.floor_machine.specs.steps.Telling.{AreTold};

    ghost view = { λ o. record {
      conference = conference_of o.state.now;
      shown = o.state.now.shown.items;
      ended = o.ended.now;
      updates = o.updates.now;
    } };

    ghost invariant = { λ o. IsAtRest o.state.now
        × AreFit o.state.now.config.floors o.ended.now
        × AreTold o.state.now.config o.state.now.requests.ongoing o.ended.now o.updates.now };
}
