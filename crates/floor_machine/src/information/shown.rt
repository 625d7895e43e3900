//! A floor request as it is shown, and whom it concerns (RFC 8855, section 12.1).

ghost use Rattle.std.specs.Prelude.{◌≡◌, [], IfOk, IfSome, Some, option_map};
ghost use Rattle.floor_queue.specs.Queue.{request_at};
ghost use Rattle.floor_message.specs.Shown.{IsShownInfo};
ghost use Rattle.floor_machine.specs.Shown.{entry_of};
ghost use Rattle.floor_machine.specs.steps.Fitting.{AreFit, IsFit};
ghost use Rattle.floor_machine.specs.steps.Telling as telling;
ghost use Rattle.floor_machine.specs.steps.Telling.{entry_of_ended, shown_of};

use crate::course::{Ended, find_ended};
use crate::information::settled::{OngoingRequest, Settled};
use crate::information::showing::ended_info;
use floor_config::Config;
use floor_message::Info;
use std::alloc::{AllocError, Global};

/// A floor request as it is shown, and whom it concerns.
#[derive(Debug, Drop)]
pub(crate) struct Shown {
    /// Its number.
    pub number: u16,
    /// The user that asked.
    pub requester: u16,
    /// The user that is to get the floors.
    pub beneficiary: u16,
    /// What is shown of it.
    pub info: Info,
}

impl Settled<'_> {
    /// What is shown of the request with this number, which ended or is ongoing.
    pub(crate) fn shown_at(
        &self,
        alloc: Global,
        ended: &[Ended],
        number: u16,
    ) -> Result<Option<Shown>, AllocError>
        requires { AreFit self.now.config.now.floors ended.now }
        ensures value { IfOk result (λ shown. shown ≡ telling.shown_at self.now.config.now
            self.now.requests.now.ongoing ended.now number) }
        ensures shown { IfOk result (λ shown. IfSome shown (λ s. IsShownInfo s.info)) }
    {
        match find_ended(ended, number) {
            Some(found) => Ok(Some(shown_ended(alloc, self.config, found)?)),
            None => self.shown_ongoing(alloc, number),
        }
    }

    /// What is shown of the ongoing request with this number.
    fn shown_ongoing(&self, alloc: Global, number: u16) -> Result<Option<Shown>, AllocError>
        ensures value { IfOk result (λ shown. shown
            ≡ option_map (shown_of self.now.config.now self.now.requests.now.ongoing)
            (option_map entry_of (request_at self.now.requests.now.ongoing number))) }
        ensures shown { IfOk result (λ shown. IfSome shown (λ s. IsShownInfo s.info)) }
    {
        match self.requests.get(number) {
            None => Ok(None),
            Some(request) => {
                let ongoing = OngoingRequest {
                    settled: *self,
                    request,
                };
                Ok(Some(ongoing.shown(alloc)?))
            }
        }
    }
}

impl OngoingRequest<'_> {
    /// What is shown of the request.
    pub(crate) fn shown(&self, alloc: Global) -> Result<Shown, AllocError>
        ensures value { IfOk result (λ shown. shown
            ≡ shown_of self.now.settled.config.now self.now.settled.requests.now.ongoing
            (entry_of self.now.request.now)) }
        ensures shown { IfOk result (λ shown. IsShownInfo shown.info) }
    {
        let info = self.info(alloc)?;
        Ok(Shown {
            number: self.request.number,
            requester: self.request.requester,
            beneficiary: self.request.beneficiary,
            info,
        })
    }
}

/// What is shown of a request that ended.
pub(crate) fn shown_ended(
    alloc: Global,
    config: &Config,
    ended: &Ended,
) -> Result<Shown, AllocError>
    requires { IsFit config.now.floors ended.now.request }
    ensures value { IfOk result (λ shown. shown
        ≡ shown_of config.now [] (entry_of_ended ended.now)) }
    ensures shown { IfOk result (λ shown. IsShownInfo shown.info) }
{
    let info = ended_info(alloc, config, ended)?;
    Ok(Shown {
        number: ended.request.number,
        requester: ended.request.requester,
        beneficiary: ended.request.beneficiary,
        info,
    })
}
