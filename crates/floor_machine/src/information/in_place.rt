//! A floor request that is shown already is shown as it is now, in place (RFC 8855, section 5.2.15):
//! mostly its statuses alone differ, and then no memory is taken.

ghost use Rattle.std.specs.Option.{option_and_then};
ghost use Rattle.std.specs.Prelude.{◌≡◌, ◌==◌, ◌↔◌, [], IfOk, IsTrue, None, OnOk, Some, if◌then◌else◌};
ghost use Rattle.floor_config.specs.Lookup.{user_with};
ghost use Rattle.floor_message.specs.Shown.{IsShownInfo};
ghost use Rattle.floor_machine.specs.Shown as spec;
ghost use Rattle.floor_machine.specs.Shown.{entry_of, info};
ghost use Rattle.floor_machine.specs.steps.Fitting.{HasNumbers};
ghost use Rattle.floor_machine.specs.steps.Renewing.{differs, shown_if};
ghost use Rattle.floor_machine.specs.steps.Telling.{info_with};

use crate::information::settled::OngoingRequest;
use crate::information::showing::{greatest_position, ongoing_status};
use floor_config::{Config, Text};
use floor_message::{Info, SharedInfo, Who, is_same_text};
use floor_queue::Request;
use floor_wire::Octets;
use std::alloc::{AllocError, Global};

impl OngoingRequest<'_> {
    /// What is shown of the request is no more than a conference has: it is one that could be added.
    pub(crate) fn fits(&self)
        ensures { IsShownInfo (info self.now.settled.config.now
            self.now.settled.requests.now.ongoing self.now.request.now) }
    {
        let _conference = self.settled.config.conference();
        let _ongoing = self.settled.requests.ongoing();
        has_numbers(self.request);
    }

    /// Shows the request as it is now, where all but its statuses is shown as it is, and gives it
    /// where it was shown otherwise. The statuses are put together in `statuses`.
    pub(crate) fn update(
        &self,
        alloc: Global,
        statuses: &mut Vec<(u16, Option<(u8, u8)>)>,
        shown: &mut SharedInfo,
    ) -> Result<Option<SharedInfo>, AllocError>
        requires { shown.old ≡ record (info_with self.now.settled.config.now self.now.request.now 0 [])
            { overall = shown.old.overall; floors = shown.old.floors } }
        ensures now { OnOk result (shown.new ≡ info self.now.settled.config.now
            self.now.settled.requests.now.ongoing self.now.request.now) }
        ensures changed { IfOk result (λ changed. changed
            ≡ shown_if (differs (Some shown.old) shown.new) shown.new) }
    {
        self.show_floors(statuses)?;
        let status = ongoing_status(self.request).number();
        let overall = (status, greatest_position(statuses));
        if shown.as_info().has_statuses(overall, statuses) {
            return Ok(None);
        }
        shown.set_statuses(alloc, overall, statuses)?;
        Ok(Some(shown.share()?))
    }
}

/// The numbers of a request have 16 bits.
fn has_numbers(request: &Request)
    ensures { HasNumbers request.now }
{
    let _number = request.number;
    let _requester = request.requester;
    let _beneficiary = request.beneficiary;
}

/// Whether all but the statuses is shown of the request as it is. Takes no memory.
pub(crate) fn is_described(config: &Config, request: &Request, info: &Info) -> bool
    ensures { IsTrue result ↔ (info.now ≡ record (info_with config.now request.now 0 [])
        { overall = info.now.overall; floors = info.now.floors }) }
{
    info.request == request.number
        && is_same_text(&info.reason, &request.reason)
        && is_beneficiary(config, request, &info.beneficiary)
        && is_requester(config, request, &info.requester)
        && is_priority(info.priority, request.priority)
        && is_same_text(&info.info, &request.info)
}

fn is_priority(shown: Option<u8>, priority: u8) -> bool
    ensures { IsTrue result ↔ (shown ≡ Some priority) }
{
    shown == Some(priority)
}

/// Whether the beneficiary is shown as it is.
fn is_beneficiary(config: &Config, request: &Request, who: &Option<Who>) -> bool
    ensures { IsTrue result
        ↔ (who.now ≡ Some (spec.named config.now request.now.beneficiary)) }
{
    match who {
        Some(who) => is_named(config, request.beneficiary, who),
        None => false,
    }
}

/// Whether the requester is shown where it isn't the beneficiary, and as it is.
fn is_requester(config: &Config, request: &Request, who: &Option<Who>) -> bool
    ensures { IsTrue result ↔ (who.now
        ≡ (if request.now.requester == request.now.beneficiary
        then None else Some (spec.named config.now request.now.requester))) }
{
    match who {
        None => request.requester == request.beneficiary,
        Some(who) => {
            request.requester != request.beneficiary && is_named(config, request.requester, who)
        }
    }
}

/// Whether the user is shown by the display name alone, as it is.
fn is_named(config: &Config, id: u16, who: &Who) -> bool
    ensures { IsTrue result ↔ (who.now ≡ spec.named config.now id) }
{
    who.user == id && is_name(config, id, &who.name) && is_none(&who.uri)
}

fn is_none(text: &Option<Octets>) -> bool
    ensures { IsTrue result ↔ (text.now ≡ None) }
{
    match text {
        None => true,
        Some(_) => false,
    }
}

/// Whether the display name is that of the user.
fn is_name(config: &Config, id: u16, name: &Option<Octets>) -> bool
    ensures { IsTrue result
        ↔ (name.now ≡ option_and_then (λ user. user.name) (user_with config.now id)) }
{
    match config.user(id) {
        Some(user) => is_text(name, &user.name),
        None => is_none(name),
    }
}

/// Whether the octets are those of the text, or there is neither.
fn is_text(octets: &Option<Octets>, text: &Option<Text>) -> bool
    ensures { IsTrue result ↔ (octets.now ≡ text.now) }
{
    match (octets, text) {
        (None, None) => true,
        (Some(octets), Some(text)) => octets.as_slice() == text.as_str().as_bytes(),
        (None, Some(_)) => false,
        (Some(_), None) => false,
    }
}
