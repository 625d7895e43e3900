//! The settled floor requests of a conference with its configuration: what is shown of a floor
//! request is made of both (RFC 8855, section 5.2.15).

ghost use Rattle.std.proofs.Props.{props};
ghost use Rattle.std.specs.Prelude.{◌≡◌, Some};
ghost use Rattle.floor_queue.specs.Queue.{IsSettled, request_at};

use floor_config::Config;
use floor_queue::{Request, Requests};

/// The floor requests of a conference, none of which is due any more, with the configuration that
/// has their floors.
#[derive(Clone, Copy, Debug)]
pub(crate) struct Settled<'a> {
    /// The configuration.
    pub config: &'a Config,
    /// The ongoing requests.
    pub requests: &'a Requests,
    ghost floors: { requests.now.floors ≡ config.now.floors } by { Prim.hlevel props },
    ghost settled: { IsSettled requests.now } by { Prim.hlevel props },
}

/// One of the settled floor requests.
#[derive(Clone, Copy, Debug)]
pub(crate) struct OngoingRequest<'a> {
    /// All of them.
    pub settled: Settled<'a>,
    /// The request.
    pub request: &'a Request,
    ghost found: { request_at settled.requests.now.ongoing request.now.number
        ≡ Some request.now } by { Prim.hlevel props },
}
