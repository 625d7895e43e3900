//! What a client may call.

ghost use Rattle.std.specs.Prelude.{◌≡◌};
ghost use Rattle.floor_clients.specs.Modes.{is_forbidden, opens, refusal_of};

use floor_rpc::{Call, ErrorName, Method};

/// By which socket a client came.
#[derive(Clone, Copy, Debug, PartialEq, Eq)]
pub enum Mode {
    /// It may call each method.
    Control,
    /// It may call what changes nothing alone, and is told no word.
    Observer,
}

/// Why a call isn't carried out, whatever it is about.
pub(crate) fn refusal_of(mode: Mode, is_draining: bool, call: &Call) -> Option<ErrorName>
    ensures value { result ≡ refusal_of mode is_draining call.now }
{
    let method = call.method();
    if is_forbidden(mode, method) {
        return Some(ErrorName::Forbidden);
    }
    if is_draining && opens(method) {
        return Some(ErrorName::Draining);
    }
    None
}

fn is_forbidden(mode: Mode, method: Method) -> bool
    ensures value { result ≡ is_forbidden mode method }
{
    match mode {
        Mode::Control => false,
        Mode::Observer => !method.is_observing(),
    }
}

/// Whether a method opens a conference.
fn opens(method: Method) -> bool
    ensures value { result ≡ opens method }
{
    matches!(method, Method::ConferenceOpen)
}
