//! The origins whose pages may open a WebSocket (RFC 6455, section 10.2).

ghost use Rattle.std.specs.Prelude.{◌≡◌, bytes_eq, map, string_bytes};
ghost use Rattle.std.specs.List.{list_any};
ghost use Rattle.std.specs.Option.{option_copied};
ghost use Rattle.floor_web.specs.Origins as spec;

use crate::fields::behind;

/// The origins whose pages may open a WebSocket.
#[derive(Debug, Drop)]
pub struct Origins {
    /// Those that are allowed by name, as `https://meet.example.com`. With none, only the origin
    /// that the page itself came from.
    pub listed: Vec<String>,
}

impl Origins {
    /// Whether a page of this origin may, where its request names this host. A program that isn't a
    /// browser sends no origin, and may: what proves who it is is the token alone.
    pub fn allow(&self, origin: Option<&[u8]>, host: &[u8]) -> bool
        ensures value { result ≡ spec.allows (map string_bytes self.now.listed.items)
            (option_copied origin.entry) host.now }
    {
        match origin {
            None => true,
            Some(origin) if self.listed.is_empty() => is_origin_of(origin, host),
            Some(origin) => lists(self.listed.as_slice(), origin),
        }
    }
}

/// Whether the origin is one of these.
fn lists(listed: &[String], origin: &[u8]) -> bool
    ensures { result ≡ list_any (λ l. bytes_eq l origin.now) (map string_bytes listed.now) }
{
    for allowed in listed {
        if allowed.as_bytes() == origin {
            return true;
        }
    }
    false
}

/// Whether the origin is `https://HOST` or `http://HOST`.
fn is_origin_of(origin: &[u8], host: &[u8]) -> bool
    ensures { result ≡ spec.is_origin_of origin.now host.now }
{
    is_scheme_and(origin, b"https://", host) || is_scheme_and(origin, b"http://", host)
}

/// Whether the origin is the scheme and then the host.
fn is_scheme_and(origin: &[u8], scheme: &[u8], host: &[u8]) -> bool
    ensures { result ≡ spec.is_scheme_and origin.now scheme.now host.now }
{
    match behind(origin, scheme) {
        Some(rest) => rest == host,
        None => false,
    }
}
