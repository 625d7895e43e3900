//! Who may come from where: a user is an address (RFC 8855, sections 5.1, 6.2 and 9).

ghost use Rattle.std.specs.Prelude.{◌≡◌, ◌≤◌, ◌<◌, ◌==◌, ◌&&◌, length, position, IfSome};
ghost use Rattle.std.specs.List.{list_any};
ghost use Rattle.floor_sessions.specs.Admission as spec;
ghost use Rattle.floor_wire.specs.Header.{header_of};

use floor_datagram::is_acknowledging;

/// From where a datagram came.
#[derive(Clone, Copy, Debug, PartialEq, Eq)]
pub struct Source {
    /// The IP address: of IPv4, its 32 bits behind those of `::ffff:0:0`.
    pub address: u128,
    pub port: u16,
}

/// A user, and from where the user may come.
#[derive(Clone, Copy, Debug)]
pub struct User {
    pub conference: u32,
    pub user: u16,
    /// The IP address.
    pub address: u128,
    /// The port, where only that one is the user's.
    pub port: Option<u16>,
}

/// What becomes of a datagram before it comes to a session.
#[derive(Clone, Copy, Debug, PartialEq, Eq)]
pub enum Admission {
    /// It is as if the network had lost it.
    Dropped,
    /// It is answered by an Error with this code.
    Refused(u8),
    /// It is of the user at this place.
    Admitted(usize),
}

/// The error code of another version: Unsupported Version.
const UNSUPPORTED_VERSION: u8 = 12;

/// The error code of a conference that isn't there.
const NO_CONFERENCE: u8 = 1;

/// The error code of a user that isn't there.
const NO_USER: u8 = 2;

/// What becomes of a datagram that came from there. An address that none of the users has gets no answer.
pub fn admit(users: &[User], from: Source, datagram: &[u8]) -> Admission
    ensures value { result ≡ spec.admission users.now from datagram.now }
{
    if datagram.len() < 12 || datagram[0] / 32 == 0 {
        return Admission::Dropped;
    }
    if !has_address(users, from) {
        return Admission::Dropped;
    }
    if datagram[0] / 32 != 2 {
        return if datagram[0] / 16 % 2 == 1 {
            Admission::Dropped
        } else {
            Admission::Refused(UNSUPPORTED_VERSION)
        };
    }
    match user_of(users, from, datagram) {
        Some(place) => Admission::Admitted(place),
        None => refusal_to(users, from, datagram),
    }
}

/// Whether a user has the address.
fn has_address(users: &[User], from: Source) -> bool
    ensures { result ≡ list_any (λ u. spec.is_address_of from u) users.now }
{
    let address = from.address;
    users.iter().any(|u| u.address == address)
}

/// The place of the user whose IDs the datagram has and who may come from there.
fn user_of(users: &[User], from: Source, datagram: &[u8]) -> Option<usize>
    requires { 12 ≤ length datagram.now }
    ensures value { result
        ≡ position (λ u. spec.is_user_of datagram.now u && spec.is_source_of from u) users.now }
    ensures fits { IfSome result (λ place. place < length users.now) }
{
    let conference = conference_of(datagram);
    let user = u16::from_be_bytes([datagram[10], datagram[11]]);
    users.iter().position(|u| is_user_of(u, conference, user) && is_source_of(u, from))
}

fn is_user_of(u: &User, conference: u32, user: u16) -> bool
    ensures { result ≡ ((u.now.conference == conference) && (u.now.user == user)) }
{
    u.conference == conference && u.user == user
}

fn is_source_of(u: &User, from: Source) -> bool
    ensures { result ≡ spec.is_source_of from u.now }
{
    u.address == from.address && is_port_of(u.port, from.port)
}

fn is_port_of(named: Option<u16>, port: u16) -> bool
    ensures { result ≡ spec.is_port_of named port }
{
    match named {
        None => true,
        Some(named) => named == port,
    }
}

/// How a datagram is refused that names no user who may come from there.
fn refusal_to(users: &[User], from: Source, datagram: &[u8]) -> Admission
    requires { 12 ≤ length datagram.now }
    ensures { result ≡ spec.refusal_to users.now from datagram.now }
{
    if is_unanswered(datagram) {
        return Admission::Dropped;
    }
    if has_conference(users, from, datagram) {
        Admission::Refused(NO_USER)
    } else {
        Admission::Refused(NO_CONFERENCE)
    }
}

/// Whether a user of the address has the datagram's conference.
fn has_conference(users: &[User], from: Source, datagram: &[u8]) -> bool
    requires { 12 ≤ length datagram.now }
    ensures { result ≡ list_any (λ u. spec.is_address_of from u
        && spec.is_conference_of datagram.now u) users.now }
{
    let address = from.address;
    let conference = conference_of(datagram);
    users
        .iter()
        .any(|u| u.address == address && u.conference == conference)
}

/// Whether it is a response, an acknowledgement or an Error.
fn is_unanswered(datagram: &[u8]) -> bool
    requires { 12 ≤ length datagram.now }
    ensures { result ≡ spec.is_unanswered datagram.now }
{
    datagram[0] / 16 % 2 == 1 || is_acknowledging(datagram[1]) || datagram[1] == 13
}

/// The Conference ID.
fn conference_of(datagram: &[u8]) -> u32
    requires { 12 ≤ length datagram.now }
    ensures { result ≡ (header_of datagram.now).conference }
{
    u32::from_be_bytes([datagram[4], datagram[5], datagram[6], datagram[7]])
}
