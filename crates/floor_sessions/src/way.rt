//! What becomes of a datagram of a user's (RFC 8855, sections 6.2 and 8.3).

ghost use Rattle.std.specs.Prelude.{◌≡◌, ◌≤◌, length};
ghost use Rattle.floor_sessions.specs.Way as spec;

use floor_datagram::{Age, Kind, age_of, id_of, kind_of};

/// What becomes of a datagram of a user's.
#[derive(Clone, Copy, Debug, PartialEq, Eq)]
pub enum Way {
    /// It is as if the network had lost it.
    Dropped,
    /// It isn't as long as it says, where there is no session: answered by error code 13.
    Misfit,
    /// A Goodbye where there is no session: answered, and none begins.
    Parting,
    /// It goes to the user's session.
    Onward,
    /// A session begins with it.
    Begins,
    /// A session begins with it; the user's session at another port is lost.
    Moves,
    /// A session begins with it; the one before at the same port is lost.
    Anew,
}

/// What is known of a user's session.
#[derive(Clone, Copy, Debug)]
pub struct Standing {
    /// Whether the datagram came from the address and port that it is bound to.
    pub is_here: bool,
    /// Whether it has ended.
    pub has_ended: bool,
    /// The Transaction ID of the request that was taken last.
    pub last: Option<u16>,
    /// How many milliseconds ago it ended, or else took a request.
    pub ago: u64,
    /// How long an answer is kept, in milliseconds.
    pub t2: u32,
}

/// The Hello's primitive, and the Goodbye's.
const HELLO: u8 = 11;

const GOODBYE: u8 = 16;

/// What becomes of a datagram that has a whole header, by what is known of its user's session.
pub fn way_of(standing: Option<Standing>, datagram: &[u8]) -> Way
    requires { 12 ≤ length datagram.now }
    ensures value { result ≡ spec.way_of standing datagram.now }
{
    match standing {
        None => alone(datagram),
        Some(session) => {
            if session.has_ended {
                behind_end(session, datagram)
            } else {
                beside(session, datagram)
            }
        }
    }
}

/// Where there is no session.
fn alone(datagram: &[u8]) -> Way
    requires { 12 ≤ length datagram.now }
    ensures { result ≡ spec.alone datagram.now }
{
    match kind_of(datagram) {
        Kind::Fragment => Way::Dropped,
        Kind::Misfit => Way::Misfit,
        Kind::Acknowledgement => Way::Dropped,
        Kind::Request => {
            if datagram[1] == GOODBYE {
                Way::Parting
            } else {
                Way::Begins
            }
        }
        Kind::Nothing => Way::Dropped,
    }
}

/// Behind a session that ended.
fn behind_end(session: Standing, datagram: &[u8]) -> Way
    requires { 12 ≤ length datagram.now }
    ensures { result ≡ spec.behind_end session datagram.now }
{
    if u64::from(session.t2) <= session.ago || !session.is_here {
        return alone(datagram);
    }
    if is_hello(datagram) && is_newer(session.last, datagram) {
        Way::Begins
    } else {
        Way::Onward
    }
}

/// While there is a session.
fn beside(session: Standing, datagram: &[u8]) -> Way
    requires { 12 ≤ length datagram.now }
    ensures { result ≡ spec.beside session datagram.now }
{
    if !is_hello(datagram) {
        return if session.is_here {
            Way::Onward
        } else {
            Way::Dropped
        };
    }
    if !session.is_here {
        return Way::Moves;
    }
    if is_older(session.last, datagram) && u64::from(session.t2) <= session.ago {
        Way::Anew
    } else {
        Way::Onward
    }
}

/// Whether it is a whole Hello.
fn is_hello(datagram: &[u8]) -> bool
    requires { 12 ≤ length datagram.now }
    ensures { result ≡ spec.is_hello datagram.now }
{
    match kind_of(datagram) {
        Kind::Fragment => false,
        Kind::Misfit => false,
        Kind::Acknowledgement => false,
        Kind::Request => datagram[1] == HELLO,
        Kind::Nothing => false,
    }
}

/// Whether its Transaction ID is newer than the last.
fn is_newer(last: Option<u16>, datagram: &[u8]) -> bool
    requires { 12 ≤ length datagram.now }
    ensures { result ≡ spec.is_newer_than last datagram.now }
{
    match age_of(last, id_of(datagram)) {
        Age::Copy => false,
        Age::Older => false,
        Age::Newer => true,
    }
}

/// Whether its Transaction ID is older than the last.
fn is_older(last: Option<u16>, datagram: &[u8]) -> bool
    requires { 12 ≤ length datagram.now }
    ensures { result ≡ spec.is_older_than last datagram.now }
{
    match age_of(last, id_of(datagram)) {
        Age::Copy => false,
        Age::Older => true,
        Age::Newer => false,
    }
}
