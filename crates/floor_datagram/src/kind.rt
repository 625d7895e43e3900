//! What a datagram is to a session (RFC 8855, sections 5.1 and 6.2).

ghost use Rattle.std.specs.Prelude.{◌≡◌, ◌+◌, ◌<◌, ◌≤◌, length};
ghost use Rattle.floor_datagram.specs.Datagrams.{id_of, is_acknowledging, kind_of};
ghost use Rattle.floor_wire.specs.Message.{message_len, number_at};

use floor_wire::HEADER_LEN;

/// What a datagram is. The first that holds decides.
#[derive(Clone, Copy, Debug, PartialEq, Eq)]
pub enum Kind {
    /// A fragment of a message: the F bit is set.
    Fragment,
    /// It isn't as long as its header announces, and no response. Answered by error code 13.
    Misfit,
    /// A response, or a FloorRequestStatusAck, a FloorStatusAck or a GoodbyeAck.
    Acknowledgement,
    /// A request that is to be taken once.
    Request,
    /// A response that isn't as long as it announces, an Error, or Transaction ID 0.
    Nothing,
}

/// What a datagram is that has a whole header.
pub fn kind_of(datagram: &[u8]) -> Kind
    requires { 12 ≤ length datagram.now }
    ensures value { result ≡ kind_of datagram.now }
{
    let responds = datagram[0] / 16 % 2 == 1;
    if datagram[0] / 8 % 2 == 1 {
        return Kind::Fragment;
    }
    if datagram.len() != announced_len(datagram) {
        return if responds {
            Kind::Nothing
        } else {
            Kind::Misfit
        };
    }
    if responds || is_acknowledging(datagram[1]) {
        return Kind::Acknowledgement;
    }
    if datagram[1] == 13 || number_at(datagram, 8) == 0 {
        return Kind::Nothing;
    }
    Kind::Request
}

/// Whether messages of this primitive acknowledge: FloorRequestStatusAck, FloorStatusAck, GoodbyeAck.
pub fn is_acknowledging(primitive: u8) -> bool
    ensures value { result ≡ is_acknowledging primitive }
{
    primitive == 14 || primitive == 15 || primitive == 17
}

/// The Transaction ID of a datagram that has a whole header.
pub fn id_of(datagram: &[u8]) -> u16
    requires { 12 ≤ length datagram.now }
    ensures value { result ≡ id_of datagram.now }
{
    number_at(datagram, 8)
}

/// How long a message is whose header begins so, in bytes.
pub(crate) fn announced_len(bytes: &[u8]) -> usize
    requires { 4 ≤ length bytes.now }
    ensures { result ≡ message_len bytes.now }
{
    HEADER_LEN + 4 * usize::from(number_at(bytes, 2))
}

/// The number in the two bytes from a place on.
pub(crate) fn number_at(bytes: &[u8], at: usize) -> u16
    requires { at + 1 < length bytes.now }
    ensures { result ≡ number_at bytes.now at }
{
    u16::from_be_bytes([bytes[at], bytes[at + 1]])
}
