//! The header of the PROXY protocol, version 2 (proxy-protocol.txt, section 2.2).
//!
//! ```text
//!  0                   1                   2                   3
//!  0 1 2 3 4 5 6 7 8 9 0 1 2 3 4 5 6 7 8 9 0 1 2 3 4 5 6 7 8 9 0 1
//! +---------------------------------------------------------------+
//! |                                                               |
//! +                                                               +
//! |                  Signature: \r\n\r\n\0\r\nQUIT\n              |
//! +                                                               +
//! |                                                               |
//! +-------+-------+-------+-------+-------------------------------+
//! |   2   |Command|Family |Protoc.|            Length             |
//! +-------+-------+-------+-------+-------------------------------+
//! |              Addresses ...    |            TLVs ...           |
//! +-------------------------------+-------------------------------+
//! ```
//!
//! Length counts the addresses and the TLVs. The lower half of the family's byte, the protocol, says nothing
//! here, and neither do the addresses.

ghost use Rattle.std.specs.Prelude.{◌≡◌, ◌≤◌, length, IfOk, option_map};
ghost use Rattle.floor_proxy.specs.Header.{IsWithin, addresses_len, agrees, behind_command, behind_family, behind_high, behind_signature, has_certificate, is_verified, named, of_certificate, of_session, proxy, signature, who, whole};

use crate::name::{Name, read_name};
use crate::refusal::ProxyRefusal;
use crate::tlv::find_value;

/// How many bytes a header has at most, its addresses and TLVs among them.
pub const MAX_HEADER: usize = 1_024;

/// What each header begins with.
pub(crate) const SIGNATURE: [u8; 12] = *b"\r\n\r\n\0\r\nQUIT\n";

/// How many bytes stand before the addresses.
pub(crate) const HEAD_LEN: usize = 16;

/// What a header's Length says at most.
const MAX_LENGTH: usize = 1_008;

/// Version 2, and the command LOCAL: the proxy itself has connected, as to see whether anybody listens.
const LOCAL: u8 = 0x20;

/// Version 2, and the command PROXY: somebody has connected to the proxy.
pub(crate) const PROXY: u8 = 0x21;

/// The type of the TLV that says what is known of a TLS session (PP2_TYPE_SSL).
const SESSION: u8 = 0x20;

/// The type of the TLV within it that has the name of the certificate (PP2_SUBTYPE_SSL_CN).
const CERTIFICATE_NAME: u8 = 0x22;

/// The type of the TLV that has an identifier of the connection (PP2_TYPE_UNIQUE_ID).
pub(crate) const UNIQUE_ID: u8 = 0x05;

/// How many bytes of what is known of a TLS session stand before its TLVs.
const SESSION_LEN: usize = 5;

/// By what a header names who has connected.
#[derive(Clone, Copy, Debug, PartialEq, Eq)]
pub enum NamedBy {
    /// The name of a certificate that the proxy has verified.
    Certificate,
    /// The unique-id, by whoever knows without TLS.
    UniqueId,
}

/// What the bytes of a connection say that have come.
#[derive(Clone, Copy, Debug, PartialEq, Eq)]
pub enum ProxyRead {
    /// They are the front of a header, or nothing: more have to come.
    More,
    /// The proxy itself has connected. Whatever follows, nobody joins.
    Local,
    /// This user of this conference has connected. The header takes `len` bytes, and what stands behind
    /// them is the user's.
    Named {
        conference: u32,
        user: u16,
        len: usize,
    },
}

/// What the first bytes of a connection say, all of them that have come. What is answered but `More` stays the
/// answer, whatever comes behind it.
///
/// `BadHeader` is answered as soon as a byte among the first 16 stands where no header has it, or they say
/// more than 1,008 bytes to follow or fewer than the addresses take; of TLVs that pass the end, once the
/// header is whole. The other refusals come once it is, in this order: `NoCertificate` and `NotVerified`
/// by a certificate alone, `NoName`, `BadName`. A header that doesn't come is the caller's to refuse.
pub fn read_proxy(named_by: NamedBy, bytes: &[u8]) -> Result<ProxyRead, ProxyRefusal>
    ensures value { result ≡ proxy named_by bytes.now }
    ensures within { IfOk result (IsWithin (length bytes.now)) }
{
    if !agrees(bytes) {
        return Err(ProxyRefusal::BadHeader);
    }
    match bytes.split_at_checked(SIGNATURE.len()) {
        None => Ok(ProxyRead::More),
        Some((_signature, rest)) => behind_signature(named_by, rest),
    }
}

/// Whether the bytes are the signature's, as far as both go.
fn agrees(bytes: &[u8]) -> bool
    ensures value { result ≡ agrees signature bytes.now }
{
    bytes.starts_with(&SIGNATURE) || SIGNATURE.starts_with(bytes)
}

/// What the bytes behind the signature say.
fn behind_signature(named_by: NamedBy, bytes: &[u8]) -> Result<ProxyRead, ProxyRefusal>
    ensures value { result ≡ behind_signature named_by bytes.now }
{
    match bytes.split_first() {
        None => Ok(ProxyRead::More),
        Some((command, rest)) => match *command {
            LOCAL => Ok(ProxyRead::Local),
            PROXY => behind_command(named_by, rest),
            _ => Err(ProxyRefusal::BadHeader),
        },
    }
}

/// What the bytes behind the command say.
fn behind_command(named_by: NamedBy, bytes: &[u8]) -> Result<ProxyRead, ProxyRefusal>
    ensures value { result ≡ behind_command named_by bytes.now }
{
    match bytes.split_first() {
        None => Ok(ProxyRead::More),
        Some((family, rest)) => behind_family(named_by, addresses_len(*family), rest),
    }
}

/// How many bytes the addresses of a family take, by the upper half of its byte.
fn addresses_len(family: u8) -> Option<usize>
    ensures value { result ≡ addresses_len family }
{
    match family / 16 {
        0 => Some(0),
        1 => Some(12),
        2 => Some(36),
        3 => Some(216),
        _ => None,
    }
}

/// What the bytes behind the family say, whose addresses take so many bytes.
fn behind_family(
    named_by: NamedBy,
    addresses: Option<usize>,
    bytes: &[u8],
) -> Result<ProxyRead, ProxyRefusal>
    ensures value { result ≡ behind_family named_by addresses bytes.now }
{
    let Some(addresses) = addresses else {
        return Err(ProxyRefusal::BadHeader);
    };
    match bytes.split_first() {
        None => Ok(ProxyRead::More),
        Some((high, rest)) => behind_high(named_by, addresses, *high, rest),
    }
}

/// What the bytes behind the first byte of the Length say.
fn behind_high(
    named_by: NamedBy,
    addresses: usize,
    high: u8,
    bytes: &[u8],
) -> Result<ProxyRead, ProxyRefusal>
    ensures value { result ≡ behind_high named_by addresses high bytes.now }
{
    match bytes.split_first() {
        None if 256 * usize::from(high) <= MAX_LENGTH => Ok(ProxyRead::More),
        None => Err(ProxyRefusal::BadHeader),
        Some((low, rest)) => {
            let len = 256 * usize::from(high) + usize::from(*low);
            if addresses <= len && len <= MAX_LENGTH {
                whole(named_by, addresses, len, rest)
            } else {
                Err(ProxyRefusal::BadHeader)
            }
        }
    }
}

/// What the bytes behind the Length say, which is `len`.
fn whole(
    named_by: NamedBy,
    addresses: usize,
    len: usize,
    bytes: &[u8],
) -> Result<ProxyRead, ProxyRefusal>
    requires some { addresses ≤ len }
    requires few { len ≤ 1008 }
    ensures value { result ≡ whole named_by addresses len bytes.now }
{
    if bytes.len() < len {
        return Ok(ProxyRead::More);
    }
    let name = who(named_by, &bytes[addresses..len])?;
    Ok(ProxyRead::Named {
        conference: name.conference,
        user: name.user,
        len: HEAD_LEN + len,
    })
}

/// The user that TLVs name.
fn who(named_by: NamedBy, tlvs: &[u8]) -> Result<Name, ProxyRefusal>
    ensures value { result ≡ who named_by tlvs.now }
{
    match named_by {
        NamedBy::Certificate => of_session(find_value(tlvs, SESSION)?),
        NamedBy::UniqueId => named(find_value(tlvs, UNIQUE_ID)?),
    }
}

/// The user of a TLS session, if there is one.
fn of_session(session: Option<&[u8]>) -> Result<Name, ProxyRefusal>
    ensures value { result ≡ of_session (option_map (λ s. s.now) session.entry) }
{
    let Some(session) = session else {
        return Err(ProxyRefusal::NoCertificate);
    };
    if session.len() < SESSION_LEN {
        return Err(ProxyRefusal::BadHeader);
    }
    let name = find_value(&session[SESSION_LEN..], CERTIFICATE_NAME)?;
    of_certificate(session, name)
}

/// The user whose certificate's name this is, if it came over TLS and was verified.
fn of_certificate(session: &[u8], name: Option<&[u8]>) -> Result<Name, ProxyRefusal>
    requires { 5 ≤ length session.now }
    ensures value { result ≡ of_certificate session.now (option_map (λ n. n.now) name.entry) }
{
    if !has_certificate(session) {
        return Err(ProxyRefusal::NoCertificate);
    }
    if !is_verified(session) {
        return Err(ProxyRefusal::NotVerified);
    }
    named(name)
}

/// Whether the client has come over TLS, and a certificate with it, on this connection or on the one that it
/// resumes.
fn has_certificate(session: &[u8]) -> bool
    requires { 5 ≤ length session.now }
    ensures value { result ≡ has_certificate session.now }
{
    session[0] % 2 == 1 && session[0] / 4 % 2 == 1
}

/// Whether the proxy has found no fault in the certificate. It says so also where none came.
fn is_verified(session: &[u8]) -> bool
    requires { 5 ≤ length session.now }
    ensures value { result ≡ is_verified session.now }
{
    session[1..SESSION_LEN].iter().all(|byte| *byte == 0)
}

/// The user that a name names, where there is one.
fn named(name: Option<&[u8]>) -> Result<Name, ProxyRefusal>
    ensures value { result ≡ named (option_map (λ n. n.now) name.entry) }
{
    match name {
        None => Err(ProxyRefusal::NoName),
        Some(bytes) => read_name(bytes).ok_or(ProxyRefusal::BadName),
    }
}
