//! TLVs: a type, the length of a value, and the value (PROXY protocol, section 2.2).
//!
//! ```text
//!  0                   1                   2                   3
//!  0 1 2 3 4 5 6 7 8 9 0 1 2 3 4 5 6 7 8 9 0 1 2 3 4 5 6 7 8 9 0 1
//! +---------------+-------------------------------+---------------+
//! |     Type      |            Length             |   Value ...   |
//! +---------------+-------------------------------+---------------+
//! ```

ghost use Rattle.std.specs.Prelude.{◌≡◌, ◌<◌, None, length, option_map, MatchOption};
ghost use Rattle.std.specs.Result.{result_map_both};
ghost use Rattle.floor_proxy.specs.Tlv.{tlvs, value_in};
ghost use Rattle.floor_proxy.specs.steps.Finding.{IsFirst, kept};

use crate::refusal::ProxyRefusal;

/// How many bytes stand before a value: its type, and its length.
const HEAD_LEN: usize = 3;

/// A TLV's type and value, and the bytes behind it.
#[derive(Clone, Copy)]
pub(crate) struct FirstTlv<'a> {
    kind: u8,
    value: &'a [u8],
    behind: &'a [u8],
}

/// The value of the first TLV of a type, if there is one among the TLVs that the bytes are. `BadHeader`
/// where one of them, of whichever type, passes the end.
pub(crate) fn find_value(bytes: &[u8], kind: u8) -> Result<Option<&[u8]>, ProxyRefusal>
    ensures value { result_map_both (λ found. option_map (λ v. v.now) found) (λ refusal. refusal) result
        ≡ value_in kind (tlvs bytes.now) }
{
    let mut found = None;
    let mut rest = bytes;
    'tlv: while !rest.is_empty() {
        let Some(first) = first_tlv(rest) else {
            return Err(ProxyRefusal::BadHeader);
        };
        found = kept(found, first, kind);
        rest = first.behind;
    }
    Ok(found)
}

/// The value that was found, or else that of the TLV, if it has this type.
fn kept<'a>(found: Option<&'a [u8]>, first: FirstTlv<'a>, kind: u8) -> Option<&'a [u8]>
    ensures value { option_map (λ v. v.now) result
        ≡ kept kind (option_map (λ v. v.now) found.entry) first.entry.kind first.entry.value.now }
{
    match found {
        Some(value) => Some(value),
        None if first.kind == kind => Some(first.value),
        None => None,
    }
}

/// The TLV at the front; `None` where it passes the end.
fn first_tlv(bytes: &[u8]) -> Option<FirstTlv<'_>>
    requires some { 0 < length bytes.now }
    ensures value { MatchOption result (tlvs bytes.now ≡ None) (IsFirst bytes.now) }
{
    if bytes.len() < HEAD_LEN {
        return None;
    }
    let len = usize::from(u16::from_be_bytes([bytes[1], bytes[2]]));
    match bytes[HEAD_LEN..].split_at_checked(len) {
        None => None,
        Some((value, behind)) => Some(FirstTlv {
            kind: bytes[0],
            value,
            behind,
        }),
    }
}
