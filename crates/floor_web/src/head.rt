//! The head of a request, as far as it has come.

ghost use Rattle.std.specs.Prelude.{◌≡◌, None, map, string_bytes};
ghost use Rattle.std.specs.Option.{option_copied};
ghost use Rattle.httparse.specs.Spans.{IsRequestAt, IsRequestWithin, name_and_value};
ghost use Rattle.floor_web.specs.Fields.{last_behind, values_of};
ghost use Rattle.floor_web.specs.Head as spec;

use crate::asked::{Asked, asked_by};
use crate::fields::last;
use crate::origins::Origins;
use crate::refusal::Refusal;
use httparse::spans::{EMPTY_HEADER_SPAN, HeaderSpan, RequestSpans, parse_request};
use httparse::{Error, Status};

/// How long a head may be, in bytes: what a browser sends is a tenth of it.
pub const MAX_HEAD_LEN: usize = 8_192;

/// How many fields a head may have: what a browser sends is a third of it.
pub const MAX_FIELDS: usize = 64;

/// What the bytes of a connection are that came so far.
#[derive(Clone, Copy, Debug, PartialEq, Eq)]
pub enum Reading<'a> {
    /// Their head isn't whole yet, and may become so: more is to be read.
    Waits,
    /// Their head is whole, and asks for this.
    Whole {
        /// What it asks for.
        asked: Asked<'a>,
        /// How long it is, in bytes: what stands behind it is the caller's.
        len: usize,
    },
    /// The request is refused, whatever follows.
    Refused(Refusal),
}

/// What the bytes of a connection ask for that came so far. Takes no memory.
pub fn read_request<'a>(origins: &Origins, bytes: &'a [u8]) -> Reading<'a>
    ensures value { spec.Reads (map string_bytes origins.now.listed.items) bytes.now result }
{
    let mut spans = [EMPTY_HEADER_SPAN; MAX_FIELDS];
    match parse_request(bytes, &mut spans) {
        Ok(Status::Complete(found)) => whole(origins, bytes, &found, &spans),
        Ok(Status::Partial) if bytes.len() <= MAX_HEAD_LEN => Reading::Waits,
        Ok(Status::Partial) => Reading::Refused(Refusal::TooLarge),
        Err(Error::TooManyHeaders) => Reading::Refused(Refusal::TooLarge),
        Err(_) => Reading::Refused(Refusal::BadRequest),
    }
}

/// What a whole head asks for.
fn whole<'a>(
    origins: &Origins,
    bytes: &'a [u8],
    found: &RequestSpans,
    spans: &[HeaderSpan],
) -> Reading<'a>
    requires within { IsRequestWithin bytes.now spans.now found.now }
    ensures value { (h : _) → IsRequestAt bytes.now spans.now found.now h
        → spec.ReadsAs (map string_bytes origins.now.listed.items) h result }
{
    if found.len > MAX_HEAD_LEN {
        return Reading::Refused(Refusal::TooLarge);
    }
    if found.version != 1 {
        return Reading::Refused(Refusal::BadRequest);
    }
    let method = found.method.of(bytes);
    let target = found.path.of(bytes);
    match asked_by(origins, bytes, &spans[..found.headers], method, target) {
        Ok(asked) => Reading::Whole {
            asked,
            len: found.len,
        },
        Err(refusal) => Reading::Refused(refusal),
    }
}

/// The value of the last field with this name in the head that stands at the front of the bytes. Takes no
/// memory.
pub fn last_value<'a>(bytes: &'a [u8], name: &[u8]) -> Option<&'a [u8]>
    ensures value { spec.HasLast bytes.now name.now (option_copied result) }
{
    let mut spans = [EMPTY_HEADER_SPAN; MAX_FIELDS];
    match parse_request(bytes, &mut spans) {
        Ok(Status::Complete(found)) => last_in(bytes, &found, &spans, name),
        Ok(Status::Partial) => None,
        Err(Error::TooManyHeaders) => None,
        Err(_) => None,
    }
}

/// The value of the last field with this name in a whole head.
fn last_in<'a>(
    bytes: &'a [u8],
    found: &RequestSpans,
    spans: &[HeaderSpan],
    name: &[u8],
) -> Option<&'a [u8]>
    requires within { IsRequestWithin bytes.now spans.now found.now }
    ensures value { (h : _) → IsRequestAt bytes.now spans.now found.now h
        → option_copied result
        ≡ last_behind None (values_of (map name_and_value h.fields) name.now) }
{
    last(bytes, &spans[..found.headers], name)
}
