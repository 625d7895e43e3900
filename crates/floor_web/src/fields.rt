//! The fields of a request's head (RFC 9110, section 5).

ghost use Rattle.std.specs.Prelude.{◌≡◌, All, None, bytes_eq, length};
ghost use Rattle.std.specs.List.{list_any};
ghost use Rattle.std.specs.Option.{option_copied};
ghost use Rattle.httparse.specs.Spans.{IsHeaderWithin};
ghost use Rattle.websocket.specs.Headers.{eq_ignore_case, fields_of};
ghost use Rattle.floor_web.specs.Asked.{has_field};
ghost use Rattle.floor_web.specs.Fields as spec;
ghost use Rattle.floor_web.specs.steps.Asking.{shown_value};

use crate::refusal::Refusal;
use httparse::spans::HeaderSpan;

/// The value of the field with this name, which may stand once.
pub(crate) fn only<'a>(
    head: &'a [u8],
    spans: &[HeaderSpan],
    name: &[u8],
) -> Result<Option<&'a [u8]>, Refusal>
    requires within { All (IsHeaderWithin (length head.now)) spans.now }
    ensures value { shown_value result
        ≡ spec.only (spec.values_of (fields_of head.now spans.now) name.now) }
{
    let mut found = None;
    for span in spans {
        if is_same_word(span.name.of(head), name) {
            if found.is_some() {
                return Err(Refusal::BadRequest);
            }
            found = Some(span.value.of(head));
        }
    }
    Ok(found)
}

/// The value of the last field with this name.
pub(crate) fn last<'a>(head: &'a [u8], spans: &[HeaderSpan], name: &[u8]) -> Option<&'a [u8]>
    requires within { All (IsHeaderWithin (length head.now)) spans.now }
    ensures value { option_copied result
        ≡ spec.last_behind None (spec.values_of (fields_of head.now spans.now) name.now) }
{
    let mut value = None;
    for span in spans {
        if is_same_word(span.name.of(head), name) {
            value = Some(span.value.of(head));
        }
    }
    value
}

/// Whether there is a field with this name.
pub(crate) fn has_field(head: &[u8], spans: &[HeaderSpan], name: &[u8]) -> bool
    requires within { All (IsHeaderWithin (length head.now)) spans.now }
    ensures value { result ≡ has_field (fields_of head.now spans.now) name.now }
{
    for span in spans {
        if is_same_word(span.name.of(head), name) {
            return true;
        }
    }
    false
}

/// Whether one of the words of the fields with this name is this one, in any case of its letters.
pub(crate) fn has_word(head: &[u8], spans: &[HeaderSpan], name: &[u8], word: &[u8]) -> bool
    requires within { All (IsHeaderWithin (length head.now)) spans.now }
    ensures value { result
        ≡ spec.has_word (spec.values_of (fields_of head.now spans.now) name.now) word.now }
{
    for span in spans {
        if is_same_word(span.name.of(head), name) && lists(span.value.of(head), word) {
            return true;
        }
    }
    false
}

/// Whether one of the words of the fields with this name is this one exactly.
pub(crate) fn offers(head: &[u8], spans: &[HeaderSpan], name: &[u8], word: &[u8]) -> bool
    requires within { All (IsHeaderWithin (length head.now)) spans.now }
    ensures value { result
        ≡ spec.offers (spec.values_of (fields_of head.now spans.now) name.now) word.now }
{
    for span in spans {
        if is_same_word(span.name.of(head), name) && lists_exactly(span.value.of(head), word) {
            return true;
        }
    }
    false
}

/// Whether a list has the word, in any case of its letters.
fn lists(list: &[u8], word: &[u8]) -> bool
    ensures { result ≡ list_any (λ w. eq_ignore_case w word.now) (spec.words list.now) }
{
    list.split(|b| is_separator(*b))
        .any(|found| is_same_word(found, word))
}

/// Whether a list has the word exactly.
fn lists_exactly(list: &[u8], word: &[u8]) -> bool
    ensures { result ≡ list_any (λ w. bytes_eq w word.now) (spec.words list.now) }
{
    list.split(|b| is_separator(*b)).any(|found| found == word)
}

/// Whether the byte parts the words of a list.
pub(crate) fn is_separator(byte: u8) -> bool
    ensures { result ≡ spec.is_separator byte }
{
    byte == b',' || byte == b' ' || byte == b'\t'
}

/// Whether two words are one, but for the case of letters.
pub(crate) fn is_same_word(a: &[u8], b: &[u8]) -> bool
    ensures { result ≡ eq_ignore_case a.now b.now }
{
    a.eq_ignore_ascii_case(b)
}

/// What stands behind a prefix.
pub(crate) fn behind<'a>(text: &'a [u8], prefix: &[u8]) -> Option<&'a [u8]>
    ensures { option_copied result ≡ spec.behind text.now prefix.now }
{
    text.strip_prefix(prefix)
}
