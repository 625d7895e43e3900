//! Attributes as a text to compare.

use floor_wire::{Attr, Body};
use std::alloc::{AllocError, Global};

/// Each attribute as its type, `!` where M is set, `=` and its contents: a number, two bytes, a
/// head number with the included attributes in parentheses, or a list of bytes.
#[cycle(shown)]
pub fn shown(alloc: Global, attrs: &[Attr]) -> Result<String, AllocError> {
    let mut text = String::new(alloc);
    for attr in attrs {
        let must = if attr.must { "!" } else { "" };
        let body = shown_body(alloc, &attr.body)?;
        let part = format!(in alloc; "{}{must}={body};", attr.kind)?;
        text.push_str(&part)?;
    }
    Ok(text)
}

#[cycle(shown)]
fn shown_body(alloc: Global, body: &Body) -> Result<String, AllocError> {
    match body {
        Body::Num(number) => format!(in alloc; "{number}"),
        Body::Pair(first, second) => format!(in alloc; "{first},{second}"),
        Body::Group(number, included) => {
            let included = shown(alloc, included.as_slice())?;
            format!(in alloc; "{number}({included})")
        }
        Body::Octets(octets) => format!(in alloc; "{:?}", octets.as_slice()),
    }
}
