//! Writing attributes in their one canonical spelling (RFC 8855, section 5.2).

ghost use Rattle.std.specs.Prelude.{◌≡◌, ◌<◌, ◌≤◌, ◌+◌, ◌*◌, ◌/◌, ◌^◌, ◌++◌, length, vec_len, slice_set, IfOk, OnOk, if◌then◌else◌, false};
ghost use Rattle.floor_wire.specs.Bytes.{IsBytes};
ghost use Rattle.floor_wire.specs.Spelling.{canon, content_canon, first_byte, is_known, zeros_after, IsWritable, IsWritableContent};
ghost use Rattle.floor_wire.specs.View.{attributes_of, content_of};
ghost use Rattle.floor_wire.specs.steps.Writable.{IsWritableAttribute, attribute_bytes};

use crate::attribute::{Attr, Body};
use crate::laws::a_slice_is_of_bytes;
use std::alloc::{AllocError, Global};

/// The attributes in their one canonical spelling, in one buffer: zeros for padding, and M clear at
/// the types 1 to 18.
pub fn write_attrs(alloc: Global, attrs: &[Attr]) -> Result<Vec<u8>, AllocError>
    requires { IsWritable (attributes_of attrs.now) }
    ensures value { IfOk result (λ v. v.items ≡ canon (attributes_of attrs.now)) }
    ensures bytes { IfOk result (λ v. IsBytes v.items) }
{
    let mut out = Vec::new(alloc);
    put_list(&mut out, attrs)?;
    a_slice_is_of_bytes(out.as_slice());
    Ok(out)
}

/// Adds the attributes at the end.
#[cycle(write)]
pub(crate) fn put_list(out: &mut Vec<u8>, attrs: &[Attr]) -> Result<(), AllocError>
    requires { IsWritable (attributes_of attrs.now) }
    ensures { OnOk result (out.new.items ≡ out.old.items ++ canon (attributes_of attrs.now)) }
{
    for attr in attrs {
        put_attribute(out, attr)?;
    }
    Ok(())
}

/// Adds the attribute at the end, with its padding.
#[cycle(write)]
fn put_attribute(out: &mut Vec<u8>, attr: &Attr) -> Result<(), AllocError>
    requires { IsWritableAttribute attr.now }
    ensures { OnOk result (out.new.items ≡ out.old.items ++ attribute_bytes attr.now) }
{
    let start = out.len();
    out.push(first_byte(attr.kind, attr.must))?;
    out.push(0)?;
    put_contents(out, &attr.body)?;
    // The Length is known once the contents are written.
    let len = out.len() - start;
    set_length(out, start, len);
    out.extend_from_slice(padding(len - 2))?;
    Ok(())
}

/// Sets the Length of the attribute that starts at this place.
fn set_length(out: &mut Vec<u8>, start: usize, len: usize)
    requires room { start + 1 < vec_len out.old }
    requires fits { len < 256 }
    ensures value { out.new.items ≡ slice_set out.old.items (start + 1) len }
{
    out[start + 1] = len as u8;
}

/// Adds the contents at the end.
#[cycle(write)]
fn put_contents(out: &mut Vec<u8>, body: &Body) -> Result<(), AllocError>
    requires { IsWritableContent (content_of body.now) }
    ensures { OnOk result (out.new.items ≡ out.old.items ++ content_canon (content_of body.now)) }
{
    match body {
        Body::Num(number) => out.extend_from_slice(&number.to_be_bytes()),
        Body::Pair(first, second) => out.extend_from_slice(&[*first, *second]),
        Body::Group(number, included) => {
            out.extend_from_slice(&number.to_be_bytes())?;
            put_list(out, included.as_slice())
        }
        Body::Octets(octets) => out.extend_from_slice(octets.as_slice()),
    }
}

/// The first byte of an attribute: the type, and M, which is written at unknown types alone.
fn first_byte(kind: u8, must: bool) -> u8
    requires { kind < 128 }
    ensures { result ≡ first_byte kind (if is_known kind then false else must) }
{
    if kind >= 1 && kind <= 18 || !must {
        2 * kind
    } else {
        2 * kind + 1
    }
}

/// The padding behind contents of so many bytes.
pub(crate) fn padding(len: usize) -> &'static [u8]
    requires { len < 2 ^ 16 }
    ensures { result.now ≡ zeros_after len }
{
    match (2 + len) % 4 {
        0 => &[],
        1 => &[0, 0, 0],
        2 => &[0, 0],
        _ => &[0],
    }
}
