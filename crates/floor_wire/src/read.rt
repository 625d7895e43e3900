//! Reading attributes, in one pass with offsets (RFC 8855, section 5.2).

ghost use Rattle.std.specs.Prelude.{◌≡◌, ◌<◌, ◌+◌, ◌^◌, ◌⊎◌, ℕ, length, IfOk, IfErr, IsErr, MatchResult, drop, Ok, None, Some};
ghost use Rattle.floor_wire.specs.Spelling.{Spells, IsWritable};
ghost use Rattle.floor_wire.specs.Spelled.{spelled};
ghost use Rattle.floor_wire.specs.Fault.{is_bad_length, front_fault, HasFault, IsFaultFrom, fault_at_place};
ghost use Rattle.floor_wire.specs.Attributes.{Attributes};
ghost use Rattle.floor_wire.specs.declared.fault.Cause.{Cause};
ghost use Rattle.floor_wire.specs.steps.Reading.{IsHead, IsFront, FitsFormat, IsBodyOf};

use crate::attribute::{Attr, Attrs, Body};
use crate::fault::{Cause, WireFault};
use crate::format::{Format, format_of_kind};
use crate::octets::Octets;
use std::alloc::Global;

/// An attribute's type, M bit and Length, and where it ends with its padding.
#[derive(Clone, Copy)]
pub(crate) struct Head {
    pub(crate) kind: u8,
    pub(crate) must: bool,
    pub(crate) len: usize,
    pub(crate) end: usize,
}

/// The attributes that the bytes spell, or the first fault in the order of offsets, where what is
/// inside a group stands behind the group's head: `BadLength` of a Length that its type doesn't have,
/// which is looked at first, or `Overrun` of one that passes the end.
pub fn read_attrs(alloc: Global, bytes: &[u8]) -> Result<Attrs, WireFault>
    ensures found { IfOk result (λ attrs. Spells attrs bytes.now) }
    ensures fault { IfErr result (λ e. IsFaultFrom 0 bytes.now e) }

    // What is spelled is read, and the fault is told, unless memory runs out.
    ensures only { (a : Attributes) → Spells a bytes.now
        → MatchResult result (λ attrs. attrs ≡ a) (λ e. e ≡ WireFault.Memory) }
    ensures told { (at : ℕ) (cause : Cause) → HasFault bytes.now at cause
        → IfErr result (λ e. (e ≡ WireFault.Memory) ⊎ (e ≡ fault_at_place cause at))
        × IsErr result }

    // The same of what is computed of the bytes.
    ensures value { MatchResult result (λ attrs. spelled bytes.now ≡ Some attrs)
        (λ e. (e ≡ WireFault.Memory) ⊎ (spelled bytes.now ≡ None)) }
    ensures writable { IfOk result IsWritable }
{
    part_of(alloc, bytes, 0)
}

/// The attributes that stand from this offset on.
#[cycle(read)]
fn part_of(alloc: Global, bytes: &[u8], base: usize) -> Result<Attrs, WireFault>
    requires { base + length bytes.now < 2 ^ 63 }
    ensures found { IfOk result (λ attrs. Spells attrs bytes.now) }
    ensures fault { IfErr result (λ e. IsFaultFrom base bytes.now e) }
{
    let mut items = Vec::new(alloc);
    let mut at = 0;
    while at < bytes.len() {
        let (attr, end) = front_of(alloc, &bytes[at..], base + at)?;
        items.push(attr)?;
        at += end;
    }
    Ok(Attrs::from_vec(items))
}

/// The attribute at the front, and where it ends with its padding.
#[cycle(read)]
fn front_of(alloc: Global, bytes: &[u8], base: usize) -> Result<(Attr, usize), WireFault>
    requires some { 0 < length bytes.now }
    requires room { base + length bytes.now < 2 ^ 63 }
    ensures found { IfOk result (λ front. IsFront bytes.now front.0 front.1) }
    ensures fault { IfErr result (λ e. IsFaultFrom base bytes.now e) }
{
    let head = match head_of(bytes) {
        Ok(head) => head,
        Err(Cause::BadLength) => return Err(WireFault::BadLength(base)),
        Err(Cause::Overrun) => return Err(WireFault::Overrun(base)),
    };
    let body = body_of(
        alloc,
        format_of_kind(head.kind),
        &bytes[2..head.len],
        base + 2,
    )?;
    let attr = Attr {
        kind: head.kind,
        must: head.must,
        body,
    };
    Ok((attr, head.end))
}

/// The contents as a body of this format.
#[cycle(read)]
fn body_of(alloc: Global, format: Format, contents: &[u8], base: usize) -> Result<Body, WireFault>
    requires len { FitsFormat format (length contents.now) }
    requires room { base + length contents.now < 2 ^ 63 }
    ensures found { IfOk result (λ body. IsBodyOf format contents.now body) }
    ensures fault { IfErr result (λ e. (e ≡ WireFault.Memory)
        ⊎ ((format ≡ Format.Grouped) × IsFaultFrom (base + 2) (drop 2 contents.now) e)) }
{
    match format {
        Format::Unsigned16 => Ok(Body::Num(u16::from_be_bytes([contents[0], contents[1]]))),
        Format::OctetString16 => Ok(Body::Pair(contents[0], contents[1])),
        Format::Grouped => {
            let number = u16::from_be_bytes([contents[0], contents[1]]);
            let included = part_of(alloc, &contents[2..], base + 2)?;
            Ok(Body::Group(number, included))
        }
        Format::OctetString => Ok(Body::Octets(Octets::from_vec(Vec::from_slice(
            alloc, contents,
        )?))),
    }
}

/// The head at the front, where the attribute has no fault itself.
pub(crate) fn head_of(bytes: &[u8]) -> Result<Head, Cause>
    ensures found { IfOk result (λ head. (front_fault bytes.now ≡ None) × IsHead bytes.now head) }
    ensures fault { IfErr result (λ cause. front_fault bytes.now ≡ Some cause) }
{
    if bytes.len() < 2 {
        return Err(Cause::Overrun);
    }
    let kind = bytes[0] / 2;
    let must = bytes[0] % 2 == 1;
    let len = bytes[1] as usize;
    if has_bad_length(format_of_kind(kind), len) {
        return Err(Cause::BadLength);
    }
    let end = len + (4 - len % 4) % 4;
    if bytes.len() < end {
        return Err(Cause::Overrun);
    }
    Ok(Head {
        kind,
        must,
        len,
        end,
    })
}

fn has_bad_length(format: Format, len: usize) -> bool
    ensures { result ≡ is_bad_length format len }
{
    match format {
        Format::Unsigned16 | Format::OctetString16 => len != 4,
        Format::Grouped => len < 4 || len % 4 != 0,
        Format::OctetString => len < 2,
    }
}
