//! Attributes that are read and written, and those that can't be.

use super::shown::shown;
use crate::cases::{assert_told, differing, number, part};
use crate::hexadecimal::{bytes, deep_groups, spelled};
use floor_wire::{
    Attr, Attrs, Body, Numbers, Octets, fits_message, format_of_kind, read_attrs, writable,
    write_attrs,
};
use std::alloc::{AllocError, Global};
use std::fmt::Write;

/// Each line: its name, the bytes, and the attributes that they spell.
const WELL_FORMED: &str = "\
no bytes | => none
a floor | 0404 0001 => 2=1;
M set at a known type | 0504 0001 => 2!=1;
the greatest number | 0204 ffff => 1=65535;
a floor request | 0604 8000 => 3=32768;
a priority with its reserved bits set | 0804 ffff => 4=255,255;
a status and a queue position | 0a04 0302 => 5=3,2;
an octet string of Length 2 | 1002 abcd => 8=[];
an error code without details, padded by any byte | 0c03 05ff => 6=[5];
an octet string of Length 4 | 1204 4142 => 9=[65, 66];
an octet string of Length 5 with padding of any value | 1005 4142 43ff 00ff => 8=[65, 66, 67];
type 0 | 0002 0000 => 0=[];
type 0 with M | 0104 0102 => 0!=[1, 2];
type 19 | 2604 0102 => 19=[1, 2];
type 19 with M | 2704 0102 => 19!=[1, 2];
type 127 | fe03 0900 => 127=[9];
type 127 with M | ff04 0000 => 127!=[0, 0];
an empty group | 1c04 000a => 14=10();
a display name in a group | 1c0c 000d 1805 416e 6e00 0000 => 14=13(12=[65, 110, 110];);
padding of any value in a group | 1c0c 000d 1805 416e 6e12 3456 => 14=13(12=[65, 110, 110];);
M set at a group and inside it | 1f08 0001 0504 0002 => 15!=1(2!=2;);
a group in a group | 1e0c 0001 2408 0001 0a04 0302 => 15=1(18=1(5=3,2;););
two groups in a group | 1e14 0001 2408 0001 0a04 0302 2208 0007 0a04 0300 => 15=1(18=1(5=3,2;);17=7(5=3,0;););
an unknown type in a group | 1e08 0001 2704 0102 => 15=1(19!=[1, 2];);
a group behind a group | 2004 0001 2004 0002 => 16=1();16=2();
attributes in their order, one twice | 0404 0002 0404 0001 0404 0002 => 2=2;2=1;2=2;";

#[test]
fn well_formed_attributes_are_read_as_their_values(rt: HostRuntime) {
    let told = differing(rt.alloc(), WELL_FORMED, "\n", " => ", read);
    assert_told(&rt, told, "26 cases");
}

/// The attributes that a case's bytes spell, or their first fault.
fn read(alloc: Global, case: &str) -> Result<String, AllocError> {
    match read_attrs(alloc, &bytes(alloc, part(case, 1))?) {
        Ok(attrs) if attrs.as_slice().is_empty() => String::from_str(alloc, "none"),
        Ok(attrs) => shown(alloc, attrs.as_slice()),
        Err(fault) => format!(in alloc; "{fault:?}"),
    }
}

/// Each line: its name, the bytes, and their first fault.
const MALFORMED: &str = "\
one byte | 04 => Overrun(0)
a head alone | 0404 => Overrun(0)
three bytes | 0404 00 => Overrun(0)
Length 0 | 1000 0000 => BadLength(0)
Length 1 | 1001 0000 => BadLength(0)
Length 1 at type 0 | 0001 0000 => BadLength(0)
Length 1 at type 127 with M | ff01 0000 => BadLength(0)
Length 2 at a number | 0402 0000 => BadLength(0)
Length 3 at a number | 0403 0000 => BadLength(0)
Length 5 at a number | 0405 0000 0000 0000 => BadLength(0)
Length 255 at a number | 04ff 0000 => BadLength(0)
Length 3 at a priority | 0803 0000 => BadLength(0)
Length 5 at a status | 0a05 0302 0000 0000 => BadLength(0)
Length 0 at a group | 1c00 0000 => BadLength(0)
Length 2 at a group | 1c02 0000 => BadLength(0)
Length 3 at a group | 1c03 0000 => BadLength(0)
Length 5 at a group | 1c05 0001 0000 0000 => BadLength(0)
Length 6 at a group | 1e06 0001 0000 0000 => BadLength(0)
Length 255 at a group | 1eff 0001 => BadLength(0)
a group whose Length leaves out the padding | 1e07 0001 1803 6100 => BadLength(0)
a bad Length before an overrun | 0405 => BadLength(0)
contents that pass the end | 1008 4142 => Overrun(0)
padding that passes the end | 1005 4142 43 => Overrun(0)
Length 255 with too few bytes | 10ff 0000 => Overrun(0)
a group that passes the end | 1e0c 0001 0404 0001 => Overrun(0)
a faulty second attribute | 0404 0001 1001 0000 => BadLength(4)
a byte behind an attribute | 0404 0001 04 => Overrun(4)
zeros behind an attribute | 0404 0001 0000 => BadLength(4)
a bad Length in a group | 1e08 0001 1001 0000 => BadLength(4)
contents that pass the end of the bytes and of the group | 1e08 0001 1006 0000 => Overrun(4)
contents that pass the end of the group alone | 1e08 0001 1008 4142 4344 4546 => Overrun(4)
padding that passes the end of the group alone | 1e08 0001 1005 4142 4300 0000 => Overrun(4)
a bad Length in a group in a group | 1e0c 0001 2408 0001 0a05 0302 => BadLength(8)
a second faulty attribute in a group | 1e0c 0001 0404 0001 1006 0000 => Overrun(8)
a faulty attribute behind a group | 1e08 0001 0404 0001 0403 0000 => BadLength(8)
a fault in a group and one behind it | 1e08 0001 0403 0000 1001 0000 => BadLength(4)
a faulty group with a fault in it | 1e0a 0001 0403 0000 0000 => BadLength(0)";

#[test]
fn malformed_attributes_have_their_first_fault(rt: HostRuntime) {
    let told = differing(rt.alloc(), MALFORMED, "\n", " => ", read);
    assert_told(&rt, told, "37 cases");
}

/// Each line: its name, the bytes that are read, and what is written of them.
const WRITTEN: &str = "\
no bytes | =>
a floor | 0404 0001 => 04040001
M at a known type | 0504 0001 => 04040001
M at an unknown type | 0104 0102 => 01040102
padding | 1005 4142 43ff 00ff => 10054142 43000000
M and padding inside a group | 1f14 0001 2508 0001 0b04 0302 2705 0102 03ff ffff => 1e140001 24080001 0a040302 27050102 03000000";

#[test]
fn attributes_are_written_with_zero_padding_and_m_clear(rt: HostRuntime) {
    let told = differing(rt.alloc(), WRITTEN, "\n", " =>", written);
    assert_told(&rt, told, "6 cases");
}

/// What is written of the attributes that a case's bytes spell, or the fault.
fn written(alloc: Global, case: &str) -> Result<String, AllocError> {
    match read_attrs(alloc, &bytes(alloc, part(case, 1))?) {
        Ok(attrs) => spelled(alloc, &write_attrs(alloc, attrs.as_slice())?),
        Err(fault) => format!(in alloc; "{fault:?}"),
    }
}

/// How many attributes the bytes spell, where those that are wanted are written of them.
fn count_written(alloc: Global, bytes: &[u8], wanted: &[u8]) -> Result<Option<usize>, AllocError> {
    match read_attrs(alloc, bytes) {
        Ok(attrs) if write_attrs(alloc, attrs.as_slice())?.as_slice() == wanted => {
            Ok(Some(attrs.as_slice().len()))
        }
        Ok(_) | Err(_) => Ok(None),
    }
}

#[test]
fn the_longest_octet_string_takes_256_bytes(rt: HostRuntime) {
    let mut read = [7; 256];
    read[0] = 0x10;
    read[1] = 0xff;
    let mut wanted = read;
    wanted[255] = 0;
    let count = count_written(rt.alloc(), &read, &wanted);
    assert!(rt; matches!(count, Ok(Some(1))));
}

#[test]
fn groups_are_read_and_written_63_deep(rt: HostRuntime) -> Result<(), AllocError> {
    let groups = deep_groups(rt.alloc())?;
    let count = count_written(rt.alloc(), &groups, &groups)?;
    assert!(rt; count == Some(1));
    Ok(())
}

/// Each line: its name, a type, the kind of its contents, and how many octets stand in them. Behind
/// `=>` whether such an attribute is writable, and whether it fits into a message.
const SPELLABLE: &str = "\
a number as a number | 3 | number => true true
a number as a priority | 4 | number => false false
two bytes as a status | 5 | pair => true true
two bytes as an octet string | 6 | pair => false false
an unknown type | 127 | octets | 253 => true true
no type | 128 | octets | 0 => false false
an octet too many | 8 | octets | 254 => false false
a full group | 14 | group | 244 => true true
an overfull group | 14 | group | 247 => false false
a group as an octet string | 8 | group | 0 => false false";

#[test]
fn what_has_no_spelling_is_not_writable(rt: HostRuntime) {
    let told = differing(rt.alloc(), SPELLABLE, "\n", " => ", has_spelling);
    assert_told(&rt, told, "10 cases");
}

fn has_spelling(alloc: Global, case: &str) -> Result<String, AllocError> {
    let attr = Attr {
        kind: number(part(case, 1)).min(255) as u8,
        must: false,
        body: body_of(alloc, part(case, 2), number(part(case, 3)))?,
    };
    let attrs = [attr];
    format!(in alloc; "{} {}", writable(&attrs), fits_message(&attrs))
}

fn body_of(alloc: Global, kind: &str, octets: u16) -> Result<Body, AllocError> {
    match kind {
        "number" => Ok(Body::Num(1)),
        "pair" => Ok(Body::Pair(1, 2)),
        "octets" => Ok(Body::Octets(octets_of(alloc, octets)?)),
        _ => group_of(alloc, octets),
    }
}

fn octets_of(alloc: Global, count: u16) -> Result<Octets, AllocError> {
    Ok(Octets::from_vec(vec![in alloc; 7; usize::from(count)]?))
}

/// A group that holds one octet string of so many octets.
fn group_of(alloc: Global, count: u16) -> Result<Body, AllocError> {
    let mut included = Vec::new(alloc);
    included.push(Attr {
        kind: 8,
        must: false,
        body: Body::Octets(octets_of(alloc, count)?),
    })?;
    Ok(Body::Group(1, Attrs::from_vec(included)))
}

#[test]
fn copies_are_equal(rt: HostRuntime) {
    assert_told(&rt, copied(rt.alloc()), "[1, 2, 3] [300, 2]");
}

/// Copied octets, and copied numbers.
fn copied(alloc: Global) -> Result<String, AllocError> {
    let octets = Octets::from_vec(Vec::from_slice(alloc, &[1, 2, 3])?).copy(alloc)?;
    let numbers = Numbers::from_vec(Vec::from_slice(alloc, &[300, 2])?).copy(alloc)?;
    format!(in alloc; "{:?} {:?}", octets.as_slice(), numbers.as_slice())
}

#[test]
fn each_type_has_its_format(rt: HostRuntime) {
    let wanted = " 0 OctetString, 1 Unsigned16, 3 Unsigned16, 4 OctetString16, 5 OctetString16, \
        6 OctetString, 13 OctetString, 14 Grouped, 18 Grouped, 19 OctetString,";
    assert_told(&rt, formats(rt.alloc()), wanted);
}

/// The first and last types of each format.
fn formats(alloc: Global) -> Result<String, AllocError> {
    let mut text = String::new(alloc);
    for kind in [0, 1, 3, 4, 5, 6, 13, 14, 18, 19] {
        let format = format_of_kind(kind);
        write!(text, " {kind} {format:?},")?;
    }
    Ok(text)
}
