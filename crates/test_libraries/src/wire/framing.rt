//! Messages in a stream, their headers, and messages of the greatest length.

use crate::cases::{assert_told, differing, part};
use crate::hexadecimal::{bytes, frame, spelled};
use floor_wire::{
    Attr, Attrs, Body, Frame, Framer, Header, SharedFrame, fits_message, read_attrs, write_attrs,
};
use std::alloc::{AllocError, Global};
use std::fmt::Write;

const HELLO: &str = "200b0000 00000001 0001000a";

const FLOOR_REQUEST: &str = "20010001 00000001 0002000a 04040001";

const OTHER_VERSION: &str = "5f630002 fffffffe 12348765 01020304 05060708";

#[test]
fn a_framer_gives_a_message_and_keeps_the_byte_behind_it(rt: HostRuntime) {
    let wanted = "false true 200b0000 00000001 0001000a| 1";
    assert_told(&rt, told_of_framer(rt.alloc()), wanted);
}

/// Whether a framer is ready before a Hello and a byte, and behind them, what it gives, and how many
/// bytes it keeps.
fn told_of_framer(alloc: Global) -> Result<String, AllocError> {
    let mut framer = Framer::new(alloc);
    let mut told = format!(in alloc; "{}", framer.ready())?;
    framer.push(&bytes(alloc, HELLO)?)?;
    framer.push(&[0x20])?;
    write!(told, " {}", framer.ready())?;
    push_next(alloc, &mut told, &mut framer)?;
    push_next(alloc, &mut told, &mut framer)?;
    write!(told, " {}", framer.rest_len())?;
    Ok(told)
}

/// Appends the next message, and a bar behind it, where there is one.
fn push_next(alloc: Global, told: &mut String, framer: &mut Framer) -> Result<(), AllocError> {
    if let Some(frame) = framer.next()? {
        told.push_str(&spelled(alloc, frame.bytes())?)?;
        told.push('|')?;
    }
    Ok(())
}

/// Each line: its name, bytes, and the message that they are.
const FRAMES: &str = "\
Hello | 200b0000 00000001 0001 000a => 200b0000 00000001 0001000a
another version | 5f630002 fffffffe 1234 8765 01020304 05060708 => 5f630002 fffffffe 12348765 01020304 05060708
no byte | => none
a header that lacks a byte | 200b0000 00000001 0001 00 => none
a byte too many | 200b0000 00000001 0001 000a 20 => none
a payload that lacks a byte | 20010001 00000001 0002 000a 040400 => none";

#[test]
fn a_frame_is_exactly_one_message(rt: HostRuntime) {
    let told = differing(rt.alloc(), FRAMES, "\n", " =>", framed);
    assert_told(&rt, told, "6 cases");
}

fn framed(alloc: Global, case: &str) -> Result<String, AllocError> {
    match frame(alloc, part(case, 1))? {
        None => String::from_str(alloc, " none"),
        Some(frame) => spelled(alloc, frame.bytes()),
    }
}

#[test]
fn a_header_has_the_fields_of_its_bits(rt: HostRuntime) {
    let wanted = "version 2, R true, F true, reserved 7, primitive 99, length 2, \
        conference 4294967294, transaction 4660, user 34661";
    assert_told(&rt, other_version(rt.alloc()), wanted);
}

/// The fields of the header of a message of another version.
fn other_version(alloc: Global) -> Result<String, AllocError> {
    match frame(alloc, OTHER_VERSION)? {
        None => String::from_str(alloc, "no message"),
        Some(frame) => fields_of(alloc, frame.header()),
    }
}

fn fields_of(alloc: Global, header: Header) -> Result<String, AllocError> {
    let (first, second) = (header.transaction_responder(), header.fragmentation());
    let (version, reserved) = (header.version(), header.reserved());
    let (primitive, length) = (header.primitive(), header.payload_length());
    let (conference, transaction) = (header.conference(), header.transaction());
    let user = header.user();
    format!(in alloc;
        "version {version}, R {first}, F {second}, reserved {reserved}, primitive {primitive}, \
        length {length}, conference {conference}, transaction {transaction}, user {user}"
    )
}

#[test]
fn a_written_message_has_its_header_and_attributes(rt: HostRuntime) {
    let wanted = " 20010001 00000001 0002000a 04040001";
    assert_told(&rt, written(rt.alloc()), wanted);
}

/// A FloorRequest of an attribute with M, as it is written.
fn written(alloc: Global) -> Result<String, AllocError> {
    let floor = Attr {
        kind: 2,
        must: true,
        body: Body::Num(1),
    };
    let frame = Frame::of_attributes(alloc, 1, 1, 2, 10, &[floor])?;
    spelled(alloc, frame.bytes())
}

#[test]
fn a_message_is_addressed_to_another_user(rt: HostRuntime) {
    let wanted = " 20010001 00000001 0002fffe / 04040001 / 16";
    assert_told(&rt, addressed(rt.alloc()), wanted);
}

/// The FloorRequest, addressed to user 0xfffe.
fn addressed(alloc: Global) -> Result<String, AllocError> {
    match frame(alloc, FLOOR_REQUEST)? {
        None => String::from_str(alloc, "no message"),
        Some(frame) => parts_of(alloc, &SharedFrame::of(frame).addressed(0xfffe)?),
    }
}

/// The header, the payload and the length of a message.
fn parts_of(alloc: Global, message: &SharedFrame) -> Result<String, AllocError> {
    let mut told = spelled(alloc, message.header())?;
    told.push_str(" /")?;
    told.push_str(&spelled(alloc, message.payload())?)?;
    write!(told, " / {}", message.len())?;
    Ok(told)
}

/// Three messages that are taken whole, and no byte behind them.
const THREE: &str = " 200b0000 00000001 0001000a| 5f630002 fffffffe 12348765 01020304 05060708\
    | 20010001 00000001 0002000a 04040001| 0";

#[test]
fn every_cut_of_three_messages_gives_the_same_messages(rt: HostRuntime) {
    assert_told(&rt, differing_cuts(rt.alloc()), "1225 cuts");
}

/// The places of two cuts at which other messages are taken than are wanted, and how many cuts there
/// are.
fn differing_cuts(alloc: Global) -> Result<String, AllocError> {
    let mut stream = bytes(alloc, HELLO)?;
    stream.extend_from_slice(&bytes(alloc, OTHER_VERSION)?)?;
    stream.extend_from_slice(&bytes(alloc, FLOOR_REQUEST)?)?;
    let mut told = String::new(alloc);
    let mut count = 0u32;
    for first in 0..=stream.len() {
        let (front, rest) = stream.as_slice().split_at(first);
        for second in 0..=rest.len() {
            let (middle, end) = rest.split_at(second);
            if taken(alloc, [front, middle, end])?.as_str() != THREE {
                write!(told, "cut at {first} and {second} behind it, ")?;
            }
            count = count.saturating_add(1);
        }
    }
    write!(told, "{count} cuts")?;
    Ok(told)
}

/// The messages that are taken behind each piece, and how many bytes are left.
fn taken(alloc: Global, pieces: [&[u8]; 3]) -> Result<String, AllocError> {
    let mut framer = Framer::new(alloc);
    let mut told = String::new(alloc);
    for piece in pieces {
        framer.push(piece)?;
        for _ in 0..4 {
            push_next(alloc, &mut told, &mut framer)?;
        }
    }
    write!(told, " {}", framer.rest_len())?;
    Ok(told)
}

#[test]
fn ten_thousand_waiting_messages_are_taken_one_by_one(rt: HostRuntime) {
    assert_told(&rt, many_taken(rt.alloc()), "10000 taken, then none true");
}

/// How many of ten thousand Hellos are taken, and whether none is taken then.
fn many_taken(alloc: Global) -> Result<String, AllocError> {
    let hello = bytes(alloc, HELLO)?;
    let mut stream = Vec::new(alloc);
    for _ in 0..10_000 {
        stream.extend_from_slice(&hello)?;
    }
    let mut framer = Framer::new(alloc);
    framer.push(&stream)?;
    let mut count = 0u32;
    for _ in 0..10_000 {
        if is_next(&mut framer, &hello)? {
            count = count.saturating_add(1);
        }
    }
    let is_none = framer.next()?.is_none();
    format!(in alloc; "{count} taken, then none {is_none}")
}

fn is_next(framer: &mut Framer, message: &[u8]) -> Result<bool, AllocError> {
    match framer.next()? {
        Some(frame) => Ok(frame.bytes() == message),
        None => Ok(false),
    }
}

/// 65,534 numbers and a group, which fill the longest message.
fn longest(alloc: Global) -> Result<Vec<Attr>, AllocError> {
    let mut attrs = Vec::new(alloc);
    for number in 0..65_534u16 {
        attrs.push(Attr {
            kind: 2,
            must: false,
            body: Body::Num(number),
        })?;
    }
    let none = Attrs::from_vec(Vec::new(alloc));
    attrs.push(Attr {
        kind: 14,
        must: false,
        body: Body::Group(10, none),
    })?;
    Ok(attrs)
}

#[test]
fn a_message_of_the_greatest_length_is_written_framed_and_read(
    rt: HostRuntime,
) -> Result<(), AllocError> {
    let attrs = longest(rt.alloc())?;
    assert!(rt; fits_message(&attrs));
    let written = write_attrs(rt.alloc(), &attrs)?;
    let wanted = "262140 bytes, 65535 attributes, BadLength(262140) with a group of Length 5";
    assert_told(&rt, read_again(rt.alloc(), written), wanted);
    let frame = Frame::of_attributes(rt.alloc(), 7, 1, 2, 10, &attrs)?;
    let wanted = "length 65535, a message true, ready true, taken true, 262152 bytes";
    assert_told(&rt, framed_again(rt.alloc(), &frame), wanted);
    Ok(())
}

/// How many bytes there are, how many attributes are read of them, and what is read of them and a
/// group of Length 5.
fn read_again(alloc: Global, mut written: Vec<u8>) -> Result<String, AllocError> {
    let mut told = format!(in alloc; "{} bytes, ", written.len())?;
    push_read(&mut told, alloc, &written)?;
    written.extend_from_slice(&[0x1c, 5, 0, 1])?;
    told.push_str(", ")?;
    push_read(&mut told, alloc, &written)?;
    told.push_str(" with a group of Length 5")?;
    Ok(told)
}

fn push_read(told: &mut String, alloc: Global, bytes: &[u8]) -> Result<(), AllocError> {
    match read_attrs(alloc, bytes) {
        Ok(attrs) => write!(told, "{} attributes", attrs.as_slice().len()),
        Err(fault) => write!(told, "{fault:?}"),
    }
}

/// The length in the header, whether the bytes are a message, whether a framer is ready with a copy
/// of it and gives it, and how long the message to user 11 is.
fn framed_again(alloc: Global, frame: &Frame) -> Result<String, AllocError> {
    let mut told = format!(in alloc; "length {}", frame.header().payload_length())?;
    let is_message = Frame::of(alloc, frame.bytes())?.is_some();
    write!(told, ", a message {is_message}")?;
    let mut framer = Framer::new(alloc);
    push_copy(alloc, &mut framer, frame)?;
    write!(told, ", ready {}", framer.ready())?;
    push_taken(&mut told, &mut framer, frame)?;
    Ok(told)
}

fn push_copy(alloc: Global, framer: &mut Framer, frame: &Frame) -> Result<(), AllocError> {
    framer.push(frame.copy(alloc)?.bytes())
}

/// Appends whether a framer gives this message, and how long it is when it is sent to user 11.
fn push_taken(told: &mut String, framer: &mut Framer, frame: &Frame) -> Result<(), AllocError> {
    match framer.next()? {
        None => told.push_str(", none"),
        Some(taken) => {
            write!(told, ", taken {}", taken.bytes() == frame.bytes())?;
            push_length(told, &SharedFrame::of(taken))
        }
    }
}

fn push_length(told: &mut String, message: &SharedFrame) -> Result<(), AllocError> {
    let length = message.addressed(11)?.len();
    write!(told, ", {length} bytes")
}
