//! Fragments of a request, which are put together (RFC 8855, section 6.2.3).

ghost use Rattle.std.specs.Prelude.{◌≡◌, ◌≤◌, ◌<◌, ◌==◌, ◌++◌, [], ◌∷◌, length, take, drop, nat_eq, IfOk, IfSome, OnOk, Some, option_map, unwrap_or, position};
ghost use Rattle.std.specs.List.{list_any, insert};
ghost use Rattle.std.specs.Cmp.Lexicographic.{pointwise};
ghost use Rattle.floor_datagram.specs.Fragments as spec;
ghost use Rattle.floor_datagram.specs.declared.fragments.Fragment.TheVariants.{Part};

use crate::kind::{announced_len, number_at};
use bytes::Bytes;
use floor_wire::HEADER_LEN;
use std::alloc::{AllocError, Global};
use std::marker::Model;

/// The longest message that is put together, in bytes, its header among them.
pub const MAX_REQUEST_LEN: usize = 8192;

/// Where the bytes of a fragment begin: behind its header, its Fragment Offset and its Fragment Length.
const BODY_AT: usize = 16;

/// What a fragment is. The first that holds decides.
#[derive(Clone, Copy, Debug, PartialEq, Eq)]
pub(crate) enum Fragment {
    /// A response, or one that carries nothing.
    Nothing,
    /// It passes the end of its message's payload, isn't as long as it says, or its message is too long.
    /// Answered by error code 13.
    Beyond,
    /// A part of a message.
    Part,
}

/// The payload of a message from one unit of 4 bytes on.
#[derive(Debug, Drop)]
pub(crate) struct Range {
    offset: u16,
    units: u16,
    body: Bytes,
}

/// The fragments that are held of one message.
///
/// `add` takes one; `drop_message` lets go of those of a message, `clear` of all. What is held are bytes
/// that came: nothing is taken for what a Payload Length announces.
#[derive(Drop)]
pub(crate) struct Fragments {
    alloc: Global,
    head: Vec<u8>,
    ranges: Vec<Range>,
    since: u64,
}

impl Model for Fragments {
    ghost use Rattle.floor_datagram.specs.Fragments.{Fragments};

    ghost Value = { Fragments };

    ghost view = { λ f. record {
      head = f.head.items;
      ranges = f.ranges.items;
      since = f.since;
    } };
}

impl Fragments {
    /// None. Takes no memory.
    pub(crate) fn new(alloc: Global) -> Fragments
        ensures value { result ≡ spec.none_held }
    {
        Fragments {
            alloc,
            head: Vec::new(alloc),
            ranges: Vec::new(alloc),
            since: 0,
        }
    }

    /// Lets go of all, and of their memory.
    pub(crate) fn clear(&mut self)
        ensures next { self.new ≡ spec.none_held }
    {
        self.head = Vec::new(self.alloc);
        self.ranges = Vec::new(self.alloc);
        self.since = 0;
    }

    /// When the first of those that are held came, where there are some.
    pub(crate) fn since(&self) -> Option<u64>
        ensures value { result ≡ spec.held_since self.now }
    {
        if self.ranges.is_empty() {
            None
        } else {
            Some(self.since)
        }
    }

    /// Lets go of those of this fragment's message.
    pub(crate) fn drop_message(&mut self, fragment: &[u8])
        requires { 16 ≤ length fragment.now }
        ensures next { self.new ≡ spec.without self.old fragment.now }
    {
        if self.is_of(fragment) {
            self.clear();
        }
    }

    /// Takes a part of a message that came at this time, and gives the message where it is whole with it: then nothing is held.
    pub(crate) fn add(&mut self, fragment: &[u8], now: u64) -> Result<Option<Vec<u8>>, AllocError>
        requires { spec.fragment_of fragment.now ≡ Part }
        ensures next { OnOk result (self.new ≡ (spec.placed self.old now fragment.now).held) }
        ensures value { IfOk result (λ message. option_map (λ m. m.items) message
            ≡ (spec.placed self.old now fragment.now).message) }
        ensures header { IfOk result (λ message. IfSome message (λ m. 12 ≤ length m.items)) }
    {
        a_part_is_long(fragment);
        if !self.is_of(fragment) {
            self.begin(fragment, now)?;
        }
        self.place(fragment)
    }

    /// Takes a part of the message that is held.
    fn place(&mut self, fragment: &[u8]) -> Result<Option<Vec<u8>>, AllocError>
        requires long { 16 ≤ length fragment.now }
        requires same { self.old.head ≡ spec.head_of fragment.now }
        ensures next { OnOk result
            (self.new ≡ (spec.placed_in fragment.now self.old.since self.old.ranges).held) }
        ensures value { IfOk result (λ message. option_map (λ m. m.items) message
            ≡ (spec.placed_in fragment.now self.old.since self.old.ranges).message) }
        ensures header { IfOk result (λ message. IfSome message (λ m. 12 ≤ length m.items)) }
    {
        if has_range(&self.ranges, fragment) {
            return Ok(None);
        }
        if has_overlap(&self.ranges, fragment) {
            self.clear();
            return Ok(None);
        }
        put_range(self.alloc, &mut self.ranges, fragment)?;
        match join(self.alloc, &self.ranges, fragment)? {
            None => Ok(None),
            Some(message) => {
                self.clear();
                Ok(Some(message))
            }
        }
    }

    /// Whether what is held is of this fragment's message.
    fn is_of(&self, fragment: &[u8]) -> bool
        requires { 16 ≤ length fragment.now }
        ensures { result ≡ pointwise nat_eq self.now.head (spec.head_of fragment.now) }
    {
        self.head.as_slice() == &fragment[1..HEADER_LEN]
    }

    /// Holds nothing but of this fragment's message, of which nothing is held yet.
    fn begin(&mut self, fragment: &[u8], now: u64) -> Result<(), AllocError>
        requires { 16 ≤ length fragment.now }
        ensures { OnOk result (self.new
            ≡ record { head = spec.head_of fragment.now; ranges = []; since = now }) }
    {
        self.head = Vec::from_slice(self.alloc, &fragment[1..HEADER_LEN])?;
        self.ranges = Vec::new(self.alloc);
        self.since = now;
        Ok(())
    }
}

/// What a fragment is that has a whole header.
pub(crate) fn fragment_of(datagram: &[u8]) -> Fragment
    requires { 12 ≤ length datagram.now }
    ensures value { result ≡ spec.fragment_of datagram.now }
{
    if datagram[0] / 16 % 2 == 1 || datagram.len() < BODY_AT || number_at(datagram, 14) == 0 {
        return Fragment::Nothing;
    }
    let end = usize::from(number_at(datagram, 12)) + usize::from(number_at(datagram, 14));
    if usize::from(number_at(datagram, 2)) < end
        || datagram.len() != BODY_AT + 4 * usize::from(number_at(datagram, 14))
        || MAX_REQUEST_LEN < announced_len(datagram)
    {
        return Fragment::Beyond;
    }
    Fragment::Part
}

/// A part of a message has the fields of a fragment.
pub(crate) fn a_part_is_long(fragment: &[u8])
    requires { spec.fragment_of fragment.now ≡ Part }
    ensures { 16 ≤ length fragment.now }
{}

/// Whether a fragment's range is held.
fn has_range(ranges: &Vec<Range>, fragment: &[u8]) -> bool
    requires { 16 ≤ length fragment.now }
    ensures { result ≡ list_any (λ r. spec.is_same_range fragment.now r) ranges.now.items }
{
    let offset = number_at(fragment, 12);
    let units = number_at(fragment, 14);
    ranges
        .iter()
        .any(|r| r.offset == offset && r.units == units)
}

/// Whether a range is held that overlaps a fragment's.
fn has_overlap(ranges: &Vec<Range>, fragment: &[u8]) -> bool
    requires { 16 ≤ length fragment.now }
    ensures { result ≡ list_any (λ r. spec.overlaps fragment.now r) ranges.now.items }
{
    let offset = usize::from(number_at(fragment, 12));
    let end = offset + usize::from(number_at(fragment, 14));
    ranges.iter().any(|r| usize::from(r.offset) < end
        && offset < usize::from(r.offset) + usize::from(r.units))
}

/// Holds a fragment's range, before the first that lies behind it.
fn put_range(alloc: Global, ranges: &mut Vec<Range>, fragment: &[u8]) -> Result<(), AllocError>
    requires { 16 ≤ length fragment.now }
    ensures { OnOk result (ranges.new.items ≡ spec.with_range fragment.now ranges.old.items) }
{
    let offset = number_at(fragment, 12);
    let range = Range {
        offset,
        units: number_at(fragment, 14),
        body: Bytes::copy_from_slice(alloc, &fragment[BODY_AT..])?,
    };
    let at = place_of(ranges, offset);
    ranges.insert(at, range)?;
    Ok(())
}

/// Where the ranges from an offset on begin.
fn place_of(ranges: &Vec<Range>, offset: u16) -> usize
    ensures value { result ≡ spec.place_of offset ranges.now.items }
    ensures fits { result ≤ length ranges.now.items }
{
    match first_from(ranges, offset) {
        Some(place) => place,
        None => ranges.len(),
    }
}

/// The place of the first range that begins at an offset or behind it.
fn first_from(ranges: &Vec<Range>, offset: u16) -> Option<usize>
    ensures value { result ≡ position (λ r. spec.is_from offset r) ranges.now.items }
    ensures fits { IfSome result (λ place. place < length ranges.now.items) }
{
    ranges.iter().position(|r| !(r.offset < offset))
}

/// The message that the ranges make up, with a fragment's header, where they do.
fn join(alloc: Global, ranges: &Vec<Range>, fragment: &[u8]) -> Result<Option<Vec<u8>>, AllocError>
    requires { 16 ≤ length fragment.now }
    ensures value { IfOk result (λ message. option_map (λ m. m.items) message
        ≡ option_map (λ payload. 0x40 ∷ (spec.head_of fragment.now ++ payload))
        (spec.joined 0 (spec.payload_of fragment.now) ranges.now.items)) }
    ensures header { IfOk result (λ message. IfSome message (λ m. 12 ≤ length m.items)) }
{
    let mut message = Vec::new(alloc);
    message.push(FIRST_BYTE)?;
    message.extend_from_slice(&fragment[1..HEADER_LEN])?;
    let mut at = 0;
    for range in ranges {
        if usize::from(range.offset) != at {
            return Ok(None);
        }
        message.extend_from_slice(range.body.as_slice())?;
        at = usize::from(range.offset) + usize::from(range.units);
    }
    if at == usize::from(number_at(fragment, 2)) {
        Ok(Some(message))
    } else {
        Ok(None)
    }
}

/// The first byte of a request of version 2: R and F are clear.
const FIRST_BYTE: u8 = 0x40;
