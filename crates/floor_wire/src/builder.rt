//! A message that is built attribute by attribute, in the one canonical spelling (RFC 8855, sections
//! 5.1 and 5.2).

ghost use Rattle.std.specs.Prelude.{◌≡◌, ◌<◌, ◌≤◌, ◌+◌, ◌*◌, ◌/◌, ◌++◌, ◌∷◌, ℕ, List, length, map, false, All, IfOk, OnOk};
ghost use Rattle.floor_wire.specs.Attributes.{Attributes, no_attributes, attribute, num, pair, group, octets};
ghost use Rattle.floor_wire.specs.Header.{header_bytes};
ghost use Rattle.floor_wire.specs.Message.{IsMessage};
ghost use Rattle.floor_wire.specs.Spelling.{canon, format_of, IsWritable};
ghost use Rattle.floor_wire.specs.View.{attributes_of};
ghost use Rattle.floor_wire.specs.declared.format.Format.TheVariants.{Unsigned16, OctetString16, Grouped, OctetString};

use crate::attribute::Attr;
use crate::fits::payload_len;
use crate::frame::Frame;
use crate::header::HEADER_LEN;
use crate::laws::what_is_written_is_a_message;
use crate::shared::SharedFrame;
use crate::write::{padding, put_list};
use bytes::Bytes;
use std::alloc::{AllocError, Global};
use std::marker::Model;

/// Ver 1, with the R, F and reserved bits clear.
const FIRST_HEADER_BYTE: u8 = 0x20;

/// The bytes of a message as far as it is built: its header, and attributes behind it.
///
/// `new` takes the memory for all of it, and writes the header. `put_number`, `put_pair`,
/// `put_octets`, `put_two` and `put_types` add an attribute at the end, with M clear and zeros for
/// padding. `begin_group` adds a group with nothing inside; `end_group` makes it hold what was put
/// since. `finish` gives the message, and `finish_alone` gives it for one user alone. What is left
/// after an `Err` is of no more use.
#[derive(Debug, Drop)]
pub struct FrameBuilder {
    bytes: Vec<u8>,
}

impl Model for FrameBuilder {
    ghost use Rattle.std.specs.Prelude.{ℕ, List};

    ghost Value = { List ℕ };

    ghost view = { λ b. b.bytes.items };
}

impl FrameBuilder {
    /// The header of a message with this Payload Length, in bytes: version 1, the R, F and reserved
    /// bits clear. Takes memory for the whole message, in one buffer.
    pub fn new(
        alloc: Global,
        primitive: u8,
        conference: u32,
        transaction: u16,
        user: u16,
        payload_len: usize,
    ) -> Result<FrameBuilder, AllocError>
        requires { payload_len ≤ 4 * 65535 }
        ensures { IfOk result (λ message. message
            ≡ header_bytes primitive (payload_len / 4) conference transaction user) }
    {
        let mut bytes = Vec::with_capacity(alloc, HEADER_LEN + payload_len)?;
        let units = ((payload_len / 4) as u16).to_be_bytes();
        let conference = conference.to_be_bytes();
        let transaction = transaction.to_be_bytes();
        let user = user.to_be_bytes();
        bytes.extend_from_slice(&[
            FIRST_HEADER_BYTE,
            primitive,
            units[0],
            units[1],
            conference[0],
            conference[1],
            conference[2],
            conference[3],
            transaction[0],
            transaction[1],
            user[0],
            user[1],
        ])?;
        Ok(FrameBuilder { bytes })
    }

    /// Adds an attribute that is a number.
    pub fn put_number(&mut self, kind: u8, number: u16) -> Result<(), AllocError>
        requires known { kind < 128 }
        requires format { format_of kind ≡ Unsigned16 }
        ensures { OnOk result (self.new
            ≡ self.old ++ canon (attribute kind false (num number) no_attributes)) }
    {
        let [high, low] = number.to_be_bytes();
        self.bytes.extend_from_slice(&[2 * kind, 4, high, low])
    }

    /// Adds an attribute that is two bytes.
    pub fn put_pair(&mut self, kind: u8, first: u8, second: u8) -> Result<(), AllocError>
        requires known { kind < 128 }
        requires format { format_of kind ≡ OctetString16 }
        ensures { OnOk result (self.new
            ≡ self.old ++ canon (attribute kind false (pair first second) no_attributes)) }
    {
        self.bytes.extend_from_slice(&[2 * kind, 4, first, second])
    }

    /// Adds an attribute that is octets, at most 253.
    pub fn put_octets(&mut self, kind: u8, bytes: &[u8]) -> Result<(), AllocError>
        requires known { kind < 128 }
        requires format { format_of kind ≡ OctetString }
        requires fits { length bytes.now ≤ 253 }
        ensures { OnOk result (self.new
            ≡ self.old ++ canon (attribute kind false (octets bytes.now) no_attributes)) }
    {
        self.bytes
            .extend_from_slice(&[2 * kind, 2 + bytes.len() as u8])?;
        self.bytes.extend_from_slice(bytes)?;
        self.bytes.extend_from_slice(padding(bytes.len()))
    }

    /// Adds an attribute that is octets, at most 253: those of a front, and then others.
    pub fn put_two(&mut self, kind: u8, front: &[u8], others: &[u8]) -> Result<(), AllocError>
        requires known { kind < 128 }
        requires format { format_of kind ≡ OctetString }
        requires fits { length front.now + length others.now ≤ 253 }
        ensures { OnOk result (self.new ≡ self.old
            ++ canon (attribute kind false (octets (front.now ++ others.now)) no_attributes)) }
    {
        let len = front.len() + others.len();
        self.bytes.extend_from_slice(&[2 * kind, 2 + len as u8])?;
        self.bytes.extend_from_slice(front)?;
        self.bytes.extend_from_slice(others)?;
        self.bytes.extend_from_slice(padding(len))
    }

    /// Adds an attribute that is types of attributes, at most 253, each in the upper 7 bits of a
    /// byte.
    pub fn put_types(&mut self, kind: u8, types: &[u8]) -> Result<(), AllocError>
        requires known { kind < 128 }
        requires format { format_of kind ≡ OctetString }
        requires range { All (λ t. t < 128) types.now }
        requires fits { length types.now ≤ 253 }
        ensures { OnOk result (self.new ≡ self.old
            ++ canon (attribute kind false (octets (map (λ t. 2 * t) types.now)) no_attributes)) }
    {
        self.bytes
            .extend_from_slice(&[2 * kind, 2 + types.len() as u8])?;
        for each in types {
            self.bytes.push(2 * *each)?;
        }
        self.bytes.extend_from_slice(padding(types.len()))
    }

    /// Adds a group with nothing inside, and tells where it begins.
    pub fn begin_group(&mut self, kind: u8, number: u16) -> Result<usize, AllocError>
        requires known { kind < 128 }
        requires format { format_of kind ≡ Grouped }
        ensures { IfOk result (λ start. (start ≡ length self.old) × (self.new ≡ self.old
            ++ canon (attribute kind false (group number no_attributes) no_attributes))) }
    {
        let start = self.bytes.len();
        let number = number.to_be_bytes();
        self.bytes
            .extend_from_slice(&[2 * kind, 4, number[0], number[1]])?;
        Ok(start)
    }

    /// Makes the group that begins there hold what was put behind it, so that all of it has at most
    /// 255 bytes.
    pub fn end_group(&mut self, start: usize)
        requires begun { start + 1 < length self.old }
        requires fits { length self.old < start + 256 }
        ensures { (before : List ℕ) (kind number : ℕ) (inside : Attributes) → start ≡ length before
            → self.old ≡ before
            ++ canon (attribute kind false (group number no_attributes) no_attributes)
            ++ canon inside
            → self.new ≡ before
            ++ canon (attribute kind false (group number inside) no_attributes) }
    {
        let len = self.bytes.len() - start;
        self.bytes[start + 1] = len as u8;
    }

    /// Adds attributes as they are written, each with M clear at the types 1 to 18.
    pub(crate) fn put_all(&mut self, attrs: &[Attr]) -> Result<(), AllocError>
        requires { IsWritable (attributes_of attrs.now) }
        ensures { OnOk result (self.new ≡ self.old ++ canon (attributes_of attrs.now)) }
    {
        put_list(&mut self.bytes, attrs)
    }

    /// The message, which has to be whole: as long as its header announces.
    pub fn finish(self) -> Result<Frame, AllocError>
        requires { IsMessage self }
        ensures { IfOk result (λ frame. frame ≡ self) }
    {
        let bytes = Bytes::from_vec(self.bytes)?;
        Ok(Frame::new(bytes))
    }

    /// The message, which has to be whole, for one user alone. Takes no memory.
    pub fn finish_alone(self) -> SharedFrame
        requires { IsMessage self }
        ensures { result ≡ self }
    {
        SharedFrame::alone(self.bytes)
    }
}

impl Frame {
    /// The message with this header and these attributes, in their one canonical spelling: version
    /// 1, the R, F and reserved bits clear, zeros for padding, and M clear at the types 1 to 18.
    pub fn of_attributes(
        alloc: Global,
        primitive: u8,
        conference: u32,
        transaction: u16,
        user: u16,
        attrs: &[Attr],
    ) -> Result<Frame, AllocError>
        requires writable { IsWritable (attributes_of attrs.now) }
        requires fits { length (canon (attributes_of attrs.now)) ≤ 4 * 65535 }
        ensures value { let payload = canon (attributes_of attrs.now) in
            IfOk result (λ frame. frame
            ≡ header_bytes primitive (length payload / 4) conference transaction user ++ payload) }
    {
        what_is_written_is_a_message();
        let len = payload_len(attrs);
        let mut message = FrameBuilder::new(alloc, primitive, conference, transaction, user, len)?;
        message.put_all(attrs)?;
        message.finish()
    }
}
