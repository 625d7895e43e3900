//! Headers that are made by chance, each with the answer that it was made for.

use super::first_answer;
use floor_proxy::{NamedBy, ProxyRead, ProxyRefusal};
use floor_words::{read_u32, read_u64};
use std::alloc::{AllocError, Global};

/// Names that are none.
const BAD_NAMES: [&str; 20] = [
    "",
    "1",
    "1.",
    ".1",
    ".",
    "01.1",
    "1.01",
    "00.1",
    "+1.1",
    "1.+1",
    "-1.1",
    " 1.1",
    "1 .1",
    "1. 1",
    "1.1 ",
    "4294967296.1",
    "1.65536",
    "1.1.1",
    "1,1",
    "1.1111111111222222222233333333334444444444555555555566666666667777",
];

/// What a header is made for.
#[derive(Clone, Copy)]
enum Aim {
    Named,
    Local,
    WrongSignature,
    WrongCommand,
    WrongFamily,
    TooLong,
    BelowAddresses,
    PassesTheEnd,
    ShortSession,
    PassesTheSession,
    NoSession,
    NoCertificate,
    NotVerified,
    NoName,
    BadName,
}

/// The aims at both doors, and then those at the door by certificates alone.
const AIMS: [Aim; 15] = [
    Aim::Named,
    Aim::Local,
    Aim::WrongSignature,
    Aim::WrongCommand,
    Aim::WrongFamily,
    Aim::TooLong,
    Aim::BelowAddresses,
    Aim::PassesTheEnd,
    Aim::NoName,
    Aim::BadName,
    Aim::ShortSession,
    Aim::PassesTheSession,
    Aim::NoSession,
    Aim::NoCertificate,
    Aim::NotVerified,
];

/// How many aims there are at the door by a unique-id.
const AIMS_BY_ID: u64 = 10;

/// Numbers by chance, the same for one seed.
#[derive(Drop)]
struct Chance {
    state: u64,
}

impl Chance {
    /// A number below the limit.
    fn below(&mut self, limit: u64) -> u64 {
        self.state = self
            .state
            .wrapping_mul(6_364_136_223_846_793_005)
            .wrapping_add(1_442_695_040_888_963_407);
        (self.state >> 33).checked_rem(limit).unwrap_or(0)
    }

    /// A byte below the limit, of at most 256.
    fn byte(&mut self, limit: u64) -> u8 {
        u8::try_from(self.below(limit)).unwrap_or(0)
    }
}

/// The bytes of a header, what is answered of it, and of how many of its bytes.
#[derive(Drop)]
struct Made {
    bytes: Vec<u8>,
    answer: Result<ProxyRead, ProxyRefusal>,
    at: usize,
}

/// What comes of so many headers of a seed, as `1000 7`, each cut at every byte and with a Hello behind: how
/// many were answered as they were made for, up to the first that wasn't.
pub fn by_chance(alloc: Global, named_by: NamedBy, text: &str) -> Result<String, AllocError> {
    let (count, seed) = text.trim().split_once(' ').unwrap_or(("0", "0"));
    let mut chance = Chance {
        state: read_u64(seed).unwrap_or(0),
    };
    for place in 0..read_u32(count).unwrap_or(0) {
        let mut made = header(alloc, &mut chance, named_by)?;
        made.bytes
            .extend_from_slice(b"\x20\x0b\0\0\0\0\0\x01\0\x01\0\x0a")?;
        let found = first_answer(named_by, &made.bytes);
        if found.answer != made.answer || found.at != made.at || found.differs.is_some() {
            return format!(in alloc;
                "header {place}: {:?} at {}, not {:?} at {}\n",
                found.answer, found.at, made.answer, made.at
            );
        }
    }
    format!(in alloc; "{count} headers\n")
}

/// A header by chance.
fn header(alloc: Global, chance: &mut Chance, named_by: NamedBy) -> Result<Made, AllocError> {
    let aims = match named_by {
        NamedBy::Certificate => 15,
        NamedBy::UniqueId => AIMS_BY_ID,
    };
    let place = usize::try_from(chance.below(aims)).unwrap_or(0);
    let aim = AIMS.get(place).copied().unwrap_or(Aim::Named);
    let conference = u32::try_from(chance.below(1 << 31)).unwrap_or(0) >> chance.byte(32).min(31);
    let user = u16::try_from(chance.below(65_536)).unwrap_or(0);
    let mut name = format!(in alloc; "{conference}.{user}")?;
    if let Aim::BadName = aim {
        let place = usize::try_from(chance.below(20)).unwrap_or(0);
        name = String::from_str(alloc, BAD_NAMES.get(place).copied().unwrap_or(""))?;
    }
    let tlvs = tlvs_of(alloc, chance, named_by, aim, name.as_bytes())?;
    let family = chance.byte(4);
    let bytes = with_head(alloc, chance, family, &tlvs)?;
    let len = bytes.len();
    let user = ProxyRead::Named {
        conference,
        user,
        len,
    };
    spoilt(chance, aim, family, bytes, user)
}

/// The bytes before TLVs, and these.
fn with_head(
    alloc: Global,
    chance: &mut Chance,
    family: u8,
    tlvs: &[u8],
) -> Result<Vec<u8>, AllocError> {
    let addresses = match family {
        0 => 0,
        1 => 12,
        2 => 36,
        _ => 216,
    };
    let len = u16::try_from(tlvs.len().saturating_add(addresses)).unwrap_or(0);
    let mut bytes = Vec::from_slice(alloc, b"\r\n\r\n\0\r\nQUIT\n")?;
    bytes.push(0x21)?;
    bytes.push(family.wrapping_mul(16).wrapping_add(chance.byte(16)))?;
    bytes.extend_from_slice(&len.to_be_bytes())?;
    for _ in 0..addresses {
        bytes.push(chance.byte(256))?;
    }
    bytes.extend_from_slice(tlvs)?;
    Ok(bytes)
}

/// The header with a fault in its first 16 bytes where it is made for one, and the answer.
fn spoilt(
    chance: &mut Chance,
    aim: Aim,
    family: u8,
    mut bytes: Vec<u8>,
    user: ProxyRead,
) -> Result<Made, AllocError> {
    let whole = bytes.len();
    let (place, value, answer) = match aim {
        Aim::Named => (whole, 0, Ok(user)),
        Aim::Local => (12, 0x20, Ok(ProxyRead::Local)),
        Aim::WrongSignature => (
            usize::from(chance.byte(12)),
            0x55,
            Err(ProxyRefusal::BadHeader),
        ),
        Aim::WrongCommand => (
            12,
            chance.byte(200).saturating_add(0x22),
            Err(ProxyRefusal::BadHeader),
        ),
        Aim::WrongFamily => (
            13,
            chance.byte(192).saturating_add(0x40),
            Err(ProxyRefusal::BadHeader),
        ),
        Aim::TooLong => (
            14,
            chance.byte(252).saturating_add(0x04),
            Err(ProxyRefusal::BadHeader),
        ),
        Aim::BelowAddresses => (15, chance.byte(12), Err(ProxyRefusal::BadHeader)),
        Aim::PassesTheEnd | Aim::ShortSession | Aim::PassesTheSession => {
            (whole, 0, Err(ProxyRefusal::BadHeader))
        }
        Aim::NoSession | Aim::NoCertificate => (whole, 0, Err(ProxyRefusal::NoCertificate)),
        Aim::NotVerified => (whole, 0, Err(ProxyRefusal::NotVerified)),
        Aim::NoName => (whole, 0, Err(ProxyRefusal::NoName)),
        Aim::BadName => (whole, 0, Err(ProxyRefusal::BadName)),
    };
    // The signature has a 55 itself at place 8, and no addresses are shorter than none.
    let value = if place == 8 { 0x56 } else { value };
    if let Aim::BelowAddresses = aim {
        put(&mut bytes, 14, 0);
        if family == 0 {
            put(&mut bytes, 13, 0x10);
        }
    }
    put(&mut bytes, place, value);
    let at = place.saturating_add(1).min(whole);
    Ok(Made { bytes, answer, at })
}

/// Puts a byte at a place, if there is one.
fn put(bytes: &mut Vec<u8>, place: usize, value: u8) {
    if let Some(byte) = bytes.get_mut(place) {
        *byte = value;
    }
}

/// The TLVs of a header: those that say nothing at the door, the one that counts, and others of its type.
fn tlvs_of(
    alloc: Global,
    chance: &mut Chance,
    named_by: NamedBy,
    aim: Aim,
    name: &[u8],
) -> Result<Vec<u8>, AllocError> {
    let (kind, other) = match named_by {
        NamedBy::Certificate => (0x20, 0x05),
        NamedBy::UniqueId => (0x05, 0x20),
    };
    let value = match named_by {
        NamedBy::Certificate => session(alloc, chance, aim, name)?,
        NamedBy::UniqueId => Vec::from_slice(alloc, name)?,
    };
    let is_there = match (named_by, aim) {
        (_, Aim::NoSession) | (NamedBy::UniqueId, Aim::NoName) => false,
        _ => true,
    };
    let mut tlvs = Vec::new(alloc);
    push_others(&mut tlvs, chance, &[0x01, 0x02, 0x03, 0x04, 0x30, other])?;
    if is_there {
        push_tlv(&mut tlvs, kind, &value)?;
        push_others(&mut tlvs, chance, &[kind, 0x04, other, 0x22])?;
    }
    if let Aim::PassesTheEnd = aim {
        tlvs.extend_from_slice(&[kind, 0, chance.byte(255).saturating_add(1)])?;
    }
    Ok(tlvs)
}

/// What is known of a TLS session.
fn session(
    alloc: Global,
    chance: &mut Chance,
    aim: Aim,
    name: &[u8],
) -> Result<Vec<u8>, AllocError> {
    let mut bytes = Vec::new(alloc);
    let noise = chance
        .byte(32)
        .wrapping_mul(8)
        .wrapping_add(chance.byte(2).wrapping_mul(2));
    let client = match aim {
        Aim::NoCertificate => noise.wrapping_add([0, 1, 4][usize::from(chance.byte(3).min(2))]),
        _ => noise.wrapping_add(5),
    };
    bytes.push(client)?;
    let mut verify = [0u8, 0, 0, 0];
    if let Aim::NotVerified = aim {
        verify[usize::from(chance.byte(4).min(3))] = chance.byte(255).saturating_add(1);
    }
    bytes.extend_from_slice(&verify)?;
    if let Aim::ShortSession = aim {
        bytes.truncate(usize::from(chance.byte(5)));
        return Ok(bytes);
    }
    push_others(&mut bytes, chance, &[0x21, 0x23, 0x24, 0x25, 0x26])?;
    match aim {
        Aim::NoName => {}
        _ => {
            push_tlv(&mut bytes, 0x22, name)?;
            push_others(&mut bytes, chance, &[0x22, 0x21])?;
        }
    }
    if let Aim::PassesTheSession = aim {
        bytes.push(0x22)?;
    }
    Ok(bytes)
}

/// Appends up to three TLVs of these types, with bytes by chance.
fn push_others(bytes: &mut Vec<u8>, chance: &mut Chance, kinds: &[u8]) -> Result<(), AllocError> {
    for _ in 0..chance.byte(4) {
        let mut value = [0u8; 20];
        for byte in value.iter_mut() {
            *byte = chance.byte(256);
        }
        let place = usize::try_from(chance.below(6)).unwrap_or(0);
        let kind = kinds.get(place).copied().unwrap_or(0xff);
        let len = usize::from(chance.byte(21));
        push_tlv(bytes, kind, value.get(..len).unwrap_or(&[]))?;
    }
    Ok(())
}

/// Appends a TLV.
fn push_tlv(bytes: &mut Vec<u8>, kind: u8, value: &[u8]) -> Result<(), AllocError> {
    bytes.push(kind)?;
    bytes.extend_from_slice(&u16::try_from(value.len()).unwrap_or(0).to_be_bytes())?;
    bytes.extend_from_slice(value)
}
