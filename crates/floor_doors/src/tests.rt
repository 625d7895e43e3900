ghost use Rattle.std.specs.Prelude.{◌<◌};

use crate::{DoorRefusal, MAX_HEADER_MICROS, NamedBy, Newcomer, ProxyRefusal, Verdict};
use std::alloc::{AllocError, Global};

/// The header of 7.65535 by a unique-id, without addresses: it has 26 bytes.
const HEADER: &[u8] = b"\r\n\r\n\0\r\nQUIT\n\x21\x00\x00\x0a\x05\x00\x077.65535";

/// Who comes in where the bytes come in pieces of this length, and the user's bytes behind the header.
fn heard(alloc: Global, bytes: &[u8], length: usize) -> Result<(Verdict, Vec<u8>), AllocError>
    requires { 0 < length }
{
    let mut newcomer = Newcomer::new(alloc, NamedBy::UniqueId, 0);
    let mut rest = Vec::new(alloc);
    let mut answer = Verdict::Wait;
    for piece in bytes.chunks(length) {
        match answer {
            Verdict::Wait => {
                answer = newcomer.came(piece);
                if let Verdict::Enter { at, .. } = answer {
                    rest.extend_from_slice(piece.get(at..).unwrap_or(&[]))?;
                }
            }
            Verdict::Enter { .. } => rest.extend_from_slice(piece)?,
            Verdict::LetGo | Verdict::Refuse(_) => {}
        }
    }
    Ok((answer, rest))
}

#[test]
fn a_header_cut_anywhere_lets_its_user_in_with_what_stands_behind(
    rt: HostRuntime,
) -> Result<(), AllocError> {
    let alloc = rt.alloc();
    let mut bytes = Vec::from_slice(alloc, HEADER)?;
    bytes.extend_from_slice(b"what is the user's")?;
    for length in 1..=bytes.len() {
        let (answer, rest) = heard(alloc, bytes.as_slice(), length)?;
        let Verdict::Enter {
            conference,
            user,
            ..
        } = answer
        else {
            assert!(rt; false, "in pieces of {length}");
            return Ok(());
        };
        assert_eq!(rt; conference, 7, "in pieces of {length}");
        assert_eq!(rt; user, 65_535, "in pieces of {length}");
        assert_eq!(rt;
            rest.as_slice(),
            b"what is the user's".as_slice(),
            "in pieces of {length}"
        );
    }
    Ok(())
}

#[test]
fn who_sends_no_header_is_refused_by_its_name(rt: HostRuntime) -> Result<(), AllocError> {
    let cases: [(&str, &[u8], &str); 4] = [
        ("a message", b"\x20\x0b\x00\x00", "BadHeader"),
        (
            "a name that is none",
            b"\r\n\r\n\0\r\nQUIT\n\x21\x00\x00\x05\x05\x00\x027.",
            "BadName",
        ),
        ("no name", b"\r\n\r\n\0\r\nQUIT\n\x21\x00\x00\x00", "NoName"),
        (
            "more than 1,008 bytes",
            b"\r\n\r\n\0\r\nQUIT\n\x21\x00\x03\xf1",
            "BadHeader",
        ),
    ];
    for (name, bytes, wanted) in cases {
        match heard(rt.alloc(), bytes, 5)?.0 {
            Verdict::Refuse(refusal) => assert_eq!(rt; refusal.name(), wanted, "{name}"),
            _ => assert!(rt; false, "{name}"),
        }
    }
    let (answer, rest) = heard(rt.alloc(), b"\r\n\r\n\0\r\nQUIT\n\x20 a probe", 30)?;
    assert_eq!(rt; answer, Verdict::LetGo);
    assert!(rt; rest.is_empty());
    assert_eq!(rt;
        DoorRefusal::ByHeader(ProxyRefusal::BadName).name(),
        "BadName"
    );
    assert_eq!(rt; DoorRefusal::Memory.name(), "Memory");
    Ok(())
}

#[test]
fn a_header_has_five_seconds_and_time_that_goes_back_ends_nobody(rt: HostRuntime) {
    let mut newcomer = Newcomer::new(rt.alloc(), NamedBy::Certificate, 7);
    let refused = Verdict::Refuse(DoorRefusal::NoHeader);
    assert_eq!(rt; newcomer.until(), 5_000_007);
    assert_eq!(rt; newcomer.time(5_000_006), Verdict::Wait);
    assert_eq!(rt; newcomer.time(3), Verdict::Wait);
    assert_eq!(rt; newcomer.came(b"\r\n\r\n"), Verdict::Wait);
    assert_eq!(rt; newcomer.time(5_000_007), refused);
    assert_eq!(rt; newcomer.ended(), refused);
    let late = Newcomer::new(
        rt.alloc(),
        NamedBy::Certificate,
        u64::MAX - MAX_HEADER_MICROS / 2,
    );
    assert_eq!(rt; late.until(), u64::MAX);
}
