//! Inputs that come in pieces, end, fail, or are no text.

use super::peer::Peer;
use crate::lines::{Input, Lines};
use std::alloc::Global;
use std::test::Fail;

/// The lines of an input, each behind a `|`.
fn shown(alloc: Global, bytes: &[u8], piece: usize, fails: bool) -> Result<String, Fail> {
    let mut input = Peer::new(alloc, bytes, piece);
    input.fails = fails;
    let mut lines = Lines::new(alloc, &mut input);
    let mut shown = String::new(alloc);
    for _ in 0..100 {
        let Some(line) = lines.next()? else {
            break;
        };
        shown.push('|')?;
        shown.push_str(line.as_str())?;
    }
    Ok(shown)
}

#[test]
fn lines_end_with_a_line_feed(rt: HostRuntime) -> Result<(), Fail> {
    let cases: [(&[u8], &str); 9] = [
        (b"", ""),
        (b"\n", "|"),
        (b"a", "|a"),
        (b"a\n", "|a"),
        (b"a\r\n\nb\r\r\n c ", "|a||b\r| c "),
        (b"a\rb\r", "|a\rb\r"),
        (b"a\n\xff\nb\n", "|a"),
        (b"a\nb\xff", "|a"),
        (b"h\xc3\xa9\nb", "|h\u{e9}|b"),
    ];
    for (bytes, wanted) in cases {
        for piece in 1..6 {
            for fails in [false, true] {
                let found = shown(rt.alloc(), bytes, piece, fails)?;
                assert_eq!(rt; found.as_str(), wanted, "{bytes:?} in pieces of {piece}");
            }
        }
    }
    Ok(())
}
