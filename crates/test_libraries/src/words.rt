//! Words, numbers, hexadecimal and lines, as tables of one text each.

use crate::cases::{assert_told, differing, push_shown};
use floor_words::{
    HexadecimalFault, cut_line, read_hexadecimal, read_u16, read_u32, read_u64, words,
};
use std::alloc::{AllocError, Global};

/// A line, and its words with a comma between each two.
const WORDS: &str = "attach 1 10=attach,1,10
  send  2   20 0b =send,2,20,0b
hello=hello
 =
=
a\tb=a\tb
\u{a0}x\u{2003}y=\u{a0}x\u{2003}y
# no comment here=#,no,comment,here";

#[test]
fn spaces_alone_part_words(rt: HostRuntime) {
    let told = differing(rt.alloc(), WORDS, "\n", "=", joined);
    assert_told(&rt, told, "8 cases");
}

fn joined(alloc: Global, line: &str) -> Result<String, AllocError> {
    let mut text = String::new(alloc);
    for word in &words(alloc, line)? {
        if !text.is_empty() {
            text.push(',')?;
        }
        text.push_str(word)?;
    }
    Ok(text)
}

/// A word, and the numbers of 16 and 32 bits and of ten digits that it writes.
const NUMBERS: &str = "0= 0 0 0
007= 7 7 7
65535= 65535 65535 65535
0000065535= 65535 65535 65535
00000065535= - - -
65536= - 65536 65536
4294967295= - 4294967295 4294967295
4294967296= - - 4294967296
9999999999= - - 9999999999
10000000000= - - -
18446744073709551616= - - -
= - - -
+1= - - -
-1= - - -
1a= - - -
0x1= - - -
1 = - - -
\u{663}= - - -";

#[test]
fn numbers_are_one_to_ten_digits(rt: HostRuntime) {
    let told = differing(rt.alloc(), NUMBERS, "\n", "=", numbers);
    assert_told(&rt, told, "18 cases");
}

fn numbers(alloc: Global, word: &str) -> Result<String, AllocError> {
    let mut text = String::new(alloc);
    push_shown(&mut text, read_u16(word))?;
    push_shown(&mut text, read_u32(word))?;
    push_shown(&mut text, read_u64(word))?;
    Ok(text)
}

/// Words of hexadecimal, and the bytes that they spell, or the fault.
const SPELLED: &str = "200b0000=200b0000
20 0B 0 000=200b0000
fF=ff
=
2=BadHex
20 0=BadHex
2g=BadHex
0x20=BadHex";

#[test]
fn words_of_hexadecimal_are_joined(rt: HostRuntime) {
    let told = differing(rt.alloc(), SPELLED, "\n", "=", spelled);
    assert_told(&rt, told, "8 cases");
    assert!(rt; HexadecimalFault::Memory.name() == "Memory");
}

fn spelled(alloc: Global, line: &str) -> Result<String, AllocError> {
    match read_hexadecimal(alloc, &words(alloc, line)?) {
        Ok(bytes) => hex::encode(alloc, bytes.as_slice()),
        Err(fault) => String::from_str(alloc, fault.name()),
    }
}

#[test]
fn a_line_ends_with_a_line_feed(rt: HostRuntime) {
    let told = lines(rt.alloc(), "one\r\n\ntwo\r\r\n\r\n a\rb \nlast\r");
    assert_told(&rt, told, "one||two\r|| a\rb |last\r|");
}

/// The lines of a text, with a bar behind each.
fn lines(alloc: Global, text: &str) -> Result<String, AllocError> {
    let mut rest = text;
    let mut found = String::new(alloc);
    for _ in 0..9 {
        match cut_line(rest) {
            None => break,
            Some(cut) => {
                found.push_str(cut.line)?;
                found.push('|')?;
                rest = cut.rest;
            }
        }
    }
    Ok(found)
}
