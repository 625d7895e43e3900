//! Headers of proxies: what is answered of them, and of how many of their bytes.

mod made;

use floor_proxy::{NamedBy, ProxyRead, ProxyRefusal, read_proxy};
use floor_words::{HexadecimalFault, read_hexadecimal, read_u16};
pub use made::by_chance;
use std::alloc::{AllocError, Global};

/// What is answered of the bytes of a text, as `NoName at 28`: the answer of the first so many bytes, and of
/// all fronts that have more. Words are hexadecimal; `signature` stands for a header's first 12 bytes,
/// `216*00` for a byte so many times, and `=1.10` for the bytes behind the sign.
pub fn answered(alloc: Global, named_by: NamedBy, text: &str) -> Result<String, AllocError> {
    match bytes_of(alloc, text)? {
        None => String::from_str(alloc, "no bytes\n"),
        Some(bytes) => told(alloc, named_by, &bytes),
    }
}

fn told(alloc: Global, named_by: NamedBy, bytes: &[u8]) -> Result<String, AllocError> {
    let found = first_answer(named_by, bytes);
    let (answer, at) = (text_of(alloc, found.answer)?, found.at);
    match found.differs {
        Some(differs) => format!(in alloc;
            "{} at {at}, and another at {differs}\n",
            answer.as_str()
        ),
        None if is_more(&found.answer) => format!(in alloc; "{}\n", answer.as_str()),
        None => format!(in alloc; "{} at {at}\n", answer.as_str()),
    }
}

/// What is answered of the fronts of some bytes.
#[derive(Drop)]
pub struct Found {
    /// The first answer but that more are wanted; that more are wanted where there is none.
    pub answer: Result<ProxyRead, ProxyRefusal>,
    /// Of how many bytes.
    pub at: usize,
    /// Of how many bytes another is answered, behind them, if it is.
    pub differs: Option<usize>,
}

/// Asks of each front of the bytes, from none of them on.
pub fn first_answer(named_by: NamedBy, bytes: &[u8]) -> Found {
    let mut found = Found {
        answer: Ok(ProxyRead::More),
        at: bytes.len(),
        differs: None,
    };
    for count in 0..=bytes.len() {
        let answer = read_proxy(named_by, bytes.get(..count).unwrap_or(bytes));
        if is_more(&found.answer) {
            found.at = count;
            found.answer = answer;
        } else if answer != found.answer && found.differs.is_none() {
            found.differs = Some(count);
        }
    }
    found
}

fn is_more(answer: &Result<ProxyRead, ProxyRefusal>) -> bool {
    match answer {
        Ok(ProxyRead::More) => true,
        _ => false,
    }
}

fn text_of(alloc: Global, answer: Result<ProxyRead, ProxyRefusal>) -> Result<String, AllocError> {
    match answer {
        Ok(ProxyRead::More) => String::from_str(alloc, "more"),
        Ok(ProxyRead::Local) => String::from_str(alloc, "local"),
        Ok(
            ProxyRead::Named {
                conference,
                user,
                len,
            },
        ) => format!(in alloc; "conference {conference} user {user} len {len}"),
        Err(refusal) => format!(in alloc; "{refusal}"),
    }
}

/// The bytes that a text spells, if it does.
fn bytes_of(alloc: Global, text: &str) -> Result<Option<Vec<u8>>, AllocError> {
    let mut bytes = Vec::new(alloc);
    for line in text.lines() {
        for word in line.split(' ') {
            if !push_word(alloc, &mut bytes, word)? {
                return Ok(None);
            }
        }
    }
    Ok(Some(bytes))
}

/// Appends the bytes of a word; false where it has none.
fn push_word(alloc: Global, bytes: &mut Vec<u8>, word: &str) -> Result<bool, AllocError> {
    if word == "signature" {
        bytes.extend_from_slice(b"\r\n\r\n\0\r\nQUIT\n")?;
        return Ok(true);
    }
    if let Some(text) = word.strip_prefix("=") {
        bytes.extend_from_slice(text.as_bytes())?;
        return Ok(true);
    }
    let (count, digits) = match word.split_once('*') {
        None => (1, word),
        Some((count, digits)) => (read_u16(count).unwrap_or(0), digits),
    };
    match read_hexadecimal(alloc, &[digits]) {
        Ok(piece) => {
            for _ in 0..count {
                bytes.extend_from_slice(&piece)?;
            }
            Ok(true)
        }
        Err(HexadecimalFault::Memory) => Err(AllocError),
        Err(HexadecimalFault::BadHex) => Ok(false),
    }
}
