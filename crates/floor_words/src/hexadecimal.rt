//! Words as hexadecimal.

ghost use Rattle.std.specs.Prelude.{◌≡◌, ◌⊎◌, IfErr, IfOk, None, Some, map};
ghost use Rattle.floor_words.specs.Words.{joined, spelled};
ghost use Rattle.floor_words.specs.declared.hexadecimal.HexadecimalFault.TheVariants.{BadHex, Memory};

use hex::FromHexError;
use std::alloc::{AllocError, AllocFailed, Global};

/// Why words spell no bytes.
#[derive(Clone, Copy, Debug, PartialEq, Eq)]
pub enum HexadecimalFault {
    /// Joined, they have another character than a hexadecimal digit, or an odd count of digits.
    BadHex,
    /// Memory was refused.
    Memory,
}

impl HexadecimalFault {
    ghost use Rattle.floor_words.specs.Names.{name_of_hexadecimal_fault};

    /// The name that is printed.
    pub fn name(&self) -> &'static str
        ensures { result.now ≡ name_of_hexadecimal_fault self.now }
    {
        match self {
            HexadecimalFault::BadHex => "BadHex",
            HexadecimalFault::Memory => "Memory",
        }
    }
}

impl From<AllocError> for HexadecimalFault {
    ghost use Rattle.std.specs.Prelude.{◌≡◌};
    ghost use Rattle.floor_words.specs.declared.hexadecimal.HexadecimalFault.TheVariants.{Memory};

    ghost from_gives = { λ _ e. e ≡ Memory };

    fn from(_e: AllocError) -> HexadecimalFault {
        HexadecimalFault::Memory
    }
}

impl<T: Drop> From<AllocFailed<T>> for HexadecimalFault {
    ghost use Rattle.std.specs.Prelude.{◌≡◌};
    ghost use Rattle.floor_words.specs.declared.hexadecimal.HexadecimalFault.TheVariants.{Memory};

    ghost from_gives = { λ _ e. e ≡ Memory };

    fn from(_e: AllocFailed<T>) -> HexadecimalFault {
        HexadecimalFault::Memory
    }
}

/// The bytes that words of hexadecimal spell together, in either case: only the joined digits have
/// to be even in number. Else `BadHex`.
pub fn read_hexadecimal(alloc: Global, words: &[&str]) -> Result<Vec<u8>, HexadecimalFault>
    ensures value { IfOk result
        (λ bytes. spelled (map (λ w. w.now) words.now) ≡ Some bytes.items) }
    ensures refused { IfErr result
        (λ fault. (fault ≡ Memory)
        ⊎ (fault ≡ BadHex) × (spelled (map (λ w. w.now) words.now) ≡ None)) }
{
    let text = join(alloc, words)?;
    match hex::decode(alloc, text.as_slice()) {
        Ok(bytes) => Ok(bytes),
        Err(FromHexError::OutOfMemory) => Err(HexadecimalFault::Memory),
        Err(_) => Err(HexadecimalFault::BadHex),
    }
}

/// The bytes of words, one word behind another.
fn join(alloc: Global, words: &[&str]) -> Result<Vec<u8>, AllocError>
    ensures { IfOk result (λ text. text.items ≡ joined (map (λ w. w.now) words.now)) }
{
    let mut text = Vec::new(alloc);
    for word in words {
        text.extend_from_slice(word.as_bytes())?;
    }
    Ok(text)
}
