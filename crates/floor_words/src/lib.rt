//! Lines of text, the words of a line, and what a word says as a number or in hexadecimal.
//!
//! Whatever reads lines for this server reads them by these calls, so that a line says the same to
//! each program. The formats are our choice: RFC 8855 has none for people. The crate stands on
//! `hex` alone, and does no input or output.
#![tactic(auto)]

mod hexadecimal;
mod laws;
mod line;
mod number;
mod word;

pub use hexadecimal::{HexadecimalFault, read_hexadecimal};
pub use laws::{
    first_words_are_cut_off, numbers_are_read_back, texts_begin_with_a_word, words_are_plain,
    words_are_read_back,
};
pub use line::{Cut, cut_line};
pub use number::{read_u16, read_u32, read_u64};
pub use word::{CutWord, cut_word, from_first_word, words};
