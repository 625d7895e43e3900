//! The words of a line, all of them or one after another.

ghost use Rattle.std.specs.Prelude.{◌≡◌, IfOk, MatchOption, map};
ghost use Rattle.floor_words.specs.Words.{from_first_word, words, HasNoWord, IsCutWord};

use std::alloc::{AllocError, Global};

/// The first word of a text, and the text behind it.
#[derive(Clone, Copy, Debug)]
pub struct CutWord<'a> {
    /// The word. It isn't empty, and has no space.
    pub word: &'a str,
    /// What stands behind the space that ends the word.
    pub rest: &'a str,
}

/// The words of a line, in order. Spaces alone part them: several are one, and those at the ends
/// part nothing.
pub fn words<'a>(alloc: Global, line: &'a str) -> Result<Vec<&'a str>, AllocError>
    ensures { IfOk result (λ found. map (λ w. w.now) found.items ≡ words line.now) }
{
    line.split(' ')
        .filter(|word| !word.is_empty())
        .collect(alloc)
}

/// Cuts the first word off a text; `None` where it has none.
///
/// What stands behind is the text as it was, its spaces among it: whoever wants the words alone goes on
/// by cutting, and whoever wants a text with spaces takes it by `from_first_word`.
pub fn cut_word<'a>(text: &'a str) -> Option<CutWord<'a>>
    ensures { MatchOption result (HasNoWord text.now) (IsCutWord text.now) }
{
    let text = from_first_word(text);
    if text.is_empty() {
        return None;
    }
    match text.split_once(' ') {
        None => Some(CutWord {
            word: text,
            rest: "",
        }),
        Some((word, rest)) => Some(CutWord { word, rest }),
    }
}

/// A text without the spaces that stand before its first word.
pub fn from_first_word(text: &str) -> &str
    ensures { result.now ≡ from_first_word text.now }
{
    text.trim_start_matches(' ')
}
