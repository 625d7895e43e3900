//! The lines of a text.

ghost use Rattle.std.specs.Prelude.{◌≡◌, ◌<◌, [], length, MatchOption};
ghost use Rattle.std.specs.Str.Lines.{strip_carriage_return};
ghost use Rattle.floor_words.specs.Lines.{IsCut};

/// The first line of a text, and the text behind it.
#[derive(Clone, Copy, Debug)]
pub struct Cut<'a> {
    /// The line, without its line feed and without one carriage return before that.
    pub line: &'a str,
    /// What follows the line feed.
    pub rest: &'a str,
}

/// Cuts the first line off a text; `None` where the text is empty. The last line may lack its line
/// feed, and then keeps a carriage return at its end.
///
/// What is left is shorter, so a text is read line by line by cutting what is left, and no list of
/// lines is kept.
pub fn cut_line<'a>(text: &'a str) -> Option<Cut<'a>>
    ensures value { MatchOption result (text.now ≡ []) (IsCut text.now) }
    ensures shorter { MatchOption result (text.now ≡ [])
        (λ cut. length cut.rest.now < length text.now) }
{
    if text.is_empty() {
        return None;
    }
    match text.split_once('\n') {
        None => Some(Cut {
            line: text,
            rest: "",
        }),
        Some((line, rest)) => Some(Cut {
            line: without_return(line),
            rest,
        }),
    }
}

/// A line without one carriage return at its end.
fn without_return(line: &str) -> &str
    ensures { result.now ≡ strip_carriage_return line.now }
{
    line.strip_suffix('\r').unwrap_or(line)
}
