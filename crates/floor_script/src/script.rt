//! A text as a configuration and the lines of a script.

ghost use Rattle.std.specs.Prelude.{◌≡◌, ◌+◌, ◌^◌, ◌<◌, [], ◌∷◌, length, IfSome, IsNone, MatchOption};
ghost use Rattle.std.specs.Str.Lines.{lines};
ghost use Rattle.std.specs.Option.{option_map};
ghost use Rattle.floor_words.specs.Lines.{behind, first_line};
ghost use Rattle.floor_script.specs.Script.{configuration_of, lines_passed, script_of, is_divider};

use floor_words::cut_line;

/// How often a loop over the input turns at most.
pub const MAX_TURNS: u32 = 100_000_000;

/// A line, with its number in the whole text, counted from 1.
#[derive(Clone, Copy, Debug)]
pub struct Line<'a> {
    pub number: u64,
    pub text: &'a str,
}

/// The lines of a text that are still to be read.
#[derive(Clone, Copy, Debug)]
pub struct Lines<'a> {
    /// How many lines were read.
    read: u64,
    /// What follows them.
    rest: &'a str,
    ghost counted: { read + length rest.now < 2 ^ 64 },
}

impl<'a> Lines<'a> {
    fn of_text(text: &'a str) -> Lines<'a>
        ensures read { result.read ≡ 0 }
        ensures rest { result.rest.now ≡ text.now }
    {
        Lines {
            read: 0,
            rest: text,
        }
    }

    /// The next line. A carriage return before its line feed is dropped.
    pub fn cut(&mut self) -> Option<Line<'a>>
        ensures line { MatchOption result (self.old.rest.now ≡ [])
            (λ line. (line.number ≡ self.old.read + 1)
            × (line.text.now ≡ first_line self.old.rest.now)) }
        ensures next { IfSome result (λ _. (self.new.read ≡ self.old.read + 1)
            × (self.new.rest.now ≡ behind self.old.rest.now)) }
        ensures lines { IfSome result (λ line. lines self.old.rest.now
            ≡ line.text.now ∷ lines self.new.rest.now) }
        ensures shorter { IfSome result
            (λ _. length self.new.rest.now < length self.old.rest.now) }
        ensures none { IsNone result → self.new ≡ self.old }
    {
        let cut = cut_line(self.rest)?;
        self.read += 1;
        self.rest = cut.rest;
        Some(Line {
            number: self.read,
            text: cut.line,
        })
    }
}

/// A configuration, where the text has one, and the lines of the script.
#[derive(Clone, Copy, Debug)]
pub struct Script<'a> {
    pub configuration: Option<&'a str>,
    pub lines: Lines<'a>,
}

impl<'a> Script<'a> {
    /// The script of a text. The first line that is the divider ends the configuration.
    pub fn of_text(text: &'a str) -> Script<'a>
        ensures configuration { option_map (λ c. c.now) result.configuration
            ≡ configuration_of text.now }
        ensures lines { result.lines.rest.now ≡ script_of text.now }
        ensures numbers { result.lines.read ≡ lines_passed text.now }
    {
        let mut lines = Lines::of_text(text);
        loop {
            let left = lines.rest;
            match lines.cut() {
                None => {
                    return Script {
                        configuration: None,
                        lines: Lines::of_text(text),
                    };
                }
                Some(line) => {
                    if is_divider(line.text) {
                        return Script {
                            configuration: text.strip_suffix(left),
                            lines,
                        };
                    }
                }
            }
        }
    }
}

/// Whether a line divides a configuration from a script.
fn is_divider(line: &str) -> bool
    ensures { result ≡ is_divider line.now }
{
    line == "---"
}
