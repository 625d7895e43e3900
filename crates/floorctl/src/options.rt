//! The words in front of a command.

ghost use Rattle.std.specs.Prelude.{◌≡◌};
ghost use Rattle.floorctl.specs.Words as spec;

/// Where floorhub's units have the socket.
const SOCKET: &str = "/run/floorhub/control";

/// What a word in front of a command says.
#[derive(Clone, Copy, Debug, PartialEq, Eq)]
pub enum Leading {
    /// Lines are shown as they come.
    Json,
    /// The next word is the socket's path.
    Socket,
    /// There is no such option.
    Unknown,
    /// It begins the command.
    Command,
}

/// What the words in front of a command say.
#[derive(Clone, Copy, Debug)]
pub struct Options<'a> {
    pub socket: &'a str,
    pub is_json: bool,
    /// The words of the command.
    pub command: &'a [String],
}

/// What the words in front say; the word that is no option, or has nothing behind it, is an `Err`.
pub fn options_of(words: &[String]) -> Result<Options<'_>, &str> {
    options_in(words, SOCKET, false)
}

/// What words say behind those that said so much.
fn options_in<'a>(
    words: &'a [String],
    socket: &'a str,
    is_json: bool,
) -> Result<Options<'a>, &'a str> {
    let Some((first, rest)) = words.split_first() else {
        return Ok(Options {
            socket,
            is_json,
            command: words,
        });
    };
    let word = first.as_str();
    match leading_of(word) {
        Leading::Json => options_in(rest, socket, true),
        Leading::Socket => match rest.split_first() {
            Some((path, behind)) => options_in(behind, path.as_str(), is_json),
            None => Err(word),
        },
        Leading::Unknown => Err(word),
        Leading::Command => Ok(Options {
            socket,
            is_json,
            command: words,
        }),
    }
}

/// What a word says.
pub fn leading_of(word: &str) -> Leading
    ensures value { result ≡ spec.leading_of word.now }
{
    if word == "--json" {
        return Leading::Json;
    }
    if word == "--socket" {
        return Leading::Socket;
    }
    if is_option(word) {
        return Leading::Unknown;
    }
    Leading::Command
}

/// Whether a word begins with `-`.
fn is_option(word: &str) -> bool
    ensures value { result ≡ spec.is_option word.now }
{
    match word.as_bytes() {
        [b'-', ..] => true,
        _ => false,
    }
}
