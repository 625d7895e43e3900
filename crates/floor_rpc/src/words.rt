//! Words that are kept beside a conference, written as JSON.

ghost use Rattle.std.specs.Prelude.{◌≡◌, ◌∷◌};
ghost use Rattle.json.specs.Token as token;
ghost use Rattle.json.specs.Tree.{json_tokens, members_tokens};
ghost use Rattle.floor_rpc.specs.Json.{Adds};
ghost use Rattle.floor_rpc.specs.Words.{word_members, words_json};

use crate::answer::Word;
use crate::list::List;
use crate::value::text_member;
use json::Writer;
use std::alloc::AllocError;

/// Writes words as a member of an object.
pub(crate) fn words_member(
    writer: &mut Writer,
    name: &str,
    words: &List<Word>,
) -> Result<(), AllocError>
    ensures { Adds result writer.old writer.new
        (token.key name.now ∷ json_tokens (words_json words.now)) }
{
    writer.key(name)?;
    writer.begin_object()?;
    write_words(writer, words.as_slice())
}

/// Writes words as the members of an object, and ends it.
fn write_words(writer: &mut Writer, words: &[Word]) -> Result<(), AllocError>
    ensures { Adds result writer.old writer.new (members_tokens (word_members words.now)) }
{
    for word in words {
        text_member(writer, word.key.as_str(), word.text.as_str())?;
    }
    writer.end_object()
}
