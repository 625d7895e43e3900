//! The laws of kept files: what was written is what is read. Each is the contract of a function that does nothing.

ghost use Rattle.floor_kept.specs.Laws.{HeadsReadAsText, OneFile, WrittenIsFile};

use floor_words::{numbers_are_read_back, words_are_read_back};

/// Bytes are the file of one conference at most: two readings of them have the same configuration and the same
/// entries.
pub fn a_file_says_one_conference()
    ensures { OneFile }
{
    words_are_read_back();
    numbers_are_read_back();
}

/// A head, and behind it what turns append one after another, are the file of that conference with the journal of
/// the last turn, and of no other, with the end behind it or without, and whatever torn line stands last.
pub fn what_is_written_is_read()
    ensures { WrittenIsFile }
{
    words_are_read_back();
    numbers_are_read_back();
}

/// The heads of a text's conferences have the configurations that the text is read as, in its order, where no
/// conference stands in a document that is nested deeper than 80.
pub fn heads_read_as_their_text()
    ensures { HeadsReadAsText }
{}
