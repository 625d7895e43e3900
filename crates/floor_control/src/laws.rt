//! Laws of the words of the contracts: each the contract of a function that does nothing, or nothing but
//! name the laws that it rests on.

ghost use Rattle.floor_control.specs.Laws.{AnswersAreTheConsoles, LinesAreReadBack, TagsStandBeforeLines};
ghost use Rattle.floor_control.specs.Streams.{LinesStay, TextsGoOutInOrder};

use floor_console::a_printed_command_is_read_back;
use floor_words::{
    first_words_are_cut_off, numbers_are_read_back, words_are_plain, words_are_read_back,
};

/// What any line asks for, printed as a line behind its tag, is read back as the same with the same tag.
pub fn lines_are_read_back()
    ensures { LinesAreReadBack }
{
    a_printed_command_is_read_back();
    first_words_are_cut_off();
    numbers_are_read_back();
    words_are_plain();
    words_are_read_back();
}

/// Of a text of whole lines each stands behind the tag, and nothing else is there.
pub fn tags_stand_before_lines()
    ensures { TagsStandBeforeLines }
{}

/// What the console answers too is answered by the console's text.
pub fn answers_are_the_consoles()
    ensures { AnswersAreTheConsoles }
{}

/// A line that has come is the same however the bytes came, and is the front of them up to the first line
/// feed.
pub fn lines_stay()
    ensures { LinesStay }
{}

/// Texts go out in the order in which they came, but that live text waits for the end of the answer within
/// which it comes.
pub fn texts_go_out_in_order()
    ensures { TextsGoOutInOrder }
{}
