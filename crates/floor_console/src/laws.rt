//! A law of the words of the contracts: the contract of a function that does nothing but name the
//! laws that it rests on.

ghost use Rattle.floor_console.specs.Laws.{PrintedIsReadBack};

use floor_acts::acts_are_read_back;
use floor_words::{numbers_are_read_back, words_are_plain, words_are_read_back};

/// The command of any line, printed as a line, is read back as the same command, a user's name among
/// it.
pub fn a_printed_command_is_read_back()
    ensures { PrintedIsReadBack }
{
    acts_are_read_back();
    words_are_plain();
    words_are_read_back();
    numbers_are_read_back();
}
