//! A law of the words of the contracts: the contract of a function that does nothing but name the
//! laws that it rests on.

ghost use Rattle.floor_acts.specs.Laws.{ActsAreReadBack};

use floor_words::{
    first_words_are_cut_off, numbers_are_read_back, texts_begin_with_a_word, words_are_read_back,
};

/// The act of any line, printed as a line, is read back as the same act, a user's name among it.
pub fn acts_are_read_back()
    ensures { ActsAreReadBack }
{
    first_words_are_cut_off();
    numbers_are_read_back();
    texts_begin_with_a_word();
    words_are_read_back();
}
