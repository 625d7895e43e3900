//! Laws of the words of the contracts. Each is the contract of a function that does nothing.

ghost use Rattle.floor_words.specs.Laws.{FirstWordsAreCutOff, NumbersAreReadBack, TextsBeginWithAWord, WordsArePlain, WordsAreReadBack};

/// No word of a line is empty or has a space.
pub fn words_are_plain()
    ensures { WordsArePlain }
{}

/// Words without spaces, none of them empty, that a single space parts are read back as they are.
pub fn words_are_read_back()
    ensures { WordsAreReadBack }
{}

/// A number in decimal digits is read back, where it is below the limit and has ten digits at most.
pub fn numbers_are_read_back()
    ensures { NumbersAreReadBack }
{}

/// A word without spaces is cut off the text that it begins, up to the space behind it or the end.
pub fn first_words_are_cut_off()
    ensures { FirstWordsAreCutOff }
{}

/// What a text has from its first word on is the same of it, and of it behind a space.
pub fn texts_begin_with_a_word()
    ensures { TextsBeginWithAWord }
{}
