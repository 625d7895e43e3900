//! What the words of the contracts mean. Each law is the contract of a function that does nothing.

ghost use Rattle.floor_proxy.specs.Laws.{AnswersCome, AnswersStay, FaultsAreToldAtOnce, HeadersAreRead, NamesAreReadBack, ValuesAreReadBack};

use floor_words::numbers_are_read_back;

/// A cut anywhere gives the same answer: what is answered of a connection's first bytes, if it isn't that
/// more are wanted, is answered of them with any bytes behind.
pub fn answers_stay()
    ensures { AnswersStay }
{}

/// Nobody is kept waiting for nothing: where more bytes are wanted, some bytes are answered otherwise, and
/// these have 1,024 at most.
pub fn answers_come()
    ensures { AnswersCome }
{}

/// A byte that no header has at its place is refused at once, and no byte before it: while more are wanted of
/// fewer than 16, some bytes behind are answered otherwise than by `BadHeader`.
pub fn faults_are_told_at_once()
    ensures { FaultsAreToldAtOnce }
{}

/// The TLVs of bytes are those whose bytes they are, one behind another.
pub fn values_are_read_back()
    ensures { ValuesAreReadBack }
{}

/// Bytes name a user of a conference exactly where they are the decimal digits of the one, a dot and those of
/// the other.
pub fn names_are_read_back()
    ensures { NamesAreReadBack }
{
    numbers_are_read_back();
}

/// A header is answered by what its TLVs say, whatever stands behind it.
pub fn headers_are_read()
    ensures { HeadersAreRead }
{}
