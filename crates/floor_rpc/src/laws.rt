//! Laws of the words of the contracts: each the contract of a function that does nothing, or nothing but
//! name the law that it rests on.

ghost use Rattle.floor_rpc.specs.Laws.{NamesAreTheirOwn, NumbersAreTheirOwn, RequestsAreReadBack};

use floor_words::numbers_are_read_back;

/// What is written of a request is read as that request: with its id, and what it calls.
pub fn requests_are_read_back()
    ensures { RequestsAreReadBack }
{
    numbers_are_read_back();
}

/// A number is of one error alone.
pub fn error_numbers_are_their_own()
    ensures { NumbersAreTheirOwn }
{}

/// A name is of one error alone.
pub fn error_names_are_their_own()
    ensures { NamesAreTheirOwn }
{}
