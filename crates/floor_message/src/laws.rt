//! Laws of messages. Each is the contract of a function that does nothing.

ghost use Rattle.std.specs.Prelude.{ℕ, Option};
ghost use Rattle.floor_message.specs.Picked.{KeepsFirst};
ghost use Rattle.floor_message.specs.declared.verdicts.Verdict.{Verdict};
ghost use Rattle.floor_message.specs.Laws.{ShortenedIsLongest, WhatIsAskedFits, WhatIsAskedIsOf16Bits, WhatIsShownFits, WrittenAskIsRead, WrittenAskIsShort, WrittenTellIsRead, WrittenTellIsShort};

use floor_wire::{
    what_is_computed_is_spelled, what_is_spelled_is_writable, what_is_written_is_read,
};

/// What is written of a message from the server is read as that message, under that head.
pub fn a_written_tell_is_read()
    ensures { WrittenTellIsRead }
{
    what_is_written_is_read();
}

/// What is written of a message from a client is read as that message, under its own binding.
pub fn a_written_ask_is_read()
    ensures { WrittenAskIsRead }
{
    what_is_written_is_read();
}

/// What a message asks can be written, its numbers aside, where it names at most 60,000 floors and
/// 31 verdicts, or 26 beside a reason; its text can be written however many it names.
pub fn what_is_asked_fits()
    ensures { WhatIsAskedFits }
{}

/// The numbers of what a message of bytes asks are of 16 bits.
pub fn what_is_asked_is_of_16_bits()
    ensures { WhatIsAskedIsOf16Bits }
{
    what_is_computed_is_spelled();
    what_is_spelled_is_writable();
}

/// What shows no more than a conference has can be written: names and reasons of at most 30 bytes,
/// texts of at most 62, at most 8 floors of a floor request and 256 floor requests.
pub fn what_is_shown_fits()
    ensures { WhatIsShownFits }
{}

/// A text is kept as its longest front of at most so many bytes that ends at a character.
pub fn a_text_is_cut_at_its_longest()
    ensures { ShortenedIsLongest }
{}

/// Of floors and verdicts that are named again the first is kept, each in its order.
pub fn the_first_is_kept()
    ensures floors { KeepsFirst ℕ (λ n. n) }
    ensures verdicts { KeepsFirst (ℕ × Option Verdict) (λ v. v.0) }
{}

/// No group is written in more than 252 bytes, and no octet string with more than 253 octets.
pub fn what_is_written_is_short()
    ensures tell { WrittenTellIsShort }
    ensures ask { WrittenAskIsShort }
{}
