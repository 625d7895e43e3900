//! What a call from C comes to, as a number and as a name.

ghost use Rattle.std.specs.Prelude.{◌≡◌, ◌≢◌, ◌++◌, ◌∷◌, ◌+◌, ◌≤◌, ◌<◌, [], length, take};
ghost use Rattle.floor_ffi.specs.declared.outcome.Outcome.{Outcome};
ghost use Rattle.floor_ffi.specs.declared.outcome.TheConstants.{OUTCOMES};
ghost use Rattle.floor_ffi.specs.steps.Numbered.{find_numbered};
ghost use Rattle.floor_ffi.specs.Numbers.{name_of, number_of, of_fault, of_machine, of_refusal};

use floor_config::ConfigFault;
use floor_hub::{HubRefusal, Refusal, RoomRefusal};

/// What a call comes to. Each has a number of its own, but that a configuration's want of memory has the
/// hub's, and a name.
#[derive(Clone, Copy)]
pub enum Outcome {
    /// It was done.
    Done,
    /// There was nothing to serve, to take or to read.
    Nothing,
    /// The room is too short.
    TooShort,
    /// A text isn't UTF-8.
    NotUtf8,
    /// The hub refuses it.
    Refused(HubRefusal),
    /// The text is no configuration.
    Fault(ConfigFault),
}

impl Outcome {
    /// Its number.
    pub fn number(self) -> u32
        ensures value { result ≡ number_of self }
    {
        match self {
            Outcome::Done => 0,
            Outcome::Nothing => 1,
            Outcome::TooShort => 2,
            Outcome::NotUtf8 => 3,
            Outcome::Refused(refusal) => number_of_refusal(refusal),
            Outcome::Fault(fault) => number_of_fault(fault),
        }
    }

    /// Its name: that of the hub's refusal or of the configuration's fault, or of the variant.
    pub fn name(self) -> &'static str
        ensures value { result.now ≡ name_of self }
    {
        match self {
            Outcome::Done => "Done",
            Outcome::Nothing => "Nothing",
            Outcome::TooShort => "TooShort",
            Outcome::NotUtf8 => "NotUtf8",
            Outcome::Refused(refusal) => refusal.name(),
            Outcome::Fault(fault) => fault.name(),
        }
    }
}

/// The number of a refusal of the hub.
fn number_of_refusal(refusal: HubRefusal) -> u32
    ensures value { result ≡ of_refusal refusal }
{
    match refusal {
        HubRefusal::Used => 10,
        HubRefusal::NoConference => 11,
        HubRefusal::NoConnection => 12,
        HubRefusal::Memory => 13,
        HubRefusal::ByRoom(RoomRefusal::JournalFull) => 14,
        HubRefusal::Forgotten => 15,
        HubRefusal::Running => 16,
        HubRefusal::BadMessage => 17,
        HubRefusal::ByRoom(RoomRefusal::Refused(refusal)) => number_in_machine(refusal),
    }
}

/// The number of a refusal of a conference's machine.
fn number_in_machine(refusal: Refusal) -> u32
    ensures value { result ≡ of_machine refusal }
{
    match refusal {
        Refusal::Broken => 20,
        Refusal::Ended => 21,
        Refusal::NoMember => 22,
        Refusal::NoUser => 23,
        Refusal::Full => 24,
        Refusal::NoRequest => 25,
        Refusal::Cut => 26,
        Refusal::BadCount => 27,
        Refusal::OutOfRange => 28,
        Refusal::DoubleUser => 29,
        Refusal::DoubleFloor => 30,
        Refusal::NoFloor => 31,
        Refusal::UnknownChair => 32,
        Refusal::Memory => 33,
    }
}

/// The number of a configuration's fault.
fn number_of_fault(fault: ConfigFault) -> u32
    ensures value { result ≡ of_fault fault }
{
    match fault {
        ConfigFault::Syntax => 40,
        ConfigFault::MissingKey => 41,
        ConfigFault::WrongType => 42,
        ConfigFault::OutOfRange => 43,
        ConfigFault::DoubleUser => 44,
        ConfigFault::DoubleFloor => 45,
        ConfigFault::NoFloor => 46,
        ConfigFault::UnknownChair => 47,
        ConfigFault::DoubleConference => 48,
        ConfigFault::DoublePort => 49,
        ConfigFault::Memory => 13,
    }
}

/// All outcomes but a configuration's want of memory, by ascending number.
const OUTCOMES: [Outcome; 36] = [
    Outcome::Done,
    Outcome::Nothing,
    Outcome::TooShort,
    Outcome::NotUtf8,
    Outcome::Refused(HubRefusal::Used),
    Outcome::Refused(HubRefusal::NoConference),
    Outcome::Refused(HubRefusal::NoConnection),
    Outcome::Refused(HubRefusal::Memory),
    Outcome::Refused(HubRefusal::ByRoom(RoomRefusal::JournalFull)),
    Outcome::Refused(HubRefusal::Forgotten),
    Outcome::Refused(HubRefusal::Running),
    Outcome::Refused(HubRefusal::BadMessage),
    Outcome::Refused(HubRefusal::ByRoom(RoomRefusal::Refused(Refusal::Broken))),
    Outcome::Refused(HubRefusal::ByRoom(RoomRefusal::Refused(Refusal::Ended))),
    Outcome::Refused(HubRefusal::ByRoom(RoomRefusal::Refused(Refusal::NoMember))),
    Outcome::Refused(HubRefusal::ByRoom(RoomRefusal::Refused(Refusal::NoUser))),
    Outcome::Refused(HubRefusal::ByRoom(RoomRefusal::Refused(Refusal::Full))),
    Outcome::Refused(HubRefusal::ByRoom(RoomRefusal::Refused(Refusal::NoRequest))),
    Outcome::Refused(HubRefusal::ByRoom(RoomRefusal::Refused(Refusal::Cut))),
    Outcome::Refused(HubRefusal::ByRoom(RoomRefusal::Refused(Refusal::BadCount))),
    Outcome::Refused(HubRefusal::ByRoom(RoomRefusal::Refused(Refusal::OutOfRange))),
    Outcome::Refused(HubRefusal::ByRoom(RoomRefusal::Refused(Refusal::DoubleUser))),
    Outcome::Refused(HubRefusal::ByRoom(RoomRefusal::Refused(Refusal::DoubleFloor))),
    Outcome::Refused(HubRefusal::ByRoom(RoomRefusal::Refused(Refusal::NoFloor))),
    Outcome::Refused(HubRefusal::ByRoom(RoomRefusal::Refused(Refusal::UnknownChair))),
    Outcome::Refused(HubRefusal::ByRoom(RoomRefusal::Refused(Refusal::Memory))),
    Outcome::Fault(ConfigFault::Syntax),
    Outcome::Fault(ConfigFault::MissingKey),
    Outcome::Fault(ConfigFault::WrongType),
    Outcome::Fault(ConfigFault::OutOfRange),
    Outcome::Fault(ConfigFault::DoubleUser),
    Outcome::Fault(ConfigFault::DoubleFloor),
    Outcome::Fault(ConfigFault::NoFloor),
    Outcome::Fault(ConfigFault::UnknownChair),
    Outcome::Fault(ConfigFault::DoubleConference),
    Outcome::Fault(ConfigFault::DoublePort),
];

/// The first outcome that has a number.
fn outcome_of(number: u32) -> Option<Outcome>
    ensures value { result ≡ find_numbered number OUTCOMES }
{
    OUTCOMES
        .iter()
        .copied()
        .find(|outcome| outcome.number() == number)
}

/// The name of the outcome that has a number; empty where none has it.
pub(crate) fn name_of_number(number: u32) -> &'static str
    ensures named { (outcome : Outcome) → number_of outcome ≡ number → result.now ≡ name_of outcome }
    ensures unknown { ((outcome : Outcome) → number_of outcome ≢ number) → result.now ≡ [] }
{
    match outcome_of(number) {
        Some(outcome) => outcome.name(),
        None => "",
    }
}

/// Writes a text and a zero behind it, where there is room for both, else nothing, and gives the text's
/// length.
pub(crate) fn put_text(text: &str, room: &mut [u8]) -> usize
    ensures len { result ≡ length text.now }
    ensures bytes { length text.now < length room.old
        → take (length text.now + 1) room.new ≡ text.now ++ 0 ∷ [] }
    ensures kept { length room.old ≤ length text.now → room.new ≡ room.old }
{
    let len = text.len();
    if len < room.len() {
        let (front, rest) = room.split_at_mut(len);
        front.copy_from_slice(text.as_bytes());
        rest[0] = 0;
    }
    len
}
