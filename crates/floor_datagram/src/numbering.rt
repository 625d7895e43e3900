//! Which Transaction ID is newer (RFC 8855, section 8.1): they ascend around 65,535.

ghost use Rattle.std.specs.Prelude.{◌≡◌};
ghost use Rattle.floor_datagram.specs.Numbering.{age_of, is_newer, steps_to};

/// What a request's Transaction ID says of it.
#[derive(Clone, Copy, Debug, PartialEq, Eq)]
pub enum Age {
    /// The request that was taken last, once more.
    Copy,
    /// A request that comes too late.
    Older,
    /// A request that wasn't taken.
    Newer,
}

/// Whether a Transaction ID is 1 to 32,767 steps ahead of another.
pub fn is_newer(id: u16, last: u16) -> bool
    ensures value { result ≡ is_newer id last }
{
    let ahead = steps_to(id, last);
    0 < ahead && ahead < 32_768
}

/// How many steps lead from one ID up to another, around 65,535.
pub(crate) fn steps_to(id: u16, from: u16) -> u32
    ensures value { result ≡ steps_to id from }
{
    (u32::from(id) + 65_536 - u32::from(from)) % 65_536
}

/// What a Transaction ID says behind the one that was taken last.
pub fn age_of(last: Option<u16>, id: u16) -> Age
    ensures value { result ≡ age_of last id }
{
    match last {
        None => Age::Newer,
        Some(last) if id == last => Age::Copy,
        Some(last) => {
            if is_newer(id, last) {
                Age::Newer
            } else {
                Age::Older
            }
        }
    }
}
