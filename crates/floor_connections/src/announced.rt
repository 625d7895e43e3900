//! How long the messages of a connection say that they are, before they have come (RFC 8855, section 5.1).
//!
//! ```text
//!  0                   1                   2                   3
//! | Ver |R|F| Res |   Primitive   |        Payload Length         |   then 8 bytes, then the payload
//! ```

ghost use Rattle.std.specs.Prelude.{◌≡◌, ◌<◌, ◌≤◌, length};
ghost use Rattle.floor_connections.specs.declared.announced.Announced.TheVariants.{Before};
ghost use Rattle.floor_connections.specs.Announced.{behind, behind_length, is_too_long, next, payload_len, served_len};

/// How many bytes a header has, and how many of them stand behind the Payload Length.
const HEADER_LEN: u32 = 12;

const BEHIND_LENGTH: u32 = 8;

/// Where in its message the next byte of a stream stands.
#[derive(Clone, Copy, Debug, PartialEq, Eq)]
pub enum Announced {
    /// Before a Payload Length, with so many bytes between.
    Before(u8),
    /// Behind the first byte of a Payload Length, which is this.
    Inside(u8),
    /// Behind a Payload Length, so many bytes before the next message.
    Behind(u32),
    /// Behind a Payload Length by which a message is longer than may be: nothing more of the stream is served.
    TooLong,
}

impl Announced {
    /// At the beginning of a message.
    pub fn begin() -> Announced
        ensures value { result ≡ Before 2 }
    {
        Announced::Before(2)
    }

    /// Whether a message has said that it is longer than may be.
    pub fn is_too_long(&self) -> bool
        ensures value { result ≡ is_too_long self.now }
    {
        match self {
            Announced::TooLong => true,
            Announced::Before(_) | Announced::Inside(_) | Announced::Behind(_) => false,
        }
    }

    /// Takes bytes that come next, and gives how many of them are served: all in front of the first by which a message says
    /// that it has more than `longest` bytes, header included.
    pub fn pass(&mut self, bytes: &[u8], longest: u32) -> usize
        ensures value { result ≡ served_len longest self.old bytes.now }
        ensures next { self.new ≡ behind longest self.old bytes.now }
        ensures within { result ≤ length bytes.now }
    {
        let mut count = 0;
        for byte in bytes {
            self.take(*byte, longest);
            if self.is_too_long() {
                return count;
            }
            count += 1;
        }
        count
    }

    /// Takes the next byte.
    fn take(&mut self, byte: u8, longest: u32)
        ensures next { self.new ≡ next longest self.old byte }
    {
        *self = match *self {
            Announced::Before(0) => Announced::Inside(byte),
            Announced::Before(left) => Announced::Before(left - 1),
            Announced::Inside(high) => behind_length(payload_len(high, byte), longest),
            Announced::Behind(0 | 1) => Announced::begin(),
            Announced::Behind(left) => Announced::Behind(left - 1),
            Announced::TooLong => Announced::TooLong,
        };
    }
}

/// Behind the Payload Length of a message whose payload has so many bytes.
fn behind_length(payload: u32, longest: u32) -> Announced
    requires fits { payload < 4294967284 }
    ensures value { result ≡ behind_length longest payload }
{
    if longest < HEADER_LEN + payload {
        Announced::TooLong
    } else {
        Announced::Behind(BEHIND_LENGTH + payload)
    }
}

/// How many bytes a payload has whose Payload Length has these two bytes.
fn payload_len(high: u8, low: u8) -> u32
    ensures value { result ≡ payload_len high low }
{
    4 * (256 * u32::from(high) + u32::from(low))
}
