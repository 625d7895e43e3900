//! How long the messages of a connection say that they are, before they have come (RFC 8855, section 5.1).
//!
//! ```text
//!  0                   1                   2                   3
//! | Ver |R|F| Res |   Primitive   |        Payload Length         |   then 8 bytes, then the payload
//! ```

ghost use Rattle.std.specs.Prelude.{◌≡◌, ◌<◌, IfSome, length};
ghost use Rattle.floor_poll.specs.declared.announced.Announced.TheVariants.{Before};
ghost use Rattle.floor_poll.specs.Announced.{announced, next, payload_len};

/// How many bytes a header has, and how many of them stand behind the Payload Length.
const HEADER_LEN: u32 = 12;

const BEHIND_LENGTH: u32 = 8;

/// Where in its message the next byte of a stream stands.
#[derive(Clone, Copy, Debug)]
pub enum Announced {
    /// Before a Payload Length, with so many bytes between.
    Before(u8),
    /// Behind the first byte of a Payload Length, which is this.
    Inside(u8),
    /// Behind a Payload Length, so many bytes before the next message.
    Behind(u32),
}

impl Announced {
    /// At the beginning of a message.
    pub fn begin() -> Announced
        ensures value { result ≡ Before 2 }
    {
        Announced::Before(2)
    }

    /// Takes bytes that come next, and gives the place of the first one by which a message says that it has more than
    /// `longest` bytes; `None` where none does.
    pub fn pass(&mut self, bytes: &[u8], longest: u32) -> Option<usize>
        ensures within { IfSome result (λ at. at < length bytes.now) }
    {
        for (at, byte) in bytes.iter().enumerate() {
            if longest < self.take(*byte) {
                return Some(at);
            }
        }
        None
    }

    /// Takes the next byte, and gives how many bytes the message has whose length it ends; 0 of any other byte.
    fn take(&mut self, byte: u8) -> u32
        ensures value { result ≡ announced self.old byte }
        ensures next { self.new ≡ next self.old byte }
    {
        match *self {
            Announced::Before(0) => *self = Announced::Inside(byte),
            Announced::Before(left) => *self = Announced::Before(left - 1),
            Announced::Inside(high) => {
                let payload = payload_len(high, byte);
                *self = Announced::Behind(BEHIND_LENGTH + payload);
                return HEADER_LEN + payload;
            }
            Announced::Behind(0 | 1) => *self = Announced::begin(),
            Announced::Behind(left) => *self = Announced::Behind(left - 1),
        }
        0
    }
}

/// How many bytes a payload has whose Payload Length has these two bytes.
fn payload_len(high: u8, low: u8) -> u32
    ensures value { result ≡ payload_len high low }
{
    4 * (256 * u32::from(high) + u32::from(low))
}
