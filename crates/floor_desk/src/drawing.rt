//! Numbers that are drawn.

use floor_hub::HubRefusal;
use floor_loop::Loop;
use floor_rpc::ErrorName;
use floor_shown::Refused;
use rand_chacha::ChaCha20Rng;
use rand_core::SeedableRng;
use rand_core::utils::NextWord;

/// How many numbers are drawn for a conference before it is given up: each is another's by one chance in four thousand
/// millions for each conference.
const MAX_DRAWN: u32 = 1_000;

/// Numbers at random, of which nobody guesses the next who doesn't know the seed.
#[derive(Drop)]
pub struct Drawing {
    generator: ChaCha20Rng,
}

impl Drawing {
    /// The numbers of this seed.
    pub fn new(seed: [u8; 32]) -> Drawing {
        Drawing {
            generator: ChaCha20Rng::from_seed(seed),
        }
    }

    /// A number that is no conference's and was none's.
    pub fn draw(&mut self, hub: &Loop) -> Result<u32, Refused> {
        for _ in 0..MAX_DRAWN {
            let conference = self.generator.next_word();
            if conference != 0 && is_free(hub, conference) {
                return Ok(conference);
            }
        }
        Err(Refused::whole(ErrorName::Full))
    }
}

/// Whether a number is no conference's and was none's.
fn is_free(hub: &Loop, conference: u32) -> bool {
    match hub.status(conference) {
        Err(HubRefusal::NoConference) => true,
        Ok(_) | Err(_) => false,
    }
}
