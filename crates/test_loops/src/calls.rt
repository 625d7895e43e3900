//! The calls of a loop, one in each function, and what is refused as `Ended`. It is always 0 o'clock, so that
//! nobody's time is over.

use floor_config::{Config, read_configs};
use floor_loop::{ConnNo, Loop};
use std::alloc::{AllocError, Global};

/// Memory or a call was refused.
#[derive(Clone, Copy, Debug)]
pub struct Ended;

impl From<AllocError> for Ended {
    fn from(_e: AllocError) -> Ended {
        Ended
    }
}

/// Users 10 and 11, who may each have 16 ongoing requests, and 32 floors.
const CONFIGURATION: &str = "[[conference]]
id = 1
limit = 16
user = [{ id = 10 }, { id = 11 }]
floor = [
  { id = 1 }, { id = 2 }, { id = 3 }, { id = 4 }, { id = 5 }, { id = 6 }, { id = 7 }, { id = 8 },
  { id = 9 }, { id = 10 }, { id = 11 }, { id = 12 }, { id = 13 }, { id = 14 }, { id = 15 }, { id = 16 },
  { id = 17 }, { id = 18 }, { id = 19 }, { id = 20 }, { id = 21 }, { id = 22 }, { id = 23 }, { id = 24 },
  { id = 25 }, { id = 26 }, { id = 27 }, { id = 28 }, { id = 29 }, { id = 30 }, { id = 31 }, { id = 32 },
]";

/// The conference that the configuration has.
pub fn configuration(alloc: Global) -> Option<Config> {
    match read_configs(alloc, CONFIGURATION) {
        Ok(mut configs) => configs.pop(),
        Err(_) => None,
    }
}

/// Opens a conference.
pub fn open(serving: &mut Loop, alloc: Global, config: Config) -> Result<(), Ended> {
    match serving.open(alloc, config) {
        Ok(()) => Ok(()),
        Err(_) => Err(Ended),
    }
}

/// Attaches a connection of a user.
pub fn attach(serving: &mut Loop, alloc: Global, user: u16) -> Result<ConnNo, Ended> {
    match serving.attach(alloc, 1, user, 0) {
        Ok(number) => Ok(number),
        Err(_) => Err(Ended),
    }
}

/// Has what the events change gathered.
pub fn watch(serving: &mut Loop) -> Result<(), Ended> {
    match serving.watch(1) {
        Ok(()) => Ok(()),
        Err(_) => Err(Ended),
    }
}

/// A connection is shut down.
pub fn leave(serving: &mut Loop, number: ConnNo) -> Result<(), Ended> {
    match serving.leave(number, 0) {
        Ok(()) => Ok(()),
        Err(_) => Err(Ended),
    }
}

/// Hands in what came from a connection, and says whether more may wait.
pub fn read(serving: &mut Loop, number: ConnNo, bytes: &[u8]) -> Result<bool, Ended> {
    match serving.read(number, bytes, 64, 0) {
        Ok(more) => Ok(more),
        Err(_) => Err(Ended),
    }
}

/// Has the socket of a connection take what is to be written to it next, and says how many bytes it took.
pub fn write(serving: &mut Loop, number: ConnNo) -> usize {
    let count = serving.writing(number).len();
    if count != 0 {
        serving.wrote(number, count, 0);
    }
    count
}
