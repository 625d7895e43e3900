//! The 65,535 numbers of a conference's floor requests: none is given twice, even where no request is ongoing.

use crate::ended::Ended;
use crate::messages::frame;
use floor_config::{Config, read_configs};
use floor_room::{Event, Ledger, Parcel};
use std::alloc::Global;
use std::io::Write;

/// Users 10 and 11 may each have 16 ongoing requests for floor 1, which has room for one.
const CONFIGURATION: &str = "[[conference]]
id = 1
limit = 16
user = [{ id = 10 }, { id = 11 }]
floor = [{ id = 1 }]";

/// The statuses of the RFC (section 5.2.5).
const ACCEPTED: u8 = 2;

const GRANTED: u8 = 3;

const CANCELLED: u8 = 5;

const RELEASED: u8 = 6;

/// The error codes of the RFC (section 5.2.6): who asked has as many requests as one may have for a floor; and our
/// own, that a conference has given all numbers.
const LIMIT_REACHED: u8 = 8;

const NO_NUMBER: u8 = 14;

/// How many numbers are given one after another, each request being released before the next.
const ALONE: u16 = 65_519;

/// How many requests are ongoing together with the last numbers.
const TOGETHER: u8 = 16;

/// A conference in which user 10 is member 1 and user 11 is member 2, and how often its answer was as it has to be.
#[derive(Drop)]
struct Trial {
    alloc: Global,
    ledger: Ledger,
    right: u32,
    wrong: u32,
}

/// What is shown of a floor request: its number, its status and its position in the queue.
#[derive(Clone, Copy, Debug)]
struct Shown {
    request: u16,
    status: u8,
    position: u8,
}

/// Gives all numbers, and prints how many answers were as they have to be, and how many weren't.
pub fn show<W: Write>(alloc: Global, output: &mut W) -> Result<(), Ended> {
    let Some(mut trial) = Trial::new(alloc) else {
        return Err(Ended);
    };
    trial.one_by_one();
    trial.print("one by one", output)?;
    trial.together();
    trial.print("together", output)?;
    trial.beyond();
    trial.print("beyond", output)
}

/// The two bytes of a number, as they stand in a message (section 5.1).
fn bytes_of(number: u16) -> [u8; 2] {
    number.to_be_bytes()
}

/// The FloorRequest of a user for floor 1 (section 5.3.1).
fn request_of(user: u8) -> [u8; 16] {
    [0x20, 1, 0, 1, 0, 0, 0, 1, 0, 1, 0, user, 0x04, 4, 0, 1]
}

/// User 10's FloorRelease of a request (section 5.3.2).
fn release_of(request: u16) -> [u8; 16] {
    let [high, low] = bytes_of(request);
    [0x20, 2, 0, 1, 0, 0, 0, 1, 0, 1, 0, 10, 0x06, 4, high, low]
}

/// The FloorRequestStatus that answers user 10 (section 5.3.4).
fn status_of(shown: Shown) -> [u8; 40] {
    let Shown {
        request,
        status,
        position,
    } = shown;
    let [high, low] = bytes_of(request);
    [
        0x20, 4, 0, 7, 0, 0, 0, 1, 0, 1, 0, 10, 0x1e, 0x1c, high, low, 0x24, 8, high, low, 0x0a, 4,
        status, position, 0x22, 8, 0, 1, 0x0a, 4, status, position, 0x1c, 4, 0, 10, 0x08, 4, 0x40,
        0,
    ]
}

/// The Error that answers a user (section 5.3.13).
fn error_of(user: u8, code: u8) -> [u8; 16] {
    [0x20, 13, 0, 1, 0, 0, 0, 1, 0, 1, 0, user, 0x0c, 3, code, 0]
}

impl Trial {
    fn new(alloc: Global) -> Option<Trial> {
        let mut ledger = opened(alloc)?;
        join(alloc, &mut ledger, 10);
        join(alloc, &mut ledger, 11);
        Some(Trial {
            alloc,
            ledger,
            right: 0,
            wrong: 0,
        })
    }

    /// Each of the first numbers is given to a request that is released before the next.
    fn one_by_one(&mut self) {
        for request in 1..=ALONE {
            self.asks(Shown {
                request,
                status: GRANTED,
                position: 0,
            });
            self.releases(request, RELEASED);
        }
    }

    /// The last 16 numbers are given, and come back from the last to the first.
    fn together(&mut self) {
        for before in 0..TOGETHER {
            self.asks(Shown {
                request: u16::from(before).wrapping_add(ALONE).wrapping_add(1),
                status: if before == 0 { GRANTED } else { ACCEPTED },
                position: before,
            });
        }
        self.exchange(1, &request_of(10), &error_of(10, LIMIT_REACHED));
        self.exchange(2, &request_of(11), &error_of(11, NO_NUMBER));
        for before in 0..TOGETHER {
            let last = before.wrapping_add(1) == TOGETHER;
            let request = 65_535u16.wrapping_sub(u16::from(before));
            self.releases(request, if last { RELEASED } else { CANCELLED });
        }
    }

    /// No number is left, though no request is ongoing.
    fn beyond(&mut self) {
        self.exchange(1, &request_of(10), &error_of(10, NO_NUMBER));
        self.exchange(2, &request_of(11), &error_of(11, NO_NUMBER));
    }

    /// User 10 asks for floor 1, and is shown this.
    fn asks(&mut self, shown: Shown) {
        self.exchange(1, &request_of(10), &status_of(shown));
    }

    /// User 10 releases a request, and is shown it with this status.
    fn releases(&mut self, request: u16, status: u8) {
        let shown = Shown {
            request,
            status,
            position: 0,
        };
        self.exchange(1, &release_of(request), &status_of(shown));
    }

    /// A member sends a message, and has to be answered by these bytes alone.
    fn exchange(&mut self, n: u32, message: &[u8], answer: &[u8]) {
        if is_answered(self.alloc, &mut self.ledger, n, message, answer) {
            self.right = self.right.wrapping_add(1);
        } else {
            self.wrong = self.wrong.wrapping_add(1);
        }
        acknowledge(self.alloc, &mut self.ledger, n);
    }

    fn print<W: Write>(&self, what: &str, output: &mut W) -> Result<(), Ended> {
        let (right, wrong) = (self.right, self.wrong);
        writeln!(
            output,
            "numbers: {what}, {right} answers right, {wrong} wrong"
        )?;
        Ok(())
    }
}

fn opened(alloc: Global) -> Option<Ledger> {
    Ledger::new(alloc, configuration(alloc)?).ok()
}

/// The conference that the configuration has.
fn configuration(alloc: Global) -> Option<Config> {
    match read_configs(alloc, CONFIGURATION) {
        Ok(mut configs) => configs.pop(),
        Err(_) => None,
    }
}

fn join(alloc: Global, ledger: &mut Ledger, user: u16) {
    let _told = ledger.add(Event::Join { user }, &mut Vec::new(alloc));
}

/// Whether the message of a member is answered by these bytes, and by nothing else.
fn is_answered(alloc: Global, ledger: &mut Ledger, n: u32, message: &[u8], answer: &[u8]) -> bool {
    let Some(frame) = frame(alloc, message) else {
        return false;
    };
    match ledger.add(Event::Message { n, frame }, &mut Vec::new(alloc)) {
        Ok(told) => match told.as_slice() {
            [parcel] => is_spelled(parcel, answer),
            _ => false,
        },
        Err(_) => false,
    }
}

/// Whether a parcel is these bytes.
fn is_spelled(parcel: &Parcel, answer: &[u8]) -> bool {
    let (header, payload) = answer.split_at(12.min(answer.len()));
    parcel.header() == header && parcel.payload() == payload
}

/// Takes it that a member has taken its answer, so that it is never far behind.
fn acknowledge(alloc: Global, ledger: &mut Ledger, n: u32) {
    let _taken = ledger.add(Event::Took { n, k: 1 }, &mut Vec::new(alloc));
}
