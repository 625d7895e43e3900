//! How long a notice waits for its acknowledgement, in milliseconds (RFC 8855, section 8.3.1; RFC 6298).

ghost use Rattle.std.specs.Prelude.{◌≡◌, ◌≤◌, None, Some};
ghost use Rattle.floor_datagram.specs.Pace as spec;
ghost use Rattle.floor_datagram.specs.Views.{round_of};
ghost use Rattle.floor_datagram.specs.Pace.{apart};

use std::marker::Model;

/// The retransmission timer before anything was measured.
const FIRST_T1: u32 = 500;

/// The longest retransmission timer, and the longest time that is measured.
const MAX_T1: u32 = 60_000;

/// How long an answer is kept at least.
const MIN_T2: u32 = 10_000;

/// What was measured of acknowledgements, and the retransmission timer.
#[derive(Drop)]
pub(crate) struct Pace {
    round: Option<Round>,
    t1: u32,
}

/// The smoothed time from a notice to its acknowledgement, and how much it varies.
#[derive(Clone, Copy)]
struct Round {
    smoothed: u32,
    variation: u32,
}

impl Model for Pace {
    ghost use Rattle.std.specs.Prelude.{◌≤◌, option_map};
    ghost use Rattle.floor_datagram.specs.Pace.{Pace};
    ghost use Rattle.floor_datagram.specs.Views.{round_of, IsBounded};

    ghost Value = { Pace };

    ghost view = { λ p. record { round = option_map round_of p.round; t1 = p.t1 } };

    ghost invariant = { λ p. IsBounded p.round p.t1 };
}

impl Pace {
    /// Nothing was measured: the retransmission timer is half a second.
    pub(crate) fn new() -> Pace
        ensures value { result ≡ spec.first_pace }
    {
        Pace {
            round: None,
            t1: FIRST_T1,
        }
    }

    /// The retransmission timer: how long after it was sent a notice is sent again.
    pub(crate) fn t1(&self) -> u32
        ensures value { result ≡ self.now.t1 }
        ensures range { result ≤ 60000 }
    {
        let _ = &self.round;
        self.t1
    }

    /// How long an answer is kept for copies of its request, and fragments are held.
    pub(crate) fn t2(&self) -> u32
        ensures value { result ≡ spec.t2_of self.now.t1 }
    {
        (20 * self.t1).max(MIN_T2)
    }

    /// Takes the time from a notice that was sent once to its acknowledgement.
    pub(crate) fn measure(&mut self, time: u64)
        ensures next { self.new ≡ spec.measured self.old time }
    {
        let time = u64::from(MAX_T1).min(time) as u32;
        let round = match self.round {
            None => first_round(time),
            Some(round) => next_round(round.smoothed, round.variation, time),
        };
        self.t1 = t1_of(round.smoothed, round.variation);
        self.round = Some(round);
    }
}

fn first_round(time: u32) -> Round
    requires { time ≤ 60000 }
    ensures value { round_of result ≡ spec.round_with None time }
    ensures smoothed { result.smoothed ≤ 60000 }
    ensures variation { result.variation ≤ 60000 }
{
    Round {
        smoothed: time,
        variation: time / 2,
    }
}

fn next_round(smoothed: u32, variation: u32, time: u32) -> Round
    requires smoothed { smoothed ≤ 60000 }
    requires variation { variation ≤ 60000 }
    requires time { time ≤ 60000 }
    ensures value { round_of result ≡ spec.round_with (Some (record { smoothed = smoothed; variation = variation })) time }
    ensures smoothed { result.smoothed ≤ 60000 }
    ensures variation { result.variation ≤ 60000 }
{
    Round {
        smoothed: (7 * smoothed + time) / 8,
        variation: (3 * variation + apart(smoothed, time)) / 4,
    }
}

/// How far apart two times are.
fn apart(a: u32, b: u32) -> u32
    requires low { a ≤ 60000 }
    requires high { b ≤ 60000 }
    ensures value { result ≡ apart a b }
    ensures range { result ≤ 60000 }
{
    if a < b { b - a } else { a - b }
}

fn t1_of(smoothed: u32, variation: u32) -> u32
    requires smoothed { smoothed ≤ 60000 }
    requires variation { variation ≤ 60000 }
    ensures value { result ≡ spec.t1_of (record { smoothed = smoothed; variation = variation }) }
    ensures range { result ≤ 60000 }
{
    MAX_T1.min(FIRST_T1.max(smoothed + 100.max(4 * variation)))
}
