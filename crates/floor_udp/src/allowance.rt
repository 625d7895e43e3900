//! How much a peer may have: so much a second, and so much at once.

ghost use Rattle.std.specs.Prelude.{◌≡◌, ◌↔◌, ◌≤◌, ◌<◌, IsTrue, false};
ghost use Rattle.floor_udp.specs.Allowance as spec;

use std::marker::Model;

/// How many thousandths one has: what is gained in a millisecond at one a second.
const THOUSANDTHS: u64 = 1_000;

/// What may be had: `rate` a second, and `most` at once.
///
/// `take` takes some of it, where there is as much.
#[derive(Debug, Drop)]
pub struct Allowance {
    rate: u32,
    most: u32,
    /// What is left, in thousandths.
    left: u64,
    /// When that was so, in milliseconds.
    at: u64,
}

impl Model for Allowance {
    ghost use Rattle.floor_udp.specs.Allowance.{Allowance};

    ghost Value = { Allowance };

    ghost view = { λ a. record { rate = a.rate; most = a.most; left = a.left; at = a.at } };
}

impl Allowance {
    /// One of which nothing was taken.
    pub fn new(rate: u32, most: u32, now: u64) -> Allowance
        ensures value { result ≡ spec.whole rate most now }
    {
        Allowance {
            rate,
            most,
            left: u64::from(most) * THOUSANDTHS,
            at: now,
        }
    }

    /// Takes so much, if there is as much by now; else nothing. The clock doesn't go back.
    pub fn take(&mut self, count: u32, now: u64) -> bool
        ensures found { IsTrue result ↔ spec.Has count now self.old }
        ensures took { IsTrue result → self.new ≡ spec.without count (spec.grown now self.old) }
        ensures left { result ≡ false → self.new ≡ spec.grown now self.old }
    {
        let gained = now
            .saturating_sub(self.at)
            .saturating_mul(u64::from(self.rate));
        let most = u64::from(self.most) * THOUSANDTHS;
        self.left = self.left.saturating_add(gained).min(most);
        self.at = now;
        let wanted = u64::from(count) * THOUSANDTHS;
        if wanted <= self.left {
            self.left -= wanted;
            return true;
        }
        false
    }
}
