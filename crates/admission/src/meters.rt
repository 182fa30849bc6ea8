//! The meter and its answers.
ghost use Rattle.std.specs.Prelude.{◌≡◌, ◌≤◌, ◌^◌};
ghost use Rattle.admission.specs.Metering.{ask};

use std::marker::Model;

/// What a meter answers when it is asked to let a request in.
#[derive(Clone, Copy)]
pub enum Admission {
    /// The request is let in, and its estimate is on the level.
    Entered,

    /// The request is refused: its estimate would make the level exceed the capacity.
    Spent {
        /// The level at the moment of the question, in units, which the refusal leaves.
        level: u64,
        /// The estimate of the refused request, in units.
        estimate: u64,
        /// The capacity of the meter, in units.
        capacity: u64,
    },
}

/// A leaky bucket that admits requests by their estimates.
///
/// Capacity, level and estimates are in units, the prices of operators; moments are in milliseconds, and the rate is in units per millisecond.
/// Contracts see it as its `Bucket`. The level never exceeds the capacity.
#[derive(Clone, Copy)]
pub struct Meter {
    capacity: u64,
    rate: u64,
    level: u64,
    last: u64,
}

impl Model for Meter {
    ghost use Rattle.std.specs.Prelude.{◌≤◌, ◌^◌};
    ghost use Rattle.admission.specs.Bucket.{Bucket};

    ghost Value = { Bucket };

    ghost view = { λ meter. record { capacity = meter.capacity; rate = meter.rate; level = meter.level; last = meter.last } };

    ghost invariant = { λ meter. (meter.level ≤ meter.capacity) × (meter.capacity ≤ 2 ^ 40) };

    ghost inverse = { λ bucket. record { capacity = bucket.capacity; rate = bucket.rate; level = bucket.level; last = bucket.last } };
}

impl Meter {
    /// An empty meter, whose last moment is 0.
    pub fn new(capacity: u64, rate: u64) -> Meter
        requires { capacity ≤ 2 ^ 40 }
        ensures { result ≡ record { capacity = capacity; rate = rate; level = 0; last = 0 } }
    {
        Meter {
            capacity,
            rate,
            level: 0,
            last: 0,
        }
    }

    /// A meter that goes on from a level and a last moment, as another one told them.
    pub fn resume(capacity: u64, rate: u64, level: u64, last: u64) -> Meter
        requires limited { capacity ≤ 2 ^ 40 }
        requires kept { level ≤ capacity }
        ensures { result ≡ record { capacity = capacity; rate = rate; level = level; last = last } }
    {
        Meter {
            capacity,
            rate,
            level,
            last,
        }
    }

    /// The level behind the last question, in units.
    pub fn level(&self) -> u64
        ensures told { result ≡ self.now.level }
        ensures kept { result ≤ self.now.capacity }
    {
        self.level
    }

    /// The greatest moment of all questions, in milliseconds.
    pub fn last(&self) -> u64
        ensures { result ≡ self.now.last }
    {
        self.last
    }

    /// Asks to let in a request of this estimate at this moment.
    ///
    /// A moment before the last one counts as the last one. The level leaks first; then the request is let in exactly where its estimate fits on top.
    pub fn admit(&mut self, moment: u64, estimate: u64) -> Admission
        requires { estimate ≤ 2 ^ 40 }
        ensures { ask self.old moment estimate ≡ (result, self.new) }
    {
        let later = self.last.max(moment);
        let leaked = self.rate.saturating_mul(later - self.last);
        let level = self.level.saturating_sub(leaked);
        self.last = later;
        if level + estimate <= self.capacity {
            self.level = level + estimate;
            Admission::Entered
        } else {
            self.level = level;
            Admission::Spent {
                level,
                estimate,
                capacity: self.capacity,
            }
        }
    }
}
