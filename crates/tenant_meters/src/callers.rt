//! What a meter is made for, and what a pass knows of it. No value of `Call` and `Caller` is made.

use admission::Admission;
use std::collections::LinkedList;

/// What a tenant's meter is made for: its capacity in units, and what leaks from it, in units per millisecond.
#[derive(Clone, Copy)]
pub struct Terms {
    /// The most that the meter holds, in units; at most 2^40.
    pub capacity: u64,
    /// What leaks in a millisecond, in units.
    pub rate: u64,
}

// One call of a meter: the number of the pass that made it, its moment, its estimate, and what was answered.
pub struct Call {
    pub by: u64,
    pub moment: u64,
    pub estimate: u64,
    pub answer: Admission,
}

// What a pass knows: the terms of the meter, the history of all calls as far as it has seen it, and its own calls in it.
pub struct Caller {
    pub terms: Option<Terms>,
    pub seen: LinkedList<Call>,
    pub mine: LinkedList<Call>,
}
