//! What a batch is run with.

use run_queues::Policy;

/// How a batch of requests is run. No answer depends on it, but for the number of turns, which the quantum cuts.
#[derive(Clone, Copy, Debug, PartialEq, Eq)]
pub struct Settings {
    /// How many workers there are, 1 to 64.
    pub workers: u32,

    /// The prices, in units, at which a turn is stopped: at least 1.
    pub quantum: u64,

    /// The order in which a worker takes up the requests that it has stopped.
    pub policy: Policy,

    /// How many requests may have begun and be waiting at a time, beyond those that workers hold back for themselves: at least 1.
    pub berths: u32,

    /// The pages of 64 KiB of each berth, as many as the memory of any program may have.
    pub pages: u32,
}
