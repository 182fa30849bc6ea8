//! The scheduling policies of a run queue.

/// Which of the requests that wait a worker takes up next.
///
/// Either way a request that is taken up runs for one quantum of operators at most, and then waits again.
#[derive(Clone, Copy, Debug, PartialEq, Eq)]
pub enum Policy {
    /// The one that waits longest (round robin): first come, first served.
    RoundRobin,

    /// The one whose deadline is next (earliest deadline first). A deadline is the moment at which a request came, with its route's `deadline` on top.
    EarliestDeadline,
}
