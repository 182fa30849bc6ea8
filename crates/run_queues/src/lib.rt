//! Which of the requests that wait is run next: the queue of a worker, and the one of all workers.
//!
//! `Local` belongs to one worker, and takes out its entries by a `Policy`: the one that waits longest, or the one whose deadline is next. It is exact on the list of its entries, and takes memory only when it is made.
//! `Common` is shared by all workers without a lock: each draw gives the place at the next number. A rule about its one word and about what each pass has drawn holds between any two atomic steps (`specs/Counting.antt`).
//! It stands on `view_totals`, and on `atomic_table` and `circular_buffer` of the kit. No call waits for another thread.
#![tactic(auto)]

mod common_queues;
mod drawers;
mod entries;
mod local_queues;
mod policies;

pub use common_queues::{Common, CommonPass};
pub use entries::Entry;
pub use local_queues::Local;
pub use policies::Policy;
