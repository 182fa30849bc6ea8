//! What a desk over shared objects serves.

use crate::tasks::Task;
use job_board::Board;
use memory_pool::Pool;
use run_queues::{Common, Policy};

/// The objects that a desk shares with others, how many of their 65,536 parts its passes have, and by which queue of its own it serves them. No value of it is made: contracts see by it what a desk keeps serving, and how.
pub struct Shared {
    /// The board at whose places the requests stand.
    pub board: Board<Task>,

    /// The pool from which their berths come.
    pub pool: Pool,

    /// The queue of the places that have not begun.
    pub queue: Common,

    /// The parts of the board's pass.
    pub board_parts: u64,

    /// The parts of the pool's pass.
    pub pool_parts: u64,

    /// The parts of the queue's pass.
    pub queue_parts: u64,

    /// The policy by which the desk takes up what it has stopped.
    pub policy: Policy,

    /// How many entries its own queue has room for.
    pub room: u64,
}
