//! What a desk hands out.

use memory_pool::Berth;
use sandbox_states::{Admitted, Sandbox};

/// One turn that is to be run.
#[derive(Drop)]
pub enum Duty {
    /// A request begins, on a berth that has room for its program.
    Begin(Admitted, Berth),

    /// A request that was stopped goes on.
    Resume(Sandbox),
}
