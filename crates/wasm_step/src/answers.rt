//! What one operator gives.

use wasm_ops::{HostCall, Trap};

/// What became of a running function by one step.
#[derive(Clone, Copy)]
pub enum Step {
    /// An operator ran, and cost so many units.
    Went(u64),

    /// It went on for nothing: at the end of a block or of a function, or where a function is entered from outside.
    Free,

    /// The next operator calls a function of the host. Nothing has changed.
    Host(HostCall),

    /// It trapped, at a cost of so many units.
    Trapped { trap: Trap, price: u64 },

    /// Nothing is left to run.
    Ended,

    /// The next operator costs more units than are left. Nothing has changed.
    Short,
}
