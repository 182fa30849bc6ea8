//! Gates by which a test sees what the workers of a batch do: one that holds two workers until a
//! request has been taken over, and one that notes each pass.
//!
//! No clause can say that a second worker takes part, or in which order requests take their turns,
//! so this is shown by tests. `HoldingGate` brings a take-over about: worker 1 goes on with a
//! request that worker 0 began, while worker 0 is held. `NotingGate` keeps the passes in their
//! order, which a policy decides where there is one worker.
//! A gate tells nothing to the code that passes it, and nothing is proved of what it saw. The
//! crate stands on `outside` alone. Tests and programs that print tables use it; the server does
//! not.
#![tactic(auto)]

mod holding;
mod noting;

pub use holding::{HoldingGate, Seen};
pub use noting::{NotingGate, Passed};
