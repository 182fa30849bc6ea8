//! The meters of a server's tenants, which all its threads ask without a lock.
//!
//! A tenant's meter is one cell of seven words. To ask it is a load and a compare and exchange, again until the exchange succeeds. Each thread that asks has a pass, which takes no bytes.
//! Promised: the meter rule (`specs/Ruled.antt`) holds between any two atomic steps of any threads. So all calls of a meter stand in one history, in which each answer is that of a leaky bucket behind the calls before. What a pass has seen of it only grows, and of the pass's own calls it has just those that were made, each once and in order, with moment, estimate and answer.
//! It stands on `admission`, and on `crossbeam_utils` and `atomic_table` of the kit. A call may wait for other threads; only the makers take memory.
#![tactic(auto)]

mod callers;
mod charges;
pub mod laws;
mod meters;
mod questions;
mod rules;
mod visits;

pub use callers::Terms;
pub use meters::{MeterPass, TenantMeter};
pub use visits::{MeterVisit, Meters};
