//! What a worker does: it takes duties from its desk, and runs one turn of each.
//!
//! A `Desk` hands out duties one at a time, and takes back what became of each: a sandbox that was stopped, or an answer with the berth in which it ran. `work` runs a desk until it has nothing more to hand out, by the desk's contract alone.
//! A `SharedDesk` is a desk over the board, the pool and the queue that all workers share. It has one pass for each of them, and beside these a queue and a stock of its own; it waits for nobody, and takes memory only when it is made. Whichever desk begins, takes over and answers a request, the board's rule keeps what stands at its place the request's own.
//! It stands on `sandbox_states` for turns, on `job_board`, `memory_pool` and `run_queues` for what is shared, and on `outside` for the gate before each turn.
#![tactic(auto)]

mod berths;
mod claims;
mod desks;
mod duties;
mod finds;
mod settings;
mod shared_desks;
mod sharing;
mod tasks;
mod working;

pub use desks::Desk;
pub use duties::Duty;
pub use outside::{Gate, OpenGate};
pub use settings::Settings;
pub use shared_desks::SharedDesk;
pub use sharing::Shared;
pub use tasks::Task;
pub use working::work;
