//! Requests on their way from admission to answer: sandboxes that stop and go on.
//!
//! An `Admitted` begins on a berth by `start`; `run_turn` runs its operators until their prices reach the quantum, and stops it there; `settle` hands out the answer, and a clean berth.
//! At each stop a `Sandbox` stands for the rest of its request's run: whoever runs it on, in turns of whatever length, gives the request's verdict and units (`laws`).
//! None of these calls takes memory.
//! It stands on `wasm_step` and `wasi_calls` for operators and calls of the host, on `wasm_instance` for programs, on `memory_pool` for berths, and on `wasm_store`, `wasm_states`, `wasm_pending`, `wasm_meaning` and `wasm_ops` for what a stopped function is and means.
#![tactic(auto)]

mod admitted;
pub mod laws;
mod runs;
mod sandboxes;
mod turns;
mod verdicts;

pub use admitted::Admitted;
pub use sandboxes::{Answer, Finished, Sandbox, settle, start};
pub use turns::{Turn, run_turn};
pub use verdicts::Verdict;
