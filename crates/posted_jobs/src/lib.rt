//! Jobs that keep their request, for a board whose places serve one request after another.
//!
//! On such a board no rule says whose job stands at a place (`Board::vacant` of `job_board`). So a job has its request with it as data, and its type keeps that it belongs to it: what waits asks just for it, what was stopped stands for it, and an answer answers it. Who takes a job takes its answer only for a request that equals the one that is kept; equal requests have equal replies.
//! It stands on `job_board` for what may stand at a place, on `worker_desks` for tasks, on `sandbox_states` and `wasi_calls` for requests and their answers, on `wasm_instance` for programs, and on `wasm_meaning` for what a request means. No call waits for another thread.
#![tactic(auto)]

mod collects;
mod jobs;
mod requests;
mod rounds;

pub use collects::{Collected, collect};
pub use jobs::PostedJob;
pub use requests::KeptRequest;
pub use rounds::{claim_at, next_job};
