//! Batches of requests, run by several workers.
//!
//! `run_batch` lays the requests on a board, gives each worker a desk over it, and answers them in order. The workers go by the toolchain's parallel calls; whichever of them begins a request, takes it over or ends it, and in whatever order their steps fall, each answer is that of its own request (`specs/Batches.antt`). `outcome` says of an answer, and `outcome_of` of its verdict, what its reply reports (`specs/Outcomes.antt`).
//! It stands on `worker_desks` for what a worker does, on `job_board`, `memory_pool` and `run_queues` for what the workers share, and on `http_front` for what replies report. The names of `worker_desks` are given on, so that users see one crate.
#![tactic(auto)]

mod batches;
mod crews;
mod leftovers;
mod outcomes;
mod workshops;

pub use batches::run_batch;
pub use outcomes::{outcome, outcome_of};
pub use worker_desks::{Desk, Duty, Gate, OpenGate, Settings, Shared, SharedDesk, Task, work};

#[cfg(test)]
mod tests;
