//! Calls of the host's functions (WASI preview1: `fd_read`, `fd_write`, `proc_exit`), and the streams that they move bytes of.
//!
//! `host` makes a call that a running function asked for, on its vessel and on the streams of its request, exactly as `wasm_meaning` defines: all checks come before any effect, and a call whose price exceeds what is left changes nothing.
//! It takes no memory. `Streams` has the request's body and the reply, whose room is taken when they are made.
//! It stands on `wasm_store` for the vessel, on `wasm_meaning` for what a call does, on `wasm_states` for what it finds in a vessel and leaves there, and on `wasm_ops` for its name and arguments.
#![tactic(auto)]

mod calls;
mod errnos;
mod iovecs;
pub mod laws;
mod reads;
mod streams;
mod transfers;
mod writes;

pub use calls::{HostStep, host};
pub use streams::{Reply, Streams};
