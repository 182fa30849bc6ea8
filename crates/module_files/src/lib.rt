//! A module's file as a program: its bytes are read, validated and linked.
//!
//! `program_of` answers the program of a file's bytes with so many pages of memory, exactly where
//! they have one; else it says what refuses them first. `specs/FilePrograms` defines both, over
//! the binary grammar, the rules of validity and linking; `specs/Accepted` says the same by the
//! module that the bytes spell, and the law `laws::programs_are_spelt` that it is the same.
//!
//! It stands on `wasm_reader`, `wasm_validate` and `wasm_instance`, and on `wasm_ops`, `wasm_code`
//! and `wasm_meaning` for what modules are and mean.
#![tactic(auto)]

mod faults;
pub mod laws;
mod making;

pub use faults::Unmade;
pub use making::program_of;
