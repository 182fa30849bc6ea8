//! Programs: valid modules that are linked to the host, and the state in which each begins (WebAssembly Core 1.0, sections 4.5.3 and 4.5.4).
//!
//! `link` looks at imports, entry, pages and segments in the order of the definition (`wasm_meaning`, `specs/Linking.antt`), and answers a `Program`, or what refuses it first.
//! A `Program` keeps that it is one, and has at one place what a call of a function needs.
//! `fresh` lays the state in which a program begins into a clean vessel, which then has the whole program before it (`wasm_states`).
//! It stands on `wasm_ops`, `wasm_meaning`, `wasm_validate`, `wasm_store` and `wasm_states`.
#![tactic(auto)]

mod callees;
mod faults;
mod fresh_states;
mod linking;
mod operator_keys;
mod parts;
mod programs;
mod refusals;
mod rules;
mod tables;

pub use callees::{Callee, Shape};
pub use faults::LinkFault;
pub use fresh_states::fresh;
pub use linking::link;
pub use programs::Program;
