//! Which modules are valid (WebAssembly Core 1.0, section 3.4).
//!
//! `validate` goes through the lists of a module and through its bodies in the order of the definition (`wasm_meaning`, `specs/Validity.antt`), and answers a `Valid`, or the first rule that is broken, with its number and place.
//! A `Valid` keeps that its module is valid, and knows how much room each body needs.
//! It stands on `wasm_ops`, `wasm_meaning` and `wasm_typing`, which types the bodies.
#![tactic(auto)]

mod bodies;
mod exports;
mod faults;
pub mod laws;
mod lists;
mod rules;
mod valid;

pub use faults::ValidFault;
pub use valid::{Valid, validate};
pub use wasm_meaning::Broken;
