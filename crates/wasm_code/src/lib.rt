//! Function bodies as a module's bytes spell them.
//!
//! `read_body` reads the bytes of one body, and answers it exactly where they spell one within the limits; else it says with which number and at which place they are refused (WebAssembly Core 1.0, sections 5.4 and 5.5.13, without floating point; of Core 2.0 with the sign extensions and the table index of `call_indirect`).
//! `specs/` has what bytes spell: which item each byte begins and what follows it, the groups of locals, and the structured sequence that the items of a body are in order.
//! It stands on `wasm_ops`, whose cursor reads the numbers.
#![tactic(auto)]

mod blocks;
mod bodies;
mod faults;
mod forms;
mod item_reader;
mod items;
mod labels;
pub mod laws;
mod laying;
mod layouts;
mod locals;
mod value_types;

pub use bodies::read_body;
pub use faults::CodeFault;
pub use value_types::value_type;
