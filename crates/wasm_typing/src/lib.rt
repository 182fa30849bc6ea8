//! Which bodies are typed (WebAssembly Core 1.0, section 3.3 and appendix A.3).
//!
//! `type_body` goes once over the operators of a body, with a stack of operand types and one of open blocks, and answers how high both grow, or the first rule that the body breaks. It answers just what the definition over the nested body says (`wasm_meaning`, `specs/Typing.antt`).
//! `Indexed` is a module with its index spaces, which all bodies of the module share.
//! It stands on `wasm_ops` and `wasm_meaning`.
#![tactic(auto)]

mod blocks;
mod bodies;
mod faults;
mod frames;
mod indexes;
mod labels;
mod measures;
mod operators;
mod scopes;
mod shapes;
mod stages;
mod tables;
mod walker;

pub use bodies::type_body;
pub use faults::BodyFault;
pub use indexes::{Indexed, as_function, as_memory, as_table};
pub use measures::Measure;
pub use shapes::same_type;
