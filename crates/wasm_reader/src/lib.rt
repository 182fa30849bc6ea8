//! Whole modules as a file's bytes spell them.
//!
//! `read_module` reads the bytes of a file, and answers the module exactly where they spell one within the limits; else it says with which number and at which place they are refused (WebAssembly Core 1.0, section 5.5, without floating point; of Core 2.0 with the sign extensions, the table index of `call_indirect` and the count of data segments).
//! `specs/` has what bytes spell: `Syntax.antt` the few ways in which things of a kind are put together from others, each with what is read, what is refused and the same as a function; by them each part of a module, each section, and the whole; and `Structure.antt` a module as the standard has it, the header and sections in order.
//! It stands on `wasm_ops`, whose cursor reads the numbers, and on `wasm_code`, which reads each body.
#![tactic(auto)]

mod bodies;
mod imports;
mod items;
pub mod laws;
mod modules;
mod parts;
mod sections;
mod vectors;

pub use modules::{MOST_BYTES, read_module};
/// Why `read_module` answers no module: the places are counted from the file's first byte, and the refusal is any of `Refusal`.
pub use wasm_code::CodeFault as ReadFault;
