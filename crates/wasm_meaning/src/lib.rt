//! What WebAssembly's modules mean, as definitions and laws over them.
//!
//! `specs/` says which modules are valid, and which rule any other one breaks first (WebAssembly Core 1.0, chapter 3): `Typing.antt` for a body, `Validity.antt` for a module.
//! It says how a valid module is linked, how its program runs, and what a request to it gives (chapter 4, and WASI preview1): `Execution.antt` for a sequence, `Requests.antt` for a request.
//! The crates above compute what is defined here; the few types and functions of `src/` are those that both speak of, and `laws` states what holds of all programs.
//! It stands on `wasm_ops` alone.
#![tactic(auto)]

mod blocks;
pub mod laws;
mod links;
mod violations;

pub use blocks::{BlockKind, GlobalType};
pub use links::{LinkRule, Unlinked};
pub use violations::{Broken, Rule, Violation};
