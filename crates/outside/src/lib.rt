//! The outside as traits: where files come from (`Library`), where bytes go to (`Sink`), and what
//! is passed before each turn of a worker (`Gate`).
//!
//! A call fails only where the object's own count of faults rose in that call, so a layer above
//! that answers with a fault can show that there was one. What a library holds, and which bytes a
//! sink has taken, an object may tell in proofs, and then its answers are tied to that. Of each
//! library it is known besides which bytes its calls gave: only a call of `read` gives any.
//!
//! Two kinds of objects stand behind the traits. The forms in memory (`Shelf`, `Page`) tell
//! everything, and fail exactly where they were told to. The adapters over the system
//! (`FileLibrary`, `StdSink`, `StdNotes`) tell nothing. They are proved to meet their traits, and
//! the sinks to hand their stream just the bytes written; what the system does with a call is
//! trusted.
//!
//! The crate stands on the standard library alone.
#![tactic(auto)]

mod adapters;
mod faults;
mod gates;
mod libraries;
mod pages;
mod shelves;
mod sinks;
mod texts;

pub use crate::adapters::{FileLibrary, StdNotes, StdSink};
pub use crate::faults::Failed;
pub use crate::gates::{Gate, OpenGate};
pub use crate::libraries::{Fetch, Library};
pub use crate::pages::{Cut, Page};
pub use crate::shelves::Shelf;
pub use crate::sinks::Sink;
pub use crate::texts::Text;
