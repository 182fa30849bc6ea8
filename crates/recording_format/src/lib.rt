//! Recordings of connections, as a file holds them.
//!
//! A `Recording` is a list of records: connections begin, pieces of bytes arrive on them, and they are closed, each at a moment. `read_recording` reads the bytes of a file, and answers a recording exactly where they spell one; else it says which refusal comes first. Code can make a `Recording` too, and whoever made it, its records follow one another as those of a file do.
//! `specs/` has what bytes spell, which records may follow which, which refusal comes first, and what a recording means: its connections, each with its tenant and its pieces.
//! It stands on nothing but std.
#![tactic(auto)]

mod faults;
pub mod laws;
mod looks;
mod reading;
mod recordings;
mod records;
mod refusals;

pub use faults::RecordingFault;
pub use reading::read_recording;
pub use recordings::Recording;
pub use records::{Event, Piece, Record};
pub use refusals::Refusal;
