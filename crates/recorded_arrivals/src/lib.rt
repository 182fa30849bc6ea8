//! What arrives in a recording: the items of all its connections, in one order.
//!
//! `arrivals_of` gives each connection's bytes to a `Front` of its own, piece by piece as the records have them, and answers the items in the order in which they are complete, each with its connection and its moment.
//! `specs/` says over whole lists which items these are (`Arrivals`), and laws say that each connection's are just the items of its joined bytes (`laws`).
//! It stands on `recording_format` for recordings, and on `http_front` for streams.
#![tactic(auto)]

mod arrivals;
mod feeding;
pub mod laws;

pub use arrivals::Arrival;
pub use feeding::arrivals_of;
