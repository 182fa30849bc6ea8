//! Admission of requests by a leaky bucket, as it guards a tenant's share of the machine.
//!
//! A `Meter` has a level that rises by the estimate of each request that it lets in, and leaks at a fixed rate. A request whose estimate would make the level exceed the capacity is refused, and costs nothing.
//! Promised: each answer and each state behind it are those of the definition (`specs/Metering.antt`), at whatever moments and rate. Laws say what that means for one question and for any number of them (`src/laws.rt`).
//! It takes no memory, knows no clock, and stands on nothing but std.
#![tactic(auto)]

pub mod laws;
mod meters;

pub use meters::{Admission, Meter};
