//! Tests of a server as a command: the rows of its statuses over a network in memory, and one exchange over a connection of the loopback address.
//!
//! It has no function of its own, and stands over libraries that are proved once. What no clause says is that a server ends, and that a real connection is answered.
#![tactic(auto)]

#[cfg(test)]
mod exchange;
#[cfg(test)]
mod files;
#[cfg(test)]
mod rows;
