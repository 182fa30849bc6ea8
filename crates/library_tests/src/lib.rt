//! Tests of the libraries below: what no clause says, and that each call can succeed.
//!
//! It has no function of its own. A crate with tests is proved twice, so the tests that name public items alone stand here, over libraries that are proved once. Tables of cases are read by the programs that print tables.
#![tactic(auto)]

#[cfg(test)]
mod adapters;
#[cfg(test)]
mod boards;
#[cfg(test)]
mod cursors;
#[cfg(test)]
mod operations;
#[cfg(test)]
mod pages;
#[cfg(test)]
mod pools;
#[cfg(test)]
mod queues;
#[cfg(test)]
mod shelves;
#[cfg(test)]
mod vessels;
