//! The places at which the jobs of a batch or of a server stand, shared by all workers without a lock.
//!
//! Each place has one word, which tells the kind of its job, how many turns the job has had, and whether a pass holds the place, and one slot, in which the job lies while nobody holds it. Whoever claims a place by its word has the job alone until it puts it back.
//! Promised: the board rule (`specs/Ruled.antt`) holds between any two atomic steps of any threads. So a job that is claimed is of the place, the kind and the turns that the word told, and belongs to the request of its place, whoever ran its turns.
//! It stands on `view_totals`, and on `atomic_table` of the kit. No call waits for another thread; only the two that make a board take memory.
#![tactic(auto)]

mod boards;
mod holders;
mod makings;
mod moves;
mod placed;
mod rules;
mod words;

pub use boards::{Board, BoardPass};
pub use moves::{Claim, Fill};
pub use placed::Placed;
pub use words::{Kind, State, Word};
