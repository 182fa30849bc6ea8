//! The commands: what the words of a command line ask for, from the words to what is written.
//!
//! `run` carries out a whole command over a library of files and two sinks: it plans an ending,
//! which reads each file in its order, checks it and computes, and then delivers that ending. Its
//! clauses are the same for every command but for the replay theorem; what is said of one command
//! is a law about its ending over files (`laws`, `check_laws`, `replay_laws`, `soak_laws`), and
//! `read_laws` say what a file that cannot be read leaves.
//!
//! `specs/Commands` has the plan of each command, and `specs/Plans` what it means that a plan was
//! carried out by reads. It stands on `outside` for files and outputs, and on the layers that read,
//! check and run.
#![tactic(auto)]

pub mod accepted_laws;
pub mod check_laws;
mod checking;
mod command;
mod delivery;
mod ending;
mod execution;
pub mod laws;
mod planning;
pub mod read_laws;
pub mod replay_laws;
mod replaying;
mod serving;
pub mod soak_laws;
mod soaking;
mod status;
mod texts;
mod top;

pub use serving::serve_words;
pub use status::Status;
pub use top::{out_of_memory, run};
