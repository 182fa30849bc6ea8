//! The load that the program makes for itself: a configuration, its modules, and a recording of as many requests as are asked for.
//!
//! `soak_config` makes the configuration, `soak_programs` reads, validates and links the modules of its routes, whose bytes stand here, and `soak_recording` makes the recording from a number, by a generator. Whoever asks for the same number of requests from the same start has the same recording.
//! `specs/` has the generator as a recurrence, what a request is by what is drawn for it, when each arrives and on which connection, and the modules section by section.
//! It stands on `serve_config` (configurations, and the program of a module's bytes), and on `recording_format` for recordings.
#![tactic(auto)]

mod configuration;
mod generator;
pub mod laws;
mod modules;
mod programs;
mod recording;
mod requests;

pub use configuration::soak_config;
pub use programs::soak_programs;
pub use recording::soak_recording;
