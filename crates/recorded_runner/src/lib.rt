//! Replays of recordings.
//!
//! `replay` takes a configuration with the programs of its routes, and a recording of what arrived on connections, and answers the text of all replies, connection by connection, with a summary of what they took. The requests that are admitted run as one batch of the configuration's workers.
//! `specs/` has what is promised of it, over whole lists: what becomes of each item that arrives (`Fates`), the reply to each (`Replies`), the text (`ReplayText`) and the summary (`Summaries`). Nothing of it depends on how many workers there are, in which order they take requests up, how many berths there are, or on when a function is stopped; the summary's turns alone depend on the quantum.
//! It stands on `recording_format` for recordings, on `recorded_arrivals` for the items that arrive and their order, on `http_front` for replies, on `serve_config` for routes, on `admission` for meters, on `sandbox_states` for requests and answers, on `workers` for running them, and on `outside` for the gate.
#![tactic(auto)]

mod answering;
mod batching;
mod deciding;
mod jobs;
pub mod laws;
mod meters;
mod played;
mod replaying;
mod replies;
mod serving;
mod settings;

pub use played::{Played, Summary};
pub use recording_format::{Event, Piece, Record, Recording, RecordingFault, read_recording};
pub use replaying::replay;
pub use settings::settings_of;
