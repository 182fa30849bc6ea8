//! What a server serves: its configuration, and the route of a request's path.
//!
//! `read_config` reads the bytes of a JSON file, and answers a `Config` exactly where they are one; else it says which refusal comes first. Whoever makes a `Config`, its numbers and texts are in their ranges, and its tenants and routes fit one another. `Routes` finds the route of a path, without taking memory. `load_programs` reads the files of all routes, and answers their programs, or the first that is none.
//! `specs/` has the table of keys, each with its kind and its range (`Walk`), what is looked at over a whole configuration (`Overview`), which route a path has (`Routing`), and what comes of the reads of modules (`Loading`).
//! It stands on `serde_json` (what bytes mean as JSON) and `matchit` (paths) of the kit; on `outside` for files and texts, and on `wasm_ops` for lists; on `module_files` for the program of one file, and `wasm_reader`, `wasm_meaning` and `wasm_instance` for what it is; and on `run_queues` for the policy.
#![tactic(auto)]

mod configs;
mod faults;
mod keys;
pub mod laws;
mod letters;
mod load_faults;
mod loading;
mod objects;
mod overview;
mod reading;
mod refusals;
mod routers;
mod tenants;
mod walk;

pub use configs::Config;
pub use faults::ConfigFault;
pub use load_faults::LoadFault;
pub use loading::load_programs;
pub use reading::read_config;
pub use refusals::Refusal;
pub use routers::Routes;
pub use tenants::{Route, Tenant};
