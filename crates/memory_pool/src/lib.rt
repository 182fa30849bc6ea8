//! Places for sandboxes: clean vessels that are handed from one run to the next, and the pool in which they wait.
//!
//! A `Berth` has one vessel, which its type keeps clean: whoever is handed one finds zeros, whatever ran in it before.
//! A `Pool` is shared by all workers without a lock. It has one word and one slot for each of its berths; a rule about these and about what each pass knows holds between any two atomic steps (`specs/Pooling.antt`). So a berth that is handed out is clean and has the pool's pages, whoever held it before.
//! It stands on `wasm_store` for vessels, on `wasm_meaning` for the size of a page, on `view_totals`, and on `atomic_table` of the kit. No call waits for another thread; only `Berth::new` and `Pool::new` take memory.
#![tactic(auto)]

mod answers;
mod berths;
mod movers;
mod pools;
mod rules;

pub use answers::Given;
pub use berths::Berth;
pub use movers::Found;
pub use pools::{Pool, PoolPass};
