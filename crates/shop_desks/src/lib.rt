//! What the threads of a server share, and the desk of its workers.
//!
//! A `Shop` has all that sessions and workers share: a board of 256 places, which are vacant at first, the pool of berths, the inbox, the queue of vacant places, and a meter for each tenant. A `Visit` is one thread's handle on all of these. A `ShopDesk` is a worker's `Desk`: it has a part of the passes, and a queue and a stock of its own, gives out one duty at a time, and takes back what became of it.
//! It stands on `posted_jobs` for what stands on the board, on `place_lists` and `tenant_meters`, on `job_board`, `memory_pool` and `run_queues`, on `sandbox_states` for turns, and on `worker_desks` for settings and duties. Calls may wait for other threads; only the makers and `Shop::answer` take memory.
#![tactic(auto)]

mod asking;
mod berths;
mod desks;
mod finds;
mod handed;
mod own_queues;
mod searches;
mod shops;
mod visits;
mod working;

pub use desks::ShopDesk;
pub use shops::Shop;
pub use visits::Visit;
pub use working::work_until_dismissed;
