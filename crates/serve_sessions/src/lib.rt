//! A server from its first thread to its last.
//!
//! `serve` opens a port for each tenant, starts the workers and, for each tenant, the clerks; each clerk accepts one connection after another and serves it by `session`. It returns once all threads have ended and all ports are given back to the door, and answers how that came about.
//! Promised: each answer has its cause. `Closed` comes only where so many ports came back ended as there are clerks in all; `NoThread` and `DoorFault` only where the spawner's and the door's own count of faults rose in this call; and where neither rose, the answer is `Closed` or want of memory. What a connection is sent is promised by `session`, and what a request is answered by the shop of `shop_desks`.
//! A clerk that waits for a connection, for its peer or for an answer waits as long as these take: no clause says that `serve` returns.
//! It stands on `link_sessions` for sessions and what the threads share, on `shop_desks` for the workers' desks, and on `outside_links` for doors, ports, clocks and spawners. Reports come back over a channel of `crossbeam_channel`.
#![tactic(auto)]

mod clerks;
mod counts;
mod hands;
mod opening;
mod serving;
mod staffs;

pub use crate::serving::{Served, serve};
