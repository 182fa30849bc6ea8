//! The outside of a server as traits: a connection (`Link`), a listener that hands out connections
//! (`Port`), the network that listeners come from and go back to (`Door`), moments (`Clock`), and
//! who starts threads (`Spawner`).
//!
//! A call fails exactly where the object's own count of faults rose in it, so a layer above that
//! answers with a fault can show that there was one. Which bytes are left to read on a link and
//! which were written, and at which moment a clock stands, an object may tell in proofs, and then
//! its answers are tied to that. Of each link it is known besides which bytes its calls exchanged,
//! and of each clock which moments it gave: only calls do.
//!
//! Two kinds of objects stand behind the traits. The forms in memory (`MemLink`, `MemPort`,
//! `MemDoor`, `FixedClock`) tell everything, and fail exactly where they were told to, as
//! `FailingSpawner` does over another spawner. The adapters over the system (`TcpLink`, `TcpPort`,
//! `TcpDoor`, `SystemClock`, `ThreadSpawner`) tell flags and counts alone. They are proved to meet
//! their traits, and a link over any stream to read and write just the bytes of that stream; what
//! the system does with a call is trusted.
//!
//! A read, a write or an `accept` of the system may wait for a peer, of which no clause speaks.
//! The crate stands on the standard library alone.
#![tactic(auto)]

mod clocks;
mod cuts;
mod doors;
mod failing_spawners;
mod faults;
mod links;
mod mem_doors;
mod mem_links;
mod mem_ports;
mod pieces;
mod ports;
mod spawners;
mod stream_links;
mod system_clocks;
mod tcp_ports;
mod thread_spawners;

pub use crate::clocks::{Clock, FixedClock};
pub use crate::cuts::Cut;
pub use crate::doors::Door;
pub use crate::failing_spawners::FailingSpawner;
pub use crate::faults::Failed;
pub use crate::links::Link;
pub use crate::mem_doors::MemDoor;
pub use crate::mem_links::MemLink;
pub use crate::mem_ports::MemPort;
pub use crate::ports::Port;
pub use crate::spawners::Spawner;
pub use crate::stream_links::{StreamLink, TcpLink};
pub use crate::system_clocks::SystemClock;
pub use crate::tcp_ports::{Limits, TcpDoor, TcpPort};
pub use crate::thread_spawners::ThreadSpawner;
