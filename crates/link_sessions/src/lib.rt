//! Sessions: connections that are served from their first byte to their last.
//!
//! A `Server` is what all threads of a server share: the shop, and the configuration with the routes and the programs of its tenants. `session` serves one connection of a tenant over any link: it reads pieces, and replies to each request and each refusal in the order in which they stand in the bytes, however they are cut.
//! Promised, over whole connections: what was written is a beginning of the replies to what was read (`specs/Serving.antt`), and all of them where the session is done; a request is refused as too much exactly where its tenant's meter, asked once for it at a moment of the clock, answered so, and else its reply is that of `replay`. The definitions of routes, verdicts and reply texts are those of a replay.
//! It stands on `shop_desks` for the shop, on `outside_links` for links and clocks, on `http_front` for requests and replies, on `serve_config` for routes, and on `recorded_runner` for what a replay replies. A session may wait for its peer, for other threads, and for the workers that answer its requests.
#![tactic(auto)]

mod answering;
mod routing;
mod servers;
mod sessions;

pub use crate::servers::Server;
pub use crate::sessions::{Ended, session};
