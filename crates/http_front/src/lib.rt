//! The HTTP/1.1 side of the server, apart from any socket: the bytes of a connection go in, in
//! pieces, and its requests come out; what became of a request goes in, and the text of its reply
//! comes out.
//!
//! Promised: however the bytes are cut into pieces, `Front` answers the items that `http_items` defines
//! of them, and `reply_text` answers, to the byte, the text that `specs/Reply.antt` defines.
//! It stands on `http_items` for what is a request, on `http` for the phrases of status codes and on
//! `itoa` for lengths.
#![tactic(auto)]

mod front;
mod headings;
mod heads;
mod items;
mod parsed;
mod reply;
mod states;
mod targets;

pub use front::Front;
pub use http_items::{Method, Refusal};
pub use items::{Ask, Item};
pub use reply::{Outcome, reply_text};
