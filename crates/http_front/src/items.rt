//! What a connection asks, one item after another.

use http_items::Method;
use outside::Text;

/// A request whose head and body have come.
#[derive(Drop)]
pub struct Ask {
    /// The method, one of the three that are served.
    pub method: Method,

    /// The path that the target names, without its query: `/` and what follows, in ASCII.
    pub path: Text,

    /// The connection is kept after the reply (RFC 9112 section 9.3).
    pub keep: bool,

    /// Its size is at most 1,048,576 bytes.
    pub body: Vec<u8>,
}

/// A request, or the refusal that comes in the place of one.
#[derive(Drop)]
pub enum Item {
    /// A request to a path, which may still have no route.
    Request(Ask),

    /// The refusal with this number, from 1 to 8.
    Fault {
        number: u8,

        /// The request was a HEAD, whose reply has no body. It is false for refusal 1.
        head: bool,

        /// The connection is kept after the reply, which only refusal 8 lets it be.
        keep: bool,
    },
}
