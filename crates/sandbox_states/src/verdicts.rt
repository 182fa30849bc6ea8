//! What became of a request.

use wasi_calls::Reply;
use wasm_ops::Trap;

/// What became of a request. It cannot be cloned.
#[derive(Drop)]
pub enum Verdict {
    /// The function came to its end, and wrote these bytes.
    Replied(Reply),

    /// It ended itself with a code, and had written these bytes.
    Exit { code: u32, reply: Reply },

    /// It trapped.
    Trap(Trap),

    /// Its budget was spent.
    Spent,
}
