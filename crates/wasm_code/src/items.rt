//! The items that the operators of a body are spelt by, one after another.

use wasm_ops::{Op, ValType};

/// One item of a body: an operator that opens no block, or what opens, divides or closes one (WebAssembly Core 1.0, section 5.4.1).
#[derive(Clone, Copy)]
pub(crate) enum Item {
    /// An operator that opens no block and closes none.
    Operator(Op),

    /// The beginning of a block, with its result.
    Opens(Opener, Option<ValType>),

    /// `else`
    Else,

    /// `end`, of a block or of the body.
    End,
}

/// An operator that opens a block.
#[derive(Clone, Copy)]
pub(crate) enum Opener {
    /// `block`
    Block,

    /// `loop`
    Loop,

    /// `if`
    If,
}

/// What an open block is.
#[derive(Clone, Copy)]
pub(crate) enum Kind {
    /// A `block`.
    Block,

    /// A `loop`.
    Loop,

    /// An `if` before its `else`.
    Then,

    /// An `if` behind its `else`.
    Else,
}
