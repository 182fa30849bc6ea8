//! The blocks that are open while a body is read.

use wasm_ops::ValType;

/// What of a block is being read.
#[derive(Clone, Copy)]
pub(crate) enum Stage {
    /// The body of a `block`.
    Block,

    /// The body of a `loop`.
    Loop,

    /// What an `if` does where it is true.
    Then,

    /// What it does else. Its `Else` has this place.
    Else(u32),
}

/// An open block.
#[derive(Clone, Copy)]
pub(crate) struct OpenBlock {
    /// What of it is being read.
    pub(crate) stage: Stage,

    /// Its result.
    pub(crate) result: Option<ValType>,

    /// The place of the operator that opens it.
    pub(crate) at: u32,
}

/// Where an item stands.
#[derive(Clone, Copy)]
pub(crate) enum Standing {
    /// More items follow it.
    Inside,

    /// It is an `else`, and no `if` that has none is the inmost block.
    Misplaced,

    /// It is the `end` of the body.
    Last,
}
