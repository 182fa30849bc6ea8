//! What is kept of a body that is typed.

/// How much room a body needs beside its locals.
#[derive(Clone, Copy)]
pub struct Measure {
    /// The greatest number of operands before or behind any of its operators.
    pub height: u32,

    /// The greatest number of blocks that are open at once, without the body itself.
    pub nest: u32,
}
