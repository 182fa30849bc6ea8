//! The labels of open blocks.

/// A block that is open: where a branch to it goes on, and what it leaves there (WebAssembly Core 1.0, section 4.2.12).
#[derive(Clone, Copy)]
pub struct Label {
    /// The place of the operator that a branch to the label goes on with.
    pub target: u32,
    /// How many cells lay under the block's operands when it was opened.
    pub height: u32,
    /// Whether a branch takes a result along.
    pub result: bool,
}
