//! What typing speaks of beside the parts of a module.

use wasm_ops::ValType;

/// Which instruction a sequence stands in, and in which part of it (WebAssembly Core 1.0, section 2.4.5).
#[derive(Clone, Copy)]
pub enum BlockKind {
    /// In a `block`, or it is a whole body.
    BlockBody,

    /// In a `loop`.
    LoopBody,

    /// In an `if`, before its `else` if it has one.
    ThenBranch,

    /// In an `if`, behind its `else`.
    ElseBranch,
}

/// The type of a global (section 2.3.5).
#[derive(Clone, Copy)]
pub struct GlobalType {
    /// The type of its value.
    pub value: ValType,

    /// Whether it may be set.
    pub mutable: bool,
}
