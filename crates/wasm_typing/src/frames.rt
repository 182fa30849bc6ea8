//! The blocks that are open around an operator.

use wasm_meaning::BlockKind;
use wasm_ops::ValType;

/// An open block, with what was there around it.
#[derive(Clone, Copy)]
pub(crate) struct Frame {
    /// In which part of which instruction its operators stand.
    pub(crate) kind: BlockKind,

    /// Its result.
    pub(crate) result: Option<ValType>,

    /// How many operands lie under the block around it.
    pub(crate) base: usize,

    /// Whether the block around it is never reached where it stands.
    pub(crate) loose: bool,
}
