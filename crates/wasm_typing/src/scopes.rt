//! What the operators of a body may name.

use crate::indexes::Indexed;
use wasm_ops::ValType;

/// What a body's operators look up, beside the labels of its blocks.
#[derive(Clone, Copy)]
pub(crate) struct Scope<'a> {
    /// The module.
    pub(crate) whole: &'a Indexed,

    /// The types of the parameters and the locals.
    pub(crate) locals: &'a [ValType],

    /// The labels of all `br_table`s.
    pub(crate) targets: &'a [u32],

    /// The function's result.
    pub(crate) result: Option<ValType>,
}
