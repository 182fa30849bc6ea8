//! Value types, function types, accesses and limits (WebAssembly Core 1.0, sections 2.3 and 2.4).

use crate::lists::Items;

/// The type of a value: WebAssembly's integer types.
///
/// A value is a `u64`, and one of type `I32` is below 2^32.
#[derive(Clone, Copy, Debug)]
pub enum ValType {
    /// `i32`
    I32,

    /// `i64`
    I64,
}

/// A function's type: its parameters in order, and its result, of which there is at most one.
#[derive(Debug)]
pub struct FuncType {
    /// The parameters' types, the first one first.
    pub params: Items<ValType>,

    /// The result's type.
    pub result: Option<ValType>,
}

impl Drop for FuncType {
    fn drop(self) {
        let FuncType {
            params: _,
            result: _,
        } = self;
    }
}

/// What a load or a store moves between the memory and a value.
#[derive(Clone, Copy, Debug)]
pub struct Access {
    /// The type of the value.
    pub value: ValType,

    /// How many bytes lie in memory: 1, 2, 4 or 8, and no more than the value has.
    pub width: u8,

    /// Whether a load of fewer bytes than the value has repeats their sign in the others.
    /// It is false for a store and for a load of the whole value.
    pub signed: bool,
}

/// The size of a table in elements or of a memory in pages of 64 KiB: the least, which is also the first, and the greatest (section 2.3.4).
#[derive(Clone, Copy, Debug)]
pub struct Limits {
    /// The size at the start.
    pub least: u32,

    /// The size that it may grow to, if that is limited.
    pub most: Option<u32>,
}
