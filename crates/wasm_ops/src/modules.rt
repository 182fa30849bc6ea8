//! A module and its parts (WebAssembly Core 1.0, section 2.5).
//!
//! In each index space the imported items come first.

use crate::lists::Items;
use crate::names::Name;
use crate::operators::Op;
use crate::types::{FuncType, Limits, ValType};

/// The body of a function.
#[derive(Debug)]
pub struct Body {
    /// The types of the declared locals, without the parameters.
    pub locals: Items<ValType>,

    /// The operators, the last of which is the `End` of the body.
    pub ops: Items<Op>,

    /// The labels of all `br_table`s, one after another, each with its default last.
    pub targets: Items<u32>,
}

impl Drop for Body {
    fn drop(self) {
        let Body {
            locals: _,
            ops: _,
            targets: _,
        } = self;
    }
}

/// A module.
#[derive(Debug)]
pub struct Module {
    /// The function types.
    pub types: Items<FuncType>,

    /// The imports.
    pub imports: Items<Import>,

    /// The type index of each function that the module defines.
    pub functions: Items<u32>,

    /// The tables that the module defines.
    pub tables: Items<Limits>,

    /// The memories that the module defines.
    pub memories: Items<Limits>,

    /// The globals that the module defines.
    pub globals: Items<GlobalDef>,

    /// The exports.
    pub exports: Items<Export>,

    /// The index of the start function.
    pub start: Option<u32>,

    /// The element segments.
    pub elements: Items<ElementSegment>,

    /// The body of each function that the module defines.
    pub bodies: Items<Body>,

    /// The data segments.
    pub segments: Items<ByteSegment>,
}

impl Drop for Module {
    fn drop(self) {
        let Module {
            types: _,
            imports: _,
            functions: _,
            tables: _,
            memories: _,
            globals: _,
            exports: _,
            start: _,
            elements: _,
            bodies: _,
            segments: _,
        } = self;
    }
}

/// An import: two names and what they stand for.
#[derive(Debug)]
pub struct Import {
    /// The name of the module that it comes from.
    pub module: Name,

    /// Its name there.
    pub name: Name,

    /// What is imported.
    pub item: ImportItem,
}

impl Drop for Import {
    fn drop(self) {
        let Import {
            module: _,
            name: _,
            item: _,
        } = self;
    }
}

/// What an import asks for.
#[derive(Clone, Copy, Debug)]
pub enum ImportItem {
    /// A function of the type with this index.
    Function(u32),

    /// A table.
    Table(Limits),

    /// A memory.
    Memory(Limits),

    /// A global.
    Global { value: ValType, mutable: bool },
}

/// A global that the module defines.
#[derive(Clone, Copy, Debug)]
pub struct GlobalDef {
    /// Its type.
    pub value: ValType,

    /// Whether it may be set.
    pub mutable: bool,

    /// Its first value.
    pub first: Constant,
}

/// A constant, as a constant expression of one `const` operator gives it.
#[derive(Clone, Copy, Debug)]
pub struct Constant {
    /// Its type.
    pub value: ValType,

    /// The number, in two's complement. It is below 2^32 for an `i32`.
    pub bits: u64,
}

/// An export.
#[derive(Debug)]
pub struct Export {
    /// The name.
    pub name: Name,

    /// The kind as it is spelt: 0 a function, 1 a table, 2 a memory, 3 a global.
    pub kind: u8,

    /// The index in the index space of its kind.
    pub index: u32,
}

impl Drop for Export {
    fn drop(self) {
        let Export {
            name: _,
            kind: _,
            index: _,
        } = self;
    }
}

/// An element segment: functions that are laid into a table.
#[derive(Debug)]
pub struct ElementSegment {
    /// The table's index.
    pub table: u32,

    /// Where the first one goes.
    pub offset: Constant,

    /// The functions' indices.
    pub functions: Items<u32>,
}

impl Drop for ElementSegment {
    fn drop(self) {
        let ElementSegment {
            table: _,
            offset: _,
            functions: _,
        } = self;
    }
}

/// A data segment: bytes that are laid into a memory.
#[derive(Debug)]
pub struct ByteSegment {
    /// The memory's index.
    pub memory: u32,

    /// Where the first one goes.
    pub offset: Constant,

    /// The bytes.
    pub bytes: Items<u8>,
}

impl Drop for ByteSegment {
    fn drop(self) {
        let ByteSegment {
            memory: _,
            offset: _,
            bytes: _,
        } = self;
    }
}
