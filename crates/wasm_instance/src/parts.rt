//! Whether two modules are equal, part by part.
ghost use Rattle.std.specs.Prelude.{◌≡◌};
ghost use Rattle.std.specs.Bool.{Decides};

use crate::operator_keys::key_of;
use wasm_ops::{
    Body, ByteSegment, Constant, ElementSegment, Export, FuncType, GlobalDef, Import, ImportItem,
    Items, Limits, Module, Name, Op, ValType,
};

/// A part of a module.
pub(crate) trait Part {
    /// Whether the two are equal. No memory is taken.
    fn same(&self, other: &Self) -> bool
        ensures { Decides result (self.now ≡ other.now) };
}

fn same_items<T: Part>(all: &[T], others: &[T]) -> bool
    ensures { Decides result (all.now ≡ others.now) }
{
    if all.len() != others.len() {
        return false;
    }
    for i in 0..all.len() {
        if !all[i].same(&others[i]) {
            return false;
        }
    }
    true
}

impl<T: Part> Part for Items<T> {
    fn same(&self, other: &Self) -> bool {
        same_items(self.as_slice(), other.as_slice())
    }
}

impl<T: Part> Part for Option<T> {
    fn same(&self, other: &Self) -> bool {
        match (self, other) {
            (None, None) => true,
            (Some(one), Some(another)) => one.same(another),
            _ => false,
        }
    }
}

impl Part for bool {
    fn same(&self, other: &Self) -> bool {
        *self == *other
    }
}

impl Part for u8 {
    fn same(&self, other: &Self) -> bool {
        *self == *other
    }
}

impl Part for u32 {
    fn same(&self, other: &Self) -> bool {
        *self == *other
    }
}

impl Part for Name {
    fn same(&self, other: &Self) -> bool {
        self.as_str() == other.as_str()
    }
}

impl Part for ValType {
    fn same(&self, other: &Self) -> bool {
        match (self, other) {
            (ValType::I32, ValType::I32) | (ValType::I64, ValType::I64) => true,
            _ => false,
        }
    }
}

impl Part for FuncType {
    fn same(&self, other: &Self) -> bool {
        if !self.params.same(&other.params) {
            return false;
        }
        self.result.same(&other.result)
    }
}

impl Part for Limits {
    fn same(&self, other: &Self) -> bool {
        if self.least != other.least {
            return false;
        }
        self.most.same(&other.most)
    }
}

impl Part for ImportItem {
    fn same(&self, other: &Self) -> bool {
        match (self, other) {
            (ImportItem::Function(one), ImportItem::Function(another)) => one.same(another),
            (ImportItem::Table(one), ImportItem::Table(another)) => one.same(another),
            (ImportItem::Memory(one), ImportItem::Memory(another)) => one.same(another),
            (
                ImportItem::Global { value, mutable },
                ImportItem::Global {
                    value: other_value,
                    mutable: other_mutable,
                },
            ) => value.same(other_value) && *mutable == *other_mutable,
            _ => false,
        }
    }
}

impl Part for Import {
    fn same(&self, other: &Self) -> bool {
        if !self.module.same(&other.module) {
            return false;
        }
        if !self.name.same(&other.name) {
            return false;
        }
        self.item.same(&other.item)
    }
}

impl Part for Constant {
    fn same(&self, other: &Self) -> bool {
        if !self.value.same(&other.value) {
            return false;
        }
        self.bits == other.bits
    }
}

impl Part for GlobalDef {
    fn same(&self, other: &Self) -> bool {
        if !self.value.same(&other.value) {
            return false;
        }
        if self.mutable != other.mutable {
            return false;
        }
        self.first.same(&other.first)
    }
}

impl Part for Export {
    fn same(&self, other: &Self) -> bool {
        if !self.name.same(&other.name) {
            return false;
        }
        if self.kind != other.kind {
            return false;
        }
        self.index == other.index
    }
}

impl Part for ElementSegment {
    fn same(&self, other: &Self) -> bool {
        if self.table != other.table {
            return false;
        }
        if !self.offset.same(&other.offset) {
            return false;
        }
        self.functions.same(&other.functions)
    }
}

impl Part for ByteSegment {
    fn same(&self, other: &Self) -> bool {
        if self.memory != other.memory {
            return false;
        }
        if !self.offset.same(&other.offset) {
            return false;
        }
        self.bytes.same(&other.bytes)
    }
}

#[tactic(auto, using(crate::proofs::KeyLaws::same_key))]
impl Part for Op {
    fn same(&self, other: &Self) -> bool {
        key_of(self) == key_of(other)
    }
}

impl Part for Body {
    fn same(&self, other: &Self) -> bool {
        if !self.locals.same(&other.locals) {
            return false;
        }
        if !self.ops.same(&other.ops) {
            return false;
        }
        self.targets.same(&other.targets)
    }
}

impl Part for Module {
    fn same(&self, other: &Self) -> bool {
        if !self.types.same(&other.types) {
            return false;
        }
        if !self.imports.same(&other.imports) {
            return false;
        }
        if !self.functions.same(&other.functions) {
            return false;
        }
        if !self.tables.same(&other.tables) {
            return false;
        }
        if !self.memories.same(&other.memories) {
            return false;
        }
        if !self.globals.same(&other.globals) {
            return false;
        }
        if !self.exports.same(&other.exports) {
            return false;
        }
        if !self.start.same(&other.start) {
            return false;
        }
        if !self.elements.same(&other.elements) {
            return false;
        }
        if !self.bodies.same(&other.bodies) {
            return false;
        }
        self.segments.same(&other.segments)
    }
}
