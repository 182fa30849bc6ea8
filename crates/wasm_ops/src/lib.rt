//! WebAssembly's types, operators, modules and numbers, as every layer above speaks of them.
//!
//! The types are those of WebAssembly Core 1.0, chapter 2, without floating point and with the sign extensions of Core 2.0; `specs/Sequence.antt` has the nested body whose flat form a `Body` holds.
//! The integer operators compute what section 4.3.2 says, on machine words where `specs/Arithmetic.antt` has whole numbers.
//! Numbers are read from bytes by a `Cursor`, exactly where the bytes spell one (section 5.2).
//! It stands on nothing but std.
#![tactic(auto)]

mod arithmetic;
mod cursors;
mod faults;
mod host_calls;
mod i32_ops;
mod i64_ops;
mod int_ops;
pub mod laws;
mod lists;
mod modules;
mod names;
mod numbers;
mod operations;
mod operators;
mod traps;
mod types;

pub use arithmetic::{apply_binary, apply_unary};
pub use cursors::Cursor;
pub use faults::{Fault, Refusal};
pub use host_calls::{HostCall, HostName};
pub use int_ops::IntOp;
pub use lists::Items;
pub use modules::{
    Body, ByteSegment, Constant, ElementSegment, Export, GlobalDef, Import, ImportItem, Module,
};
pub use names::Name;
pub use numbers::{LebFault, Sign};
pub use operations::{Arithmetic, BitCount, Operation, Relation, SignExtension};
pub use operators::Op;
pub use traps::Trap;
pub use types::{Access, FuncType, Limits, ValType};
