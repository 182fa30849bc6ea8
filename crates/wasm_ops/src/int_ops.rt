//! The integer operators (WebAssembly Core 1.0, section 2.4.1).
ghost use Rattle.std.specs.Prelude.{◌≡◌, Some, None, if◌then◌else◌};
ghost use Rattle.wasm_ops.specs.IntOps.{is_int_op};
ghost use Rattle.wasm_ops.specs.Operations.{operation_of};

use crate::operations::{Operation, operation_of};
use std::marker::Model;

/// An integer operator. Contracts see it as its byte in the binary format (section 5.4.5).
///
/// `operation` says what it does; with that come how many operands it takes and of which types.
#[derive(Clone, Copy, Debug)]
pub struct IntOp {
    byte: u8,
}

impl Model for IntOp {
    ghost use Rattle.std.specs.Prelude.{ℕ, IsTrue};
    ghost use Rattle.wasm_ops.specs.IntOps.{is_int_op};

    ghost Value = { ℕ };

    ghost view = { λ op. op.byte };

    ghost invariant = { λ op. IsTrue (is_int_op op.byte) };

    ghost inverse = { λ n. record { byte = n } };
}

impl IntOp {
    /// The operator with this byte, unless it is the byte of no integer operator.
    pub fn from_byte(byte: u8) -> Option<IntOp>
        ensures { result ≡ (if is_int_op byte then Some byte else None) }
    {
        match operation_of(byte) {
            Some(_) => Some(IntOp { byte }),
            None => None,
        }
    }

    /// The byte.
    #[inline(always)]
    pub fn byte(&self) -> u8
        ensures { result ≡ self.now }
    {
        self.byte
    }

    /// What the operator does.
    pub fn operation(&self) -> Operation
        ensures { operation_of self.now ≡ Some result }
    {
        match operation_of(self.byte) {
            Some(operation) => operation,
            None => unreachable!(),
        }
    }
}
