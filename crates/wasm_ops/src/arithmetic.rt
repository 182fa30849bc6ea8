//! The integer operators on numbers (WebAssembly Core 1.0, section 4.3.2; for the sign extensions Core 2.0, the same section).
ghost use Rattle.std.specs.Prelude.{◌≡◌, ◌↔◌, ◌⊎◌, IfOk, IfErr, Err, Some};
ghost use Rattle.wasm_ops.specs.declared.operations.Operation.TheVariants as operation;
ghost use Rattle.wasm_ops.specs.declared.types.ValType.TheVariants.{I32, I64};
ghost use Rattle.wasm_ops.specs.Operations.{IsOfOne, IsOfTwo, operation_of};
ghost use Rattle.wasm_ops.specs.Arithmetic.{IsDivision, IsOperand, IsResult, Overflows, binary_result, two_operands, unary_result};
ghost use Rattle.wasm_ops.specs.Values.{IsOfType};

use crate::{Arithmetic, BitCount, IntOp, Relation, SignExtension, Trap};

/// What an operator of one operand gives for a value of its type. It never traps.
#[inline(always)]
pub fn apply_unary(op: IntOp, a: u64) -> u64
    requires takes_one { IsOfOne op }
    requires a_of_its_type { IsOperand op a }
    ensures value { unary_result op a ≡ Some result }
    ensures of_its_type { IsResult op result }
{
    match op.byte() {
        0x45 | 0x50 => u64::from(a == 0),
        0x67 => u64::from(BitCount::Clz.of_i32(a as u32)),
        0x68 => u64::from(BitCount::Ctz.of_i32(a as u32)),
        0x69 => u64::from(BitCount::Popcnt.of_i32(a as u32)),
        0x79 => u64::from(BitCount::Clz.of_i64(a)),
        0x7A => u64::from(BitCount::Ctz.of_i64(a)),
        0x7B => u64::from(BitCount::Popcnt.of_i64(a)),
        0xA7 => a % 0x1_0000_0000,
        0xAC => i64::from((a as u32).cast_signed()).cast_unsigned(),
        0xAD => a,
        0xC0 => u64::from(SignExtension::Extend8S.of_i32(a as u32)),
        0xC1 => u64::from(SignExtension::Extend16S.of_i32(a as u32)),
        0xC2 => SignExtension::Extend8S.of_i64(a),
        0xC3 => SignExtension::Extend16S.of_i64(a),
        0xC4 => SignExtension::Extend32S.of_i64(a),
        _ => unreachable!(),
    }
}

/// What an operator of two operands gives for two values of its type, or its trap.
///
/// A comparison gives 1 where it holds, and else 0.
#[inline(always)]
pub fn apply_binary(op: IntOp, a: u64, b: u64) -> Result<u64, Trap>
    requires takes_two { IsOfTwo op }
    requires a_of_its_type { IsOperand op a }
    requires b_of_its_type { IsOperand op b }
    ensures value { binary_result op a b ≡ Some result }
    ensures of_its_type { IfOk result (IsResult op) }

    // Both traps come exactly here, and no other one does.
    ensures by_zero { (result ≡ Err Trap.DivideByZero) ↔ (IsDivision (operation_of op) × (b ≡ 0)) }
    ensures overflow { (result ≡ Err Trap.IntegerOverflow) ↔ Overflows (operation_of op) a b }
    ensures no_other { IfErr result (λ trap. (trap ≡ Trap.DivideByZero) ⊎ (trap ≡ Trap.IntegerOverflow)) }
{
    combine(op.byte(), a, b)
}

/// What the operator with this byte gives for two values of its type.
#[inline(always)]
fn combine(byte: u8, a: u64, b: u64) -> Result<u64, Trap>
    requires takes_two { IsOfTwo byte }
    requires a_of_its_type { IsOperand byte a }
    requires b_of_its_type { IsOperand byte b }
    ensures value { binary_result byte a b ≡ Some result }
    ensures of_its_type { IfOk result (IsResult byte) }
{
    match byte {
        0x46 => compare_i32(Relation::Eq, a, b),
        0x47 => compare_i32(Relation::Ne, a, b),
        0x48 => compare_i32(Relation::LtS, a, b),
        0x49 => compare_i32(Relation::LtU, a, b),
        0x4A => compare_i32(Relation::GtS, a, b),
        0x4B => compare_i32(Relation::GtU, a, b),
        0x4C => compare_i32(Relation::LeS, a, b),
        0x4D => compare_i32(Relation::LeU, a, b),
        0x4E => compare_i32(Relation::GeS, a, b),
        0x4F => compare_i32(Relation::GeU, a, b),
        0x51 => compare_i64(Relation::Eq, a, b),
        0x52 => compare_i64(Relation::Ne, a, b),
        0x53 => compare_i64(Relation::LtS, a, b),
        0x54 => compare_i64(Relation::LtU, a, b),
        0x55 => compare_i64(Relation::GtS, a, b),
        0x56 => compare_i64(Relation::GtU, a, b),
        0x57 => compare_i64(Relation::LeS, a, b),
        0x58 => compare_i64(Relation::LeU, a, b),
        0x59 => compare_i64(Relation::GeS, a, b),
        0x5A => compare_i64(Relation::GeU, a, b),
        0x6A => compute_i32(Arithmetic::Add, a, b),
        0x6B => compute_i32(Arithmetic::Sub, a, b),
        0x6C => compute_i32(Arithmetic::Mul, a, b),
        0x6D => compute_i32(Arithmetic::DivS, a, b),
        0x6E => compute_i32(Arithmetic::DivU, a, b),
        0x6F => compute_i32(Arithmetic::RemS, a, b),
        0x70 => compute_i32(Arithmetic::RemU, a, b),
        0x71 => compute_i32(Arithmetic::And, a, b),
        0x72 => compute_i32(Arithmetic::Or, a, b),
        0x73 => compute_i32(Arithmetic::Xor, a, b),
        0x74 => compute_i32(Arithmetic::Shl, a, b),
        0x75 => compute_i32(Arithmetic::ShrS, a, b),
        0x76 => compute_i32(Arithmetic::ShrU, a, b),
        0x77 => compute_i32(Arithmetic::Rotl, a, b),
        0x78 => compute_i32(Arithmetic::Rotr, a, b),
        0x7C => Arithmetic::Add.of_i64(a, b),
        0x7D => Arithmetic::Sub.of_i64(a, b),
        0x7E => Arithmetic::Mul.of_i64(a, b),
        0x7F => Arithmetic::DivS.of_i64(a, b),
        0x80 => Arithmetic::DivU.of_i64(a, b),
        0x81 => Arithmetic::RemS.of_i64(a, b),
        0x82 => Arithmetic::RemU.of_i64(a, b),
        0x83 => Arithmetic::And.of_i64(a, b),
        0x84 => Arithmetic::Or.of_i64(a, b),
        0x85 => Arithmetic::Xor.of_i64(a, b),
        0x86 => Arithmetic::Shl.of_i64(a, b),
        0x87 => Arithmetic::ShrS.of_i64(a, b),
        0x88 => Arithmetic::ShrU.of_i64(a, b),
        0x89 => Arithmetic::Rotl.of_i64(a, b),
        0x8A => Arithmetic::Rotr.of_i64(a, b),
        _ => unreachable!(),
    }
}

/// What a comparison of two i32 gives.
#[inline(always)]
fn compare_i32(relation: Relation, a: u64, b: u64) -> Result<u64, Trap>
    requires a_of_its_type { IsOfType I32 a }
    requires b_of_its_type { IsOfType I32 b }
    ensures value { result ≡ two_operands (operation.Compare I32 relation) a b }
    ensures of_its_type { IfOk result (IsOfType I32) }
{
    Ok(u64::from(relation.holds_i32(a as u32, b as u32)))
}

/// What a comparison of two i64 gives, which is an i32.
#[inline(always)]
fn compare_i64(relation: Relation, a: u64, b: u64) -> Result<u64, Trap>
    ensures value { result ≡ two_operands (operation.Compare I64 relation) a b }
    ensures of_its_type { IfOk result (IsOfType I32) }
{
    Ok(u64::from(relation.holds_i64(a, b)))
}

/// What is computed from two i32, or the trap.
#[inline(always)]
fn compute_i32(arithmetic: Arithmetic, a: u64, b: u64) -> Result<u64, Trap>
    requires a_of_its_type { IsOfType I32 a }
    requires b_of_its_type { IsOfType I32 b }
    ensures value { result ≡ two_operands (operation.Compute I32 arithmetic) a b }
    ensures of_its_type { IfOk result (IsOfType I32) }
{
    Ok(u64::from(arithmetic.of_i32(a as u32, b as u32)?))
}
