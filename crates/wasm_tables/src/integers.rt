//! What each integer operator gives at boundary operands, in hexadecimal: a line for each operator and first operand, with the results for each second operand in turn.
ghost use Rattle.std.specs.Prelude.{◌<◌, ◌≤◌};
ghost use Rattle.wasm_ops.specs.Values.{IsOfType};

use std::io;
use wasm_ops::{IntOp, Trap, ValType, apply_binary, apply_unary};

/// 0, 1, -1, the least, the greatest, the least's neighbours, and counts about both widths; behind these 15 more
/// for operators of one operand, about the signs of the low 8 and 16 bits.
const OPERANDS_I32: [u32; 23] = [
    0,
    1,
    2,
    31,
    32,
    33,
    63,
    64,
    65,
    0x7FFF_FFFE,
    0x7FFF_FFFF,
    0x8000_0000,
    0x8000_0001,
    0xFFFF_FFFE,
    0xFFFF_FFFF,
    0x7F,
    0x80,
    0xFF,
    0x17F,
    0x7FFF,
    0x8000,
    0xFFFF,
    0x1_7FFF,
];

/// The same for 64 bits, and about the signs of the low 8, 16 and 32 bits.
const OPERANDS_I64: [u64; 23] = [
    0,
    1,
    2,
    31,
    32,
    33,
    63,
    64,
    65,
    0x7FFF_FFFF_FFFF_FFFE,
    0x7FFF_FFFF_FFFF_FFFF,
    0x8000_0000_0000_0000,
    0x8000_0000_0000_0001,
    0xFFFF_FFFF_FFFF_FFFE,
    0xFFFF_FFFF_FFFF_FFFF,
    0x7F,
    0x80,
    0xFF,
    0x7FFF,
    0x8000,
    0x7FFF_FFFF,
    0x8000_0000,
    0x1_7FFF_FFFF,
];

/// One of the type's operands.
fn operand(value: ValType, place: usize) -> u64
    requires { place < 23 }
    ensures { IsOfType value result }
{
    match value {
        ValType::I32 => u64::from(OPERANDS_I32[place]),
        ValType::I64 => OPERANDS_I64[place],
    }
}

/// Prints a result, or the trap in its place.
fn print_result(rt: &impl Print, outcome: Result<u64, Trap>) -> io::Result<()> {
    match outcome {
        Ok(number) => print!(rt; " {number:x}"),
        Err(Trap::DivideByZero) => print!(rt; " by-zero"),
        Err(Trap::IntegerOverflow) => print!(rt; " overflow"),
        Err(other) => print!(rt; " {other:?}"),
    }
}

/// How many first operands there are.
fn first_operands(op: IntOp) -> usize
    ensures { result ≤ 23 }
{
    if op.operation().takes_one_operand() {
        23
    } else {
        15
    }
}

/// Prints the operator's line for one first operand.
fn print_line(rt: &impl Print, op: IntOp, place: usize) -> io::Result<()>
    requires { place < 23 }
{
    let value = op.operation().operand_type();
    let a = operand(value, place);
    let byte = op.byte();
    print!(rt; "{byte:x} {a:x}:")?;
    if op.operation().takes_one_operand() {
        print_result(rt, Ok(apply_unary(op, a)))?;
    } else {
        for other in 0..15 {
            print_result(rt, apply_binary(op, a, operand(value, other)))?;
        }
    }
    println!(rt; "")
}

/// Prints the lines of all operators.
pub fn print_all(rt: &impl Print) -> io::Result<()> {
    for byte in 0..=u8::MAX {
        if let Some(op) = IntOp::from_byte(byte) {
            for place in 0..first_operands(op) {
                print_line(rt, op, place)?;
            }
        }
    }
    Ok(())
}
