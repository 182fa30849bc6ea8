//! What each integer operator does, and which types it takes and gives (WebAssembly Core 1.0, sections 2.4.1 and 3.3.1).
//! The sign extensions are of Core 2.0, in the same sections.
ghost use Rattle.std.specs.Prelude.{◌≡◌, Some};
ghost use Rattle.wasm_ops.specs.Operations.{i32_comparisons, i64_comparisons, i32_computations, i64_computations, conversions, look_up, operation_of, takes_one, operand_of, result_of};

use crate::ValType;

/// A comparison of two integers (`irelop` of the standard).
///
/// `S` says that both are read as signed numbers, `U` that neither is.
#[derive(Clone, Copy, Debug)]
pub enum Relation {
    /// The first is the second.
    Eq,

    /// The first is not the second.
    Ne,

    /// The first is below the second, signed.
    LtS,

    /// The first is below the second.
    LtU,

    /// The first is above the second, signed.
    GtS,

    /// The first is above the second.
    GtU,

    /// The first is not above the second, signed.
    LeS,

    /// The first is not above the second.
    LeU,

    /// The first is not below the second, signed.
    GeS,

    /// The first is not below the second.
    GeU,
}

/// A count of an integer's bits (`iunop` of the standard).
#[derive(Clone, Copy, Debug)]
pub enum BitCount {
    /// The zeros above the highest one: all bits of 0.
    Clz,

    /// The zeros below the lowest one: all bits of 0.
    Ctz,

    /// The ones.
    Popcnt,
}

/// The low bits of an integer, widened again to the integer's type with their sign (`extendN_s` of Core 2.0, section 2.4.1).
///
/// The bits above them count for nothing.
#[derive(Clone, Copy, Debug)]
pub enum SignExtension {
    /// The low 8 bits.
    Extend8S,

    /// The low 16 bits.
    Extend16S,

    /// The low 32 bits. No operator does it on an i32, whose bits these all are.
    Extend32S,
}

/// An operation that makes an integer of two of its type, or traps (`ibinop` of the standard).
///
/// `S` says that the operands are read as signed numbers, `U` that they are not.
#[derive(Clone, Copy, Debug)]
pub enum Arithmetic {
    /// The sum, modulo 2^32 or 2^64.
    Add,

    /// The difference, likewise.
    Sub,

    /// The product, likewise.
    Mul,

    /// The quotient, rounded toward 0. It traps for the divisor 0, and for the least number by -1.
    DivS,

    /// The quotient, rounded down. It traps for the divisor 0.
    DivU,

    /// The remainder of `DivS`, which has the dividend's sign, and is 0 for the least number by -1. It traps for the divisor 0.
    RemS,

    /// The remainder of `DivU`. It traps for the divisor 0.
    RemU,

    /// The bits that both have.
    And,

    /// The bits that either has.
    Or,

    /// The bits that just one has.
    Xor,

    /// The bits moved up. The second operand, modulo the number of bits, says by how many places; so for the other four.
    Shl,

    /// The bits moved down, with copies of the sign above them.
    ShrS,

    /// The bits moved down, with zeros above them.
    ShrU,

    /// The bits moved up, where those that leave come in again below.
    Rotl,

    /// The bits moved down, where those that leave come in again above.
    Rotr,
}

/// What an integer operator does, and at which type.
#[derive(Clone, Copy, Debug)]
pub enum Operation {
    /// Whether the operand is 0.
    Eqz(ValType),

    /// How many bits of a kind the operand has.
    Count(ValType, BitCount),

    /// The operand's low bits with their sign.
    Extend(ValType, SignExtension),

    /// Whether a relation holds between the two operands.
    Compare(ValType, Relation),

    /// What is made of the two operands.
    Compute(ValType, Arithmetic),

    /// The low 32 bits of an i64.
    Wrap,

    /// The i64 that is the same signed number as an i32.
    ExtendS,

    /// The i64 that is the same unsigned number as an i32.
    ExtendU,
}

impl Operation {
    /// Whether it takes one operand. If not, it takes two.
    pub fn takes_one_operand(self) -> bool
        ensures { result ≡ takes_one self }
    {
        match self {
            Operation::Eqz(_)
            | Operation::Count(_, _)
            | Operation::Extend(_, _)
            | Operation::Wrap
            | Operation::ExtendS
            | Operation::ExtendU => true,
            Operation::Compare(_, _) | Operation::Compute(_, _) => false,
        }
    }

    /// The type of its operand, or of both.
    pub fn operand_type(self) -> ValType
        ensures { result ≡ operand_of self }
    {
        match self {
            Operation::Eqz(value)
            | Operation::Count(value, _)
            | Operation::Extend(value, _)
            | Operation::Compare(value, _)
            | Operation::Compute(value, _) => value,
            Operation::Wrap => ValType::I64,
            Operation::ExtendS | Operation::ExtendU => ValType::I32,
        }
    }

    /// The type of its result.
    pub fn result_type(self) -> ValType
        ensures { result ≡ result_of self }
    {
        match self {
            Operation::Eqz(_) | Operation::Compare(_, _) | Operation::Wrap => ValType::I32,
            Operation::Count(value, _)
            | Operation::Extend(value, _)
            | Operation::Compute(value, _) => value,
            Operation::ExtendS | Operation::ExtendU => ValType::I64,
        }
    }
}

/// What the operator with this byte does, if the byte is that of an integer operator: one row a byte, in the standard's order (Core 2.0, section 5.4.8).
pub(crate) fn operation_of(byte: u8) -> Option<Operation>
    ensures { result ≡ operation_of byte }
{
    if byte < 0x50 {
        i32_comparison(byte)
    } else if byte < 0x67 {
        i64_comparison(byte)
    } else if byte < 0x79 {
        i32_computation(byte)
    } else if byte < 0xA7 {
        i64_computation(byte)
    } else {
        conversion(byte)
    }
}

fn i32_comparison(byte: u8) -> Option<Operation>
    ensures { result ≡ look_up i32_comparisons byte }
{
    let operation = match byte {
        0x45 => Operation::Eqz(ValType::I32),
        0x46 => Operation::Compare(ValType::I32, Relation::Eq),
        0x47 => Operation::Compare(ValType::I32, Relation::Ne),
        0x48 => Operation::Compare(ValType::I32, Relation::LtS),
        0x49 => Operation::Compare(ValType::I32, Relation::LtU),
        0x4A => Operation::Compare(ValType::I32, Relation::GtS),
        0x4B => Operation::Compare(ValType::I32, Relation::GtU),
        0x4C => Operation::Compare(ValType::I32, Relation::LeS),
        0x4D => Operation::Compare(ValType::I32, Relation::LeU),
        0x4E => Operation::Compare(ValType::I32, Relation::GeS),
        0x4F => Operation::Compare(ValType::I32, Relation::GeU),
        _ => return None,
    };
    Some(operation)
}

fn i64_comparison(byte: u8) -> Option<Operation>
    ensures { result ≡ look_up i64_comparisons byte }
{
    let operation = match byte {
        0x50 => Operation::Eqz(ValType::I64),
        0x51 => Operation::Compare(ValType::I64, Relation::Eq),
        0x52 => Operation::Compare(ValType::I64, Relation::Ne),
        0x53 => Operation::Compare(ValType::I64, Relation::LtS),
        0x54 => Operation::Compare(ValType::I64, Relation::LtU),
        0x55 => Operation::Compare(ValType::I64, Relation::GtS),
        0x56 => Operation::Compare(ValType::I64, Relation::GtU),
        0x57 => Operation::Compare(ValType::I64, Relation::LeS),
        0x58 => Operation::Compare(ValType::I64, Relation::LeU),
        0x59 => Operation::Compare(ValType::I64, Relation::GeS),
        0x5A => Operation::Compare(ValType::I64, Relation::GeU),
        _ => return None,
    };
    Some(operation)
}

fn i32_computation(byte: u8) -> Option<Operation>
    ensures { result ≡ look_up i32_computations byte }
{
    let operation = match byte {
        0x67 => Operation::Count(ValType::I32, BitCount::Clz),
        0x68 => Operation::Count(ValType::I32, BitCount::Ctz),
        0x69 => Operation::Count(ValType::I32, BitCount::Popcnt),
        0x6A => Operation::Compute(ValType::I32, Arithmetic::Add),
        0x6B => Operation::Compute(ValType::I32, Arithmetic::Sub),
        0x6C => Operation::Compute(ValType::I32, Arithmetic::Mul),
        0x6D => Operation::Compute(ValType::I32, Arithmetic::DivS),
        0x6E => Operation::Compute(ValType::I32, Arithmetic::DivU),
        0x6F => Operation::Compute(ValType::I32, Arithmetic::RemS),
        0x70 => Operation::Compute(ValType::I32, Arithmetic::RemU),
        0x71 => Operation::Compute(ValType::I32, Arithmetic::And),
        0x72 => Operation::Compute(ValType::I32, Arithmetic::Or),
        0x73 => Operation::Compute(ValType::I32, Arithmetic::Xor),
        0x74 => Operation::Compute(ValType::I32, Arithmetic::Shl),
        0x75 => Operation::Compute(ValType::I32, Arithmetic::ShrS),
        0x76 => Operation::Compute(ValType::I32, Arithmetic::ShrU),
        0x77 => Operation::Compute(ValType::I32, Arithmetic::Rotl),
        0x78 => Operation::Compute(ValType::I32, Arithmetic::Rotr),
        _ => return None,
    };
    Some(operation)
}

fn i64_computation(byte: u8) -> Option<Operation>
    ensures { result ≡ look_up i64_computations byte }
{
    let operation = match byte {
        0x79 => Operation::Count(ValType::I64, BitCount::Clz),
        0x7A => Operation::Count(ValType::I64, BitCount::Ctz),
        0x7B => Operation::Count(ValType::I64, BitCount::Popcnt),
        0x7C => Operation::Compute(ValType::I64, Arithmetic::Add),
        0x7D => Operation::Compute(ValType::I64, Arithmetic::Sub),
        0x7E => Operation::Compute(ValType::I64, Arithmetic::Mul),
        0x7F => Operation::Compute(ValType::I64, Arithmetic::DivS),
        0x80 => Operation::Compute(ValType::I64, Arithmetic::DivU),
        0x81 => Operation::Compute(ValType::I64, Arithmetic::RemS),
        0x82 => Operation::Compute(ValType::I64, Arithmetic::RemU),
        0x83 => Operation::Compute(ValType::I64, Arithmetic::And),
        0x84 => Operation::Compute(ValType::I64, Arithmetic::Or),
        0x85 => Operation::Compute(ValType::I64, Arithmetic::Xor),
        0x86 => Operation::Compute(ValType::I64, Arithmetic::Shl),
        0x87 => Operation::Compute(ValType::I64, Arithmetic::ShrS),
        0x88 => Operation::Compute(ValType::I64, Arithmetic::ShrU),
        0x89 => Operation::Compute(ValType::I64, Arithmetic::Rotl),
        0x8A => Operation::Compute(ValType::I64, Arithmetic::Rotr),
        _ => return None,
    };
    Some(operation)
}

fn conversion(byte: u8) -> Option<Operation>
    ensures { result ≡ look_up conversions byte }
{
    let operation = match byte {
        0xA7 => Operation::Wrap,
        0xAC => Operation::ExtendS,
        0xAD => Operation::ExtendU,
        0xC0 => Operation::Extend(ValType::I32, SignExtension::Extend8S),
        0xC1 => Operation::Extend(ValType::I32, SignExtension::Extend16S),
        0xC2 => Operation::Extend(ValType::I64, SignExtension::Extend8S),
        0xC3 => Operation::Extend(ValType::I64, SignExtension::Extend16S),
        0xC4 => Operation::Extend(ValType::I64, SignExtension::Extend32S),
        _ => return None,
    };
    Some(operation)
}
