//! The operators of type i32 on machine words (WebAssembly Core 1.0, section 4.3.2; for the sign extensions Core 2.0, the same section).
ghost use Rattle.std.specs.Prelude.{◌≡◌, ◌%◌};
ghost use Rattle.wasm_ops.specs.declared.types.ValType.TheVariants.{I32};
ghost use Rattle.wasm_ops.specs.Arithmetic.{bit_count, compute, div_s, div_u, holds, rem_s, rem_u, rotated_left, rotated_right, sign_extended};

use crate::{Arithmetic, BitCount, Relation, SignExtension, Trap};

impl Relation {
    /// Whether it holds between two i32.
    #[inline(always)]
    pub(crate) fn holds_i32(self, a: u32, b: u32) -> bool
        ensures { result ≡ holds I32 self a b }
    {
        match self {
            Relation::Eq => a == b,
            Relation::Ne => a != b,
            Relation::LtS => a.cast_signed() < b.cast_signed(),
            Relation::LtU => a < b,
            Relation::GtS => a.cast_signed() > b.cast_signed(),
            Relation::GtU => a > b,
            Relation::LeS => a.cast_signed() <= b.cast_signed(),
            Relation::LeU => a <= b,
            Relation::GeS => a.cast_signed() >= b.cast_signed(),
            Relation::GeU => a >= b,
        }
    }
}

impl BitCount {
    /// The count in an i32.
    #[inline(always)]
    pub(crate) fn of_i32(self, a: u32) -> u32
        ensures { result ≡ bit_count I32 self a }
    {
        match self {
            BitCount::Clz => a.leading_zeros(),
            BitCount::Ctz => a.trailing_zeros(),
            BitCount::Popcnt => a.count_ones(),
        }
    }
}

impl SignExtension {
    /// The low bits of an i32 with their sign.
    #[inline(always)]
    pub(crate) fn of_i32(self, a: u32) -> u32
        ensures { result ≡ sign_extended I32 self a }
    {
        match self {
            SignExtension::Extend8S => {
                let low = (a % 0x100) as u8;
                i32::from(low.cast_signed()).cast_unsigned()
            }
            SignExtension::Extend16S => {
                let low = (a % 0x1_0000) as u16;
                i32::from(low.cast_signed()).cast_unsigned()
            }
            SignExtension::Extend32S => a,
        }
    }
}

impl Arithmetic {
    /// What it makes of two i32, or its trap.
    #[inline(always)]
    pub(crate) fn of_i32(self, a: u32, b: u32) -> Result<u32, Trap>
        ensures { result ≡ compute I32 self a b }
    {
        match self {
            Arithmetic::Add => Ok(a.wrapping_add(b)),
            Arithmetic::Sub => Ok(a.wrapping_sub(b)),
            Arithmetic::Mul => Ok(a.wrapping_mul(b)),
            Arithmetic::DivS => quotient_signed(a, b),
            Arithmetic::DivU => a.checked_div(b).ok_or(Trap::DivideByZero),
            Arithmetic::RemS => remainder_signed(a, b),
            Arithmetic::RemU => a.checked_rem(b).ok_or(Trap::DivideByZero),
            Arithmetic::And => Ok(a & b),
            Arithmetic::Or => Ok(a | b),
            Arithmetic::Xor => Ok(a ^ b),
            Arithmetic::Shl => Ok(a << (b % 32)),
            Arithmetic::ShrS => Ok((a.cast_signed() >> (b % 32)).cast_unsigned()),
            Arithmetic::ShrU => Ok(a >> (b % 32)),
            Arithmetic::Rotl => Ok(rotl(a, b)),
            Arithmetic::Rotr => Ok(rotr(a, b)),
        }
    }
}

/// `i32.div_s`
#[inline(always)]
fn quotient_signed(a: u32, b: u32) -> Result<u32, Trap>
    ensures { result ≡ div_s I32 a b }
{
    if b == 0 {
        return Err(Trap::DivideByZero);
    }
    if a == 0x8000_0000 && b == u32::MAX {
        return Err(Trap::IntegerOverflow);
    }
    Ok((a.cast_signed() / b.cast_signed()).cast_unsigned())
}

/// `i32.rem_s`
#[inline(always)]
fn remainder_signed(a: u32, b: u32) -> Result<u32, Trap>
    ensures { result ≡ rem_s I32 a b }
{
    if b == 0 {
        return Err(Trap::DivideByZero);
    }
    Ok(
        a.cast_signed()
            .wrapping_rem(b.cast_signed())
            .cast_unsigned(),
    )
}

/// `i32.rotl`
#[inline(always)]
fn rotl(a: u32, b: u32) -> u32
    ensures { result ≡ rotated_left I32 a (b % 32) }
{
    a.rotate_left(b)
}

/// `i32.rotr`
#[inline(always)]
fn rotr(a: u32, b: u32) -> u32
    ensures { result ≡ rotated_right I32 a (b % 32) }
{
    a.rotate_right(b)
}
