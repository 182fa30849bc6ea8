//! Whole numbers in LEB128 (WebAssembly Core 1.0, section 5.2.2).
ghost use Rattle.std.specs.Prelude.{◌≡◌, ℕ, ◌+◌, ◌-◌, ◌^◌, ◌<◌, ◌≤◌, length, IfOk, IfSome};
ghost use Rattle.std.specs.Result.{result_map_both};
ghost use Rattle.wasm_ops.specs.Numbers.{last_of, number_at};
ghost use Rattle.wasm_ops.specs.declared.numbers.Sign.TheVariants.{Unsigned, Signed};

use crate::faults::Refusal;
use std::fmt::{self, Display, Formatter, Write};

/// Whether the spelt numbers have a sign. A negative one is answered as its two's complement.
#[derive(Clone, Copy)]
pub enum Sign {
    /// From 0 on.
    Unsigned,

    /// From -2^(bits - 1) to 2^(bits - 1) - 1.
    Signed,
}

/// Why bytes spell no number.
#[derive(Clone, Copy)]
pub enum LebFault {
    /// The bytes end before the number does.
    CutShort,

    /// The last byte that a number may have says that another one follows.
    TooLong,

    /// The last byte that a number may have does not fit: its spare bits are not 0, or not copies of the sign.
    SpareBits,
}

/// What a maker of modules reads of it.
impl Display for LebFault {
    fn fmt<W: Write>(&self, f: &mut Formatter<W>) -> fmt::Result {
        let refusal = match self {
            LebFault::CutShort => Refusal::CutShort,
            LebFault::TooLong => Refusal::LebTooLong,
            LebFault::SpareBits => Refusal::LebSpare,
        };
        write!(f, "{refusal}")
    }
}

// The bit of a byte that says that another byte follows.
const CONTINUATION: u8 = 0x80;

/// The number of so many bits that the bytes begin with, and the bytes after it.
///
/// Padded spellings are read like the shortest one.
pub(crate) fn read_number(sign: Sign, bits: u32, bytes: &[u8]) -> Result<(u64, &[u8]), LebFault>
    requires some { 0 < bits }
    requires fits { bits ≤ 64 }
    ensures value { result_map_both (λ read. (read.0, read.1.now)) (λ fault. fault) result ≡ number_at sign bits bytes.now }
    ensures below { IfOk result (λ read. read.0 < 2 ^ bits) }
    ensures shorter { IfOk result (λ read. length read.1.now ≤ length bytes.now) }
{
    let Some((first, rest)) = bytes.split_first() else {
        return Err(LebFault::CutShort);
    };
    let byte = *first;
    if byte < CONTINUATION {
        let last = last_value(sign, bits, byte).ok_or(LebFault::SpareBits)?;
        return Ok((last, rest));
    }
    if bits <= 7 {
        return Err(LebFault::TooLong);
    }
    let (high, rest) = read_number(sign, bits - 7, rest)?;
    Ok((high * 128 + u64::from(byte - CONTINUATION), rest))
}

// What a byte with no continuation bit spells as the last one of a number with so many bits left.
fn last_value(sign: Sign, bits: u32, byte: u8) -> Option<u64>
    requires some { 0 < bits }
    requires fits { bits ≤ 64 }
    requires last { byte < 128 }
    ensures value { result ≡ last_of sign bits byte }
    ensures below { IfSome result (λ number. number < 2 ^ bits) }
{
    match sign {
        Sign::Unsigned => last_unsigned(bits, byte),
        Sign::Signed => last_signed(bits, byte),
    }
}

fn last_unsigned(bits: u32, byte: u8) -> Option<u64>
    requires some { 0 < bits }
    requires fits { bits ≤ 64 }
    ensures value { result ≡ last_of Unsigned bits byte }
    ensures below { IfSome result (λ number. number < 2 ^ bits) }
{
    let value = u64::from(byte);
    if value / 2 < half_of(bits) {
        Some(value)
    } else {
        None
    }
}

fn last_signed(bits: u32, byte: u8) -> Option<u64>
    requires some { 0 < bits }
    requires fits { bits ≤ 64 }
    requires last { byte < 128 }
    ensures value { result ≡ last_of Signed bits byte }
    ensures below { IfSome result (λ number. number < 2 ^ bits) }
{
    let value = u64::from(byte);
    let half = half_of(bits);
    if value < 64 {
        return if value < half { Some(value) } else { None };
    }
    // The number is `value - 128`, which is negative.
    let distance = 128 - value;
    if distance <= half {
        Some(half - distance + half)
    } else {
        None
    }
}

// Half of 2^bits, which itself may be no u64.
fn half_of(bits: u32) -> u64
    requires some { 0 < bits }
    requires fits { bits ≤ 64 }
    ensures value { result ≡ 2 ^ (bits - 1) }
    ensures double { result + result ≡ 2 ^ bits }
    ensures most { result ≤ 2 ^ 63 }
{
    1 << (bits - 1)
}
