//! What the parts of a module are spelt with: counts, limits and constants (WebAssembly Core 1.0, sections 5.1.3, 5.3 and 5.4.6).
ghost use Rattle.std.specs.Prelude.{◌≡◌, ◌+◌, nat_lt};
ghost use Rattle.wasm_code.specs.Faults.{Tells};
ghost use Rattle.wasm_reader.specs.Syntax.{byte, checked, limited, or_fault};
ghost use Rattle.wasm_reader.specs.Parts.{tag, mutability, flag_of, greatest, table, memory, constant, constant_of, no_constant, constant_bits};

use wasm_code::value_type;
use wasm_ops::{Constant, Cursor, Fault, Limits, Refusal, ValType};

// The greatest least size of a table.
const MOST_ELEMENTS: u32 = 10_000;

/// A count of things, which has to be within the limit with those before them. Refused: `TooLarge` at the count.
pub(crate) fn count(before: u64, most: u32, cursor: &mut Cursor<'_>) -> Result<u32, Fault>
    ensures { Tells (λ count. (count, cursor.new)) result ((limited before most).read cursor.old) }
{
    let at = cursor.at();
    let count = cursor.u32_leb()?;
    if is_above(u64::from(most), before, count) {
        return Err(Refusal::TooLarge.at(at));
    }
    Ok(count)
}

// Whether so many things and those before them are more than `most`.
fn is_above(most: u64, before: u64, count: u32) -> bool
    ensures { result ≡ nat_lt most (before + count) }
{
    most < before || most - before < u64::from(count)
}

/// Goes past a byte that has to stand there. Refused: `BadType` at another one.
pub(crate) fn tag(wanted: u8, cursor: &mut Cursor<'_>) -> Result<u8, Fault>
    ensures { Tells (λ found. (found, cursor.new)) result ((tag wanted).read cursor.old) }
{
    let at = cursor.at();
    let found = cursor.byte()?;
    if found != wanted {
        return Err(Refusal::BadType.at(at));
    }
    Ok(found)
}

/// A byte that says no or yes. Refused: as this at another byte.
fn flag(why: Refusal, cursor: &mut Cursor<'_>) -> Result<bool, Fault>
    ensures { Tells (λ flag. (flag, cursor.new)) result ((checked flag_of (or_fault why) byte).read cursor.old) }
{
    let at = cursor.at();
    match cursor.byte()? {
        0 => Ok(false),
        1 => Ok(true),
        _ => Err(why.at(at)),
    }
}

/// Whether a global may be set. Refused: `BadKind` at another byte than 00 and 01.
pub(crate) fn mutability(cursor: &mut Cursor<'_>) -> Result<bool, Fault>
    ensures { Tells (λ mutable. (mutable, cursor.new)) result (mutability.read cursor.old) }
{
    flag(Refusal::BadKind, cursor)
}

/// A table: its element type and its limits. Refused: `BadType` at another type than `funcref`, `BadLimits` at limits of another form, `TooLarge` at a least size that is too large.
pub(crate) fn table(cursor: &mut Cursor<'_>) -> Result<Limits, Fault>
    ensures { Tells (λ limits. (limits, cursor.new)) result (table.read cursor.old) }
{
    tag(0x70, cursor)?;
    let has_most = flag(Refusal::BadLimits, cursor)?;
    let least = count(0, MOST_ELEMENTS, cursor)?;
    let most = greatest(has_most, cursor)?;
    Ok(Limits { least, most })
}

/// A memory: its limits, in pages. Refused: `BadLimits` at limits of another form.
pub(crate) fn memory(cursor: &mut Cursor<'_>) -> Result<Limits, Fault>
    ensures { Tells (λ limits. (limits, cursor.new)) result (memory.read cursor.old) }
{
    let has_most = flag(Refusal::BadLimits, cursor)?;
    let least = cursor.u32_leb()?;
    let most = greatest(has_most, cursor)?;
    Ok(Limits { least, most })
}

// The greatest size, where there is one.
fn greatest(has_most: bool, cursor: &mut Cursor<'_>) -> Result<Option<u32>, Fault>
    ensures { Tells (λ most. (most, cursor.new)) result ((greatest has_most).read cursor.old) }
{
    if !has_most {
        return Ok(None);
    }
    Ok(Some(cursor.u32_leb()?))
}

/// A constant. Refused: `FloatOperator` at `f32.const` and `f64.const`, `BadConstant` at another operator, and at another byte than `end` behind the number.
pub(crate) fn constant(cursor: &mut Cursor<'_>) -> Result<Constant, Fault>
    ensures { Tells (λ constant. (constant, cursor.new)) result (constant.read cursor.old) }
{
    let value = constant_type(cursor)?;
    let bits = constant_bits(value, cursor)?;
    let at = cursor.at();
    let end = cursor.byte()?;
    if end != 0x0B {
        return Err(Refusal::BadConstant.at(at));
    }
    Ok(Constant { value, bits })
}

// The type of a constant, as its operator says.
fn constant_type(cursor: &mut Cursor<'_>) -> Result<ValType, Fault>
    ensures { Tells (λ value. (value, cursor.new)) result ((checked constant_of (λ at b. or_fault (no_constant b) at b) byte).read cursor.old) }
{
    let at = cursor.at();
    match cursor.byte()? {
        0x41 => Ok(ValType::I32),
        0x42 => Ok(ValType::I64),
        0x43 | 0x44 => Err(Refusal::FloatOperator.at(at)),
        _ => Err(Refusal::BadConstant.at(at)),
    }
}

// The number of a constant of this type.
fn constant_bits(value: ValType, cursor: &mut Cursor<'_>) -> Result<u64, Fault>
    ensures { Tells (λ bits. (bits, cursor.new)) result ((constant_bits value).read cursor.old) }
{
    match value {
        ValType::I32 => Ok(u64::from(cursor.s32_leb()?)),
        ValType::I64 => cursor.s64_leb(),
    }
}
