//! Value types and block types (WebAssembly Core 1.0, sections 5.3.1 and 5.3.2).
ghost use Rattle.std.specs.Prelude.{◌≡◌, OnErr};
ghost use Rattle.wasm_code.specs.Faults.{Tells};
ghost use Rattle.wasm_ops.specs.Refusals.{fault_at};
ghost use Rattle.wasm_code.specs.Types.{type_of, block_type_of, no_type, type_from, block_type_from, behind_byte};

use wasm_ops::{Cursor, Fault, Refusal, ValType};

/// The value type that the next byte is (WebAssembly Core 1.0, section 5.3.1): `7F` for `i32`, `7E` for `i64`.
///
/// Refused: as a cut where no byte is left, at the window's end; `FloatType` for a float type (`7D` for `f32`, `7C` for `f64`) and `BadType` for a byte that is no type, both at that byte.
/// Where it is refused, the cursor stands behind the byte, if there is one.
pub fn value_type(cursor: &mut Cursor<'_>) -> Result<ValType, Fault>
    ensures value { Tells (λ value. (value, cursor.new)) result (type_from cursor.old) }
    ensures stands { OnErr result (cursor.new ≡ behind_byte cursor.old) }
{
    let at = cursor.at();
    let byte = cursor.byte()?;
    match value_type_of(byte) {
        Some(value) => Ok(value),
        None => Err(no_type_at(at, byte)),
    }
}

/// A block type: the result of the block, if it has one. Refused like `value_type`.
pub(crate) fn block_type(cursor: &mut Cursor<'_>) -> Result<Option<ValType>, Fault>
    ensures { Tells (λ value. (value, cursor.new)) result (block_type_from cursor.old) }
{
    let at = cursor.at();
    let byte = cursor.byte()?;
    match block_type_of(byte) {
        Some(value) => Ok(value),
        None => Err(no_type_at(at, byte)),
    }
}

fn value_type_of(byte: u8) -> Option<ValType>
    ensures { result ≡ type_of byte }
{
    match byte {
        0x7F => Some(ValType::I32),
        0x7E => Some(ValType::I64),
        _ => None,
    }
}

fn block_type_of(byte: u8) -> Option<Option<ValType>>
    ensures { result ≡ block_type_of byte }
{
    match byte {
        0x40 => Some(None),
        0x7F => Some(Some(ValType::I32)),
        0x7E => Some(Some(ValType::I64)),
        _ => None,
    }
}

// The refusal of a byte that is no type here.
fn no_type_at(at: u32, byte: u8) -> Fault
    ensures { result ≡ fault_at (no_type byte) at }
{
    let refusal = match byte {
        0x7D | 0x7C => Refusal::FloatType,
        _ => Refusal::BadType,
    };
    refusal.at(at)
}
