//! The locals that a body declares (WebAssembly Core 1.0, section 5.5.13).
ghost use Rattle.std.specs.Prelude.{◌≡◌, ◌≤◌, length, OnOk};
ghost use Rattle.wasm_code.specs.Faults.{Gives};
ghost use Rattle.wasm_code.specs.Locals.{group_from, groups_from, locals_from};

use crate::faults::CodeFault;
use crate::value_types::value_type;
use std::alloc::Global;
use wasm_ops::{Cursor, Refusal, ValType};

// The most locals, all groups counted.
const MOST_LOCALS: usize = 1024;

/// The types of the locals, group by group. Refused: `TooManyLocals` at the count of a group by which there are too many.
pub(crate) fn read_locals(alloc: Global, cursor: &mut Cursor<'_>) -> Result<Vec<ValType>, CodeFault>
    ensures { Gives (λ locals. (locals.items, cursor.new)) result (locals_from cursor.old) }
{
    let groups = cursor.u32_leb()?;
    let mut locals = Vec::new(alloc);
    read_groups(groups, &mut locals, cursor)?;
    Ok(locals)
}

// So many groups, which are added to the locals.
fn read_groups(
    groups: u32,
    locals: &mut Vec<ValType>,
    cursor: &mut Cursor<'_>,
) -> Result<(), CodeFault>
    requires few { length locals.old.items ≤ MOST_LOCALS }
    ensures { Gives (λ _. (locals.new.items, cursor.new)) result (groups_from groups locals.old.items cursor.old) }
{
    for _ in 0..groups {
        read_group(locals, cursor)?;
    }
    Ok(())
}

// A group, which is added to the locals.
fn read_group(locals: &mut Vec<ValType>, cursor: &mut Cursor<'_>) -> Result<(), CodeFault>
    requires few { length locals.old.items ≤ MOST_LOCALS }
    ensures read { Gives (λ _. (locals.new.items, cursor.new)) result (group_from locals.old.items cursor.old) }
    ensures few { OnOk result (length locals.new.items ≤ MOST_LOCALS) }
{
    let at = cursor.at();
    let count = cursor.u32_leb()?;
    if MOST_LOCALS < locals.len() + count as usize {
        return Err(CodeFault::Bytes(Refusal::TooManyLocals.at(at)));
    }
    let value = value_type(cursor)?;
    locals.resize(locals.len() + count as usize, value)?;
    Ok(())
}
