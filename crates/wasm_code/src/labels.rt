//! The labels of a `br_table` (WebAssembly Core 1.0, section 5.4.1).
ghost use Rattle.std.specs.Prelude.{◌≡◌, ◌+◌, ◌^◌, ◌<◌, length};
ghost use Rattle.wasm_code.specs.declared.items.Item.TheVariants as item;
ghost use Rattle.wasm_code.specs.Faults.{Gives};
ghost use Rattle.wasm_code.specs.Items.{labels_from, table_from};

use crate::faults::CodeFault;
use wasm_ops::{Cursor, Op, Refusal};

// The most labels beside the default.
const MOST_TARGETS: u32 = 4096;

/// A `br_table` behind its byte. Its labels are added to the targets, the default last. Refused: `TooManyTargets` at a count of too many labels.
pub(crate) fn branch_table(targets: &mut Vec<u32>, cursor: &mut Cursor<'_>) -> Result<Op, CodeFault>
    requires few { length targets.old.items < 2 ^ 32 }
    ensures { Gives (λ op. ((item.Operator op, targets.new.items), cursor.new)) result (table_from targets.old.items cursor.old) }
{
    let at = cursor.at();
    let count = cursor.u32_leb()?;
    if MOST_TARGETS < count {
        return Err(CodeFault::Bytes(Refusal::TooManyTargets.at(at)));
    }
    let from = targets.len() as u32;
    labels(count + 1, targets, cursor)?;
    Ok(Op::BrTable { from, count })
}

// So many labels, which are added to the targets.
fn labels(count: u32, targets: &mut Vec<u32>, cursor: &mut Cursor<'_>) -> Result<(), CodeFault>
    ensures { Gives (λ _. (targets.new.items, cursor.new)) result (labels_from count targets.old.items cursor.old) }
{
    for _ in 0..count {
        let label = cursor.u32_leb()?;
        targets.push(label)?;
    }
    Ok(())
}
