//! The reader of one item (WebAssembly Core 1.0, section 5.4).
ghost use Rattle.std.specs.Prelude.{◌≡◌, ◌^◌, ◌<◌, length};
ghost use Rattle.wasm_code.specs.Faults.{Gives};
ghost use Rattle.wasm_code.specs.Items.{item_from};

use crate::faults::CodeFault;
use crate::forms::Form;
use crate::items::Item;
use crate::labels::branch_table;
use crate::layouts::{operator, prefixed};
use crate::value_types::block_type;
use wasm_ops::{Cursor, Refusal};

// The most blocks that are open at once.
const MOST_BLOCKS: usize = 1000;

/// The next item, where so many blocks are open. The labels of a `br_table` are added to the targets. Refused: `TooDeep` at a block too deep.
pub(crate) fn read_item(
    depth: usize,
    targets: &mut Vec<u32>,
    cursor: &mut Cursor<'_>,
) -> Result<Item, CodeFault>
    requires few { length targets.old.items < 2 ^ 32 }
    ensures { Gives (λ item. ((item, targets.new.items), cursor.new)) result (item_from depth targets.old.items cursor.old) }
{
    let at = cursor.at();
    let byte = cursor.byte()?;
    match Form::of(byte) {
        Form::Operator(layout) => Ok(Item::Operator(operator(&layout, at, cursor)?)),
        Form::Prefixed => Ok(Item::Operator(prefixed(at, cursor)?)),
        Form::Labels => Ok(Item::Operator(branch_table(targets, cursor)?)),
        Form::Opens(opener) => {
            if MOST_BLOCKS <= depth {
                return Err(CodeFault::Bytes(Refusal::TooDeep.at(at)));
            }
            Ok(Item::Opens(opener, block_type(cursor)?))
        }
        Form::Else => Ok(Item::Else),
        Form::End => Ok(Item::End),
    }
}
