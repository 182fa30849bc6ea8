//! The reader of a body (WebAssembly Core 1.0, section 5.5.13).
ghost use Rattle.std.specs.Prelude.{◌≤◌, ◌<◌, ◌^◌, length, IfOk, IfErr};
ghost use Rattle.wasm_ops.specs.declared.faults.Fault.{Fault as FaultValue};
ghost use Rattle.wasm_ops.specs.declared.modules.Body.{Body as BodyValue};
ghost use Rattle.wasm_ops.specs.WellFormed.{IsWellFormedBody};
ghost use Rattle.wasm_code.specs.Bodies.{SpellsBody, RefusesBody};
ghost use Rattle.wasm_code.specs.Faults.{GivesValue, GivesFault, IsAmong};
ghost use Rattle.wasm_code.specs.Operators.{SpellsOperators, RefusesOperators};

use crate::blocks::Standing;
use crate::faults::CodeFault;
use crate::item_reader::read_item;
use crate::laying::Laying;
use crate::locals::read_locals;
use std::alloc::Global;
use wasm_ops::{Body, Cursor, Items, Op, Refusal};

/// The body that the bytes spell, all of them.
///
/// It has at most 1,024 locals, blocks at most 1,000 deep, and at most 4,096 targets of a `br_table` beside its default.
/// Else the first refusal in reading order is answered, with its place counted from the first byte. The place of a refusal is at most the number of bytes.
/// It is one pass over the bytes, which takes memory for the answer and for the blocks that are open.
pub fn read_body(alloc: Global, bytes: &[u8]) -> Result<Body, CodeFault>
    requires size { length bytes.now < 2 ^ 32 }
    ensures found { IfOk result (λ body. SpellsBody bytes.now body) }
    ensures formed { IfOk result (λ body. IsWellFormedBody body) }
    ensures refused { IfErr result (λ fault. IsAmong fault (RefusesBody bytes.now)) }
    ensures placed { IfErr result (λ fault. IsAmong fault (λ f. f.place ≤ length bytes.now)) }

    // No other answer is possible, but for want of memory.
    ensures only { (body : BodyValue) → SpellsBody bytes.now body → GivesValue result body }
    ensures only_refused { (fault : FaultValue) → RefusesBody bytes.now fault → GivesFault result fault }
{
    read_whole(alloc, bytes)
}

// The locals, and then the operators.
fn read_whole(alloc: Global, bytes: &[u8]) -> Result<Body, CodeFault>
    requires size { length bytes.now < 2 ^ 32 }
    ensures found { IfOk result (λ body. SpellsBody bytes.now body) }
    ensures refused { IfErr result (λ fault. IsAmong fault (RefusesBody bytes.now)) }
{
    let mut cursor = Cursor::new(bytes, 0, bytes.len() as u32);
    let locals = read_locals(alloc, &mut cursor)?;
    let (ops, targets) = read_operators(alloc, &mut cursor)?;
    Ok(Body {
        locals: Items::new(locals),
        ops: Items::new(ops),
        targets: Items::new(targets),
    })
}

// The operators and the labels of all `br_table`s, up to the end of the window.
fn read_operators(alloc: Global, cursor: &mut Cursor<'_>) -> Result<(Vec<Op>, Vec<u32>), CodeFault>
    requires size { length cursor.old.left < 2 ^ 32 }
    ensures found { IfOk result (λ read. SpellsOperators cursor.old read.0.items read.1.items) }
    ensures refused { IfErr result (λ fault. IsAmong fault (RefusesOperators cursor.old)) }
{
    let mut laying = Laying::new(alloc);
    let mut targets = Vec::new(alloc);
    'items: loop {
        let at = cursor.at();
        let item = read_item(laying.depth(), &mut targets, cursor)?;
        match laying.take(&item)? {
            Standing::Inside => {}
            Standing::Misplaced => {
                return Err(CodeFault::Bytes(Refusal::BadNesting.at(at)));
            }
            Standing::Last => {
                if !cursor.is_at_end() {
                    return Err(CodeFault::Bytes(Refusal::RestAfterEnd.at(cursor.at())));
                }
                return Ok((laying.into_ops(), targets));
            }
        }
    }
}
