//! The bodies of a module's functions, each in a window of its own (WebAssembly Core 1.0, section 5.5.13).
ghost use Rattle.std.specs.Prelude.{◌≡◌, ◌+◌, ◌<◌, ◌^◌, [], length};
ghost use Rattle.wasm_ops.specs.declared.faults.Refusal.TheVariants.{CountsDiffer, CutShort};
ghost use Rattle.wasm_ops.specs.Input.{Input};
ghost use Rattle.wasm_code.specs.Faults.{Gives, Tells};
ghost use Rattle.wasm_reader.specs.Bodies.{body as body_syntax, end_place, from_place, same_count, sized_body};
ghost use Rattle.wasm_reader.specs.Syntax.{checked, number, or_fault};

use crate::ReadFault;
use crate::vectors::ItemKind;
use std::alloc::Global;
use wasm_code::read_body;
use wasm_ops::{Body, Cursor, Fault, Refusal};

/// Bodies, each behind its size.
#[derive(Clone, Copy)]
pub(crate) struct Bodies;

impl ItemKind for Bodies {
    type Item = Body;

    ghost syntax = { λ _. sized_body };

    ghost after = { λ kind _. kind };

    fn next(&mut self, alloc: Global, cursor: &mut Cursor<'_>) -> Result<Body, ReadFault> {
        let size = cursor.u32_leb()?;
        let at = cursor.at();
        let bytes = cursor.take(size)?;
        body(alloc, at, bytes)
    }
}

/// How many bodies there are. Refused: `CountsDiffer` where there are more or fewer of them than functions.
pub(crate) fn body_count(functions: usize, cursor: &mut Cursor<'_>) -> Result<u32, Fault>
    ensures { Tells (λ count. (count, cursor.new)) result ((checked (same_count functions) (or_fault CountsDiffer) number).read cursor.old) }
{
    let at = cursor.at();
    let count = cursor.u32_leb()?;
    if count as usize != functions {
        return Err(Refusal::CountsDiffer.at(at));
    }
    Ok(count)
}

// The body that these bytes are, which stand at a place of the file. Its refusals have their places in the file.
fn body(alloc: Global, at: u32, bytes: &[u8]) -> Result<Body, ReadFault>
    requires fits { at + length bytes.now < 2 ^ 32 }
    ensures { Gives (λ body. (body, end_place (from_place at bytes.now))) result (body_syntax.read (from_place at bytes.now)) }
{
    match read_body(alloc, bytes) {
        Ok(body) => Ok(body),
        Err(ReadFault::Bytes(fault)) => Err(ReadFault::Bytes(Fault {
            number: fault.number,
            place: at + fault.place,
        })),
        Err(ReadFault::NoMemory) => Err(ReadFault::NoMemory),
    }
}
