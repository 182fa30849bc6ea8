//! The reader of modules (WebAssembly Core 1.0, section 5.5.15).
ghost use Rattle.std.specs.Prelude.{◌≤◌, ◌<◌, ◌^◌, length, IfOk, IfErr};
ghost use Rattle.wasm_ops.specs.declared.faults.Fault.{Fault as FaultValue};
ghost use Rattle.wasm_ops.specs.declared.faults.Refusal.TheVariants.{CountsDiffer};
ghost use Rattle.wasm_ops.specs.declared.modules.Module.{Module as ModuleValue};
ghost use Rattle.wasm_ops.specs.Input.{Input};
ghost use Rattle.wasm_ops.specs.WellFormed.{IsWellFormed};
ghost use Rattle.wasm_code.specs.Bodies.{beginning};
ghost use Rattle.wasm_code.specs.Faults.{Gives, GivesValue, GivesFault, IsAmong, Tells};
ghost use Rattle.wasm_reader.specs.Modules.{SpellsModule, RefusesModule, complete, header as header_syntax, opens_with as opens_with_syntax, whole_module};
ghost use Rattle.wasm_reader.specs.Sections.{one_section};
ghost use Rattle.wasm_reader.specs.Syntax.{checked, pure, or_fault, to_end};

use crate::ReadFault;
use crate::items::is_counted;
use crate::sections::{Progress, read_section};
use std::alloc::Global;
use wasm_ops::{Cursor, Fault, Module, Refusal};

/// The most bytes of a module's file: 4 MiB.
pub const MOST_BYTES: u64 = 4 << 20;

// What a module opens with (section 5.5.15).
const MAGIC: &[u8] = b"\0asm";

// The version of the format, which stands behind it: 1.
const VERSION: &[u8] = &[1, 0, 0, 0];

/// The module that the bytes spell, all of them.
///
/// It has at most 4 MiB, 1,000 types, 1,000 globals and 10,000 functions (imported ones among them), 1,000 parameters and one result of a type, and tables of at most 10,000 elements at first; its bodies are within the limits of `wasm_code::read_body`.
/// Else the first refusal in reading order is answered, with its place counted from the file's first byte.
/// It is one pass over the bytes, which takes memory for the answer, and for the blocks that are open in the body at hand.
pub fn read_module(alloc: Global, bytes: &[u8]) -> Result<Module, ReadFault>
    ensures found { IfOk result (λ parts. SpellsModule bytes.now parts) }
    ensures formed { IfOk result (λ parts. IsWellFormed parts) }
    ensures refused { IfErr result (λ fault. IsAmong fault (RefusesModule bytes.now)) }

    // No other answer is possible, but for want of memory.
    ensures only { (parts : ModuleValue) → SpellsModule bytes.now parts → GivesValue result parts }
    ensures only_refused { (fault : FaultValue) → RefusesModule bytes.now fault → GivesFault result fault }
{
    if MOST_BYTES < bytes.len() as u64 {
        return Err(ReadFault::Bytes(Refusal::TooLarge.at(0)));
    }
    read_whole(alloc, bytes)
}

// The module of a file that is not too large.
fn read_whole(alloc: Global, bytes: &[u8]) -> Result<Module, ReadFault>
    requires small { length bytes.now < 2 ^ 32 }
    ensures whole { (after : Input) × Gives (λ parts. (parts, after)) result (whole_module.read (beginning bytes.now)) }
{
    let mut cursor = Cursor::new(bytes, 0, bytes.len() as u32);
    read_from(alloc, &mut cursor)
}

// The same, from the first byte on.
fn read_from(alloc: Global, cursor: &mut Cursor<'_>) -> Result<Module, ReadFault>
    ensures { Gives (λ parts. (parts, cursor.new)) result (whole_module.read cursor.old) }
{
    header(cursor)?;
    let mut progress = Progress::new(alloc);
    read_sections(alloc, &mut progress, cursor)?;
    Ok(complete(progress, cursor)?)
}

// The header. Refused: `BadMagic` at another magic, at the file's first byte, and `BadVersion` at another version, behind the magic.
fn header(cursor: &mut Cursor<'_>) -> Result<(), Fault>
    ensures { Tells (λ _. (tt {0}, cursor.new)) result (header_syntax.read cursor.old) }
{
    opens_with(MAGIC, Refusal::BadMagic.at(0), cursor)?;
    opens_with(VERSION, Refusal::BadVersion.at(4), cursor)
}

// Goes past just these bytes. Refused: with this fault where one differs.
fn opens_with(wanted: &[u8], fault: Fault, cursor: &mut Cursor<'_>) -> Result<(), Fault>
    ensures { Tells (λ _. (tt {0}, cursor.new)) result ((opens_with_syntax fault wanted.now).read cursor.old) }
{
    let Some((first, more)) = wanted.split_first() else {
        return Ok(());
    };
    if cursor.byte()? != *first {
        return Err(fault);
    }
    opens_with(more, fault, cursor)
}

// All sections, up to the end of the file.
fn read_sections(
    alloc: Global,
    progress: &mut Progress,
    cursor: &mut Cursor<'_>,
) -> Result<(), ReadFault>
    ensures { Gives (λ _. (progress.new, cursor.new)) result ((to_end one_section progress.old).read cursor.old) }
{
    'sections: while !cursor.is_at_end() {
        read_section(alloc, progress, cursor)?;
    }
    Ok(())
}

// The module, which has a body for each function and as many data segments as was said. Refused: `CountsDiffer` where the section of bodies or that of data is missing, at the end of the file.
fn complete(progress: Progress, cursor: &Cursor<'_>) -> Result<Module, Fault>
    ensures { Tells (λ parts. (parts, cursor.now)) result ((checked complete (or_fault CountsDiffer) (pure progress)).read cursor.now) }
{
    let due = progress.data_count;
    let module = progress.parts;
    let segments = module.segments.as_slice().len() as u64;
    if !is_counted(due, segments) {
        return Err(Refusal::CountsDiffer.at(cursor.at()));
    }
    if module.bodies.as_slice().len() != module.functions.as_slice().len() {
        return Err(Refusal::CountsDiffer.at(cursor.at()));
    }
    Ok(module)
}
