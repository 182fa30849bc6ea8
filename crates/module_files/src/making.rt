//! One program: from a file's bytes to a module, which is validated and linked.
ghost use Rattle.std.specs.Prelude.{◌≡◌, IfOk};
ghost use Rattle.wasm_ops.specs.WellFormed.{IsWellFormed};
ghost use Rattle.wasm_meaning.specs.Programs.{link as link_due};
ghost use Rattle.wasm_meaning.specs.Validity.{module_walk};
ghost use Rattle.module_files.specs.FilePrograms.{linked, validated, program_of as program_due};
ghost use Rattle.module_files.specs.Made.{IsMade};

use crate::faults::Unmade;
use std::alloc::Global;
use wasm_instance::{LinkFault, Program, link};
use wasm_ops::Module;
use wasm_reader::{ReadFault, read_module};
use wasm_validate::{Valid, ValidFault, validate};

/// The program of a file's bytes with so many pages of 64 KiB: the module that they spell, which is valid and linked with these pages.
///
/// `Unfit` tells the first refusal: the bytes are more than 4 MiB (number 21) or spell no module, a rule of validity is broken, or the module is not linked (WebAssembly Core 1.0, sections 5, 3 and 4.5).
/// A file that may be too long is read with one byte more than 4 MiB, which does for all of it.
pub fn program_of(alloc: Global, bytes: &[u8], pages: u32) -> Result<Program, Unmade>
    ensures made { IsMade result (program_due pages bytes.now) }
    ensures pages { IfOk result (λ program. program.pages ≡ pages) }
{
    match read_module(alloc, bytes) {
        Ok(parts) => of_module(alloc, parts, pages),
        Err(ReadFault::Bytes(fault)) => Err(Unmade::Unfit {
            number: fault.number,
            place: fault.place,
        }),
        Err(ReadFault::NoMemory) => Err(Unmade::NoMemory),
    }
}

/// The program of a module that was read.
fn of_module(alloc: Global, parts: Module, pages: u32) -> Result<Program, Unmade>
    requires formed { IsWellFormed parts }
    ensures { IsMade result (validated pages parts (module_walk parts)) }
{
    match validate(alloc, parts) {
        Ok(valid) => of_valid(alloc, valid, pages),
        Err(ValidFault::Rule(broken)) => Err(Unmade::Unfit {
            number: broken.number,
            place: broken.item,
        }),
        Err(ValidFault::NoMemory) => Err(Unmade::NoMemory),
    }
}

/// The program of a valid module.
fn of_valid(alloc: Global, valid: Valid, pages: u32) -> Result<Program, Unmade>
    ensures { IsMade result (linked (link_due valid pages)) }
{
    match link(alloc, valid, pages) {
        Ok(program) => Ok(program),
        Err(LinkFault::Refused(why)) => Err(Unmade::Unfit {
            number: why.rule.number(),
            place: why.item,
        }),
        Err(LinkFault::NoMemory) => Err(Unmade::NoMemory),
    }
}
