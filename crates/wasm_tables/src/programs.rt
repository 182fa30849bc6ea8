//! Programs, bodies of requests and vessels of a case.
ghost use Rattle.std.specs.Prelude.{◌≤◌, IfSome};

use memory_pool::Berth;
use std::alloc::Global;
use wasm_instance::{Program, link};
use wasm_reader::read_module;
use wasm_validate::validate;

/// The most pages of a vessel.
const MOST_PAGES: u32 = 16_384;

/// The bytes that stand in hexadecimal.
pub fn bytes_of(alloc: Global, spelling: &str) -> Option<Vec<u8>> {
    if spelling == "-" {
        Some(Vec::new(alloc))
    } else {
        hex::decode(alloc, spelling).ok()
    }
}

/// The program of a module that is given so many pages.
pub fn program_of(alloc: Global, spelling: &str, pages: u32) -> Option<Program>
    ensures pages { IfSome result (λ program. program.pages ≤ pages) }
{
    let bytes = bytes_of(alloc, spelling)?;
    let module = read_module(alloc, &bytes).ok()?;
    let valid = validate(alloc, module).ok()?;
    let program = link(alloc, valid, pages).ok()?;
    if pages < program.pages() {
        drop(program);
        return None;
    }
    Some(program)
}

/// A clean vessel of so many pages.
pub fn berth_of(alloc: Global, pages: u32) -> Option<Berth> {
    if pages < 1 || MOST_PAGES < pages {
        return None;
    }
    Berth::new(alloc, pages).ok()
}
