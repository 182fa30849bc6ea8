//! The state in which a program begins (WebAssembly Core 1.0, section 4.5.4).
ghost use Rattle.std.specs.Prelude.{◌≡◌, ◌+◌, ◌≤◌, ◌++◌, [], None, length, map, slice_get};
ghost use Rattle.wasm_meaning.specs.Linking.{first_refused, bytes_refusal, element_refusal};
ghost use Rattle.wasm_meaning.specs.Programs.{IsProgram, first_global, first_memory, first_table, with_elements, with_segments};
ghost use Rattle.wasm_meaning.specs.Values.{numbers};
ghost use Rattle.wasm_ops.specs.WellFormed.{IsWellFormed};
ghost use Rattle.wasm_store.specs.View.{IsClean};
ghost use Rattle.wasm_states.specs.Holding.{Begins, IsState, fresh_view, last_place as last_place_due, rest_body, rest_place};

use crate::programs::Program;
use crate::refusals::{first_elements, first_pages};
use wasm_ops::{ByteSegment, ElementSegment, GlobalDef, Module};
use wasm_store::Vessel;

// Lays data segments in order.
fn lay_segments(segments: &[ByteSegment], vessel: &mut Vessel)
    requires within { first_refused (bytes_refusal (length vessel.old.memory)) 0 segments.now ≡ None }
    ensures { vessel.new ≡ record vessel.old { memory = with_segments vessel.old.memory segments.now } }
{
    for segment in segments {
        vessel.copy_in(segment.offset.bits, segment.bytes.as_slice());
    }
}

// Lays element segments in order.
fn lay_elements(segments: &[ElementSegment], vessel: &mut Vessel)
    requires few { length vessel.old.table ≤ 10000 }
    requires within { first_refused (element_refusal (length vessel.old.table)) 0 segments.now ≡ None }
    ensures { vessel.new ≡ record vessel.old { table = with_elements vessel.old.table segments.now } }
{
    for segment in segments {
        vessel.set_elements(segment.offset.bits as u32, segment.functions.as_slice());
    }
}

fn lay_globals(globals: &[GlobalDef], vessel: &mut Vessel)
    requires few { length vessel.old.globals + length globals.now ≤ 1000 }
    ensures { vessel.new ≡ record vessel.old { globals = vessel.old.globals ++ numbers (map first_global globals.now) } }
{
    for global in globals {
        vessel.add_global(global.first.bits);
    }
}

fn lay_memory(program: &Program, vessel: &mut Vessel)
    requires none { vessel.old.memory ≡ [] }
    requires room { program.now.pages ≤ vessel.old.pages }
    ensures { vessel.new ≡ record vessel.old { memory = first_memory program.now.linked } }
{
    let module = program.valid().module();
    vessel.grow(first_pages(module), program.most());
    lay_segments(module.segments.as_slice(), vessel);
}

fn lay_table(program: &Program, vessel: &mut Vessel)
    requires none { vessel.old.table ≡ [] }
    ensures { vessel.new ≡ record vessel.old { table = first_table program.now.linked } }
{
    let module = program.valid().module();
    vessel.add_elements(first_elements(module));
    lay_elements(module.elements.as_slice(), vessel);
}

// The place of the last operator of the body with this number.
fn last_place(module: &Module, body: u32) -> u32
    requires formed { IsWellFormed «module».now }
    ensures { result ≡ last_place_due (slice_get «module».now.bodies body) }
{
    match module.bodies.as_slice().get(body as usize) {
        Some(body) => body.ops.as_slice().len().saturating_sub(1) as u32,
        None => 0,
    }
}

// The code rests at the last operator of `_start` while no call is live.
fn rest(program: &Program, vessel: &mut Vessel)
    ensures { vessel.new ≡ record vessel.old { function = rest_body program.now.linked; place = rest_place program.now.linked } }
{
    let body = program.entry().unwrap_or(0);
    vessel.stand_at(body, last_place(program.valid().module(), body));
}

fn lay_fresh(program: &Program, vessel: &mut Vessel)
    requires clean { IsClean vessel.old }
    requires room { program.now.pages ≤ vessel.old.pages }
    ensures view { vessel.new ≡ fresh_view program.now vessel.old.pages }
    ensures program { IsProgram program.now }
{
    lay_memory(program, vessel);
    lay_table(program, vessel);
    lay_globals(program.valid().module().globals.as_slice(), vessel);
    rest(program, vessel);
    vessel.set_entries(program.start(), program.entry());
}

/// Lays down the state in which a program begins, in a clean vessel whose strip has the program's pages: its first memory with the data segments, its globals, its table with the element segments, and the bodies that are still to be entered.
///
/// No memory is taken.
pub fn fresh(program: &Program, vessel: &mut Vessel)
    requires clean { IsClean vessel.old }
    requires room { program.now.pages ≤ vessel.old.pages }
    ensures view { vessel.new ≡ fresh_view program.now vessel.old.pages }
    ensures begins { Begins program.now vessel.new }
    ensures state { IsState program.now vessel.new }
{
    lay_fresh(program, vessel);
}
