//! Bodies are entered: by a call, or from outside, as the start function and `_start` are (WebAssembly Core 1.0, sections 4.4.7 and 4.5.5).
ghost use Rattle.std.specs.Prelude.{◌≡◌, ◌+◌, ◌<◌, ◌≤◌, length, slice_get, Some};
ghost use Rattle.wasm_ops.specs.declared.operators.Op.TheVariants as op;
ghost use Rattle.wasm_states.specs.Calling.{has_room_for, call_view};
ghost use Rattle.wasm_states.specs.Holding.{IsState};
ghost use Rattle.wasm_step.specs.Arms.{IsAt, before};
ghost use Rattle.wasm_step.specs.Does.{Ends};
ghost use Rattle.wasm_step.specs.Next.{AtRest, EntersFree};

use crate::answers::Step;
use wasm_instance::Program;
use wasm_ops::Trap;
use wasm_store::Vessel;

const MOST_FRAMES: u32 = 4096;

const MOST_CELLS: u64 = 65536;

/// Whether there is room for one call more, with so many cells.
#[inline(always)]
pub(crate) fn has_room(vessel: &Vessel, cells: u64) -> bool
    ensures { result ≡ has_room_for cells vessel.now }
{
    if cells > MOST_CELLS {
        return false;
    }
    vessel.depth() < MOST_FRAMES && u64::from(vessel.used()) + cells <= MOST_CELLS
}

/// Begins a call, whose arguments lie on top of the cells.
#[inline(always)]
pub(crate) fn enter(vessel: &mut Vessel, body: u32, params: u32, locals: u32, cells: u64)
    requires arguments { params ≤ length vessel.old.cells }
    requires frames { length vessel.old.frames < 4096 }
    requires cells { vessel.old.used + cells ≤ 65536 }
    requires zeros { length vessel.old.cells + locals ≤ 65536 }
    ensures { vessel.new ≡ call_view body params locals cells vessel.old }
{
    let base = vessel.height() - params;
    let used = vessel.used() + cells as u32;
    vessel.enter(body, base, used);
    vessel.push_zeros(locals);
}

/// Enters the next body from outside, if there is one.
#[inline(always)]
pub(crate) fn next_entry(program: &Program, vessel: &mut Vessel) -> Step
    requires at { IsAt program.now vessel.old op.End }
    requires rests { length vessel.old.frames ≡ 0 }
    ensures ends { Ends program.now (before vessel.old) vessel.new result }
    ensures next { AtRest vessel.old.entries result }
    ensures pages { vessel.new.pages ≡ vessel.old.pages }
{
    let place = vessel.place() - 1;
    vessel.go_to(place);
    match vessel.next_entry() {
        None => Step::Ended,
        Some(body) => enter_from_outside(program, vessel, body),
    }
}

#[inline(always)]
fn enter_from_outside(program: &Program, vessel: &mut Vessel, body: u32) -> Step
    requires state { IsState program.now vessel.old }
    requires rests { length vessel.old.frames ≡ 0 }
    requires next { slice_get vessel.old.entries 0 ≡ Some body }
    ensures ends { Ends program.now vessel.old vessel.new result }
    ensures next { EntersFree result }
    ensures pages { vessel.new.pages ≡ vessel.old.pages }
{
    let shape = program.shape(body);
    if !has_room(vessel, shape.cells) {
        return Step::Trapped {
            trap: Trap::StackExhausted,
            price: 0,
        };
    }
    vessel.pass_entry();
    enter(vessel, body, 0, shape.locals, shape.cells);
    Step::Free
}
