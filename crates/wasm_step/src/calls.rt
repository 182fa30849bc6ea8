//! Calls, by a function's index and through the table (WebAssembly Core 1.0, section 4.4.7).
ghost use Rattle.std.specs.Prelude.{◌≡◌, ℕ, ◌+◌, ◌<◌, ◌≤◌, ◌^◌, length, true, Some, slice_get};
ghost use Rattle.wasm_ops.specs.declared.operators.Op.TheVariants as op;
ghost use Rattle.wasm_states.specs.Calling.{has_room_for};
ghost use Rattle.wasm_states.specs.HostCalls.{places_of};
ghost use Rattle.wasm_step.specs.Arms.{IsAt, before};
ghost use Rattle.wasm_step.specs.Arguments.{ArgumentsThere, AreArguments, Asks, Enters};
ghost use Rattle.wasm_step.specs.Does.{Calls};
ghost use Rattle.wasm_step.specs.Next.{AnswersTo};

use crate::answers::Step;
use crate::entries::{enter, has_room};
use wasm_instance::{Callee, Program, Shape};
use wasm_ops::{HostCall, HostName, Trap};
use wasm_store::Vessel;

/// A call of the function with an index.
#[inline(always)]
pub(crate) fn call(program: &Program, vessel: &mut Vessel, index: u32) -> Step
    requires at { IsAt program.now vessel.old (op.Call index) }
    ensures calls { Calls program.now (before vessel.old) vessel.new result }
    ensures next { AnswersTo program.now (before vessel.old) 1 (Some (op.Call index)) result }
    ensures pages { vessel.new.pages ≡ vessel.old.pages }
{
    match program.callee(index) {
        Some(Callee::Defined { body, shape }) => enter_body(vessel, body, shape),
        Some(Callee::Host(name)) => ask(vessel, name, false),
        None => unreachable!(),
    }
}

/// A call of a function of this type, which the top cell's element in the table names.
#[inline(always)]
pub(crate) fn call_indirect(program: &Program, vessel: &mut Vessel, type_index: u32) -> Step
    requires at { IsAt program.now vessel.old (op.CallIndirect type_index) }
    ensures calls { Calls program.now (before vessel.old) vessel.new result }
    ensures next { AnswersTo program.now (before vessel.old) 1 (Some (op.CallIndirect type_index)) result }
    ensures pages { vessel.new.pages ≡ vessel.old.pages }
{
    match vessel.element(vessel.operand(0) as u32) {
        None => Step::Trapped {
            trap: Trap::UndefinedElement,
            price: 1,
        },
        Some(None) => Step::Trapped {
            trap: Trap::UninitializedElement,
            price: 1,
        },
        Some(Some(index)) => call_element(program, vessel, type_index, index),
    }
}

// A call of the function with an index, which was found in the table, if it has this type.
#[inline(always)]
fn call_element(program: &Program, vessel: &mut Vessel, type_index: u32, index: u32) -> Step
    requires at { IsAt program.now vessel.old (op.CallIndirect type_index) }
    requires element { (place : ℕ) → slice_get vessel.old.cells 0 ≡ Some place → slice_get vessel.old.table place ≡ Some (Some index) }
    ensures calls { Calls program.now (before vessel.old) vessel.new result }
    ensures next { AnswersTo program.now (before vessel.old) 1 (Some (op.CallIndirect type_index)) result }
    ensures pages { vessel.new.pages ≡ vessel.old.pages }
{
    if !program.is_of_type(index, type_index) {
        return Step::Trapped {
            trap: Trap::TypeMismatch,
            price: 1,
        };
    }
    match program.callee(index) {
        Some(Callee::Defined { body, shape }) => {
            vessel.pop();
            enter_body(vessel, body, shape)
        }
        Some(Callee::Host(name)) => ask(vessel, name, true),
        None => unreachable!(),
    }
}

// Begins a call of a body, whose arguments lie on top of the cells, if there is room for it.
#[inline(always)]
fn enter_body(vessel: &mut Vessel, body: u32, shape: Shape) -> Step
    requires arguments { shape.params ≤ length vessel.old.cells }
    requires zeros { has_room_for shape.cells vessel.old ≡ true → length vessel.old.cells + shape.locals ≤ 65536 }
    ensures enters { Enters vessel.old body shape vessel.new result }
    ensures pages { vessel.new.pages ≡ vessel.old.pages }
{
    if has_room(vessel, shape.cells) {
        enter(vessel, body, shape.params, shape.locals, shape.cells);
        Step::Went(1)
    } else {
        Step::Trapped {
            trap: Trap::StackExhausted,
            price: 1,
        }
    }
}

// A call of a function of the host, before which the code stands again.
#[inline(always)]
pub(crate) fn ask(vessel: &mut Vessel, name: HostName, indirect: bool) -> Step
    requires passed { 1 ≤ vessel.old.place }
    requires there { ArgumentsThere name (places_of indirect) vessel.old.cells }
    ensures asks { Asks vessel.old name indirect vessel.new result }
    ensures pages { vessel.new.pages ≡ vessel.old.pages }
{
    let place = vessel.place() - 1;
    vessel.go_to(place);
    let args = arguments(vessel, name, u32::from(indirect));
    Step::Host(HostCall {
        name,
        args,
        indirect,
    })
}

// The arguments of a call of the host, the first one first, which lie under so many other cells.
#[inline(never)]
fn arguments(vessel: &Vessel, name: HostName, under: u32) -> [u32; 4]
    requires few { under ≤ 1 }
    requires there { ArgumentsThere name under vessel.now.cells }
    ensures { AreArguments name under vessel.now.cells result }
{
    match name {
        HostName::FdRead | HostName::FdWrite => [
            word(vessel, under + 3),
            word(vessel, under + 2),
            word(vessel, under + 1),
            word(vessel, under),
        ],
        HostName::ProcExit => [word(vessel, under), 0, 0, 0],
    }
}

// An i32 among the cells.
fn word(vessel: &Vessel, above: u32) -> u32
    requires there { above < length vessel.now.cells }
    requires small { (number : ℕ) → slice_get vessel.now.cells above ≡ Some number → number < 2 ^ 32 }
    ensures { slice_get vessel.now.cells above ≡ Some result }
{
    vessel.operand(above) as u32
}
