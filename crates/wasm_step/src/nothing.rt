//! A step for which nothing is left.
ghost use Rattle.std.specs.Prelude.{◌≡◌, ℕ, Some, None, slice_get};
ghost use Rattle.wasm_ops.specs.declared.operators.Op.TheVariants as op;
ghost use Rattle.wasm_states.specs.Holding.{IsState};
ghost use Rattle.wasm_step.specs.Arms.{IsAt, before};
ghost use Rattle.wasm_step.specs.Asking.{asked_by};
ghost use Rattle.wasm_step.specs.Does.{Does, IsPriced};
ghost use Rattle.wasm_step.specs.Next.{AnswersNext, AnswersTo};

use crate::answers::Step;
use crate::calls::ask;
use crate::control::{end, go_past};
use wasm_instance::{Callee, Program};
use wasm_ops::Op;
use wasm_store::Vessel;

/// What costs nothing goes on, a call of the host is named, and all else is short.
#[inline(never)]
pub(crate) fn step_for_nothing(program: &Program, vessel: &mut Vessel) -> Step
    requires state { IsState program.now vessel.old }
    ensures does { Does program.now 0 vessel.old vessel.new result }
    ensures next { AnswersNext program.now vessel.old 0 result }
    ensures pages { vessel.new.pages ≡ vessel.old.pages }
{
    let place = vessel.place();
    let operator = program.operator(vessel.function(), place);
    vessel.go_to(place + 1);
    act_for_nothing(program, vessel, operator)
}

fn act_for_nothing(program: &Program, vessel: &mut Vessel, operator: Op) -> Step
    requires at { IsAt program.now vessel.old operator }
    ensures does { Does program.now 0 (before vessel.old) vessel.new result }
    ensures next { AnswersTo program.now (before vessel.old) 0 (Some operator) result }
    ensures pages { vessel.new.pages ≡ vessel.old.pages }
{
    match operator {
        Op::End => end(program, vessel),
        Op::Else { end } => go_past(program, vessel, end),
        Op::Call(index) => peek_call(program, vessel, index),
        Op::CallIndirect(type_index) => peek_indirect(program, vessel, type_index),
        other => fall_short(program, vessel, other),
    }
}

// An operator that has a price, before which the code stands again.
fn fall_short(_program: &Program, vessel: &mut Vessel, _operator: Op) -> Step
    requires at { IsAt _program.now vessel.old _operator }
    requires priced { IsPriced _operator }
    requires quiet { asked_by _program.now (before vessel.old) (Some _operator) ≡ None }
    ensures does { Does _program.now 0 (before vessel.old) vessel.new result }
    ensures next { AnswersTo _program.now (before vessel.old) 0 (Some _operator) result }
    ensures pages { vessel.new.pages ≡ vessel.old.pages }
{
    let place = vessel.place() - 1;
    vessel.go_to(place);
    Step::Short
}

// The call of the host, if the function with this index is one of its own.
fn peek_call(program: &Program, vessel: &mut Vessel, index: u32) -> Step
    requires at { IsAt program.now vessel.old (op.Call index) }
    ensures does { Does program.now 0 (before vessel.old) vessel.new result }
    ensures next { AnswersTo program.now (before vessel.old) 0 (Some (op.Call index)) result }
    ensures pages { vessel.new.pages ≡ vessel.old.pages }
{
    match program.callee(index) {
        Some(Callee::Host(name)) => ask(vessel, name, false),
        _ => fall_short(program, vessel, Op::Call(index)),
    }
}

// Likewise through the table.
fn peek_indirect(program: &Program, vessel: &mut Vessel, type_index: u32) -> Step
    requires at { IsAt program.now vessel.old (op.CallIndirect type_index) }
    ensures does { Does program.now 0 (before vessel.old) vessel.new result }
    ensures next { AnswersTo program.now (before vessel.old) 0 (Some (op.CallIndirect type_index)) result }
    ensures pages { vessel.new.pages ≡ vessel.old.pages }
{
    match vessel.element(vessel.operand(0) as u32) {
        Some(Some(index)) => peek_element(program, vessel, type_index, index),
        _ => fall_short(program, vessel, Op::CallIndirect(type_index)),
    }
}

fn peek_element(program: &Program, vessel: &mut Vessel, type_index: u32, index: u32) -> Step
    requires at { IsAt program.now vessel.old (op.CallIndirect type_index) }
    requires element { (place : ℕ) → slice_get vessel.old.cells 0 ≡ Some place → slice_get vessel.old.table place ≡ Some (Some index) }
    ensures does { Does program.now 0 (before vessel.old) vessel.new result }
    ensures next { AnswersTo program.now (before vessel.old) 0 (Some (op.CallIndirect type_index)) result }
    ensures pages { vessel.new.pages ≡ vessel.old.pages }
{
    if !program.is_of_type(index, type_index) {
        return fall_short(program, vessel, Op::CallIndirect(type_index));
    }
    match program.callee(index) {
        Some(Callee::Host(name)) => ask(vessel, name, true),
        _ => fall_short(program, vessel, Op::CallIndirect(type_index)),
    }
}
