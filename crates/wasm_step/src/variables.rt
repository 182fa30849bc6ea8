//! Locals and globals (WebAssembly Core 1.0, section 4.4.3).
ghost use Rattle.std.specs.Prelude.{◌≡◌};
ghost use Rattle.wasm_ops.specs.declared.operators.Op.TheVariants as op;
ghost use Rattle.wasm_step.specs.Arms.{Acts, IsAt, before};

use crate::answers::Step;
use wasm_instance::Program;
use wasm_store::Vessel;

#[inline(always)]
pub(crate) fn local_get(_program: &Program, vessel: &mut Vessel, index: u32) -> Step
    requires at { IsAt _program.now vessel.old (op.LocalGet index) }
    ensures acts { Acts _program.now (before vessel.old) vessel.new result }
    ensures pages { vessel.new.pages ≡ vessel.old.pages }
{
    let base = vessel.frame().base;
    vessel.push(vessel.cell(base + index));
    Step::Went(1)
}

#[inline(always)]
pub(crate) fn local_set(_program: &Program, vessel: &mut Vessel, index: u32) -> Step
    requires at { IsAt _program.now vessel.old (op.LocalSet index) }
    ensures acts { Acts _program.now (before vessel.old) vessel.new result }
    ensures pages { vessel.new.pages ≡ vessel.old.pages }
{
    let base = vessel.frame().base;
    let value = vessel.pop();
    vessel.set_cell(base + index, value);
    Step::Went(1)
}

#[inline(always)]
pub(crate) fn local_tee(_program: &Program, vessel: &mut Vessel, index: u32) -> Step
    requires at { IsAt _program.now vessel.old (op.LocalTee index) }
    ensures acts { Acts _program.now (before vessel.old) vessel.new result }
    ensures pages { vessel.new.pages ≡ vessel.old.pages }
{
    let base = vessel.frame().base;
    vessel.set_cell(base + index, vessel.operand(0));
    Step::Went(1)
}

#[inline(always)]
pub(crate) fn global_get(_program: &Program, vessel: &mut Vessel, index: u32) -> Step
    requires at { IsAt _program.now vessel.old (op.GlobalGet index) }
    ensures acts { Acts _program.now (before vessel.old) vessel.new result }
    ensures pages { vessel.new.pages ≡ vessel.old.pages }
{
    vessel.push(vessel.global(index));
    Step::Went(1)
}

#[inline(always)]
pub(crate) fn global_set(_program: &Program, vessel: &mut Vessel, index: u32) -> Step
    requires at { IsAt _program.now vessel.old (op.GlobalSet index) }
    ensures acts { Acts _program.now (before vessel.old) vessel.new result }
    ensures pages { vessel.new.pages ≡ vessel.old.pages }
{
    let value = vessel.pop();
    vessel.set_global(index, value);
    Step::Went(1)
}
