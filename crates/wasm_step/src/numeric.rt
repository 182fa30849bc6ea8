//! Constants, and numeric and parametric operators (WebAssembly Core 1.0, sections 4.4.1 and 4.4.2).
ghost use Rattle.std.specs.Prelude.{◌≡◌, ◌==◌, ◌<◌, ◌∷◌, length, drop, if◌then◌else◌};
ghost use Rattle.wasm_ops.specs.declared.operators.Op.TheVariants as op;
ghost use Rattle.wasm_step.specs.Arms.{Acts, IsAt, before};

use crate::answers::Step;
use wasm_instance::Program;
use wasm_ops::{IntOp, Trap, apply_binary, apply_unary};
use wasm_store::Vessel;

#[inline(always)]
pub(crate) fn const_i32(_program: &Program, vessel: &mut Vessel, number: u32) -> Step
    requires at { IsAt _program.now vessel.old (op.ConstI32 number) }
    ensures acts { Acts _program.now (before vessel.old) vessel.new result }
    ensures pages { vessel.new.pages ≡ vessel.old.pages }
{
    vessel.push(u64::from(number));
    Step::Went(1)
}

#[inline(always)]
pub(crate) fn const_i64(_program: &Program, vessel: &mut Vessel, number: u64) -> Step
    requires at { IsAt _program.now vessel.old (op.ConstI64 number) }
    ensures acts { Acts _program.now (before vessel.old) vessel.new result }
    ensures pages { vessel.new.pages ≡ vessel.old.pages }
{
    vessel.push(number);
    Step::Went(1)
}

/// Puts a value in the place of the top cell. The number of cells, on which every operator waits, is not written.
#[inline(always)]
#[tactic(auto, using(crate::proofs::CellLaws::set_top))]
pub(crate) fn replace_top(vessel: &mut Vessel, value: u64)
    requires { 0 < length vessel.old.cells }
    ensures { vessel.new ≡ record vessel.old { cells = value ∷ drop 1 vessel.old.cells } }
{
    let top = vessel.height() - 1;
    vessel.set_cell(top, value);
}

#[inline(always)]
pub(crate) fn unary(_program: &Program, vessel: &mut Vessel, operator: IntOp) -> Step
    requires at { IsAt _program.now vessel.old (op.Unary operator) }
    ensures acts { Acts _program.now (before vessel.old) vessel.new result }
    ensures pages { vessel.new.pages ≡ vessel.old.pages }
{
    let operand = vessel.operand(0);
    replace_top(vessel, apply_unary(operator, operand));
    Step::Went(1)
}

#[inline(always)]
pub(crate) fn binary(_program: &Program, vessel: &mut Vessel, operator: IntOp) -> Step
    requires at { IsAt _program.now vessel.old (op.Binary operator) }
    ensures acts { Acts _program.now (before vessel.old) vessel.new result }
    ensures pages { vessel.new.pages ≡ vessel.old.pages }
{
    let second = vessel.pop();
    let first = vessel.operand(0);
    match apply_binary(operator, first, second) {
        Ok(number) => {
            replace_top(vessel, number);
            Step::Went(1)
        }
        Err(trap) => Step::Trapped { trap, price: 1 },
    }
}

#[inline(always)]
pub(crate) fn drop_operand(_program: &Program, vessel: &mut Vessel) -> Step
    requires at { IsAt _program.now vessel.old op.Drop }
    ensures acts { Acts _program.now (before vessel.old) vessel.new result }
    ensures pages { vessel.new.pages ≡ vessel.old.pages }
{
    vessel.pop();
    Step::Went(1)
}

// The first of two numbers where the number is not 0.
#[inline(always)]
fn chosen(number: u64, first: u64, second: u64) -> u64
    ensures { result ≡ (if number == 0 then second else first) }
{
    if number == 0 { second } else { first }
}

#[inline(always)]
pub(crate) fn select(_program: &Program, vessel: &mut Vessel) -> Step
    requires at { IsAt _program.now vessel.old op.Select }
    ensures acts { Acts _program.now (before vessel.old) vessel.new result }
    ensures pages { vessel.new.pages ≡ vessel.old.pages }
{
    let number = vessel.pop();
    let second = vessel.pop();
    let first = vessel.operand(0);
    replace_top(vessel, chosen(number, first, second));
    Step::Went(1)
}

#[inline(always)]
pub(crate) fn nop(_program: &Program, vessel: &mut Vessel) -> Step
    requires at { IsAt _program.now vessel.old op.Nop }
    ensures acts { Acts _program.now (before vessel.old) vessel.new result }
    ensures pages { vessel.new.pages ≡ vessel.old.pages }
{
    Step::Went(1)
}

// The code stands at its operator again. So the trap is no place where the dispatch itself jumps to, which would keep the trap and its price in registers at every step.
#[inline(always)]
pub(crate) fn unreachable_operator(_program: &Program, vessel: &mut Vessel) -> Step
    requires at { IsAt _program.now vessel.old op.Unreachable }
    ensures acts { Acts _program.now (before vessel.old) vessel.new result }
    ensures pages { vessel.new.pages ≡ vessel.old.pages }
{
    let place = vessel.place() - 1;
    vessel.go_to(place);
    Step::Trapped {
        trap: Trap::Unreachable,
        price: 1,
    }
}
