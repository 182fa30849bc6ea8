//! Loads, stores, and the size of memory (WebAssembly Core 1.0, section 4.4.4).
ghost use Rattle.std.specs.Prelude.{◌≡◌, ◌*◌, ◌^◌, ◌<◌};
ghost use Rattle.wasm_meaning.specs.Memory.{widened};
ghost use Rattle.wasm_ops.specs.Values.{IsOfType};
ghost use Rattle.wasm_ops.specs.WellFormed.{IsAccess};
ghost use Rattle.wasm_ops.specs.declared.operators.Op.TheVariants as op;
ghost use Rattle.wasm_step.specs.Arms.{Acts, IsAt, before};

use crate::answers::Step;
use crate::numeric::replace_top;
use wasm_instance::Program;
use wasm_ops::{Access, Trap, ValType};
use wasm_store::Vessel;

// The number that so few bytes stand for, as one of the access's type: a signed one repeats its sign above them.
#[inline(always)]
fn widen(access: Access, number: u64) -> u64
    requires access { IsAccess access }
    requires few { number < 2 ^ (8 * access.width) }
    ensures widened { result ≡ widened access number }
    ensures of_its_type { IsOfType access.value result }
{
    if !access.signed {
        return number;
    }
    match (access.value, access.width) {
        (ValType::I32, 1) => if number < 0x80 {
            number
        } else {
            number + 0xFFFF_FF00
        },
        (ValType::I32, _) => if number < 0x8000 {
            number
        } else {
            number + 0xFFFF_0000
        },
        (ValType::I64, 1) => if number < 0x80 {
            number
        } else {
            number + 0xFFFF_FFFF_FFFF_FF00
        },
        (ValType::I64, 2) => if number < 0x8000 {
            number
        } else {
            number + 0xFFFF_FFFF_FFFF_0000
        },
        (ValType::I64, _) => if number < 0x8000_0000 {
            number
        } else {
            number + 0xFFFF_FFFF_0000_0000
        },
    }
}

#[inline(always)]
pub(crate) fn load(
    _program: &Program,
    vessel: &mut Vessel,
    access: Access,
    _align: u32,
    offset: u32,
) -> Step
    requires at { IsAt _program.now vessel.old (op.Load access _align offset) }
    ensures acts { Acts _program.now (before vessel.old) vessel.new result }
    ensures pages { vessel.new.pages ≡ vessel.old.pages }
{
    let base = vessel.operand(0);
    match vessel.load(base + u64::from(offset), u32::from(access.width)) {
        Some(number) => {
            replace_top(vessel, widen(access, number));
            Step::Went(1)
        }
        None => Step::Trapped {
            trap: Trap::OutOfBounds,
            price: 1,
        },
    }
}

#[inline(always)]
pub(crate) fn store(
    _program: &Program,
    vessel: &mut Vessel,
    access: Access,
    _align: u32,
    offset: u32,
) -> Step
    requires at { IsAt _program.now vessel.old (op.Store access _align offset) }
    ensures acts { Acts _program.now (before vessel.old) vessel.new result }
    ensures pages { vessel.new.pages ≡ vessel.old.pages }
{
    let number = vessel.pop();
    let base = vessel.pop();
    if vessel.store(base + u64::from(offset), u32::from(access.width), number) {
        Step::Went(1)
    } else {
        Step::Trapped {
            trap: Trap::OutOfBounds,
            price: 1,
        }
    }
}

#[inline(always)]
pub(crate) fn memory_size(_program: &Program, vessel: &mut Vessel) -> Step
    requires at { IsAt _program.now vessel.old op.MemorySize }
    ensures acts { Acts _program.now (before vessel.old) vessel.new result }
    ensures pages { vessel.new.pages ≡ vessel.old.pages }
{
    vessel.push(u64::from(vessel.size()));
    Step::Went(1)
}

#[inline(always)]
pub(crate) fn memory_grow(program: &Program, vessel: &mut Vessel) -> Step
    requires at { IsAt program.now vessel.old op.MemoryGrow }
    ensures acts { Acts program.now (before vessel.old) vessel.new result }
    ensures pages { vessel.new.pages ≡ vessel.old.pages }
{
    let by = vessel.pop();
    match vessel.grow(by as u32, program.most()) {
        Some(size) => vessel.push(u64::from(size)),
        None => vessel.push(0xFFFF_FFFF),
    }
    Step::Went(1)
}
