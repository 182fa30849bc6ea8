//! Blocks, branches and returns (WebAssembly Core 1.0, sections 4.4.5 and 4.4.6).
ghost use Rattle.std.specs.Prelude.{◌≡◌, ◌+◌, ◌<◌, ◌∷◌, length};
ghost use Rattle.wasm_meaning.specs.Control.{entry};
ghost use Rattle.wasm_ops.specs.declared.operators.Op.TheVariants as op;
ghost use Rattle.wasm_states.specs.Blocks.{block_label};
ghost use Rattle.wasm_states.specs.Leaving.{CanBranch, CanLeave, branch_view, leave_view};
ghost use Rattle.wasm_step.specs.Arms.{Acts, IsAt, before};
ghost use Rattle.wasm_step.specs.Does.{Ends};
ghost use Rattle.wasm_step.specs.Next.{AtEnd, GoesFree};

use crate::answers::Step;
use crate::entries::next_entry;
use wasm_instance::Program;
use wasm_ops::ValType;
use wasm_store::{Label, Vessel};

#[inline(always)]
pub(crate) fn open_block(
    _program: &Program,
    vessel: &mut Vessel,
    gives: Option<ValType>,
    end: u32,
) -> Step
    requires at { IsAt _program.now vessel.old (op.Block gives end) }
    ensures acts { Acts _program.now (before vessel.old) vessel.new result }
    ensures pages { vessel.new.pages ≡ vessel.old.pages }
{
    open_part(vessel, gives, end);
    Step::Went(1)
}

#[inline(always)]
pub(crate) fn open_loop(
    _program: &Program,
    vessel: &mut Vessel,
    _gives: Option<ValType>,
    _end: u32,
) -> Step
    requires at { IsAt _program.now vessel.old (op.Loop _gives _end) }
    ensures acts { Acts _program.now (before vessel.old) vessel.new result }
    ensures pages { vessel.new.pages ≡ vessel.old.pages }
{
    let height = vessel.height();
    let target = vessel.place() - 1;
    vessel.open_block(Label {
        target,
        height,
        result: false,
    });
    Step::Went(1)
}

#[inline(always)]
pub(crate) fn open_if(
    _program: &Program,
    vessel: &mut Vessel,
    gives: Option<ValType>,
    other: Option<u32>,
    end: u32,
) -> Step
    requires at { IsAt _program.now vessel.old (op.If gives other end) }
    ensures acts { Acts _program.now (before vessel.old) vessel.new result }
    ensures pages { vessel.new.pages ≡ vessel.old.pages }
{
    if vessel.pop() != 0 {
        open_part(vessel, gives, end);
        return Step::Went(1);
    }
    match other {
        Some(between) => {
            vessel.go_to(between + 1);
            open_part(vessel, gives, end);
        }
        None => vessel.go_to(end + 1),
    }
    Step::Went(1)
}

// Opens a block, behind whose `end` the code goes on.
#[inline(always)]
fn open_part(vessel: &mut Vessel, gives: Option<ValType>, end: u32)
    requires place { end + 1 < 4294967296 }
    requires room { length vessel.old.labels < 65536 }
    ensures { vessel.new ≡ record vessel.old { labels = block_label (end + 1) (length vessel.old.cells) gives ∷ vessel.old.labels } }
{
    let height = vessel.height();
    vessel.open_block(Label {
        target: end + 1,
        height,
        result: gives.is_some(),
    });
}

/// The first part of an `if` goes past the second one and its `end`.
#[inline(always)]
pub(crate) fn go_past(_program: &Program, vessel: &mut Vessel, end: u32) -> Step
    requires at { IsAt _program.now vessel.old (op.Else end) }
    ensures ends { Ends _program.now (before vessel.old) vessel.new result }
    ensures next { GoesFree result }
    ensures pages { vessel.new.pages ≡ vessel.old.pages }
{
    vessel.close_blocks(1);
    vessel.go_to(end + 1);
    Step::Free
}

/// Ends the inmost block, or the call where none is open in it. Where no call is live, the next entry is made.
#[inline(always)]
pub(crate) fn end(program: &Program, vessel: &mut Vessel) -> Step
    requires at { IsAt program.now vessel.old op.End }
    ensures ends { Ends program.now (before vessel.old) vessel.new result }
    ensures next { AtEnd vessel.old.frames vessel.old.entries result }
    ensures pages { vessel.new.pages ≡ vessel.old.pages }
{
    if vessel.depth() == 0 {
        return next_entry(program, vessel);
    }
    if vessel.open_blocks() > vessel.frame().opened {
        vessel.close_blocks(1);
    } else {
        leave_call(program, vessel);
    }
    Step::Free
}

// Ends the call that runs, with its result.
#[inline(always)]
fn leave_call(program: &Program, vessel: &mut Vessel)
    requires can { CanLeave program.now vessel.old }
    ensures { vessel.new ≡ leave_view program.now vessel.old }
{
    let keep = program.shape(vessel.function()).result;
    vessel.leave(keep);
}

// Goes on where a label says, with what it takes.
#[inline(always)]
fn branch(program: &Program, vessel: &mut Vessel, label: u32)
    requires can { CanBranch program.now label vessel.old }
    ensures { vessel.new ≡ branch_view program.now label vessel.old }
{
    let open = vessel.open_blocks() - vessel.frame().opened;
    if label < open {
        let to = vessel.label(label);
        vessel.cut(to.result, to.height);
        vessel.close_blocks(label + 1);
        vessel.go_to(to.target);
    } else {
        leave_call(program, vessel);
    }
}

#[inline(always)]
pub(crate) fn br(program: &Program, vessel: &mut Vessel, label: u32) -> Step
    requires at { IsAt program.now vessel.old (op.Br label) }
    ensures acts { Acts program.now (before vessel.old) vessel.new result }
    ensures pages { vessel.new.pages ≡ vessel.old.pages }
{
    branch(program, vessel, label);
    Step::Went(1)
}

#[inline(always)]
pub(crate) fn br_if(program: &Program, vessel: &mut Vessel, label: u32) -> Step
    requires at { IsAt program.now vessel.old (op.BrIf label) }
    ensures acts { Acts program.now (before vessel.old) vessel.new result }
    ensures pages { vessel.new.pages ≡ vessel.old.pages }
{
    if vessel.pop() == 0 {
        return Step::Went(1);
    }
    branch(program, vessel, label);
    Step::Went(1)
}

// Which label of a table is meant: its default stands behind the others.
#[inline(always)]
fn entry_of(count: u32, number: u64) -> u32
    ensures { result ≡ entry count number }
{
    if number < u64::from(count) {
        number as u32
    } else {
        count
    }
}

#[inline(always)]
pub(crate) fn br_table(program: &Program, vessel: &mut Vessel, from: u32, count: u32) -> Step
    requires at { IsAt program.now vessel.old (op.BrTable from count) }
    ensures acts { Acts program.now (before vessel.old) vessel.new result }
    ensures pages { vessel.new.pages ≡ vessel.old.pages }
{
    let number = vessel.pop();
    let label = program.target(vessel.function(), from + entry_of(count, number));
    branch(program, vessel, label);
    Step::Went(1)
}

#[inline(always)]
pub(crate) fn leave(program: &Program, vessel: &mut Vessel) -> Step
    requires at { IsAt program.now vessel.old op.Return }
    ensures acts { Acts program.now (before vessel.old) vessel.new result }
    ensures pages { vessel.new.pages ≡ vessel.old.pages }
{
    leave_call(program, vessel);
    Step::Went(1)
}
