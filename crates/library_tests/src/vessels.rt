//! Vessels by rows: accesses at the borders of the memory, growth, and the calls of all that else a vessel holds.
//!
//! The numbers were worked out by hand. Each call is made by a function that tells its caller nothing of the vessel, so that a row costs no more behind many others than alone.

ghost use Rattle.std.specs.Prelude.{◌≡◌, ◌<◌, ◌≤◌, length, IfOk, IsTrue};
ghost use Rattle.wasm_meaning.specs.Bytes.{size_of};
ghost use Rattle.wasm_store.specs.View.{empty};

use std::alloc::{AllocError, Global};
use std::process::Abort;
use std::test::Fail;
use wasm_store::{Frame, Label, Strip, Vessel};

const LAST: u64 = u64::MAX;

// A clean vessel over a strip of so many pages.
fn vessel(alloc: Global, pages: u32) -> Result<Vessel, AllocError>
    requires { (0 < pages) × (pages ≤ 16384) }
    ensures { IfOk result (λ vessel. vessel ≡ empty pages) }
{
    let strip = Strip::blank(alloc, pages)?;
    match Vessel::new(alloc, strip) {
        Ok(vessel) => Ok(vessel),
        Err((strip, fault)) => {
            drop(strip);
            Err(fault)
        }
    }
}

// Whether so many pages are no fewer than the memory has, and no more than the strip has.
fn is_limit(vessel: &Vessel, most: u32) -> bool
    ensures { IsTrue result → (size_of vessel.now.memory ≤ most) × (most ≤ vessel.now.pages) }
{
    vessel.size() <= most && most <= vessel.pages()
}

fn grow(rt: &impl Abort, vessel: &mut Vessel, by: u32, most: u32) -> Option<u32> {
    assert!(rt; is_limit(vessel, most));
    vessel.grow(by, most)
}

// The pages in use, those of the strip, and the bytes in use.
fn sizes(vessel: &Vessel) -> (u32, u32, usize) {
    (vessel.size(), vessel.pages(), vessel.memory().len())
}

fn store(rt: &impl Abort, vessel: &mut Vessel, at: u64, width: u32, value: u64) -> bool {
    assert!(rt; matches!(width, 1 | 2 | 4 | 8));
    vessel.store(at, width, value)
}

fn load(rt: &impl Abort, vessel: &Vessel, at: u64, width: u32) -> Option<u64> {
    assert!(rt; matches!(width, 1 | 2 | 4 | 8));
    vessel.load(at, width)
}

fn copy_in(vessel: &mut Vessel, at: u64, bytes: &[u8]) -> bool {
    vessel.copy_in(at, bytes)
}

// Copies so many bytes out over eight nines, and answers what then stands there.
fn copy_out(rt: &impl Abort, vessel: &Vessel, at: u64, count: usize) -> (bool, [u8; 8]) {
    assert!(rt; count <= 8);
    let mut room = [9; 8];
    let (into, _) = room.split_at_mut(count);
    let within = vessel.copy_out(at, into);
    (within, room)
}

fn is_zero(bytes: &[u8]) -> bool {
    bytes.iter().all(|byte| *byte == 0)
}

fn meet_the_borders(rt: &impl Abort, vessel: &mut Vessel) {
    assert_eq!(rt; grow(rt, vessel, 1, 3), Some(0));
    assert!(rt; store(rt, vessel, 65_532, 4, 1));
    assert!(rt; !store(rt, vessel, 65_533, 4, LAST));
    assert_eq!(rt; load(rt, vessel, 65_532, 4), Some(1));
    assert_eq!(rt; load(rt, vessel, 65_536, 1), None);
    assert_eq!(rt; load(rt, vessel, LAST, 1), None);
    assert_eq!(rt; load(rt, vessel, LAST - 7, 8), None);
    assert!(rt; !store(rt, vessel, LAST - 3, 4, 0));
    assert!(rt; !copy_in(vessel, LAST, &[7]));
    assert!(rt; copy_in(vessel, 65_536, &[]));
    assert!(rt; !copy_in(vessel, 65_537, &[]));
    assert_eq!(rt; copy_out(rt, vessel, 65_536, 0), (true, [9; 8]));
    assert_eq!(rt; copy_out(rt, vessel, 65_537, 0), (false, [9; 8]));
    assert_eq!(rt; copy_out(rt, vessel, 65_535, 2), (false, [9; 8]));
}

#[test]
fn accesses_at_the_borders(rt: HostRuntime) -> Result<(), Fail> {
    let mut vessel = vessel(rt.alloc(), 3)?;
    meet_the_borders(&rt, &mut vessel);
    drop(vessel);
    Ok(())
}

fn use_each_width(rt: &impl Abort, vessel: &mut Vessel) {
    assert_eq!(rt; grow(rt, vessel, 1, 1), Some(0));
    assert!(rt; store(rt, vessel, 0, 8, 0xF807_0605_0403_02F1));
    assert_eq!(rt; load(rt, vessel, 0, 1), Some(0xF1));
    assert_eq!(rt; load(rt, vessel, 1, 2), Some(0x0302));
    assert_eq!(rt; load(rt, vessel, 2, 4), Some(0x0605_0403));
    assert_eq!(rt; load(rt, vessel, 0, 8), Some(0xF807_0605_0403_02F1));
    assert!(rt; store(rt, vessel, 65_528, 8, LAST));
    assert!(rt; !store(rt, vessel, 65_529, 8, 0));
    assert!(rt; store(rt, vessel, 65_534, 2, 0x1_0102));
    assert!(rt; !store(rt, vessel, 65_535, 2, 0));
    assert!(rt; store(rt, vessel, 65_535, 1, 0x1FE));
    assert!(rt; !store(rt, vessel, 65_536, 1, 0));
    assert_eq!(rt; load(rt, vessel, 65_528, 8), Some(0xFE02_FFFF_FFFF_FFFF));
    assert_eq!(rt;
        copy_out(rt, vessel, 65_533, 3),
        (true, [0xFF, 0x02, 0xFE, 9, 9, 9, 9, 9])
    );
}

#[test]
fn widths(rt: HostRuntime) -> Result<(), Fail> {
    let mut vessel = vessel(rt.alloc(), 1)?;
    use_each_width(&rt, &mut vessel);
    drop(vessel);
    Ok(())
}

fn grow_and_rinse(rt: &impl Abort, vessel: &mut Vessel) {
    assert_eq!(rt; grow(rt, vessel, 1, 3), Some(0));
    assert!(rt; copy_in(vessel, 65_530, b"stays"));
    assert_eq!(rt; grow(rt, vessel, 2, 3), Some(1));
    assert_eq!(rt; grow(rt, vessel, 1, 3), None);
    assert_eq!(rt; grow(rt, vessel, u32::MAX, 3), None);
    assert_eq!(rt; grow(rt, vessel, 0, 3), Some(3));
    assert_eq!(rt; sizes(vessel), (3, 3, 196_608));
    assert_eq!(rt; copy_out(rt, vessel, 65_530, 7), (true, *b"stays\0\0\x09"));
    assert!(rt; store(rt, vessel, 196_600, 8, LAST));
    vessel.rinse();
}

fn grow_again(rt: &impl Abort, vessel: &mut Vessel) {
    assert_eq!(rt; sizes(vessel), (0, 3, 0));
    assert_eq!(rt; vessel.strip().len(), 196_608);
    assert!(rt; is_zero(vessel.strip()));
    assert_eq!(rt; load(rt, vessel, 0, 1), None);
    assert_eq!(rt; grow(rt, vessel, 3, 3), Some(0));
    assert_eq!(rt; load(rt, vessel, 196_600, 8), Some(0));
}

#[test]
fn growth_and_rinsing(rt: HostRuntime) -> Result<(), Fail> {
    let mut vessel = vessel(rt.alloc(), 3)?;
    grow_and_rinse(&rt, &mut vessel);
    grow_again(&rt, &mut vessel);
    drop(vessel);
    Ok(())
}

// A store over the border of two blocks, one of a zero, and bytes that are copied in over a border.
fn mark_and_rinse(rt: &impl Abort, vessel: &mut Vessel) {
    assert_eq!(rt; grow(rt, vessel, 1, 1), Some(0));
    assert_eq!(rt; vessel.marked(), 0);
    assert!(rt; store(rt, vessel, 4_094, 4, 1));
    assert_eq!(rt; vessel.marked(), 2);
    assert!(rt; store(rt, vessel, 0, 1, 0));
    assert_eq!(rt; vessel.marked(), 2);
    assert!(rt; copy_in(vessel, 12_287, b"two"));
    assert_eq!(rt; vessel.marked(), 4);
    vessel.rinse();
    assert_eq!(rt; vessel.marked(), 0);
}

#[test]
fn marks(rt: HostRuntime) -> Result<(), Fail> {
    let mut vessel = vessel(rt.alloc(), 1)?;
    mark_and_rinse(&rt, &mut vessel);
    drop(vessel);
    Ok(())
}

fn set_globals(rt: &impl Abort, vessel: &mut Vessel)
    requires { length vessel.old.globals ≡ 0 }
{
    vessel.add_global(5);
    vessel.add_global(LAST);
    vessel.set_global(0, 6);
    assert_eq!(rt; (vessel.global(0), vessel.global(1)), (6, LAST));
}

fn set_elements(vessel: &mut Vessel)
    requires { length vessel.old.table ≡ 0 }
{
    vessel.add_elements(3);
    vessel.set_elements(1, &[20, 21]);
    vessel.set_element(1, 22);
}

fn pass_entries(rt: &impl Abort, vessel: &mut Vessel) {
    vessel.set_entries(Some(4), Some(7));
    assert_eq!(rt; vessel.next_entry(), Some(4));
    vessel.pass_entry();
    assert_eq!(rt; vessel.next_entry(), Some(7));
    vessel.pass_entry();
    assert_eq!(rt; vessel.next_entry(), None);
}

#[test]
fn globals_and_entries(rt: HostRuntime) -> Result<(), Fail> {
    let mut vessel = vessel(rt.alloc(), 1)?;
    set_globals(&rt, &mut vessel);
    pass_entries(&rt, &mut vessel);
    drop(vessel);
    Ok(())
}

#[test]
fn elements(rt: HostRuntime) -> Result<(), Fail> {
    let mut vessel = vessel(rt.alloc(), 1)?;
    set_elements(&mut vessel);
    assert_eq!(rt; vessel.element(0), Some(None));
    assert_eq!(rt; vessel.element(1), Some(Some(22)));
    assert_eq!(rt; vessel.element(2), Some(Some(21)));
    assert_eq!(rt; vessel.element(3), None);
    drop(vessel);
    Ok(())
}

const LABEL: Label = Label {
    target: 6,
    height: 4,
    result: true,
};

// The body that runs and the place in it, the cells that are counted, and how many calls are live.
fn running(vessel: &Vessel) -> (u32, u32, u32, u32) {
    (
        vessel.function(),
        vessel.place(),
        vessel.used(),
        vessel.depth(),
    )
}

fn begin_call(rt: &impl Abort, vessel: &mut Vessel) {
    assert!(rt; vessel.height() == 0);
    assert!(rt; vessel.depth() == 0);
    vessel.stand_at(9, 30);
    vessel.push(1);
    vessel.push(2);
    vessel.enter(3, 1, 10);
    assert_eq!(rt; running(vessel), (3, 0, 10, 1));
}

fn lay_locals(rt: &impl Abort, vessel: &mut Vessel) {
    assert!(rt; vessel.height() == 2);
    vessel.push_zeros(2);
    vessel.set_cell(1, 8);
}

fn open_block(rt: &impl Abort, vessel: &mut Vessel) {
    assert!(rt; vessel.open_blocks() == 0);
    vessel.go_to(5);
    vessel.open_block(LABEL);
    let label = vessel.label(0);
    assert_eq!(rt; (label.target, label.height, label.result), (6, 4, true));
}

fn lay_result(rt: &impl Abort, vessel: &mut Vessel) {
    assert!(rt; vessel.height() == 4);
    vessel.push(7);
    assert_eq!(rt; (vessel.height(), vessel.open_blocks()), (5, 1));
    assert_eq!(rt; (vessel.cell(1), vessel.operand(1)), (8, 0));
}

fn leave(rt: &impl Abort, vessel: &mut Vessel) -> Frame {
    assert!(rt; vessel.depth() == 1);
    let frame = vessel.frame();
    assert!(rt; frame.base < vessel.height());
    assert!(rt; frame.opened <= vessel.open_blocks());
    vessel.leave(true)
}

fn end_call(rt: &impl Abort, vessel: &mut Vessel) {
    let frame = leave(rt, vessel);
    // What the call goes back to.
    assert_eq!(rt; (frame.function, frame.place), (9, 30));
    assert_eq!(rt; (frame.base, frame.opened, frame.below), (1, 0, 0));
    assert_eq!(rt; running(vessel), (9, 30, 0, 0));
    assert_eq!(rt; (vessel.height(), vessel.open_blocks()), (2, 0));
}

fn pop(rt: &impl Abort, vessel: &mut Vessel) -> u64 {
    assert!(rt; vessel.height() > 0);
    vessel.pop()
}

#[test]
fn calls_and_blocks(rt: HostRuntime) -> Result<(), Fail> {
    let mut vessel = vessel(rt.alloc(), 1)?;
    begin_call(&rt, &mut vessel);
    lay_locals(&rt, &mut vessel);
    open_block(&rt, &mut vessel);
    lay_result(&rt, &mut vessel);
    end_call(&rt, &mut vessel);
    assert_eq!(rt; pop(&rt, &mut vessel), 7);
    assert_eq!(rt; pop(&rt, &mut vessel), 1);
    drop(vessel);
    Ok(())
}
