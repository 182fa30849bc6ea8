//! The states in which programs begin.
ghost use Rattle.std.specs.Prelude.{◌≤◌, length, IfSome};
ghost use Rattle.wasm_store.specs.View.{IsClean};

use crate::programs::{berth_of, program_of};
use std::alloc::Global;
use std::io;
use wasm_instance::{Program, fresh};
use wasm_store::Vessel;

/// The greatest table.
const MOST_ELEMENTS: u32 = 10_000;

/// Prints the numbers of a vessel: the pages of its strip and of its memory, where the code rests, and how much lies on its stacks.
fn print_numbers(rt: &impl Print, vessel: &Vessel) -> io::Result<()> {
    let (pages, size) = (vessel.pages(), vessel.size());
    print!(rt; "pages {pages} size {size}")?;
    let (function, place) = (vessel.function(), vessel.place());
    print!(rt; " body {function} place {place}")?;
    let (cells, labels) = (vessel.height(), vessel.open_blocks());
    let (frames, used) = (vessel.depth(), vessel.used());
    print!(rt; " cells {cells} labels {labels} frames {frames} used {used}")
}

/// Prints the table, with `-` for an element that is not set.
fn print_table(rt: &impl Print, vessel: &Vessel) -> io::Result<()> {
    print!(rt; " table")?;
    for index in 0..MOST_ELEMENTS {
        match vessel.element(index) {
            Some(Some(function)) => print!(rt; " {function}")?,
            Some(None) => print!(rt; " -")?,
            None => return Ok(()),
        }
    }
    Ok(())
}

/// Prints each byte of the strip that is not zero, with its address.
fn print_bytes(rt: &impl Print, strip: &[u8]) -> io::Result<()> {
    print!(rt; " bytes")?;
    for (at, byte) in strip.iter().enumerate() {
        if *byte != 0 {
            print!(rt; " {at}={byte}")?;
        }
    }
    Ok(())
}

/// Prints the bodies that are still to be entered, and passes over them.
fn print_entries(rt: &impl Print, vessel: &mut Vessel) -> io::Result<()> {
    print!(rt; " entries")?;
    for _ in 0..3 {
        if let Some(body) = vessel.next_entry() {
            print!(rt; " {body}")?;
            vessel.pass_entry();
        }
    }
    Ok(())
}

/// Prints the first globals.
fn print_globals(rt: &impl Print, vessel: &Vessel, count: u32) -> io::Result<()>
    requires there { count ≤ length vessel.now.globals }
{
    print!(rt; " globals")?;
    for index in 0..count {
        let value = vessel.global(index);
        print!(rt; " {value}")?;
    }
    Ok(())
}

/// Lays down the state in which a program begins, and answers how many globals it has.
fn begin(program: &Program, vessel: &mut Vessel) -> u32
    requires clean { IsClean vessel.old }
    requires room { program.now.pages ≤ vessel.old.pages }
    ensures { result ≤ length vessel.new.globals }
{
    fresh(program, vessel);
    program.module().globals.as_slice().len() as u32
}

/// Prints the state of a vessel with so many globals.
fn print_state(rt: &impl Print, vessel: &mut Vessel, globals: u32) -> io::Result<()>
    requires there { globals ≤ length vessel.old.globals }
{
    print_numbers(rt, vessel)?;
    print_globals(rt, vessel, globals)?;
    print_table(rt, vessel)?;
    print_bytes(rt, vessel.strip())?;
    print_entries(rt, vessel)?;
    println!(rt; "")
}

/// The vessel of a module that is given so many pages, in the state in which it begins, and how many globals it has.
fn begun(alloc: Global, module: &str, pages: u32) -> Option<(Vessel, u32)>
    ensures there { IfSome result (λ state. state.1 ≤ length state.0.globals) }
{
    let program = program_of(alloc, module, pages)?;
    let Some(berth) = berth_of(alloc, pages) else {
        drop(program);
        return None;
    };
    let mut vessel = berth.into_vessel();
    if vessel.pages() < program.pages() {
        drop(program);
        drop(vessel);
        return None;
    }
    let globals = begin(&program, &mut vessel);
    drop(program);
    Some((vessel, globals))
}

/// Prints the state in which a module begins that is given so many pages.
pub fn print_fresh(rt: &(impl Print + AllocGlobal), module: &str, pages: u32) -> io::Result<()> {
    match begun(rt.alloc(), module, pages) {
        Some((vessel, globals)) => {
            let mut vessel = vessel;
            let printed = print_state(rt, &mut vessel, globals);
            drop(vessel);
            printed
        }
        None => println!(rt; "no program"),
    }
}
