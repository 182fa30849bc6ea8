//! Carries out commands over files and outputs in memory, and prints what they leave.
//!
//! Standard input has blocks, each ended by an empty line. A line `file NAME BYTES` lays a file, which all commands of its block find. Bytes are parts joined by `+`, each in hexadecimal or `COUNT*HEXADECIMAL`, and `-` is none.
//! A line `run GATE READ OUT NOTES WORD..` is a command. `READ` is the number of the call of the library that fails, from 0, and `OUT` and `NOTES` are `CALL:PASSES`, the number of the call of that output that fails and how many bytes it lets pass; `-` is none. The gate is `open`, `held` or `noted`. A line `memory OUT NOTES` is a command for which there was no memory.
//! Of each command a line is printed: its exit status, the counts of faults of the library, the output and the notes, how many bytes the output took and a number that tells them apart, the bytes themselves where they are few, and what the notes took.
//! Behind a command with the gate `held` stand how often this was passed and what it saw, and behind one with the gate `noted` the places of the passes.
//! `tests/command_table.py` makes the blocks, and computes from the formats alone what must be printed of them. The program stands on `commands`, and on `outside` and `holding_gate` for what commands are handed.
#![tactic(auto)]

mod cases;
mod outsides;
mod printing;

use cases::{Case, GateKind};
use commands::{out_of_memory, run};
use holding_gate::{HoldingGate, NotingGate};
use outside::{Gate, OpenGate};
use outsides::{Outside, page_of};
use printing::{print_left, print_places};
use std::io;
use std::thread::Threads;

/// How many passes a gate that notes them has room for.
const MOST_NOTES: u32 = 1_024;

/// Carries out a command, and prints what it leaves.
fn print_run<R: Threads + Sync + Print + AllocGlobal, G: Gate>(
    rt: &R,
    outside: Outside,
    gate: &G,
) -> io::Result<()> {
    let mut outside = outside;
    let status = run(
        rt,
        rt.alloc(),
        outside.words.as_slice(),
        &mut outside.lib,
        &mut outside.out,
        &mut outside.notes,
        gate,
    );
    let printed = print_left(rt, status, &outside.lib, &outside.out, &outside.notes);
    drop(outside);
    printed
}

/// Carries out a command whose turns pass a gate that holds workers, and prints what this saw too.
fn print_held<R: Threads + Sync + Print + AllocGlobal>(rt: &R, outside: Outside) -> io::Result<()> {
    let gate = HoldingGate::new();
    let printed = print_run(rt, outside, &gate);
    let (passes, seen) = (gate.passes(), gate.seen());
    drop(gate);
    printed?;
    let text = seen.text();
    println!(rt; "passes {passes}, {text}")
}

/// Carries out a command whose turns pass a gate that notes each pass, and prints these too.
fn print_noted<R: Threads + Sync + Print + AllocGlobal>(
    rt: &R,
    outside: Outside,
) -> io::Result<()> {
    let gate = match NotingGate::new(rt.alloc(), MOST_NOTES) {
        Ok(gate) => gate,
        Err(fault) => {
            drop(outside);
            return Err(fault.into());
        }
    };
    let printed = print_run(rt, outside, &gate).and_then(|()| print_places(rt, &gate, MOST_NOTES));
    drop(gate);
    printed
}

/// Refuses a command for want of memory, and prints what that leaves.
fn print_refused(rt: &(impl Print + AllocGlobal), out: &str, notes: &str) -> io::Result<()> {
    let Some(mut notes) = page_of(rt.alloc(), notes) else {
        return println!(rt; "no case");
    };
    let Some(mut out) = page_of(rt.alloc(), out) else {
        drop(notes);
        return println!(rt; "no case");
    };
    let status = out_of_memory(&mut out, &mut notes);
    let printed = printing::print_pages(rt, status, 0, &out, &notes);
    drop(out);
    drop(notes);
    printed
}

/// Does what a line asks for, over the files of its block.
fn print_line<R: Threads + Sync + Print + AllocGlobal>(
    rt: &R,
    block: &str,
    line: &str,
) -> io::Result<()> {
    match Case::parse(line) {
        Some(Case::File) => Ok(()),
        Some(Case::Refused { out, notes }) => print_refused(rt, out, notes),
        Some(Case::Run(asked)) => {
            let Some(outside) = Outside::new(rt.alloc(), block, &asked) else {
                return println!(rt; "no case");
            };
            match asked.gate {
                GateKind::Open => print_run(rt, outside, &OpenGate),
                GateKind::Held => print_held(rt, outside),
                GateKind::Noted => print_noted(rt, outside),
            }
        }
        None => println!(rt; "no case"),
    }
}

/// Does what the lines of a block ask for.
fn print_block<R: Threads + Sync + Print + AllocGlobal>(rt: &R, block: &str) -> io::Result<()> {
    for line in block.lines() {
        print_line(rt, block, line)?;
    }
    Ok(())
}

/// Does so for each block of a text.
fn print_all<R: Threads + Sync + Print + AllocGlobal>(rt: &R, text: &str) -> io::Result<()> {
    let mut rest = text;
    for _ in 0..u64::MAX {
        let Some((block, behind)) = rest.split_once("\n\n") else {
            return Ok(());
        };
        print_block(rt, block)?;
        rest = behind;
    }
    Ok(())
}

fn main(rt: HostRuntime) -> io::Result<()> {
    let text = io::read_to_string(rt.alloc(), rt.reader())?;
    print_all(&rt, text.as_str())
}
