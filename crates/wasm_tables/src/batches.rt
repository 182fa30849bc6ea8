//! Batches of requests that several workers run, and the answer to each request.
//!
//! The file has batches, each ended by an empty line. Words are separated by blanks; a module and a body stand in hexadecimal, `-` for no bytes.
//! The first line of a batch is `GATE WORKERS QUANTUM POLICY BERTHS PAGES`. The gate is `open`, `held` or `noted`, the policy `rr` or `edf`; the pages are those of each berth, and each module is given as many. Each line behind it is a request, `MODULE BODY BUDGET DEADLINE`.
//! A batch is printed as `answers` with their number, and behind it the answers in the order of the requests, a line each: the verdict, the units and the turns. A line that is no request, or of a module that is refused, is left out. A batch whose first line has no settings within the limits is printed as `no batch`.
//! Behind the answers of a batch with the gate `held` stand how often this was passed, and whether one worker took over what another had begun while it held that other. Behind those of one with the gate `noted` stand the places of the first 1,024 passes, in their order.

mod gathering;
mod lines;

use crate::answers::print_answers;
use gathering::Batch;
use holding_gate::{HoldingGate, NotingGate};
use lines::{GateKind, Head};
use std::io;
use std::thread::Threads;
use workers::{Gate, OpenGate};

/// How many passes a gate that notes them has room for.
const MOST_NOTES: u32 = 1_024;

/// Runs a batch, and prints its answers.
fn print_run<R: Threads + Sync + Print + AllocGlobal, G: Gate>(
    rt: &R,
    batch: Batch,
    gate: &G,
) -> io::Result<()> {
    let answers = batch.run(rt, rt.alloc(), gate)?;
    let printed = print_answers(rt, answers.as_slice());
    drop(answers);
    printed
}

/// Runs a batch with a gate that holds, and prints its answers and what the gate saw.
fn print_held<R: Threads + Sync + Print + AllocGlobal>(rt: &R, batch: Batch) -> io::Result<()> {
    let gate = HoldingGate::new();
    let printed = print_run(rt, batch, &gate);
    let (passes, seen) = (gate.passes(), gate.seen());
    drop(gate);
    printed?;
    let text = seen.text();
    println!(rt; "passes {passes}, {text}")
}

/// Prints the places of the passes that a gate has noted.
fn print_places(rt: &(impl Print + AllocGlobal), gate: &NotingGate) -> io::Result<()> {
    print!(rt; "places")?;
    for number in 0..u64::from(MOST_NOTES) {
        if let Some(pass) = gate.passed(number) {
            let place = pass.place;
            print!(rt; " {place}")?;
        }
    }
    println!(rt)
}

/// Runs a batch with a gate that notes each pass, and prints its answers and the places of the passes.
fn print_noted<R: Threads + Sync + Print + AllocGlobal>(rt: &R, batch: Batch) -> io::Result<()> {
    let gate = match NotingGate::new(rt.alloc(), MOST_NOTES) {
        Ok(gate) => gate,
        Err(fault) => {
            drop(batch);
            return Err(fault.into());
        }
    };
    let printed = match print_run(rt, batch, &gate) {
        Ok(()) => print_places(rt, &gate),
        Err(fault) => Err(fault),
    };
    drop(gate);
    printed
}

/// Runs the batch of these lines, and prints what comes of it.
fn print_batch<R: Threads + Sync + Print + AllocGlobal>(rt: &R, lines: &str) -> io::Result<()> {
    let (first, requests) = lines.split_once('\n').unwrap_or((lines, ""));
    let Some(Head { gate, settings }) = Head::parse(first) else {
        return println!(rt; "no batch");
    };
    let Some(batch) = Batch::gather(rt.alloc(), settings, requests) else {
        return println!(rt; "no batch");
    };
    match gate {
        GateKind::Open => print_run(rt, batch, &OpenGate),
        GateKind::Held => print_held(rt, batch),
        GateKind::Noted => print_noted(rt, batch),
    }
}

/// Runs each batch of a text, and prints what comes of it.
pub fn print_all<R: Threads + Sync + Print + AllocGlobal>(rt: &R, text: &str) -> io::Result<()> {
    let mut rest = text;
    for _ in 0..u64::MAX {
        let Some((lines, behind)) = rest.split_once("\n\n") else {
            return Ok(());
        };
        print_batch(rt, lines)?;
        rest = behind;
    }
    Ok(())
}
