//! What the reader of bodies makes of each: the locals, operators and targets, or the refusal. A line of the file is a body in hexadecimal.

use std::alloc::Global;
use std::io;
use wasm_code::read_body;
use wasm_ops::Body;

/// The most bytes of a line's body.
const MOST_BYTES: usize = 10_000;

/// The most items that are printed one by one.
const MOST_SHOWN: usize = 100;

/// Prints a body, or how many items it has and its first operator where these are many.
fn print_body(rt: &impl Print, body: &Body) -> io::Result<()> {
    let locals = body.locals.as_slice();
    let ops = body.ops.as_slice();
    let targets = body.targets.as_slice();
    if MOST_SHOWN < locals.len() || MOST_SHOWN < ops.len() || MOST_SHOWN < targets.len() {
        let counts = [locals.len(), ops.len(), targets.len()];
        let first = ops.first();
        return println!(rt; "{counts:?} {first:?}");
    }
    println!(rt; "{locals:?} {ops:?} {targets:?}")
}

/// Prints what is made of a line.
fn print_line(rt: &impl Print, alloc: Global, line: &str) -> io::Result<()> {
    let Ok(bytes) = hex::decode(alloc, line) else {
        return println!(rt; "no hexadecimal digits");
    };
    if MOST_BYTES < bytes.len() {
        return println!(rt; "too many bytes");
    }
    match read_body(alloc, &bytes) {
        Ok(body) => print_body(rt, &body),
        Err(fault) => println!(rt; "{fault}"),
    }
}

/// Prints what is made of each line.
pub fn print_all(rt: &(impl Print + AllocGlobal), cases: &str) -> io::Result<()> {
    for line in cases.lines() {
        print_line(rt, rt.alloc(), line)?;
    }
    Ok(())
}
