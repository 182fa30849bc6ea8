//! What the reader of modules makes of each: the parts that are not empty, or the refusal. A line of the file is a module in hexadecimal.

use std::alloc::Global;
use std::fmt::Debug;
use std::io;
use wasm_ops::{Body, Module};
use wasm_reader::read_module;

/// The most operators of a body that are printed one by one.
const MOST_SHOWN: usize = 3;

/// Prints the items of a part, if it has any.
fn print_part<T: Debug>(rt: &impl Print, name: &str, items: &[T]) -> io::Result<()> {
    if items.is_empty() {
        return Ok(());
    }
    print!(rt; "{name}: {items:?}; ")
}

/// Prints the locals, operators and targets of each body; of a long one how many operators it has.
fn print_bodies(rt: &impl Print, bodies: &[Body]) -> io::Result<()> {
    for body in bodies {
        let locals = body.locals.as_slice();
        let ops = body.ops.as_slice();
        let targets = body.targets.as_slice();
        if MOST_SHOWN < ops.len() {
            let count = ops.len();
            print!(rt; "body: {count} operators; ")?;
        } else {
            print!(rt; "body: {locals:?} {ops:?} {targets:?}; ")?;
        }
    }
    Ok(())
}

/// Prints a module, part by part.
fn print_module(rt: &impl Print, module: &Module) -> io::Result<()> {
    print_part(rt, "types", module.types.as_slice())?;
    print_part(rt, "imports", module.imports.as_slice())?;
    print_part(rt, "functions", module.functions.as_slice())?;
    print_part(rt, "tables", module.tables.as_slice())?;
    print_part(rt, "memories", module.memories.as_slice())?;
    print_part(rt, "globals", module.globals.as_slice())?;
    print_part(rt, "exports", module.exports.as_slice())?;
    if let Some(start) = module.start {
        print!(rt; "start: {start}; ")?;
    }
    print_part(rt, "elements", module.elements.as_slice())?;
    print_bodies(rt, module.bodies.as_slice())?;
    print_part(rt, "segments", module.segments.as_slice())?;
    println!(rt; "end")
}

/// Prints what is made of a line.
fn print_line(rt: &impl Print, alloc: Global, line: &str) -> io::Result<()> {
    let Ok(bytes) = hex::decode(alloc, line) else {
        return println!(rt; "no hexadecimal digits");
    };
    match read_module(alloc, &bytes) {
        Ok(module) => print_module(rt, &module),
        Err(fault) => println!(rt; "{fault}"),
    }
}

/// Prints what is made of each line.
pub fn print_all(rt: &(impl Print + AllocGlobal), cases: &str) -> io::Result<()> {
    for line in cases.lines() {
        print_line(rt, rt.alloc(), line)?;
    }
    Ok(())
}
