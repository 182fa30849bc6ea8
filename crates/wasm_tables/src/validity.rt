//! Whether modules are valid: the operand height and the block depth of each body, or the number, the body and the item of the first rule that is broken. A line of the file is a module in hexadecimal.

use std::alloc::Global;
use std::io;
use wasm_reader::read_module;
use wasm_validate::{Broken, Valid, ValidFault, validate};

/// The most bodies that a module can have.
const MOST_BODIES: u32 = 10_000;

/// Prints the operand height and the block depth of each body.
fn print_valid(rt: &impl Print, valid: &Valid) -> io::Result<()> {
    print!(rt; "valid")?;
    let count = valid.module().bodies.as_slice().len();
    for number in 0..MOST_BODIES {
        if count <= number as usize {
            break;
        }
        let height = valid.height(number);
        let nest = valid.nest(number);
        print!(rt; " {height}/{nest}")?;
    }
    println!(rt; "")
}

/// Prints what is broken first.
fn print_broken(rt: &impl Print, broken: Broken) -> io::Result<()> {
    let number = broken.number;
    let item = broken.item;
    match broken.function {
        Some(function) => println!(rt; "broken {number} {function} {item}"),
        None => println!(rt; "broken {number} - {item}"),
    }
}

/// Prints what is made of a line.
fn print_line(rt: &impl Print, alloc: Global, line: &str) -> io::Result<()> {
    let Ok(bytes) = hex::decode(alloc, line) else {
        return println!(rt; "no hexadecimal digits");
    };
    let Ok(module) = read_module(alloc, &bytes) else {
        return println!(rt; "no module");
    };
    match validate(alloc, module) {
        Ok(valid) => print_valid(rt, &valid),
        Err(ValidFault::Rule(broken)) => print_broken(rt, broken),
        Err(ValidFault::NoMemory) => println!(rt; "no memory"),
    }
}

/// Prints what is made of each line.
pub fn print_all(rt: &(impl Print + AllocGlobal), cases: &str) -> io::Result<()> {
    for line in cases.lines() {
        print_line(rt, rt.alloc(), line)?;
    }
    Ok(())
}
