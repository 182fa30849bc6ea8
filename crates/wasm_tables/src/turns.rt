//! What becomes of requests that run in turns, and in which states programs begin.
//!
//! A line of the file is `turns MODULE BODY BUDGET QUANTUM`, which asks for the answer to a request in turns of this quantum; `fresh MODULE PAGES`, which asks for the state in which the module begins with so many pages; or `repeat MODULE PAGES COUNT`, which answers so many requests without a body on one vessel of so many pages. Modules and bodies stand in hexadecimal, `-` for no bytes.
//! The requests of `turns` run on one vessel of 256 pages, so each begins on what the one before it left behind.
//! `tests/turns_table.py` makes the cases with `tests/lib/fresh_states.py`.

mod cases;
mod fresh_states;
mod requests;

use cases::Case;
use fresh_states::print_fresh;
use memory_pool::Berth;
use requests::{print_repeated, print_turns};
use std::io;

/// Prints the line of a case.
fn print_case(
    rt: &(impl Print + AllocGlobal),
    line: &str,
    berth: &mut Option<Berth>,
) -> io::Result<()> {
    match Case::parse(line) {
        Some(Case::Turns(asked)) => print_turns(rt, asked, berth),
        Some(Case::Fresh { module, pages }) => print_fresh(rt, module, pages),
        Some(
            Case::Repeat {
                module,
                pages,
                count,
            },
        ) => print_repeated(rt, module, pages, count),
        None => println!(rt; "no case: {line}"),
    }
}

/// Prints the lines of all cases, over the vessel at hand.
fn print_cases(
    rt: &(impl Print + AllocGlobal),
    cases: &str,
    berth: &mut Option<Berth>,
) -> io::Result<()> {
    for line in cases.lines() {
        print_case(rt, line, berth)?;
    }
    Ok(())
}

/// Prints the line of each case.
pub fn print_all(rt: &(impl Print + AllocGlobal), cases: &str) -> io::Result<()> {
    let mut berth = None;
    let printed = print_cases(rt, cases, &mut berth);
    drop(berth);
    printed
}
