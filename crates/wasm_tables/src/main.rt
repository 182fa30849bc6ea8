//! Prints what the layers of WebAssembly answer to the cases of tables, from single operators to batches of requests.
//!
//! With no words it prints all tables, each below its headline `== NAME ==`, and reads the cases of each from the file of its name in the folder where it runs. With the words `NAME FILE` it prints that table alone, over the cases of this file; where the second is left out, of the file of its name. The table `integer` has no file.
//! `tests/NAME_table.py` makes the cases of a table, and computes apart from this code what must be printed of them: `stdout` has it. The program stands on `workers` and what is below it, and on `holding_gate`.
#![tactic(auto)]

mod answers;
mod batches;
mod bodies;
mod integers;
mod modules;
mod programs;
mod turns;
mod validity;

use std::rt::Files;
use std::thread::Threads;
use std::{env, fs, io};

/// What a table is about.
#[derive(Clone, Copy)]
enum Table {
    /// Integer operators at boundary operands.
    Integer,

    /// The reader of bodies.
    Body,

    /// The reader of modules.
    Module,

    /// Validation.
    Validity,

    /// Requests in turns, and the states in which programs begin.
    Turns,

    /// Batches of requests, run by several workers.
    Batch,
}

/// The tables in the order in which they are printed.
const TABLES: [Table; 6] = [
    Table::Integer,
    Table::Body,
    Table::Module,
    Table::Validity,
    Table::Turns,
    Table::Batch,
];

impl Table {
    /// The word that asks for the table, and the name of its file.
    fn name(self) -> &'static str {
        match self {
            Table::Integer => "integer",
            Table::Body => "body",
            Table::Module => "module",
            Table::Validity => "validity",
            Table::Turns => "turns",
            Table::Batch => "batch",
        }
    }

    /// The table for which a word asks.
    fn named(word: &str) -> Option<Table> {
        for table in TABLES {
            if table.name() == word {
                return Some(table);
            }
        }
        None
    }
}

/// The text of a table's file; that of integer operators has none.
fn cases_of(rt: &(impl Files + AllocGlobal), table: Table, file: &str) -> io::Result<String> {
    match table {
        Table::Integer => Ok(String::new(rt.alloc())),
        _ => fs::read_to_string(rt, file),
    }
}

/// Prints a table over the cases of a file.
fn print_table<R: Files + Print + AllocGlobal + Threads + Sync>(
    rt: &R,
    table: Table,
    file: &str,
) -> io::Result<()> {
    let cases = cases_of(rt, table, file)?;
    match table {
        Table::Integer => integers::print_all(rt),
        Table::Body => bodies::print_all(rt, &cases),
        Table::Module => modules::print_all(rt, &cases),
        Table::Validity => validity::print_all(rt, &cases),
        Table::Turns => turns::print_all(rt, &cases),
        Table::Batch => batches::print_all(rt, &cases),
    }
}

/// Prints each table below its headline.
fn print_all<R: Files + Print + AllocGlobal + Threads + Sync>(rt: &R) -> io::Result<()> {
    for table in TABLES {
        let name = table.name();
        println!(rt; "== {name} ==")?;
        print_table(rt, table, name)?;
    }
    Ok(())
}

/// The words after the program's own name.
fn words_of(rt: &HostRuntime) -> io::Result<Vec<String>> {
    let mut words = Vec::new(rt.alloc());
    for word in env::args(rt)?.skip(1) {
        words.push(word)?;
    }
    Ok(words)
}

fn main(rt: HostRuntime) -> io::Result<()> {
    let words = words_of(&rt)?;
    let Some(name) = words.first() else {
        return print_all(&rt);
    };
    match Table::named(name) {
        Some(table) => print_table(&rt, table, words.get(1).unwrap_or(name)),
        None => println!(rt; "no table: {name}"),
    }
}
