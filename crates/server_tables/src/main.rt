//! Prints what the layers of the server answer to the cases of tables: streams, recordings, configurations, the objects that connect, and sessions.
//!
//! With no words it prints all tables, each below its headline `== NAME ==`, and reads the cases of each from the file of its name in the folder where it runs. With the words `NAME FILE` it prints that table alone, over the cases of this file; where the second is left out, of the file of its name.
//! `tests/NAME_table.py` makes the cases of a table, and computes apart from this code what must be printed of them; those of `links`, and what must be printed of them, were written by hand. `stdout` has it. The program stands on `http_front`, `recording_format`, `serve_config`, `outside_links` and `link_sessions`.
#![tactic(auto)]

mod calls;
mod configs;
mod recordings;
mod sessions;
mod spelling;
mod streams;

use std::net::{Net, TcpListener, TcpStream};
use std::rt::Runtime;
use std::sync::Wait;
use std::thread::Threads;
use std::{env, fs, io};

/// What a table is about.
#[derive(Clone, Copy)]
enum Table {
    /// Items of streams, and texts of replies.
    Http,

    /// The reader of recordings.
    Recording,

    /// The reader of configurations, and routes.
    Config,

    /// Links, ports, doors, spawners and clocks.
    Links,

    /// Sessions over links.
    Sessions,
}

/// The tables in the order in which they are printed.
const TABLES: [Table; 5] = [
    Table::Http,
    Table::Recording,
    Table::Config,
    Table::Links,
    Table::Sessions,
];

impl Table {
    /// The word that asks for the table, and the name of its file.
    fn name(self) -> &'static str {
        match self {
            Table::Http => "http",
            Table::Recording => "recording",
            Table::Config => "config",
            Table::Links => "links",
            Table::Sessions => "sessions",
        }
    }

    /// The table for which a word asks.
    fn named(word: &str) -> Option<Table> {
        for table in TABLES {
            if table.name() == word {
                return Some(table);
            }
        }
        None
    }
}

/// Prints a table over the cases of a file.
fn print_table<R>(rt: &R, table: Table, file: &str) -> io::Result<()>
where
    R: Runtime + AllocGlobal + Threads + Wait + Copy + Send + Sync + 'static,
    R: Net<Listener = TcpListener, Stream = TcpStream>,
{
    let cases = fs::read_to_string(rt, file)?;
    match table {
        Table::Http => streams::print_all(rt, &cases),
        Table::Recording => recordings::print_all(rt, &cases),
        Table::Config => configs::print_all(rt, &cases),
        Table::Links => calls::print_all(rt, &cases),
        Table::Sessions => sessions::print_all(rt, &cases),
    }
}

/// Prints each table below its headline.
fn print_all<R>(rt: &R) -> io::Result<()>
where
    R: Runtime + AllocGlobal + Threads + Wait + Copy + Send + Sync + 'static,
    R: Net<Listener = TcpListener, Stream = TcpStream>,
{
    for table in TABLES {
        let name = table.name();
        println!(rt; "== {name} ==")?;
        print_table(rt, table, name)?;
    }
    Ok(())
}

/// The words after the program's own name.
fn words_of(rt: &HostRuntime) -> io::Result<Vec<String>> {
    let mut words = Vec::new(rt.alloc());
    for word in env::args(rt)?.skip(1) {
        words.push(word)?;
    }
    Ok(words)
}

fn main(rt: HostRuntime) -> io::Result<()> {
    let words = words_of(&rt)?;
    let Some(name) = words.first() else {
        return print_all(&rt);
    };
    match Table::named(name) {
        Some(table) => print_table(&rt, table, words.get(1).unwrap_or(name)),
        None => println!(rt; "no table: {name}"),
    }
}
