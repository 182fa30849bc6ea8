//! Calls on links, ports, doors, spawners and clocks in memory, a row a line, and then on connections
//! of the system, and what each call answers.
//!
//! A row is words: the object, what it is made of, and the calls. Lists are joined by commas, and
//! `-` is an empty one.
//!
//! - `link PIECES ROOM FAILING_READS CUTS`, with calls `rN`, a read with room for N bytes, and
//!   `wTEXT`, a write. A cut is `CALL:PASSES`.
//! - `port LINKS FAILING`, with calls `a`, accept; `w`, write a byte to the link that has been out
//!   longest; `c`, close it; `t`, make a twin and accept on it.
//! - `door PORTS FAILING`, where a port is its number of links or `!` for one whose first `accept`
//!   fails, with calls N, listen at N; `a`, accept on the port that has been out longest; `g`, give
//!   it back.
//! - `spawn COUNT FAILING`, which starts so many threads.
//! - `clock MOMENT`, with calls `n`.
//!
//! Behind a `/` stand the flags and counts of the object after the call. What must be printed was
//! worked out from the sentences that the documents of the traits have, and the rows of connections
//! from what the system's documentation says.

mod connections;
mod doors;
mod links;
mod ports;
mod spawners;
pub(crate) mod words;

use outside_links::{Clock as _, FixedClock};
use std::alloc::Global;
use std::io;
use std::net::{Net, TcpListener, TcpStream};
use std::thread::Threads;
use std::time::Clock;
use words::{NoRow, number_in};

/// Makes the calls of a row on a clock.
fn clock_row(rt: &impl Print, row: &[&str]) -> Result<(), NoRow> {
    let [moment, calls @ ..] = row else {
        return Err(NoRow);
    };
    let clock = FixedClock {
        moment: number_in(moment)?,
    };
    for _ in calls {
        let moment = clock.now();
        let _ = print!(rt; " {moment}");
    }
    Ok(())
}

/// Makes the calls of a row, and prints what each answers.
fn print_row<R: Print + Threads>(rt: &R, alloc: Global, line: &str) -> Result<(), NoRow> {
    let mut words = Vec::new(alloc);
    for word in line.split(' ') {
        words.push(word)?;
    }
    let [object, row @ ..] = words.as_slice() else {
        return Err(NoRow);
    };
    match *object {
        "link" => links::link_row(rt, alloc, row),
        "port" => ports::port_row(rt, alloc, row),
        "door" => doors::door_row(rt, alloc, row),
        "spawn" => spawners::spawn_row(rt, alloc, row),
        "clock" => clock_row(rt, row),
        _ => Err(NoRow),
    }
}

/// Makes the calls of each row, and then those on connections and on the system's clock.
pub fn print_all<R>(rt: &R, cases: &str) -> io::Result<()>
where
    R: Print + AllocGlobal + Threads + Clock + Copy + Send + Sync + 'static,
    R: Net<Listener = TcpListener, Stream = TcpStream>,
{
    for line in cases.lines() {
        if print_row(rt, rt.alloc(), line).is_err() {
            print!(rt; " no row")?;
        }
        println!(rt; "")?;
    }
    connections::say_all(rt, rt.alloc());
    connections::say_clock(rt);
    Ok(())
}
