//! What a command leaves, as it is printed.

use commands::Status;
use holding_gate::NotingGate;
use outside::{Library, Page, Shelf, Sink};
use std::io;

/// The most bytes that are printed themselves.
const MOST_SHOWN: usize = 400;

/// A number that tells bytes apart.
fn mark_of(bytes: &[u8]) -> u32 {
    let mut mark: u32 = 0;
    for byte in bytes {
        mark = mark.wrapping_mul(31).wrapping_add(u32::from(*byte));
    }
    mark
}

/// Prints bytes in hexadecimal behind a blank, where they are few.
fn print_bytes(rt: &(impl Print + AllocGlobal), bytes: &[u8]) -> io::Result<()> {
    if bytes.is_empty() || MOST_SHOWN < bytes.len() {
        return print!(rt; " -");
    }
    let spelling = hex::encode(rt.alloc(), bytes)?;
    print!(rt; " {spelling}")
}

/// Prints what a command leaves on its outputs, with its status and the library's count of faults.
pub fn print_pages(
    rt: &(impl Print + AllocGlobal),
    status: Status,
    unread: u64,
    out: &Page,
    notes: &Page,
) -> io::Result<()> {
    let (code, unwritten, unnoted) = (status.code(), out.faults(), notes.faults());
    print!(rt; "exit {code}, faults {unread} {unwritten} {unnoted}, out")?;
    let (length, mark) = (out.bytes().len(), mark_of(out.bytes()));
    print!(rt; " {length} {mark}")?;
    print_bytes(rt, out.bytes())?;
    print!(rt; ", notes")?;
    print_bytes(rt, notes.bytes())?;
    println!(rt)
}

/// Prints what a command leaves.
pub fn print_left(
    rt: &(impl Print + AllocGlobal),
    status: Status,
    lib: &Shelf,
    out: &Page,
    notes: &Page,
) -> io::Result<()> {
    print_pages(rt, status, lib.faults(), out, notes)
}

/// Prints the places of the passes that a gate has noted.
pub fn print_places(rt: &impl Print, gate: &NotingGate, most: u32) -> io::Result<()> {
    print!(rt; "places")?;
    for number in 0..u64::from(most) {
        if let Some(pass) = gate.passed(number) {
            let place = pass.place;
            print!(rt; " {place}")?;
        }
    }
    println!(rt)
}
