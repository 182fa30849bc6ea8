//! What `read_recording` answers to each case: the records, or the number of the refusal.
//!
//! A line of the file has a word, a number of tenants, bytes in hexadecimal (`-` for none) and a name. The word `read` asks for the answer to the bytes, and `cuts` for the refusal of each cut of them, the shortest first.

use crate::spelling::bytes_of;
use recording_format::{Event, Recording, RecordingFault, read_recording};
use std::io;

/// A case of the file.
#[derive(Drop)]
struct Case<'a> {
    asks_for_cuts: bool,
    tenants: u32,
    spelling: &'a str,
    name: &'a str,
}

/// The case of a line, if it has one.
fn case_of(line: &str) -> Option<Case<'_>> {
    let (word, rest) = line.split_once(' ')?;
    let (tenants, rest) = rest.split_once(' ')?;
    let (spelling, name) = rest.split_once(' ')?;
    Some(Case {
        asks_for_cuts: word == "cuts",
        tenants: tenants.parse().ok()?,
        spelling,
        name,
    })
}

/// Prints the records, each behind a blank and with a semicolon.
fn print_records(rt: &(impl Print + AllocGlobal), recording: &Recording) -> io::Result<()> {
    for record in recording.records() {
        let (moment, link) = (record.moment, record.link);
        match &record.event {
            Event::Begins(tenant) => print!(rt; " begin {moment} {link} {tenant};")?,
            Event::Arrives(piece) if piece.as_slice().is_empty() => {
                print!(rt; " piece {moment} {link} -;")?;
            }
            Event::Arrives(piece) => {
                let bytes = hex::encode(rt.alloc(), piece.as_slice())?;
                print!(rt; " piece {moment} {link} {bytes};")?;
            }
            Event::Closes => print!(rt; " close {moment} {link};")?,
        }
    }
    Ok(())
}

/// Prints the answer to bytes, behind a blank. Words before a refusal's number are left out for a cut.
fn print_answer(
    rt: &(impl Print + AllocGlobal),
    bytes: &[u8],
    tenants: u32,
    is_cut: bool,
) -> io::Result<()> {
    match read_recording(rt.alloc(), bytes, tenants) {
        Ok(recording) => print_records(rt, &recording),
        Err(RecordingFault::Refused(number)) if is_cut => print!(rt; " {number}"),
        Err(RecordingFault::Refused(number)) => print!(rt; " refused {number}"),
        Err(RecordingFault::NoMemory) => print!(rt; " no memory"),
    }
}

/// Prints the line of a case.
fn print_case(rt: &(impl Print + AllocGlobal), line: &str) -> io::Result<()> {
    let Some(case) = case_of(line) else {
        return println!(rt; "no case: {line}");
    };
    let Some(bytes) = bytes_of(rt.alloc(), case.spelling) else {
        return println!(rt; "no bytes: {line}");
    };
    let name = case.name;
    print!(rt; "{name}:")?;
    if case.asks_for_cuts {
        for size in 0..bytes.len() {
            print_answer(rt, &bytes[..size], case.tenants, true)?;
        }
    } else {
        print_answer(rt, &bytes, case.tenants, false)?;
    }
    println!(rt; "")
}

/// Prints the line of each case.
pub fn print_all(rt: &(impl Print + AllocGlobal), cases: &str) -> io::Result<()> {
    for line in cases.lines() {
        print_case(rt, line)?;
    }
    Ok(())
}
