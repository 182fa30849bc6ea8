//! Which bytes a shelf answers, by values written out by hand, and each of its calls failing in
//! turn.

use outside::{Fetch, Library, Shelf, Text};
use std::alloc::{AllocError, Global};
use std::process::Abort;
use std::test::Fail;

fn add_file(
    alloc: Global,
    files: &mut Vec<(Text, Vec<u8>)>,
    name: &str,
    bytes: &str,
) -> Result<(), AllocError> {
    let name = Text::new(String::from_str(alloc, name)?);
    match Vec::from_slice(alloc, bytes.as_bytes()) {
        Ok(bytes) => Ok(files.push((name, bytes))?),
        Err(fault) => {
            drop(name);
            Err(fault)
        }
    }
}

// Three files, of which two have one name.
fn add_files(alloc: Global, files: &mut Vec<(Text, Vec<u8>)>) -> Result<(), AllocError> {
    add_file(alloc, files, "a", "first")?;
    add_file(alloc, files, "empty", "")?;
    add_file(alloc, files, "a", "second")
}

// A shelf of these files, of which the calls with these numbers fail.
fn shelf_failing(alloc: Global, failing: &[u64]) -> Result<Shelf, AllocError> {
    let failing = Vec::from_slice(alloc, failing)?;
    let mut files = Vec::new(alloc);
    match add_files(alloc, &mut files) {
        Ok(()) => Ok(Shelf::new(files, failing)),
        Err(fault) => {
            drop(files);
            drop(failing);
            Err(fault)
        }
    }
}

fn is_answer(answer: &Result<Vec<u8>, Fetch>, want: Result<&str, Fetch>) -> bool {
    match (answer, want) {
        (Ok(bytes), Ok(text)) => bytes.as_slice() == text.as_bytes(),
        (Err(fault), Err(wanted)) => *fault == wanted,
        _ => false,
    }
}

fn expect(
    rt: &impl Abort,
    alloc: Global,
    shelf: &mut Shelf,
    name: &str,
    most: u64,
    want: Result<&str, Fetch>,
) {
    let answer = shelf.read(alloc, name, most);
    assert!(rt; is_answer(&answer, want), "{name} at {most}");
    drop(answer);
}

fn ask_by_names(rt: &impl Abort, alloc: Global, shelf: &mut Shelf) {
    expect(rt, alloc, shelf, "a", u64::MAX, Ok("first"));
    expect(rt, alloc, shelf, "a", 5, Ok("first"));
    expect(rt, alloc, shelf, "a", 4, Ok("first"));
    expect(rt, alloc, shelf, "a", 3, Ok("firs"));
    expect(rt, alloc, shelf, "a", 0, Ok("f"));
    expect(rt, alloc, shelf, "empty", 0, Ok(""));
    expect(rt, alloc, shelf, "", 9, Err(Fetch::Missing));
    expect(rt, alloc, shelf, "A", 9, Err(Fetch::Missing));
    expect(rt, alloc, shelf, "aa", 9, Err(Fetch::Missing));
    expect(rt, alloc, shelf, "b", 9, Err(Fetch::Missing));
    assert_eq!(rt; shelf.faults(), 0);
}

#[test]
fn answers_by_name(rt: HostRuntime) -> Result<(), Fail> {
    let mut shelf = shelf_failing(rt.alloc(), &[])?;
    ask_by_names(&rt, rt.alloc(), &mut shelf);
    drop(shelf);
    Ok(())
}

// The answer of a call where the one with the number `failing` fails.
fn ask_again(rt: &impl Abort, alloc: Global, shelf: &mut Shelf, call: u64, failing: u64) {
    let want = if call == failing {
        Err(Fetch::Failed)
    } else {
        Ok("first")
    };
    expect(rt, alloc, shelf, "a", 9, want);
    assert_eq!(rt;
        shelf.faults(),
        u64::from(call >= failing),
        "call {call}, {failing} fails"
    );
}

fn fail_once(rt: &impl Abort, alloc: Global, failing: u64) -> Result<(), AllocError> {
    let mut shelf = shelf_failing(alloc, &[failing, failing])?;
    for call in 0..3 {
        ask_again(rt, alloc, &mut shelf, call, failing);
    }
    drop(shelf);
    Ok(())
}

#[test]
fn fails_at_the_calls_that_it_was_told(rt: HostRuntime) -> Result<(), Fail> {
    for failing in 0..3 {
        fail_once(&rt, rt.alloc(), failing)?;
    }
    Ok(())
}
