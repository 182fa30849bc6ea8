//! The statuses of a server, over a network in memory whose calls fail as they are told.

use crate::files::{FOUR_CLERKS, shelf, words};
use commands::serve_words;
use outside::{OpenGate, Page};
use outside_links::{Door, FailingSpawner, FixedClock, MemDoor, MemPort, Spawner, ThreadSpawner};
use std::alloc::{AllocError, Global};
use std::process::Abort;
use std::sync::{Arc, Wait};
use std::test::Fail;
use std::thread::Threads;

// What a row ends with: the exit status, the note, and how many ports came back ended.
#[derive(Clone, Copy)]
struct Row {
    status: u8,
    note: &'static str,
    ended: Option<u64>,
}

// Serves four clerks over this door, where these calls of the spawner fail.
fn serve_row<R: Abort + Threads + Wait + Copy + Send + Sync + 'static>(
    rt: &R,
    alloc: Global,
    door: MemDoor,
    failing: &[u64],
    row: Row,
) -> Result<(), AllocError> {
    let mut door = door;
    let words = words(alloc)?;
    let mut lib = shelf(alloc, FOUR_CLERKS)?;
    let mut notes = Page::new(alloc, 64, Vec::new(alloc))?;
    let clock = Arc::new(alloc, FixedClock { moment: 0 })?;
    let gate = Arc::new(alloc, OpenGate)?;
    let failing = Vec::from_slice(alloc, failing)?;
    let mut threads = FailingSpawner::new(ThreadSpawner::new(rt, alloc), failing);
    let status = serve_words(
        rt,
        alloc,
        words.as_slice(),
        &mut lib,
        &mut door,
        clock,
        &mut threads,
        &mut notes,
        gate,
    );
    assert_eq!(rt; status.code(), row.status);
    assert!(rt; notes.bytes() == row.note.as_bytes());
    if let Some(ended) = row.ended {
        assert_eq!(rt; door.ended(), ended);
    }
    assert_eq!(rt; door.faults() > 0, row.status == 10);
    assert_eq!(rt; threads.faults() > 0, row.status == 9);
    threads.into_inner().join();
    Ok(())
}

#[test]
fn closes_where_no_connection_comes(rt: HostRuntime) -> Result<(), Fail> {
    let alloc = rt.alloc();
    let door = MemDoor::new(Vec::new(alloc), Vec::new(alloc));
    let row = Row {
        status: 0,
        note: "",
        ended: Some(4),
    };
    Ok(serve_row(&rt, alloc, door, &[], row)?)
}

// The first two calls start workers, and the others clerks.
#[test]
fn tells_of_a_thread_that_was_refused(rt: HostRuntime) -> Result<(), Fail> {
    let alloc = rt.alloc();
    for call in 0..6 {
        let door = MemDoor::new(Vec::new(alloc), Vec::new(alloc));
        let row = Row {
            status: 9,
            note: "thread\n",
            ended: None,
        };
        serve_row(&rt, alloc, door, &[call], row)?;
    }
    Ok(())
}

#[test]
fn tells_of_a_number_that_is_taken(rt: HostRuntime) -> Result<(), Fail> {
    let alloc = rt.alloc();
    let failing = Vec::from_slice(alloc, &[0])?;
    let door = MemDoor::new(Vec::new(alloc), failing);
    let row = Row {
        status: 10,
        note: "door\n",
        ended: Some(0),
    };
    Ok(serve_row(&rt, alloc, door, &[], row)?)
}

#[test]
fn tells_of_a_port_that_failed(rt: HostRuntime) -> Result<(), Fail> {
    let alloc = rt.alloc();
    let failing = Vec::from_slice(alloc, &[0])?;
    let mut ports = Vec::new(alloc);
    ports.push(MemPort::new(Vec::new(alloc), failing))?;
    let door = MemDoor::new(ports, Vec::new(alloc));
    let row = Row {
        status: 10,
        note: "door\n",
        ended: None,
    };
    Ok(serve_row(&rt, alloc, door, &[], row)?)
}
