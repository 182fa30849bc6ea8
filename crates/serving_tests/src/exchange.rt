//! One exchange over a connection of the loopback address: the server and its client are threads of one process.

use crate::files::{ONE_CLERK, PORT, shelf, words};
use commands::serve_words;
use outside::{OpenGate, Page};
use outside_links::{Door, FixedClock, Limits, Spawner, TcpDoor, ThreadSpawner};
use std::alloc::{AllocError, Global};
use std::io::{Read, Write};
use std::net::{Ipv4Addr, Net, Shutdown, SocketAddr, SocketAddrV4, TcpListener, TcpStream};
use std::process::Abort;
use std::sync::atomic::{AtomicU64, Ordering};
use std::sync::{Arc, Wait};
use std::test::Fail;
use std::thread::Threads;
use std::time::Duration;

const REQUEST: &str = "POST /first HTTP/1.1\r\nHost: x\r\nContent-Length: 2\r\n\r\nhi";

const REPLY: &str = "HTTP/1.1 200 OK\r\nContent-Type: text/plain\r\nContent-Length: 1\r\n\r\nh";

// How often the client tries to connect before the server listens.
const TRIES: u64 = 100_000;

// How many bytes of the reply came as they should, up to the first other one, and 1,000 more where the connection ended behind them.
fn matching(peer: &mut TcpStream) -> u64 {
    let mut seen: u64 = 0;
    let mut byte = [0u8; 1];
    for wanted in REPLY.as_bytes() {
        match peer.read(&mut byte) {
            Ok(1) if byte[0] == *wanted => seen = seen.wrapping_add(1),
            _ => return seen,
        }
    }
    match peer.read(&mut byte) {
        Ok(0) => seen.wrapping_add(1_000),
        _ => seen,
    }
}

// What the client does: it sends the request, ends its side, and reads to the end.
fn ask<R: Net<Listener = TcpListener, Stream = TcpStream>>(rt: &R) -> u64 {
    let address = SocketAddr::V4(SocketAddrV4::new(Ipv4Addr::new(127, 0, 0, 1), PORT));
    for _ in 0..TRIES {
        if let Ok(peer) = rt.connect(address) {
            let mut peer = peer;
            if peer.write_all(REQUEST.as_bytes()).is_err() {
                return 0;
            }
            let _ = peer.shutdown(Shutdown::Write);
            return matching(&mut peer);
        }
    }
    0
}

fn exchange<
    R: Abort
        + Threads
        + Wait
        + Net<Listener = TcpListener, Stream = TcpStream>
        + Copy
        + Send
        + Sync
        + 'static,
>(rt: &R, alloc: Global) -> Result<(), AllocError> {
    let limits = Limits {
        patience: Duration::from_secs(5),
        connections: 1,
    };
    let words = words(alloc)?;
    let mut lib = shelf(alloc, ONE_CLERK)?;
    let mut notes = Page::new(alloc, 64, Vec::new(alloc))?;
    let clock = Arc::new(alloc, FixedClock { moment: 0 })?;
    let gate = Arc::new(alloc, OpenGate)?;
    let seen = Arc::new(alloc, AtomicU64::new(0))?;
    let theirs = Arc::try_clone(&seen)?;
    let mut door = TcpDoor::new(rt, limits);
    let mut threads = ThreadSpawner::new(rt, alloc);
    let client = *rt;
    let work = move || theirs.store(ask(&client), Ordering::SeqCst);
    if let Err(work) = threads.start(work) {
        drop(work);
    }
    let status = serve_words(
        rt,
        alloc,
        words.as_slice(),
        &mut lib,
        &mut door,
        clock,
        &mut threads,
        &mut notes,
        gate,
    );
    threads.join();
    assert_eq!(rt; status.code(), 0);
    assert!(rt; notes.bytes().is_empty());
    assert_eq!(rt; door.ended(), 1);
    assert_eq!(rt; seen.load(Ordering::SeqCst), 1_000 + REPLY.len() as u64);
    Ok(())
}

#[test]
fn answers_over_the_loopback_address(rt: HostRuntime) -> Result<(), Fail> {
    Ok(exchange(&rt, rt.alloc())?)
}
