//! The program: `main`, which hands the words of its command line and the real outside to `run`, or
//! to `serve_words` where the first word is `serve`.
#![tactic(auto)]

use commands::{Status, out_of_memory, run, serve_words};
use outside::{FileLibrary, Library, OpenGate, Sink, StdNotes, StdSink};
use outside_links::{Limits, SystemClock, TcpDoor, ThreadSpawner};
use std::alloc::{AllocError, Global};
use std::env;
use std::io::{self, ErrorKind};
use std::net::{Net, TcpListener, TcpStream};
use std::process::ExitCode;
use std::sync::{Arc, Wait};
use std::thread::Threads;
use std::time::{Clock, Duration};

/// How many seconds a connection may keep its clerk waiting for a read or a write.
const PATIENCE_SECONDS: u64 = 5;

/// Carries out the command of the words after the program's own name, over the real files, streams
/// and listeners. A word that is not UTF-8 is answered like words of no shape.
fn main(rt: HostRuntime) -> ExitCode {
    let alloc = rt.alloc();
    let mut lib = FileLibrary::new(&rt);
    let mut out = StdSink::new(rt.stdout());
    let mut notes = StdNotes::new(rt.stderr());
    let status = match words_of(&rt) {
        Ok(words) if asks_for_a_server(words.as_slice()) => {
            match serve_on_sockets(&rt, alloc, words.as_slice(), &mut lib, &mut notes) {
                Ok(status) => status,
                Err(_) => out_of_memory(&mut out, &mut notes),
            }
        }
        Ok(words) => run(
            &rt,
            alloc,
            words.as_slice(),
            &mut lib,
            &mut out,
            &mut notes,
            &OpenGate,
        ),
        Err(error) if error.kind() == ErrorKind::OutOfMemory => out_of_memory(&mut out, &mut notes),
        Err(_) => run(&rt, alloc, &[], &mut lib, &mut out, &mut notes, &OpenGate),
    };
    ExitCode::from(status.code())
}

/// Whether the first word is `serve`.
fn asks_for_a_server(words: &[String]) -> bool {
    match words.first() {
        Some(word) => word.as_str() == "serve",
        None => false,
    }
}

/// Serves over the listeners, the clock and the threads of the system.
fn serve_on_sockets<
    R: Threads
        + Wait
        + Net<Listener = TcpListener, Stream = TcpStream>
        + Clock
        + Copy
        + Send
        + Sync
        + Drop
        + 'static,
    L: Library,
    N: Sink,
>(
    rt: &R,
    alloc: Global,
    words: &[String],
    lib: &mut L,
    notes: &mut N,
) -> Result<Status, AllocError> {
    let clock = Arc::new(alloc, SystemClock::new(*rt))?;
    let gate = Arc::new(alloc, OpenGate)?;
    let mut door = TcpDoor::new(rt, limits());
    let mut threads = ThreadSpawner::new(rt, alloc);
    let status = serve_words(
        rt,
        alloc,
        words,
        lib,
        &mut door,
        clock,
        &mut threads,
        notes,
        gate,
    );
    threads.join();
    Ok(status)
}

/// Each port accepts connections without end.
fn limits() -> Limits {
    Limits {
        patience: Duration::from_secs(PATIENCE_SECONDS),
        connections: u64::MAX,
    }
}

/// The words after the program's own name.
fn words_of(rt: &HostRuntime) -> io::Result<Vec<String>> {
    let mut words = Vec::new(rt.alloc());
    for word in env::args(rt)?.skip(1) {
        words.push(word)?;
    }
    Ok(words)
}
