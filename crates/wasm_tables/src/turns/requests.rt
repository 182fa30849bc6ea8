//! Requests, from their beginning to their answer.
//!
//! What is owned is dropped by `drop`: a value that leaves its scope by itself is taken apart where it does, and each place of these is proved anew.
ghost use Rattle.std.specs.Prelude.{◌≤◌};

use crate::answers::print_answer;
use crate::programs::{berth_of, bytes_of, program_of};
use crate::turns::cases::Asked;
use memory_pool::Berth;
use sandbox_states::{Admitted, Answer, Sandbox, Turn, run_turn, settle, start};
use std::alloc::Global;
use std::io;
use std::sync::Arc;
use wasi_calls::Streams;
use wasm_instance::Program;

/// The pages of the vessel on which requests run, and those that their programs are given.
const PAGES: u32 = 256;

/// The most bytes of a body.
const MOST_BYTES: usize = 1 << 20;

/// The most units of a budget.
const MOST_UNITS: u64 = 1 << 40;

/// A request to a program.
fn job_of(alloc: Global, program: Arc<Program>, body: Vec<u8>, budget: u64) -> Option<Admitted> {
    if MOST_BYTES < body.len() || MOST_UNITS < budget {
        drop(program);
        return None;
    }
    match Streams::new(alloc, body) {
        Ok(streams) => Some(Admitted::new(0, 0, budget, streams, program)),
        Err(fault) => {
            drop(fault);
            drop(program);
            None
        }
    }
}

/// The request of a case.
fn asked_job(alloc: Global, asked: Asked<'_>) -> Option<Admitted> {
    let body = bytes_of(alloc, asked.body)?;
    let program = Arc::new(alloc, program_of(alloc, asked.module, PAGES)?).ok()?;
    job_of(alloc, program, body, asked.budget)
}

/// The answer to a request that has begun, in turns of a quantum, and the vessel that it ran on.
fn answered(sandbox: Sandbox, quantum: u64) -> Option<(Answer, Berth)>
    requires some { 1 ≤ quantum }
{
    let mut sandbox = sandbox;
    for _ in 0..u64::MAX {
        match run_turn(sandbox, quantum) {
            Turn::Suspended(stopped) => sandbox = stopped,
            Turn::Done(finished) => return Some(settle(finished)),
        }
    }
    drop(sandbox);
    None
}

/// The answer to a request, in turns of a quantum, and the vessel that it ran on.
fn answer_of(job: Admitted, berth: Berth, quantum: u64) -> Option<(Answer, Berth)> {
    if berth.pages() < job.pages() || quantum == 0 {
        drop(job);
        drop(berth);
        return None;
    }
    answered(start(job, berth), quantum)
}

/// The vessel that is at hand, or else a new one.
fn berth_at_hand(alloc: Global, berth: &mut Option<Berth>) -> Option<Berth> {
    match berth.take() {
        Some(berth) => Some(berth),
        None => berth_of(alloc, PAGES),
    }
}

/// Keeps a vessel at hand.
fn keep(place: &mut Option<Berth>, berth: Berth) {
    drop(place.replace(berth));
}

/// The answer to the request of a case. The vessel that it ran on stays at hand.
fn asked_answer(alloc: Global, asked: Asked<'_>, place: &mut Option<Berth>) -> Option<Answer> {
    let job = asked_job(alloc, asked)?;
    let Some(berth) = berth_at_hand(alloc, place) else {
        drop(job);
        return None;
    };
    let (answer, rinsed) = answer_of(job, berth, asked.quantum)?;
    keep(place, rinsed);
    Some(answer)
}

/// Prints the answer to the request of a case.
pub fn print_turns(
    rt: &(impl Print + AllocGlobal),
    asked: Asked<'_>,
    place: &mut Option<Berth>,
) -> io::Result<()> {
    match asked_answer(rt.alloc(), asked, place) {
        Some(answer) => {
            let printed = print_answer(rt, &answer);
            drop(answer);
            printed
        }
        None => println!(rt; "no answer"),
    }
}

/// A request without a body to a program.
fn empty_job(alloc: Global, program: &Arc<Program>) -> Option<Admitted> {
    let program = program.clone().ok()?;
    job_of(alloc, program, Vec::new(alloc), MOST_UNITS)
}

/// The vessel that such a request ran on.
fn passed_on(alloc: Global, program: &Arc<Program>, berth: Berth) -> Option<Berth> {
    let Some(job) = empty_job(alloc, program) else {
        drop(berth);
        return None;
    };
    let (answer, rinsed) = answer_of(job, berth, MOST_UNITS)?;
    drop(answer);
    Some(rinsed)
}

/// How many of so many such requests are answered, one after another on one vessel.
fn repeated(alloc: Global, program: &Arc<Program>, berth: Berth, count: u64) -> u64 {
    let mut berth = berth;
    for done in 0..count {
        match passed_on(alloc, program, berth) {
            Some(rinsed) => berth = rinsed,
            None => return done,
        }
    }
    drop(berth);
    count
}

/// How many of so many requests without a body to a module of so many pages are answered, if it is a program.
fn asked_repeated(alloc: Global, module: &str, pages: u32, count: u64) -> Option<u64> {
    let program = Arc::new(alloc, program_of(alloc, module, pages)?).ok()?;
    let Some(berth) = berth_of(alloc, pages) else {
        drop(program);
        return None;
    };
    let done = repeated(alloc, &program, berth, count);
    drop(program);
    Some(done)
}

/// Answers so many requests without a body on one vessel, and prints how many.
pub fn print_repeated(
    rt: &(impl Print + AllocGlobal),
    module: &str,
    pages: u32,
    count: u64,
) -> io::Result<()> {
    match asked_repeated(rt.alloc(), module, pages, count) {
        Some(done) => println!(rt; "answered {done}"),
        None => println!(rt; "no program"),
    }
}
