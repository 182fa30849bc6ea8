//! What the workers leave over: the caller finishes a request that waits and one that was stopped, and hands on an answer as it is. No batch comes to this, since a worker that puts a request back looks for another one.
ghost use Rattle.std.specs.Prelude.{◌≤◌, IfOk, IfSome};
ghost use Rattle.std.specs.List.{All};
ghost use Rattle.worker_desks.specs.Tasks.{FitsIn};
ghost use Rattle.workers.specs.Batches.{FitsBerths};

use crate::leftovers::finish_all;
use holding_gate::{NotingGate, Passed};
use memory_pool::Berth;
use run_queues::Policy;
use sandbox_states::{Admitted, Answer, Sandbox, Turn, Verdict, run_turn, settle, start};
use std::alloc::{AllocError, Global};
use std::sync::Arc;
use std::test::Fail;
use wasi_calls::Streams;
use wasm_instance::{Program, link};
use wasm_reader::read_module;
use wasm_validate::validate;
use worker_desks::{Settings, Task};

// `_start` is a loop without an end.
const ENDLESS: [u8; 41] = [
    0x00, 0x61, 0x73, 0x6D, 0x01, 0x00, 0x00, 0x00, 0x01, 0x04, 0x01, 0x60, 0x00, 0x00, 0x03, 0x02,
    0x01, 0x00, 0x07, 0x0A, 0x01, 0x06, 0x5F, 0x73, 0x74, 0x61, 0x72, 0x74, 0x00, 0x00, 0x0A, 0x09,
    0x01, 0x07, 0x00, 0x03, 0x40, 0x0C, 0x00, 0x0B, 0x0B,
];

const SETTINGS: Settings = Settings {
    workers: 2,
    quantum: 100,
    policy: Policy::RoundRobin,
    berths: 1,
    pages: 1,
};

fn endless(alloc: Global) -> Option<Program>
    ensures { IfSome result (λ program. program.pages ≤ 1) }
{
    let module = read_module(alloc, &ENDLESS).ok()?;
    let valid = validate(alloc, module).ok()?;
    let program = link(alloc, valid, 1).ok()?;
    if 1 < program.pages() {
        drop(program);
        return None;
    }
    Some(program)
}

// A request at a place, with a budget of 300 units.
fn waiting(alloc: Global, place: u32) -> Option<Admitted>
    ensures { IfSome result (FitsBerths 1) }
{
    let program = Arc::new(alloc, endless(alloc)?).ok()?;
    match Streams::new(alloc, Vec::new(alloc)) {
        Ok(streams) => Some(Admitted::new(place, 0, 300, streams, program)),
        Err(fault) => {
            drop(fault);
            drop(program);
            None
        }
    }
}

// One that was stopped after its first turn.
fn suspended(alloc: Global, place: u32) -> Option<Sandbox> {
    let berth = Berth::new(alloc, 1).ok()?;
    match run_turn(start(waiting(alloc, place)?, berth), 100) {
        Turn::Suspended(sandbox) => Some(sandbox),
        Turn::Done(finished) => {
            drop(finished);
            None
        }
    }
}

// The answer to one, after a single turn.
fn answered(alloc: Global, place: u32) -> Option<Answer> {
    let berth = Berth::new(alloc, 1).ok()?;
    match run_turn(start(waiting(alloc, place)?, berth), 1_000) {
        Turn::Suspended(sandbox) => {
            drop(sandbox);
            None
        }
        Turn::Done(finished) => Some(settle(finished).0),
    }
}

fn left_over(alloc: Global) -> Option<Vec<Task>>
    ensures { IfSome result (λ tasks. All (FitsIn 1) tasks.items) }
{
    let first = Task::Waiting(waiting(alloc, 0)?);
    let second = Task::Suspended(suspended(alloc, 1)?);
    let third = Task::Answered(answered(alloc, 2)?);
    vec![in alloc; first, second, third].ok()
}

fn pass(place: u32, turn: u64) -> Passed {
    Passed {
        worker: 2,
        place,
        turn,
    }
}

#[test]
fn the_caller_finishes_what_is_left(rt: HostRuntime) -> Result<(), Fail> {
    let alloc = rt.alloc();
    let gate = NotingGate::new(alloc, 8)?;
    let tasks = left_over(alloc).ok_or(AllocError)?;
    let room = Vec::with_capacity(alloc, tasks.len())?;
    let answers = finish_all(&SETTINGS, tasks, Berth::new(alloc, 1)?, room, &gate);
    let mut told = Vec::new(alloc);
    for answer in answers {
        assert!(rt; matches!(answer.verdict(), Verdict::Spent));
        told.push((answer.place(), answer.units(), answer.turns()))?;
    }
    assert_eq!(rt;
        told.as_slice(),
        [(0, 300, 4), (1, 300, 4), (2, 300, 1)].as_slice()
    );
    let passes = [
        pass(0, 0),
        pass(0, 1),
        pass(0, 2),
        pass(0, 3),
        pass(1, 1),
        pass(1, 2),
        pass(1, 3),
    ];
    assert_eq!(rt; gate.passes(), 7);
    for (number, pass) in passes.into_iter().enumerate() {
        assert_eq!(rt; gate.passed(number as u64), Some(pass));
    }
    Ok(())
}
