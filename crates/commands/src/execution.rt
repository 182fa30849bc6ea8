//! The run of a program on a request's body.
ghost use Rattle.std.specs.Prelude.{◌≡◌, ◌^◌, ◌≤◌, length, IfOk};
ghost use Rattle.wasm_meaning.specs.Requests.{Request};
ghost use Rattle.sandbox_states.specs.Stands.{AnswersFor, StandsFor};
ghost use Rattle.commands.specs.ModuleChecks.{given_pages};
ghost use Rattle.commands.specs.Commands.{request_of};

use memory_pool::Berth;
use sandbox_states::{Admitted, Answer, Sandbox, Turn, run_turn, settle, start};
use std::alloc::{AllocError, Global};
use std::sync::Arc;
use wasi_calls::Streams;
use wasm_instance::Program;

/// The quantum of its turns: the greatest that a configuration can have.
const QUANTUM: u64 = (1 << 32) - 1;

/// Runs the program once on the body within the budget.
pub fn execute(
    alloc: Global,
    program: Program,
    body: Vec<u8>,
    budget: u64,
) -> Result<Answer, AllocError>
    requires fits { length body.items ≤ 2 ^ 20 }
    requires budget { budget ≤ 2 ^ 40 }
    requires pages { program.pages ≡ given_pages }
    ensures { IfOk result (λ answer. AnswersFor (request_of program budget body.items)
        answer.verdict answer.units) }
{
    let pages = program.pages();
    let program = Arc::new(alloc, program)?;
    let streams = match Streams::new(alloc, body) {
        Ok(streams) => streams,
        Err((_, fault)) => return Err(fault),
    };
    let job = Admitted::new(0, 0, budget, streams, program);
    let berth = Berth::new(alloc, pages)?;
    Ok(to_its_end(start(job, berth)))
}

/// The answer to a request that has begun.
fn to_its_end(begun: Sandbox) -> Answer
    ensures { (request : Request) → StandsFor request begun
        → AnswersFor request result.verdict result.units }
{
    let mut sandbox = begun;
    loop {
        match run_turn(sandbox, QUANTUM) {
            Turn::Suspended(stopped) => sandbox = stopped,
            Turn::Done(finished) => {
                let (answer, berth) = settle(finished);
                drop(berth);
                return answer;
            }
        }
    }
}
