//! What the workers left over.
ghost use Rattle.std.specs.Prelude.{◌≡◌, ◌≤◌, [], length, vec_capacity};
ghost use Rattle.std.specs.List.{All, AllZip};
ghost use Rattle.sandbox_states.specs.Stands.{AnswersIn, StandsInTurns};
ghost use Rattle.sandbox_states.specs.Views.{AnswerView, SandboxView};
ghost use Rattle.wasm_meaning.specs.Requests.{Request};
ghost use Rattle.worker_desks.specs.Tasks.{FitsIn};
ghost use Rattle.workers.specs.Tasks.{IsEndOf, IsFinishOf};

use memory_pool::Berth;
use outside::Gate;
use sandbox_states::{Answer, Sandbox, Turn, run_turn, settle, start};
use worker_desks::{Settings, Task};

/// Finishes each request that is not answered, in order, on the caller's berth, and answers all of them in order.
pub(crate) fn finish_all<G: Gate>(
    settings: &Settings,
    tasks: Vec<Task>,
    berth: Berth,
    answers: Vec<Answer>,
    gate: &G,
) -> Vec<Answer>
    requires some { 1 ≤ settings.now.quantum }
    requires roomy { All (FitsIn berth.pages) tasks.items }
    requires empty { answers.items ≡ [] }
    requires room { length tasks.items ≤ vec_capacity answers }
    ensures { AllZip (IsFinishOf settings.now.quantum) tasks.items result.items }
{
    let mut berth = berth;
    let mut answers = answers;
    for task in tasks {
        let (answer, back) = finish(settings, task, berth, gate);
        answers.push_reserved(answer);
        berth = back;
    }
    drop(berth);
    answers
}

// Finishes one request, if it is not answered. A request that has begun goes on where it stopped, and its berth is dropped.
fn finish<G: Gate>(settings: &Settings, task: Task, berth: Berth, gate: &G) -> (Answer, Berth)
    requires some { 1 ≤ settings.now.quantum }
    requires roomy { FitsIn berth.pages task }
    ensures answer { IsFinishOf settings.now.quantum task result.0 }
    ensures pages { result.1.pages ≡ berth.pages }
{
    match task {
        Task::Answered(answer) => (answer, berth),
        Task::Suspended(sandbox) => {
            let (answer, own) = run_on(settings, sandbox, gate);
            drop(own);
            (answer, berth)
        }
        Task::Waiting(job) => run_on(settings, start(job, berth), gate),
    }
}

// Runs a request to its end, in turns of the quantum. The gate is passed with the number behind those of all workers.
fn run_on<G: Gate>(settings: &Settings, sandbox: Sandbox, gate: &G) -> (Answer, Berth)
    requires some { 1 ≤ settings.now.quantum }
    ensures answer { IsEndOf settings.now.quantum sandbox result.0 }
    ensures pages { result.1.pages ≡ sandbox.pages }
{
    let mut sandbox = sandbox;
    'turns: loop {
        gate.pass(settings.workers, sandbox.place(), sandbox.turns());
        match run_turn(sandbox, settings.quantum) {
            Turn::Suspended(stopped) => sandbox = stopped,
            Turn::Done(finished) => return settle(finished),
        }
    }
}
