//! A worker's loop.
ghost use Rattle.std.specs.Prelude.{◌≡◌, ◌≤◌};
ghost use Rattle.sandbox_states.specs.Views.{SandboxView};
ghost use Rattle.worker_desks.specs.Desks.{IsOpen, IsWorkedOff};
ghost use Rattle.worker_desks.specs.Duties.{begins_of, HasRoom};
ghost use Rattle.worker_desks.specs.Working.{IsServed};

use crate::desks::Desk;
use crate::duties::Duty;
use memory_pool::Berth;
use outside::Gate;
use sandbox_states::{Answer, Sandbox, Turn, run_turn, settle, start};

// What one turn of a duty came to.
#[derive(Drop)]
enum Served {
    Stopped(Sandbox),
    Answered(Answer, Berth),
}

/// Runs one turn of each duty of a desk, until the desk has none. It answers the number of turns.
///
/// Before each turn it passes the gate, with the worker's number, the place of the request, and how many turns this has had. It takes no memory but what the desk takes, and returns only after a `next` that gave none.
pub fn work<D: Desk, G: Gate>(worker: u32, desk: &mut D, quantum: u64, gate: &G) -> u64
    requires { IsOpen (D.state desk.old) quantum }
    ensures worked_off { IsWorkedOff (D.state desk.old) (D.state desk.new) result }
    ensures serves { D.serves desk.new ≡ D.serves desk.old }
{
    let mut turns = 0;
    'duties: while let Some(duty) = desk.next() {
        match serve(worker, duty, quantum, gate) {
            Served::Stopped(sandbox) => desk.put_back(sandbox),
            Served::Answered(answer, berth) => desk.deliver(answer, berth),
        }
        turns += 1;
    }
    turns
}

// Runs one turn of a duty.
fn serve<G: Gate>(worker: u32, duty: Duty, quantum: u64, gate: &G) -> Served
    requires some { 1 ≤ quantum }
    requires room { HasRoom duty }
    ensures { IsServed quantum (begins_of duty) result }
{
    let sandbox = begun(duty);
    gate.pass(worker, sandbox.place(), sandbox.turns());
    match run_turn(sandbox, quantum) {
        Turn::Suspended(sandbox) => Served::Stopped(sandbox),
        Turn::Done(finished) => {
            let (answer, berth) = settle(finished);
            Served::Answered(answer, berth)
        }
    }
}

// The sandbox of a duty.
fn begun(duty: Duty) -> Sandbox
    requires { HasRoom duty }
    ensures { result ≡ begins_of duty }
{
    match duty {
        Duty::Begin(job, berth) => start(job, berth),
        Duty::Resume(sandbox) => sandbox,
    }
}
