//! One turn of a request.
ghost use Rattle.std.specs.Prelude.{◌≡◌, ◌↔◌, ℕ, ◌≤◌, Some};
ghost use Rattle.wasm_meaning.specs.Requests as due;
ghost use Rattle.wasm_meaning.specs.Requests.{Request};
ghost use Rattle.wasm_meaning.specs.Turns.{turns};
ghost use Rattle.sandbox_states.specs.Paths.{outcome_of};
ghost use Rattle.sandbox_states.specs.Stands.{IsSuspended, IsTurnOf, StandsFor, StandsInTurns, TurnStandsFor, TurnStandsInTurns};
ghost use Rattle.sandbox_states.specs.Views.{remaining, told};

use crate::runs::{Ending, Stretch, run_quantum};
use crate::sandboxes::{Finished, Sandbox};
use crate::verdicts::Verdict;
use wasi_calls::Streams;

/// What a turn came to.
#[derive(Drop)]
pub enum Turn {
    /// Its operators reached the quantum, and there are more to pay.
    Suspended(Sandbox),

    /// The request is over.
    Done(Finished),
}

/// Runs one turn: operators until their prices reach the quantum, and then the moves that cost nothing. It is the request's last one if nothing is left that is to be paid.
pub fn run_turn(sandbox: Sandbox, quantum: u64) -> Turn
    requires some { 1 ≤ quantum }
    ensures turn { IsTurnOf quantum sandbox result }
    ensures suspended { IsSuspended result ↔ (2 ≤ turns (remaining sandbox) quantum) }
    ensures stands { (request : Request) → StandsFor request sandbox → TurnStandsFor request result }
    ensures in_turns { (request : Request) → StandsInTurns request quantum sandbox → TurnStandsInTurns request quantum result }
{
    one_turn(sandbox, quantum)
}

fn one_turn(sandbox: Sandbox, quantum: u64) -> Turn
    requires some { 1 ≤ quantum }
    ensures turn { IsTurnOf quantum sandbox result }
{
    let Sandbox {
        place,
        deadline,
        program,
        mut vessel,
        mut streams,
        units,
        left,
        turns,
    } = sandbox;
    match run_quantum(&program, &mut vessel, &mut streams, left, quantum) {
        Stretch::Reached { paid } => Turn::Suspended(Sandbox {
            place,
            deadline,
            program,
            vessel,
            streams,
            units: units + paid,
            left: left - paid,
            turns: turns + 1,
        }),
        Stretch::Over { end, paid: last } => Turn::Done(Finished {
            place,
            vessel,
            verdict: concluded(end, streams),
            units: units + last,
            turns: turns + 1,
        }),
    }
}

// What became of a request whose run is over.
fn concluded(end: Ending, streams: Streams) -> Verdict
    ensures { due.concluded (outcome_of end) streams.reply ≡ Some (told result) }
{
    match end {
        Ending::Fell => Verdict::Replied(streams.into_reply()),
        Ending::Exited(code) => Verdict::Exit {
            code,
            reply: streams.into_reply(),
        },
        Ending::Trapped(trap) => Verdict::Trap(trap),
        Ending::Spent => Verdict::Spent,
    }
}
