//! Requests that have begun, and their answers.
ghost use Rattle.std.specs.Prelude.{◌≡◌, ℕ, ◌+◌, ◌^◌, ◌≤◌};
ghost use Rattle.std.specs.Arc.{arc_value};
ghost use Rattle.wasm_store.specs.View.{IsClean};
ghost use Rattle.sandbox_states.specs.Onward.{RunsFor};
ghost use Rattle.sandbox_states.specs.Stands.{StandsFor, StandsInTurns};
ghost use Rattle.sandbox_states.specs.Views.{answer_of, started, told};

use crate::admitted::Admitted;
use crate::verdicts::Verdict;
use memory_pool::Berth;
use std::marker::Model;
use std::sync::Arc;
use wasi_calls::Streams;
use wasm_instance::{Program, fresh};
use wasm_store::Vessel;

/// A request that has begun and is not over: a stopped function with all that it has, which stands for the rest of its request's run. It cannot be cloned.
#[derive(Drop)]
pub struct Sandbox {
    pub(crate) place: u32,
    pub(crate) deadline: u64,
    pub(crate) program: Arc<Program>,
    pub(crate) vessel: Vessel,
    pub(crate) streams: Streams,
    pub(crate) units: u64,
    pub(crate) left: u64,
    pub(crate) turns: u64,
}

impl Model for Sandbox {
    ghost use Rattle.std.specs.Arc.{arc_value};
    ghost use Rattle.sandbox_states.specs.Sound.{IsSound};
    ghost use Rattle.sandbox_states.specs.Views.{SandboxView, stopped};

    ghost Value = { SandboxView };

    ghost view = { λ s. stopped s.place s.deadline (arc_value s.program) s.vessel s.streams s.units s.left s.turns };

    ghost invariant = { λ s. IsSound (arc_value s.program) s.vessel s.streams s.units s.left s.turns };
}

/// A request that is over, with a vessel that is not yet rinsed. It cannot be cloned.
#[derive(Drop)]
pub struct Finished {
    pub(crate) place: u32,
    pub(crate) vessel: Vessel,
    pub(crate) verdict: Verdict,
    pub(crate) units: u64,
    pub(crate) turns: u64,
}

impl Model for Finished {
    ghost use Rattle.std.specs.Prelude.{◌+◌, ◌^◌, ◌≤◌};
    ghost use Rattle.sandbox_states.specs.Views.{FinishedView, told};

    ghost Value = { FinishedView };

    ghost view = { λ f. record { place = f.place; pages = f.vessel.pages; verdict = told f.verdict; units = f.units; turns = f.turns } };

    ghost invariant = { λ f. f.turns ≤ 2 ^ 40 + 1 };
}

/// The answer to a request. It cannot be cloned.
#[derive(Drop)]
pub struct Answer {
    place: u32,
    verdict: Verdict,
    units: u64,
    turns: u64,
}

impl Model for Answer {
    ghost use Rattle.std.specs.Prelude.{◌+◌, ◌^◌, ◌≤◌};
    ghost use Rattle.sandbox_states.specs.Views.{AnswerView, told};

    ghost Value = { AnswerView };

    ghost view = { λ a. record { place = a.place; verdict = told a.verdict; units = a.units; turns = a.turns } };

    ghost invariant = { λ a. a.turns ≤ 2 ^ 40 + 1 };
}

impl Sandbox {
    /// Its place in its batch.
    pub fn place(&self) -> u32
        ensures { result ≡ self.now.place }
    {
        self.place
    }

    /// When its answer is due, in milliseconds.
    pub fn deadline(&self) -> u64
        ensures { result ≡ self.now.deadline }
    {
        self.deadline
    }

    /// The units that it has paid so far. Whoever asks for them may rely on what the sandbox stands for: its vessel and its streams have something pending, and running it onward gives its request's verdict and the prices that are still to be paid.
    pub fn units(&self) -> u64
        ensures units { result ≡ self.now.units }
        ensures most { result ≤ 2 ^ 40 }
        ensures onward { RunsFor self.now.request self.now }
    {
        self.units
    }

    /// Its turns so far.
    pub fn turns(&self) -> u64
        ensures turns { result ≡ self.now.turns }
        ensures most { result ≤ 2 ^ 40 }
    {
        self.turns
    }
}

impl Answer {
    /// The place of its request in its batch.
    pub fn place(&self) -> u32
        ensures { result ≡ self.now.place }
    {
        self.place
    }

    /// The units that the request cost.
    pub fn units(&self) -> u64
        ensures { result ≡ self.now.units }
    {
        self.units
    }

    /// The turns that it took.
    pub fn turns(&self) -> u64
        ensures turns { result ≡ self.now.turns }
        ensures most { result ≤ 2 ^ 40 + 1 }
    {
        self.turns
    }

    /// What became of the request.
    pub fn verdict(&self) -> &Verdict
        ensures { told result.now ≡ self.now.verdict }
    {
        &self.verdict
    }

    /// What became of the request, with its reply.
    pub fn into_verdict(self) -> Verdict
        ensures { told result ≡ self.verdict }
    {
        self.verdict
    }
}

/// Begins a request on a berth that has at least its program's pages. Nothing is paid yet.
pub fn start(job: Admitted, berth: Berth) -> Sandbox
    requires room { job.request.program.pages ≤ berth.pages }
    ensures started { result ≡ started job berth }
    ensures stands { StandsFor job.request result }
    ensures in_turns { (quantum : ℕ) → StandsInTurns job.request quantum result }
{
    let Admitted {
        place,
        deadline,
        budget,
        streams,
        program,
    } = job;
    let mut vessel = berth.into_vessel();
    fresh(&program, &mut vessel);
    Sandbox {
        place,
        deadline,
        program,
        vessel,
        streams,
        units: 0,
        left: budget,
        turns: 0,
    }
}

/// The answer of a request that is over, and a berth of the same vessel, which is rinsed: whoever has it next finds nothing of this request.
pub fn settle(finished: Finished) -> (Answer, Berth)
    ensures answer { result.0 ≡ answer_of finished }
    ensures pages { result.1.pages ≡ finished.pages }
    ensures clean { IsClean result.1 }
{
    let Finished {
        place,
        mut vessel,
        verdict,
        units,
        turns,
    } = finished;
    vessel.rinse();
    (
        Answer {
            place,
            verdict,
            units,
            turns,
        },
        Berth::from_vessel(vessel),
    )
}
