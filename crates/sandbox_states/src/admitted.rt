//! Requests that were admitted and have not begun.
ghost use Rattle.std.specs.Prelude.{◌≡◌, ◌^◌, ◌≤◌};
ghost use Rattle.std.specs.Arc.{arc_value};
ghost use Rattle.wasm_meaning.specs.Programs.{unused};
ghost use Rattle.sandbox_states.specs.Views.{request_of};

use std::marker::Model;
use std::sync::Arc;
use wasi_calls::Streams;
use wasm_instance::Program;

/// A request that waits to begin: its program, its body and its budget, with its place in its batch and its deadline in milliseconds. It cannot be cloned, so that it begins once.
#[derive(Drop)]
pub struct Admitted {
    pub(crate) place: u32,
    pub(crate) deadline: u64,
    pub(crate) budget: u64,
    pub(crate) streams: Streams,
    pub(crate) program: Arc<Program>,
}

impl Model for Admitted {
    ghost use Rattle.std.specs.Prelude.{◌≡◌, ◌^◌, ◌≤◌};
    ghost use Rattle.std.specs.Arc.{arc_value};
    ghost use Rattle.wasm_meaning.specs.Programs.{unused};
    ghost use Rattle.sandbox_states.specs.Views.{AdmittedView, request_of};

    ghost Value = { AdmittedView };

    ghost view = { λ job. record { place = job.place; deadline = job.deadline; request = request_of (arc_value job.program) job.streams job.budget } };

    ghost invariant = { λ job. (job.budget ≤ 2 ^ 40) × (job.streams ≡ unused job.streams.body) };
}

impl Admitted {
    /// A request to a program with these streams, of which nothing is read or written yet, and a budget in units of at most 2^40.
    pub fn new(
        place: u32,
        deadline: u64,
        budget: u64,
        streams: Streams,
        program: Arc<Program>,
    ) -> Admitted
        requires unused { streams ≡ unused streams.body }
        requires budget { budget ≤ 2 ^ 40 }
        ensures { result ≡ record { place = place; deadline = deadline; request = request_of (arc_value program) streams budget } }
    {
        Admitted {
            place,
            deadline,
            budget,
            streams,
            program,
        }
    }

    /// Its place in its batch.
    pub fn place(&self) -> u32
        ensures { result ≡ self.now.place }
    {
        self.place
    }

    /// When its answer is due, in milliseconds.
    pub fn deadline(&self) -> u64
        ensures { result ≡ self.now.deadline }
    {
        self.deadline
    }

    /// The pages of its program, which a berth must have.
    pub fn pages(&self) -> u32
        ensures { result ≡ self.now.request.program.pages }
    {
        self.program.pages()
    }
}
