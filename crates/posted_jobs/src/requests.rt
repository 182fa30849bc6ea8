//! Requests as data.
ghost use Rattle.std.specs.Prelude.{◌≡◌, ◌^◌, ◌≤◌, length, IfOk};
ghost use Rattle.std.specs.Arc.{arc_value};
ghost use Rattle.std.specs.Bool.{Decides};
ghost use Rattle.posted_jobs.specs.Posting.{kept, admitted_at};

use sandbox_states::Admitted;
use std::alloc::{AllocError, Global};
use std::marker::Model;
use std::sync::Arc;
use wasi_calls::Streams;
use wasm_instance::Program;

/// A request as data: its program, its body, and its budget in units. It is made once, and shared by the session that waits for its answer and by the job that stands for it.
///
/// Contracts see it as the `Request` of the meaning.
pub struct KeptRequest {
    program: Arc<Program>,
    body: Vec<u8>,
    budget: u64,
}

impl Drop for KeptRequest {
    fn drop(self) {
        let KeptRequest {
            program: _,
            body: _,
            budget: _,
        } = self;
    }
}

impl Model for KeptRequest {
    ghost use Rattle.std.specs.Prelude.{◌^◌, ◌≤◌, length};
    ghost use Rattle.std.specs.Arc.{arc_value};
    ghost use Rattle.wasm_meaning.specs.Requests.{Request};
    ghost use Rattle.posted_jobs.specs.Posting.{kept};

    ghost Value = { Request };

    ghost view = { λ request. kept (arc_value request.program) request.body.items request.budget };

    ghost invariant = { λ request. (request.budget ≤ 2 ^ 40) × (length request.body.items ≤ 2 ^ 20) };
}

impl KeptRequest {
    /// A request to a program, with a body of at most 1 MiB and a budget of at most 2^40 units.
    pub fn new(program: Arc<Program>, body: Vec<u8>, budget: u64) -> KeptRequest
        requires body { length body.items ≤ 2 ^ 20 }
        requires budget { budget ≤ 2 ^ 40 }
        ensures { result ≡ kept (arc_value program) body.items budget }
    {
        KeptRequest {
            program,
            body,
            budget,
        }
    }

    /// Whether the two are equal: in body, in budget, and in all of the program that its runs depend on. No memory is taken.
    pub fn same(&self, other: &KeptRequest) -> bool
        ensures { Decides result (self.now ≡ other.now) }
    {
        if self.budget != other.budget {
            return false;
        }
        if self.body.as_slice() != other.body.as_slice() {
            return false;
        }
        self.program.same(&other.program)
    }

    /// The pages of its program, which a berth must have.
    pub fn pages(&self) -> u32
        ensures { result ≡ self.now.program.pages }
    {
        self.program.pages()
    }

    /// The request as it is admitted, at a place, with its deadline in milliseconds. It has a copy of the body.
    pub fn admit(&self, alloc: Global, place: u32, deadline: u64) -> Result<Admitted, AllocError>
        ensures { IfOk result (λ job. job ≡ admitted_at self.now place deadline) }
    {
        let program = Arc::try_clone(&self.program)?;
        let mut body = Vec::new(alloc);
        body.extend_from_slice(self.body.as_slice())?;
        match Streams::new(alloc, body) {
            Ok(streams) => Ok(Admitted::new(place, deadline, self.budget, streams, program)),
            Err(_) => Err(AllocError),
        }
    }
}
