//! Jobs with their requests.
ghost use Rattle.std.specs.Prelude.{◌≡◌, ◌≢◌, ◌⊎◌, Some, IfOk, IfSome, IfNone};
ghost use Rattle.std.specs.Arc.{arc_value};
ghost use Rattle.job_board.specs.declared.words.Kind.TheVariants.{Answered};
ghost use Rattle.sandbox_states.specs.Views.{told};
ghost use Rattle.wasm_meaning.specs.Requests as due;
ghost use Rattle.posted_jobs.specs.Posting.{BelongsTo, posted, waiting_job, kind_in};

use crate::requests::KeptRequest;
use job_board::{Kind, Placed};
use sandbox_states::Verdict;
use std::alloc::{AllocError, Global};
use std::marker::Model;
use std::sync::Arc;
use worker_desks::Task;

/// A request at its place on a server's board, on the way from its admission to its answer, with the request itself as data.
///
/// Contracts see both. The type keeps that the task belongs to the request.
pub struct PostedJob {
    request: Arc<KeptRequest>,
    task: Task,
}

impl Drop for PostedJob {
    fn drop(self) {
        let PostedJob {
            request: _,
            task: _,
        } = self;
    }
}

impl Model for PostedJob {
    ghost use Rattle.std.specs.Arc.{arc_value};
    ghost use Rattle.posted_jobs.specs.Posting.{PostedView, posted, BelongsTo};

    ghost Value = { PostedView };

    ghost view = { λ job. posted (arc_value job.request) job.task };

    ghost invariant = { λ job. BelongsTo (arc_value job.request) job.task };
}

impl Placed for PostedJob {
    ghost use Rattle.std.specs.Prelude.{◌≡◌};
    ghost use Rattle.std.proofs.Common.{refl};
    ghost use Rattle.posted_jobs.specs.Posting.{place_in, kind_in, turns_in};

    type Request = KeptRequest;

    ghost place_of = { place_in };

    ghost kind_of = { kind_in };

    ghost turns_of = { turns_in };

    ghost request_of = { λ job. job.request };

    ghost belongs = { λ quantum request job. job.request ≡ request };

    fn place(&self) -> u32 {
        self.task.place()
    }

    fn kind(&self) -> Kind {
        self.task.kind()
    }

    fn turns(&self) -> u64 {
        self.task.turns()
    }

    ghost waits = { λ quantum job waits. refl };
}

impl PostedJob {
    /// A job that waits at a place, with its deadline in milliseconds. It has a copy of the request's body.
    pub fn new(
        alloc: Global,
        request: Arc<KeptRequest>,
        place: u32,
        deadline: u64,
    ) -> Result<PostedJob, AllocError>
        ensures { IfOk result (λ job. job ≡ waiting_job (arc_value request) place deadline) }
    {
        match request.admit(alloc, place, deadline) {
            Ok(job) => Ok(PostedJob {
                request,
                task: Task::Waiting(job),
            }),
            Err(_) => Err(AllocError),
        }
    }

    /// A job of a request and a task that belongs to it, as a worker puts it back.
    pub fn of(request: Arc<KeptRequest>, task: Task) -> PostedJob
        requires { BelongsTo (arc_value request) task }
        ensures { result ≡ posted (arc_value request) task }
    {
        PostedJob { request, task }
    }

    /// The request and the task, which belongs to it.
    pub fn into_parts(self) -> (Arc<KeptRequest>, Task)
        ensures parts { (arc_value result.0 ≡ self.request) × (result.1 ≡ self.task) }
        ensures belongs { BelongsTo self.request self.task }
    {
        let PostedJob { request, task } = self;
        (request, task)
    }

    /// The pages of its request's program, which a berth must have.
    pub fn pages(&self) -> u32
        ensures { result ≡ self.now.request.program.pages }
    {
        self.request.pages()
    }

    /// The answer to a request, where this is the answer of an equal one.
    ///
    /// There is none exactly where the job is another request's, or is not over.
    pub fn answer_to(self, request: &KeptRequest) -> Option<Verdict>
        ensures answer { IfSome result (λ given. due.verdict request.now ≡ Some (told given)) }
        ensures own { IfSome result (λ given. (self.request ≡ request.now) × (kind_in self ≡ Answered)) }
        ensures none { IfNone result ((self.request ≢ request.now) ⊎ (kind_in self ≢ Answered)) }
    {
        if !self.request.same(request) {
            return None;
        }
        let (_, task) = self.into_parts();
        match task {
            Task::Answered(answer) => Some(answer.into_verdict()),
            Task::Waiting(_) | Task::Suspended(_) => None,
        }
    }
}
