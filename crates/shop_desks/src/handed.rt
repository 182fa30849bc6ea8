//! The duty that is out, with its request.
ghost use Rattle.std.specs.Prelude.{◌≡◌};
ghost use Rattle.std.specs.Arc.{arc_value};
ghost use Rattle.posted_jobs.specs.Posting.{posted};
ghost use Rattle.sandbox_states.specs.Stands.{IsOneTurn, StandsFor};
ghost use Rattle.worker_desks.specs.Duties.{begins_of, IsDelivered};
ghost use Rattle.worker_desks.specs.declared.tasks.Task.TheVariants as task;
ghost use Rattle.shop_desks.specs.Desks.{begins_in, handed};

use memory_pool::Berth;
use posted_jobs::{KeptRequest, PostedJob};
use sandbox_states::laws::turns_keep;
use sandbox_states::{Answer, Sandbox};
use std::marker::Model;
use std::snapshot::Snapshot;
use std::sync::Arc;
use worker_desks::{Duty, Task};

// The request of the duty that is out, and for proofs alone the duty, which stands for it.
pub(crate) struct HandedOut {
    request: Arc<KeptRequest>,
    duty: Snapshot<Duty>,
}

impl Drop for HandedOut {
    fn drop(self) {
        let HandedOut {
            request: _,
            duty: _,
        } = self;
    }
}

impl Model for HandedOut {
    ghost use Rattle.std.specs.Arc.{arc_value};
    ghost use Rattle.sandbox_states.specs.Stands.{StandsFor};
    ghost use Rattle.worker_desks.specs.Duties.{begins_of};
    ghost use Rattle.shop_desks.specs.Desks.{HandedView};

    ghost Value = { HandedView };

    ghost view = { λ handed. record { request = arc_value handed.request; duty = handed.duty.value } };

    ghost invariant = { λ handed. StandsFor (arc_value handed.request) (begins_of handed.duty.value) };
}

impl HandedOut {
    // Remembers the duty that is handed out for a request.
    pub(crate) fn of(request: Arc<KeptRequest>, duty: &Duty) -> HandedOut
        requires { StandsFor (arc_value request) (begins_of duty.now) }
        ensures { result ≡ handed (arc_value request) duty.now }
    {
        HandedOut {
            request,
            duty: Snapshot::of(duty),
        }
    }

    // The job of the duty after one turn that stopped.
    pub(crate) fn stopped(self, quantum: u64, sandbox: Sandbox) -> PostedJob
        requires { IsOneTurn quantum (begins_in self) sandbox }
        ensures { result ≡ posted self.request (task.Suspended sandbox) }
    {
        turns_keep();
        let _ = quantum;
        let HandedOut { request, duty: _ } = self;
        PostedJob::of(request, Task::Suspended(sandbox))
    }

    // The job of the duty after its last turn.
    pub(crate) fn answered(self, quantum: u64, answer: Answer, berth: &Berth) -> PostedJob
        requires { IsDelivered quantum (begins_in self) answer berth.now }
        ensures { result ≡ posted self.request (task.Answered answer) }
    {
        turns_keep();
        let _ = (quantum, berth.pages());
        let HandedOut { request, duty: _ } = self;
        PostedJob::of(request, Task::Answered(answer))
    }
}
