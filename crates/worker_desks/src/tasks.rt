//! What stands at the places of a batch.
ghost use Rattle.std.specs.Prelude.{◌≡◌};
ghost use Rattle.worker_desks.specs.Tasks.{kind_of, turns_of};

use job_board::{Kind, Placed};
use sandbox_states::{Admitted, Answer, Sandbox};

/// A request at its place on the board, on the way from its admission to its answer.
///
/// It is the request's own in turns of a quantum: what waits has just this request; what was stopped stands for it, and with the turns that are left it has the request's turns; what was answered has its verdict, its units and its turns (`specs/Tasks.antt`).
#[derive(Drop)]
pub enum Task {
    /// It has not begun.
    Waiting(Admitted),

    /// It was stopped, and waits for its next turn.
    Suspended(Sandbox),

    /// It is over.
    Answered(Answer),
}

impl Placed for Task {
    ghost use Rattle.worker_desks.specs.Tasks as task;

    type Request = Option<Admitted>;

    ghost place_of = { task.place_of };

    ghost kind_of = { task.kind_of };

    ghost turns_of = { task.turns_of };

    ghost request_of = { task.admitted_as };

    ghost belongs = { task.IsTaskOf };

    fn place(&self) -> u32 {
        match self {
            Task::Waiting(job) => job.place(),
            Task::Suspended(sandbox) => sandbox.place(),
            Task::Answered(answer) => answer.place(),
        }
    }

    fn kind(&self) -> Kind {
        match self {
            Task::Waiting(_) => Kind::Waiting,
            Task::Suspended(_) => Kind::Suspended,
            Task::Answered(_) => Kind::Answered,
        }
    }

    fn turns(&self) -> u64 {
        match self {
            Task::Waiting(_) => 0,
            Task::Suspended(sandbox) => sandbox.turns(),
            Task::Answered(answer) => answer.turns(),
        }
    }

    ghost waits = { task.waits_for_its_own };
}
