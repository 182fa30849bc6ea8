//! A job for tests, which answers the number of its request.
ghost use Rattle.std.specs.Prelude.{◌≡◌, ◌+◌, ◌<◌};

use job_board::{Kind, Placed};

#[derive(Drop)]
pub struct Job {
    pub place: u32,
    pub request: u32,
    pub kind: Kind,
    pub turns: u64,
    ghost few: { turns < 2305843009213693952 },
}

impl Placed for Job {
    type Request = u32;

    ghost use Rattle.std.specs.Prelude.{◌≡◌};
    ghost use Rattle.std.proofs.Common.{refl};

    ghost place_of = { λ job. job.place };

    ghost kind_of = { λ job. job.kind };

    ghost turns_of = { λ job. job.turns };

    ghost request_of = { λ job. job.request };

    ghost belongs = { λ quantum request job. job.request ≡ request };

    fn place(&self) -> u32 {
        self.place
    }

    fn kind(&self) -> Kind {
        self.kind
    }

    fn turns(&self) -> u64 {
        self.turns
    }

    ghost waits = { λ quantum job waits. refl };
}

pub fn waiting(place: u32) -> Job
    ensures { (result.place ≡ place) × (result.kind ≡ Kind.Waiting) × (result.turns ≡ 0) × (result.request ≡ place) }
{
    Job {
        place,
        request: place,
        kind: Kind::Waiting,
        turns: 0,
    }
}

/// The job after one turn more.
pub fn turned(job: Job, kind: Kind) -> Job
    requires { job.turns < 1000 }
    ensures { (result.place ≡ job.place) × (result.kind ≡ kind) × (result.turns ≡ job.turns + 1) × (result.request ≡ job.request) }
{
    Job {
        place: job.place,
        request: job.request,
        kind,
        turns: job.turns + 1,
    }
}
