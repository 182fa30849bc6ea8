//! What comes of a recording that was replayed.
ghost use Rattle.std.specs.Prelude.{◌≡◌, ◌+◌, ◌^◌, ◌≤◌, ◌<◌};
ghost use Rattle.recorded_runner.specs.Tallies.{IsSmall};

/// The answers to a recording, and what they took.
#[derive(Debug, Drop)]
pub struct Played {
    /// The replies, connection by connection, in the format SLA1 (`docs/FORMATS.md`).
    pub text: Vec<u8>,

    /// What all of them together took.
    pub summary: Summary,
}

/// What a replay took: how many items there were, and what became of them.
#[derive(Clone, Copy, Debug, PartialEq, Eq)]
pub struct Summary {
    /// All items of all connections, requests and refusals alike: at most 4,096.
    pub requests: u64,

    /// The requests that their tenants' meters let in.
    pub admitted: u64,

    /// The admitted requests that were started, each once.
    pub started: u64,

    /// The turns of all admitted requests, with the configuration's quantum.
    pub turns: u64,

    /// The units that all admitted requests cost.
    pub units: u64,
}

impl Summary {
    /// That of no items.
    pub(crate) fn nothing() -> Summary
        ensures { result ≡ record { requests = 0; admitted = 0; started = 0; turns = 0; units = 0 } }
    {
        Summary {
            requests: 0,
            admitted: 0,
            started: 0,
            turns: 0,
            units: 0,
        }
    }

    /// With one item more, which is admitted once or not, and what it took.
    pub(crate) fn with(self, admitted: u64, turns: u64, units: u64) -> Summary
        requires small { IsSmall self }
        requires few { self.requests < 4096 }
        requires one { admitted ≤ 1 }
        requires turns { turns ≤ 2 ^ 40 + 1 }
        requires units { units ≤ 2 ^ 40 }
        ensures summed { result ≡ record { requests = self.requests + 1; admitted = self.admitted + admitted; started = self.started + admitted; turns = self.turns + turns; units = self.units + units } }
        ensures small { IsSmall result }
    {
        Summary {
            requests: self.requests + 1,
            admitted: self.admitted + admitted,
            started: self.started + admitted,
            turns: self.turns + turns,
            units: self.units + units,
        }
    }
}
