//! The lines of a batch.

use run_queues::Policy;
use workers::Settings;

/// Which gate the workers of a batch pass.
#[derive(Clone, Copy)]
pub enum GateKind {
    /// `OpenGate`, which does nothing.
    Open,

    /// One that holds workers until it has seen a take-over.
    Held,

    /// One that notes each pass.
    Noted,
}

/// The first line of a batch.
#[derive(Clone, Copy)]
pub struct Head {
    pub gate: GateKind,
    pub settings: Settings,
}

/// The line of a request.
#[derive(Clone, Copy)]
pub struct Asked<'a> {
    pub module: &'a str,
    pub body: &'a str,
    pub budget: u64,
    pub deadline: u64,
}

impl Head {
    /// What a line says of a batch, if it says it.
    pub fn parse(line: &str) -> Option<Head> {
        let mut words = line.split_whitespace();
        Some(Head {
            gate: match words.next()? {
                "open" => GateKind::Open,
                "held" => GateKind::Held,
                "noted" => GateKind::Noted,
                _ => return None,
            },
            settings: Settings {
                workers: words.next()?.parse().ok()?,
                quantum: words.next()?.parse().ok()?,
                policy: match words.next()? {
                    "rr" => Policy::RoundRobin,
                    "edf" => Policy::EarliestDeadline,
                    _ => return None,
                },
                berths: words.next()?.parse().ok()?,
                pages: words.next()?.parse().ok()?,
            },
        })
    }
}

impl<'a> Asked<'a> {
    /// What a line asks for, if it asks for something.
    pub fn parse(line: &'a str) -> Option<Asked<'a>> {
        let mut words = line.split_whitespace();
        Some(Asked {
            module: words.next()?,
            body: words.next()?,
            budget: words.next()?.parse().ok()?,
            deadline: words.next()?.parse().ok()?,
        })
    }
}
