//! Batches, as they are gathered and run.
ghost use Rattle.std.specs.Prelude.{◌≡◌, ◌<◌, ◌≤◌, length, IsTrue, IfSome};
ghost use Rattle.std.specs.List.{All};
ghost use Rattle.workers.specs.Batches.{AreNumbered, FitsBerths, IsWithinLimits};

use crate::batches::lines::Asked;
use crate::programs::{bytes_of, program_of};
use sandbox_states::{Admitted, Answer};
use std::alloc::{AllocError, Global};
use std::sync::Arc;
use std::thread::Threads;
use wasi_calls::Streams;
use workers::{Gate, Settings, run_batch};

/// The most requests of a batch.
const MOST_REQUESTS: usize = 4_096;

/// The most pages of all berths of a batch and the caller's.
const MOST_PAGES: u64 = 16_384;

/// The most bytes of a body.
const MOST_BYTES: usize = 1 << 20;

/// The most units of a budget.
const MOST_UNITS: u64 = 1 << 40;

/// Requests that can be run as a batch: each has its number as its place, and a program of no more pages than a berth has.
#[derive(Drop)]
pub struct Batch {
    settings: Settings,
    requests: Vec<Admitted>,
    ghost few: { length requests.items ≤ 4096 },
    ghost numbered: { AreNumbered requests.items },
    ghost limits: { IsWithinLimits settings },
    ghost pages: { All (FitsBerths settings.pages) requests.items },
}

impl Batch {
    /// The requests of these lines, if the settings are within the limits. A line that is no request is left out, as are those for which there is no room.
    pub fn gather(alloc: Global, settings: Settings, lines: &str) -> Option<Batch> {
        let mut batch = Batch::new(alloc, settings)?;
        for line in lines.lines() {
            batch.add(alloc, line);
        }
        Some(batch)
    }

    // A batch of no requests, if the settings are within the limits.
    fn new(alloc: Global, settings: Settings) -> Option<Batch> {
        if !is_within_limits(&settings) {
            return None;
        }
        Some(Batch {
            settings,
            requests: Vec::new(alloc),
        })
    }

    // Puts the request of a line behind the others, if it is one and there is room for it.
    fn add(&mut self, alloc: Global, line: &str) {
        let place = self.requests.len();
        if MOST_REQUESTS <= place {
            return;
        }
        if let Some(request) = admitted(alloc, place as u32, self.settings.pages, line) {
            self.push(request);
        }
    }

    // Puts a request behind the others, if there is memory for it.
    fn push(&mut self, request: Admitted)
        requires few { length self.old.requests.items < 4096 }
        requires place { request.place ≡ length self.old.requests.items }
        requires pages { FitsBerths self.old.settings.pages request }
    {
        drop(self.requests.push(request));
    }

    /// Runs the requests, and answers them in order.
    pub fn run<R: Threads + Sync, G: Gate>(
        self,
        rt: &R,
        alloc: Global,
        gate: &G,
    ) -> Result<Vec<Answer>, AllocError> {
        let Batch { settings, requests } = self;
        run_batch(rt, alloc, requests, &settings, gate)
    }
}

fn is_within_limits(settings: &Settings) -> bool
    ensures { IsTrue result → IsWithinLimits settings.now }
{
    let pages = (u64::from(settings.berths) + 1) * u64::from(settings.pages);
    let is_some = 1 <= settings.workers && 1 <= settings.quantum;
    let has_room = 1 <= settings.berths && 1 <= settings.pages && pages <= MOST_PAGES;
    is_some && settings.workers <= 64 && has_room
}

// The request of a line, at its place, whose module is given so many pages.
fn admitted(alloc: Global, place: u32, pages: u32, line: &str) -> Option<Admitted>
    ensures place { IfSome result (λ job. job.place ≡ place) }
    ensures pages { IfSome result (FitsBerths pages) }
{
    let asked = Asked::parse(line)?;
    let body = bytes_of(alloc, asked.body)?;
    if MOST_BYTES < body.len() || MOST_UNITS < asked.budget {
        return None;
    }
    let program = Arc::new(alloc, program_of(alloc, asked.module, pages)?).ok()?;
    match Streams::new(alloc, body) {
        Ok(streams) => Some(Admitted::new(place, asked.deadline, asked.budget, streams, program)),
        Err(fault) => {
            drop(fault);
            drop(program);
            None
        }
    }
}
