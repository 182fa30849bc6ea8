//! A gate that holds workers until one has taken over what another had begun.

use outside::Gate;
use std::sync::atomic::{AtomicBool, AtomicU64, Ordering};
use std::thread::yield_now;

/// How often a hold looks for its end, and lets other threads run behind each look.
const MOST_LOOKS: u32 = 10_000_000;

/// What a holding gate saw, once the workers have ended.
#[derive(Clone, Copy, Debug, PartialEq, Eq)]
pub enum Seen {
    /// Worker 1 went on with what worker 0 had begun, while worker 0 was held.
    TakeOver,

    /// No such pass came, and no hold came to its last look: a worker had fewer passes than it
    /// takes to be held.
    NoTakeOver,

    /// A hold came to its last look, so what it waited for did not come in time. It is what a
    /// single worker sees, and workers that run one after another.
    HeldInVain,
}

impl Seen {
    /// A sentence for it, as tables print it.
    pub fn text(self) -> &'static str {
        match self {
            Seen::TakeOver => "worker 1 took over what worker 0 began, while worker 0 was held",
            Seen::NoTakeOver => "no take-over",
            Seen::HeldInVain => "a hold came to its last look",
        }
    }
}

/// A gate for two workers, 0 and 1, that have at least four requests on at least four berths. It
/// holds each of them once.
///
/// Worker 1 is held in its first pass until worker 0 is in its second. Worker 0 is held in this
/// second pass until worker 1 passes with the place of worker 0's first pass: so with a request
/// that worker 0 began and put back, while worker 0 has another. A hold ends by itself after ten
/// million looks, some seconds, as it must where the workers run one after another. Passes of
/// other workers, and of the caller, are counted and go through.
#[derive(Drop)]
pub struct HoldingGate {
    passes: AtomicU64,
    passes_of_first: AtomicU64,
    passes_of_second: AtomicU64,
    // The place of worker 0's first pass, with 1 on top.
    begun: AtomicU64,
    is_first_held: AtomicBool,
    is_taken_over: AtomicBool,
    has_given_up: AtomicBool,
}

impl HoldingGate {
    /// A gate that nobody has passed. One gate serves one batch: its holds come once.
    pub fn new() -> HoldingGate {
        HoldingGate {
            passes: AtomicU64::new(0),
            passes_of_first: AtomicU64::new(0),
            passes_of_second: AtomicU64::new(0),
            begun: AtomicU64::new(0),
            is_first_held: AtomicBool::new(false),
            is_taken_over: AtomicBool::new(false),
            has_given_up: AtomicBool::new(false),
        }
    }

    /// How often it was passed, by whomever: once for each turn that was run.
    pub fn passes(&self) -> u64 {
        self.passes.load(Ordering::SeqCst)
    }

    /// What it saw. It tells of the whole batch only after the workers have ended.
    pub fn seen(&self) -> Seen {
        if self.has_given_up.load(Ordering::SeqCst) {
            Seen::HeldInVain
        } else if self.is_taken_over.load(Ordering::SeqCst) {
            Seen::TakeOver
        } else {
            Seen::NoTakeOver
        }
    }

    // Holds a worker until the event has come.
    fn hold(&self, event: &AtomicBool) {
        for _ in 0..MOST_LOOKS {
            if event.load(Ordering::SeqCst) {
                return;
            }
            yield_now();
        }
        self.has_given_up.store(true, Ordering::SeqCst);
    }

    // A pass of worker 0.
    fn pass_first(&self, place: u32) {
        match self.passes_of_first.fetch_add(1, Ordering::SeqCst) {
            0 => self.begun.store(u64::from(place) + 1, Ordering::SeqCst),
            1 => {
                self.is_first_held.store(true, Ordering::SeqCst);
                self.hold(&self.is_taken_over);
            }
            _ => {}
        }
    }

    // A pass of worker 1.
    fn pass_second(&self, place: u32) {
        if self.passes_of_second.fetch_add(1, Ordering::SeqCst) == 0 {
            self.hold(&self.is_first_held);
        }
        if self.begun.load(Ordering::SeqCst) == u64::from(place) + 1 {
            self.is_taken_over.store(true, Ordering::SeqCst);
        }
    }
}

impl Gate for HoldingGate {
    fn pass(&self, worker: u32, place: u32, _turn: u64) {
        self.passes.fetch_add(1, Ordering::SeqCst);
        match worker {
            0 => self.pass_first(place),
            1 => self.pass_second(place),
            _ => {}
        }
    }
}
