// Threads of the system.
ghost use Rattle.std.specs.Prelude.{◌≡◌, ◌≤◌};
ghost use Rattle.outside_links.specs.Faults.{one_more};

use crate::faults::Failed;
use crate::spawners::Spawner;
use std::alloc::Global;
use std::marker::Model;
use std::thread::{JoinHandle, Threads};

/// Starts threads of the system, and keeps them until they are joined.
///
/// Contracts see it as its count of faults.
pub struct ThreadSpawner<'a, R> {
    rt: &'a R,
    started: Vec<JoinHandle<()>>,
    faults: u64,
}

impl<'a, R> Drop for ThreadSpawner<'a, R> {
    fn drop(self) {
        let ThreadSpawner {
            rt: _,
            started: _,
            faults: _,
        } = self;
    }
}

impl<'a, R> Model for ThreadSpawner<'a, R> {
    ghost use Rattle.std.specs.Prelude.{ℕ};

    ghost Value = { ℕ };

    ghost view = { λ s. s.faults };
}

impl<'a, R: Threads> ThreadSpawner<'a, R> {
    /// A spawner that has started no thread.
    pub fn new(rt: &'a R, alloc: Global) -> ThreadSpawner<'a, R>
        ensures { result ≡ 0 }
    {
        ThreadSpawner {
            rt,
            started: Vec::new(alloc),
            faults: 0,
        }
    }

    /// Waits for all threads. One that is not waited for may be cut off when the program ends.
    pub fn join(self) {
        let ThreadSpawner {
            rt,
            started,
            faults: _,
        } = self;
        for thread in started {
            thread.join(rt);
        }
    }
}

impl<'a, R: Threads> Spawner for ThreadSpawner<'a, R> {
    type Runtime = R;

    ghost count = { λ faults. faults };

    fn runtime(&self) -> &R {
        self.rt
    }

    fn admit(&mut self) -> Result<(), Failed> {
        if self.started.reserve(1).is_err() {
            self.faults = self.faults.saturating_add(1);
            return Err(Failed);
        }
        Ok(())
    }

    fn refuse(&mut self) {
        self.faults = self.faults.saturating_add(1);
    }

    fn keep(&mut self, thread: JoinHandle<()>) {
        // There is room, which `admit` took. Without it the thread would go on unjoined.
        let _ = self.started.push(thread);
    }

    fn faults(&self) -> u64 {
        self.faults
    }
}
