// A spawner that fails as it was told.
ghost use Rattle.std.specs.Prelude.{◌≡◌, ◌≤◌, IsErr, IsTrue, OnErr, OnOk};
ghost use Rattle.outside_links.specs.Faults.{one_more};
ghost use Rattle.outside_links.specs.Spawner.{after_start, both_faults, start_fails};

use crate::faults::Failed;
use crate::spawners::Spawner;
use std::marker::Model;
use std::thread::JoinHandle;

/// A spawner over another one, of which the calls of `start` fail that it was told. Every other
/// call is passed on.
pub struct FailingSpawner<P> {
    inner: P,
    failing: Vec<u64>,
    calls: u64,
    faults: u64,
}

impl<P: Drop> Drop for FailingSpawner<P> {
    fn drop(self) {
        let FailingSpawner {
            inner: _,
            failing: _,
            calls: _,
            faults: _,
        } = self;
    }
}

impl<P> Model for FailingSpawner<P> {
    ghost use Rattle.outside_links.specs.Spawner.{Failing};

    ghost Value = { Failing P };

    ghost view = { λ s. record {
      inner = s.inner;
      failing = s.failing.items;
      calls = s.calls;
      faults = s.faults;
    } };
}

impl<P: Spawner> FailingSpawner<P> {
    /// A spawner of which a call fails if its number, counted from 0, stands in `failing`.
    pub fn new(inner: P, failing: Vec<u64>) -> FailingSpawner<P>
        ensures { result
            ≡ record { inner = inner; failing = failing.items; calls = 0; faults = 0 } }
    {
        FailingSpawner {
            inner,
            failing,
            calls: 0,
            faults: 0,
        }
    }

    /// The spawner behind it, as to join its threads.
    pub fn into_inner(self) -> P
        ensures { result ≡ self.inner }
    {
        let FailingSpawner {
            inner,
            failing: _,
            calls: _,
            faults: _,
        } = self;
        inner
    }

    /// Whether the next call is one of those that fail.
    fn fails(&self) -> bool
        ensures { result ≡ start_fails self.now }
    {
        self.failing.contains(&self.calls)
    }
}

impl<P: Spawner> Spawner for FailingSpawner<P> {
    type Runtime = P::Runtime;

    ghost count = { both_faults P.count };

    fn runtime(&self) -> &P::Runtime {
        self.inner.runtime()
    }

    fn admit(&mut self) -> Result<(), Failed>
        ensures ok { OnOk result
            (both_faults P.count self.new ≡ both_faults P.count self.old) }
        ensures err { OnErr result
            (both_faults P.count self.new ≡ one_more (both_faults P.count self.old)) }
        ensures later { both_faults P.count self.old ≤ both_faults P.count self.new }

        // A call that was told to fails, and never comes to the spawner behind.
        ensures fails { IsTrue (start_fails self.old) → IsErr result }
        ensures inner { IsTrue (start_fails self.old) → self.new.inner ≡ self.old.inner }
        ensures after { self.new ≡ after_start self.old self.new.inner }
    {
        let failing = self.fails();
        self.calls = self.calls.saturating_add(1);
        if failing {
            self.faults = self.faults.saturating_add(1);
            return Err(Failed);
        }
        self.inner.admit()
    }

    fn refuse(&mut self) {
        self.inner.refuse()
    }

    fn keep(&mut self, thread: JoinHandle<()>) {
        self.inner.keep(thread)
    }

    fn faults(&self) -> u64 {
        self.faults.saturating_add(self.inner.faults())
    }
}
