// Rows of spawners.
use crate::calls::words::{NoRow, number_in, numbers_in};
use outside_links::{FailingSpawner, Spawner, ThreadSpawner};
use std::alloc::Global;
use std::sync::Arc;
use std::sync::atomic::{AtomicU64, Ordering};
use std::thread::Threads;

/// The most threads that a row starts.
const MOST_THREADS: u64 = 8;

/// Starts a thread that adds its part to the sum, and says whether it was started.
fn start_one<S: Spawner>(rt: &impl Print, spawner: &mut S, sum: Arc<AtomicU64>, part: u64) {
    let work = move || {
        sum.fetch_add(part, Ordering::SeqCst);
    };
    let answer = match spawner.start(work) {
        Ok(()) => "started",
        Err(work) => {
            drop(work);
            "back"
        }
    };
    let faults = spawner.faults();
    let _ = print!(rt; " {answer}/{faults}");
}

/// Starts so many threads, of which each adds its own power of two.
fn start_all<S: Spawner>(rt: &impl Print, spawner: &mut S, sum: &Arc<AtomicU64>, count: u64) {
    let mut part: u64 = 1;
    for _ in 0..count {
        if let Ok(theirs) = Arc::try_clone(sum) {
            start_one(rt, spawner, theirs, part);
        }
        part = part.wrapping_mul(2);
    }
}

/// Starts the threads of a row, and says the sum of what they added.
pub(crate) fn spawn_row<R: Print + Threads>(
    rt: &R,
    alloc: Global,
    row: &[&str],
) -> Result<(), NoRow> {
    let [count, failing] = row else {
        return Err(NoRow);
    };
    let count = number_in(count)?.min(MOST_THREADS);
    let sum = Arc::new(alloc, AtomicU64::new(0))?;
    let failing = numbers_in(alloc, failing)?;
    let mut spawner = FailingSpawner::new(ThreadSpawner::new(rt, alloc), failing);
    start_all(rt, &mut spawner, &sum, count);
    spawner.into_inner().join();
    let sum = sum.load(Ordering::SeqCst);
    let _ = print!(rt; " sum:{sum}");
    Ok(())
}
