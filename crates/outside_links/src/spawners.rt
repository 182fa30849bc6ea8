// Who starts threads.
ghost use Rattle.std.specs.Prelude.{◌≡◌, ◌≤◌, ℕ, IfErr, OnOk, OnErr};
ghost use Rattle.outside_links.specs.Faults.{one_more};

use crate::faults::Failed;
use std::thread;
use std::thread::{JoinHandle, Threads};

/// Starts work beside the caller.
///
/// Work is started by `start` alone, which is the same for each spawner. What differs is which
/// threads it may start, and what becomes of them: `admit`, `refuse` and `keep` say that, and are
/// called by `start`.
pub trait Spawner {
    /// What threads are started by.
    type Runtime: Threads;

    // How many calls of `start` have failed.
    ghost count: { Self → ℕ };

    fn runtime(&self) -> &Self::Runtime;

    /// Lets the next thread be started, with room for its handle, or counts that it may not.
    fn admit(&mut self) -> Result<(), Failed>
        ensures ok { OnOk result (count self.new ≡ count self.old) }
        ensures err { OnErr result (count self.new ≡ one_more (count self.old)) }
        ensures later { count self.old ≤ count self.new };

    /// Counts that no thread could be made.
    fn refuse(&mut self)
        ensures rose { count self.new ≡ one_more (count self.old) }
        ensures later { count self.old ≤ count self.new };

    /// Takes a thread that was started.
    fn keep(&mut self, thread: JoinHandle<()>)
        ensures { count self.new ≡ count self.old };

    /// The count of faults, which never falls. Over the system it stops at its greatest value.
    fn faults(&self) -> u64
        ensures { result ≡ count self.now };

    /// Runs the work beside the caller, or hands it back.
    final fn start<F: FnOnce() + Send + 'static>(&mut self, work: F) -> Result<(), F>
        requires { F.pre work }
        ensures back { IfErr result (λ back. back ≡ work) }
        ensures ok { OnOk result (count self.new ≡ count self.old) }
        ensures err { OnErr result (count self.new ≡ one_more (count self.old)) }
        ensures later { count self.old ≤ count self.new }
    {
        if self.admit().is_err() {
            return Err(work);
        }
        match thread::spawn(self.runtime(), work) {
            Ok(thread) => {
                self.keep(thread);
                Ok(())
            }
            Err(refused) => {
                self.refuse();
                Err(refused.value)
            }
        }
    }
}
