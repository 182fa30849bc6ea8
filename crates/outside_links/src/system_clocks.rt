// The clock of the system.
ghost use Rattle.std.specs.Prelude.{None};

use crate::clocks::Clock;
use std::time;

/// The system's clock that never goes back, which tells no moment.
///
/// Where it can't be read, the moment is 0.
#[derive(Drop)]
pub struct SystemClock<R> {
    rt: R,
}

impl<R> SystemClock<R> {
    /// The clock that this runtime reads.
    pub fn new(rt: R) -> SystemClock<R> {
        SystemClock { rt }
    }
}

impl<R: time::Clock + Send + Sync + 'static> Clock for SystemClock<R> {
    ghost moment = { λ clock. None };

    ghost gave = { λ clock given. Unit {0} };

    fn now(&self) -> u64 {
        match self.rt.monotonic() {
            Ok(since) => u64::try_from(since.as_millis()).unwrap_or(u64::MAX),
            Err(_) => 0,
        }
    }

    ghost tells = { λ clock given gave. tt };
}
