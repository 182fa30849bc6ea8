// Where the program writes.
ghost use Rattle.std.specs.Prelude.{◌≡◌, ◌≤◌, ℕ, Bool, List, is_ok, OnOk, OnErr};
ghost use Rattle.outside.specs.Faults.{FailsOnlyWhereRose};
ghost use Rattle.outside.specs.Sink.{Appends, SinkState, Takes, TakesPrefix};

use crate::faults::Failed;

/// A stream that takes bytes.
///
/// A sink may tell all the bytes that it has taken. Of a sink that does not tell, contracts still
/// know with which bytes it was called, and in which order: only a call of `write` takes any.
pub trait Sink {
    // All bytes taken so far, where it tells them, and how many calls have failed so far.
    ghost state: { Self → SinkState };

    // A call of `write` between these two states, with these bytes, took all of them, or failed.
    ghost took: { Self → Self → List ℕ → Bool → Type 0 };

    /// Writes all the bytes, or fails after some of them.
    fn write(&mut self, bytes: &[u8]) -> Result<(), Failed>
        ensures taken { took self.old self.new bytes.now (is_ok result) }
        ensures ok { OnOk result (Appends (state self.old) (state self.new) bytes.now) }
        ensures err { OnErr result (TakesPrefix (state self.old) (state self.new) bytes.now) }
        ensures cause { FailsOnlyWhereRose result (state self.old).faults (state self.new).faults }
        ensures later { (state self.old).faults ≤ (state self.new).faults };

    /// The count of faults, which never falls. Over a real stream it stops at its greatest value.
    fn faults(&self) -> u64
        ensures { result ≡ (state self.now).faults };

    // What a call took was added to what the sink has taken, where it tells that.
    ghost takes: { (old new : Self) (bytes : List ℕ) (all : Bool)
        → took old new bytes all → Takes (state old) (state new) bytes all };
}
