// Where the files of the program come from.
ghost use Rattle.std.specs.Prelude.{◌≡◌, ℕ, ◌+◌, ◌≤◌, length, IfOk, IfErr, List};
ghost use Rattle.outside.specs.Library.{CameTo, FetchCause, Fetched, Held, LibraryState, Tells};

use std::alloc::Global;

/// Why a library answered no bytes.
#[derive(Clone, Copy, Debug, PartialEq, Eq)]
pub enum Fetch {
    /// The file could not be read.
    Failed,
    /// No file has the name.
    Missing,
    /// There is no memory for the bytes.
    NoMemory,
}

/// Files by their names.
///
/// A library may tell which names it holds and with what bytes. No call changes that. Of a library
/// that does not tell, contracts still know what its calls came to: only a call of `read` gives
/// an answer.
pub trait Library {
    // What it holds, where it tells that, and how many calls have failed so far.
    ghost state: { Self → LibraryState };

    // A call of `read` between these two states, for this name and this limit, came to this.
    ghost gave: { Self → Self → List ℕ → ℕ → Fetched → Type 0 };

    /// The whole file of this name where it has at most `most` bytes, and else its first
    /// `most + 1` bytes, by which the caller sees that it is too long.
    fn read(&mut self, alloc: Global, name: &str, most: u64) -> Result<Vec<u8>, Fetch>
        ensures given { CameTo result (gave self.old self.new name.now most) }

        // What is held is answered.
        ensures bytes { IfOk result (λ bytes.
            Held (state self.old).held name.now most bytes.items) }
        ensures at_most { IfOk result (λ bytes. length bytes.items ≤ most + 1) }

        // `Failed` only where the count rose, and `Missing` only for a name that is not held.
        ensures cause { IfErr result (FetchCause name.now (state self.old) (state self.new)) }

        ensures same { (state self.new).held ≡ (state self.old).held }
        ensures later { (state self.old).faults ≤ (state self.new).faults };

    /// The count of faults, which never falls. Over real files it stops at its greatest value.
    fn faults(&self) -> u64
        ensures { result ≡ (state self.now).faults };

    // What a call gave are bytes, and what the library holds, where it tells that.
    ghost tells: { (old new : Self) (name : List ℕ) (most : ℕ) (fetched : Fetched)
        → gave old new name most fetched → Tells (state old) (state new) name most fetched };
}
