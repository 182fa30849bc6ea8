//! What the door and the spawner have counted.
ghost use Rattle.std.specs.Prelude.{◌≡◌, IsTrue};
ghost use Rattle.serve_sessions.specs.Causes.{RoseBy};

use outside_links::{Door, Spawner};

/// The counts of a door and of a spawner, at one time.
#[derive(Clone, Copy)]
pub(crate) struct Counts {
    /// How many ports came back ended.
    pub(crate) ended: u64,

    /// How many calls of the door have failed, and how many ports came back with faults.
    pub(crate) faults: u64,

    /// How many threads could not be started.
    pub(crate) refused: u64,
}

impl Counts {
    /// What they have counted so far.
    pub(crate) fn of<D: Door, P: Spawner>(door: &D, threads: &P) -> Counts
        ensures ended { result.ended ≡ (D.state door.now).ended }
        ensures faults { result.faults ≡ (D.state door.now).faults }
        ensures refused { result.refused ≡ P.count threads.now }
    {
        Counts {
            ended: door.ended(),
            faults: door.faults(),
            refused: threads.faults(),
        }
    }
}

/// Whether a count rose by this number, or stands at its greatest value.
pub(crate) fn rose_by(before: u64, now: u64, by: u64) -> bool
    ensures yes { IsTrue result → RoseBy before now by }
    ensures no { RoseBy before now by → IsTrue result }
{
    before.saturating_add(by) <= now
}
