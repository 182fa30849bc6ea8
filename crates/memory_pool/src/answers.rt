//! What a pool answers to a berth that is given back.

use crate::berths::Berth;

/// What became of a berth that was given to a pool.
#[derive(Drop)]
pub enum Given {
    /// It is at home in a slot.
    Home,
    /// It comes back: no slot was found empty.
    Kept(Berth),
}
