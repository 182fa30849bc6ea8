//! What a pass of a pool knows.

use std::collections::LinkedList;

/// What a step found at a slot of a pool.
#[derive(Clone, Copy, Debug, PartialEq, Eq)]
pub enum Found {
    /// No berth is at home.
    Empty,
    /// A berth is at home.
    Full,
    /// A pass moves the slot.
    Busy,
}

// Which slot a pass moves, and which way. No value of it is made, nor of `Try` and `Mover`.
pub enum Moving {
    Nothing,
    Taking(u64),
    Giving(u64),
}

// A try of a slot: whether it was to give, and what the step found.
pub struct Try {
    pub giving: bool,
    pub slot: u64,
    pub found: Found,
}

// What a pass knows: its parts of all, the pool's pages, the slot that it moves, all its tries in order, and how many berths it has taken and given back.
pub struct Mover {
    pub parts: u64,
    pub pages: u64,
    pub moving: Moving,
    pub tries: LinkedList<Try>,
    pub taken: u64,
    pub given: u64,
}
