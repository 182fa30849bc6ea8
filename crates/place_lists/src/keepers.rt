//! What passes know. No value of `Hand` and `Keeper` is made.

use std::collections::LinkedList;

// The numbers that a pass of the inbox has pushed, and those that it has stolen, in order.
pub struct Hand {
    pub pushed: LinkedList<u32>,
    pub stolen: LinkedList<u32>,
}

// The places that a pass of the queue has out, the latest first.
pub struct Keeper {
    pub out: LinkedList<u32>,
}
