//! What a pass of the common queue knows.

use std::collections::LinkedList;

// How many of all parts the pass has, and the numbers that its draws gave, in order. No value of it is made.
pub struct Drawer {
    pub parts: u64,
    pub drawn: LinkedList<u64>,
}
