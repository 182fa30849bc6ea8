//! What a board is made for, and what a pass knows. No value of `Terms`, `Hold`, `Note` and `Holder` is made.

use crate::words::Word;
use std::collections::LinkedList;
use std::snapshot::Snapshot;

// What a board was made for: whether it was made of jobs, which then are its first ones, and the quantum of their turns.
#[derive(Drop)]
pub struct Charter<J> {
    pub fixed: bool,
    pub quantum: u64,
    pub jobs: Snapshot<Vec<J>>,
}

// The same as plain data.
pub struct Terms<J> {
    pub fixed: bool,
    pub quantum: u64,
    pub jobs: LinkedList<J>,
}

// A place that a pass holds, and the word that it found there.
pub struct Hold {
    pub place: u64,
    pub found: Word,
}

// A word that a pass saw or stored at a place.
pub struct Note {
    pub place: u64,
    pub word: Word,
}

// What a pass knows: its parts of all, the terms of its board, the place that it holds, and what it saw and stored.
pub struct Holder<J> {
    pub parts: u64,
    pub terms: Terms<J>,
    pub held: Option<Hold>,
    pub notes: LinkedList<Note>,
}
