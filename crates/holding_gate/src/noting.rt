//! A gate that notes who passed it, with what, in which order.

use outside::Gate;
use std::alloc::{AllocError, Global};
use std::sync::atomic::{AtomicU32, AtomicU64, Ordering};

/// A pass of a gate: before a turn, by whom and for which request.
#[derive(Clone, Copy, Debug, PartialEq, Eq)]
pub struct Passed {
    /// The worker's number, or the number of workers where the caller passed.
    pub worker: u32,

    /// The place of the request.
    pub place: u32,

    /// How many turns the request had had.
    pub turn: u64,
}

// Where a pass is noted.
#[derive(Drop)]
struct Note {
    worker: AtomicU32,
    place: AtomicU32,
    turn: AtomicU64,
}

/// A gate that lets everybody through and notes the passes in their order, as many as it has room
/// for.
///
/// With one worker this is the order in which the requests took their turns. With several it is
/// one of the orders that their passes may have had.
#[derive(Drop)]
pub struct NotingGate {
    passes: AtomicU64,
    notes: Vec<Note>,
}

impl NotingGate {
    /// A gate that nobody has passed, with room for the notes of so many passes. It takes no
    /// memory later.
    pub fn new(alloc: Global, room: u32) -> Result<NotingGate, AllocError> {
        let mut notes = Vec::with_capacity(alloc, room as usize)?;
        for _ in 0..room {
            notes.push(Note {
                worker: AtomicU32::new(0),
                place: AtomicU32::new(0),
                turn: AtomicU64::new(0),
            })?;
        }
        Ok(NotingGate {
            passes: AtomicU64::new(0),
            notes,
        })
    }

    /// How often it was passed, also where there was no room for a note.
    pub fn passes(&self) -> u64 {
        self.passes.load(Ordering::SeqCst)
    }

    /// The pass of this number, from 0: `None` where there were fewer, or no room for its note.
    /// It tells the whole of a pass only after the workers have ended.
    pub fn passed(&self, number: u64) -> Option<Passed> {
        if self.passes() <= number {
            return None;
        }
        let note = self.notes.get(number as usize)?;
        Some(Passed {
            worker: note.worker.load(Ordering::SeqCst),
            place: note.place.load(Ordering::SeqCst),
            turn: note.turn.load(Ordering::SeqCst),
        })
    }
}

impl Gate for NotingGate {
    fn pass(&self, worker: u32, place: u32, turn: u64) {
        let number = self.passes.fetch_add(1, Ordering::SeqCst);
        if let Some(note) = self.notes.get(number as usize) {
            note.worker.store(worker, Ordering::SeqCst);
            note.place.store(place, Ordering::SeqCst);
            note.turn.store(turn, Ordering::SeqCst);
        }
    }
}
