//! The queue of one worker.
ghost use Rattle.std.specs.Prelude.{◌≡◌, ◌<◌, ◌++◌, [], ◌∷◌, ◌↔◌, length, vec_capacity, IfOk, IfSome, IfNone, IsNone};
ghost use Rattle.std.specs.List.{IsFirstBest};
ghost use Rattle.run_queues.specs.Serving.{Takes, comes_before};

use crate::entries::Entry;
use crate::policies::Policy;
use circular_buffer::HeapCircularBuffer;
use std::alloc::{AllocError, Global};
use std::marker::Model;

// The entries, each policy with the form that serves it: a ring gives up its first entry without moving the others.
#[derive(Drop)]
enum Waiting {
    InTurn(HeapCircularBuffer<Entry>),
    ByDeadline(Vec<Entry>),
}

/// A worker's own queue of requests that wait for their next turn.
///
/// Contracts see it as its policy, its room and its entries in the order in which they were pushed. All memory is taken by `new`.
#[derive(Drop)]
pub struct Local {
    room: usize,
    waiting: Waiting,
}

impl Model for Local {
    ghost use Rattle.run_queues.specs.Held.{policy_of, entries_of, HasRoom};
    ghost use Rattle.run_queues.specs.Queue.{Queue};

    ghost Value = { Queue };

    ghost view = { λ local. record { policy = policy_of local.waiting; room = local.room; entries = entries_of local.waiting } };

    ghost invariant = { λ local. HasRoom local.room local.waiting };
}

impl Local {
    /// An empty queue that has room for so many entries.
    pub fn new(alloc: Global, policy: Policy, room: u32) -> Result<Local, AllocError>
        ensures { IfOk result (λ local. local ≡ record { policy = policy; room = room; entries = [] }) }
    {
        let room = room as usize;
        let waiting = match policy {
            Policy::RoundRobin => Waiting::InTurn(HeapCircularBuffer::with_capacity(alloc, room)?),
            Policy::EarliestDeadline => Waiting::ByDeadline(Vec::with_capacity(alloc, room)?),
        };
        Ok(Local { room, waiting })
    }

    /// Adds an entry.
    pub fn push(&mut self, entry: Entry)
        requires room { length self.old.entries < self.old.room }
        ensures { self.new ≡ record self.old { entries = self.old.entries ++ entry ∷ [] } }
    {
        match &mut self.waiting {
            Waiting::InTurn(ring) => match ring.try_push_back(entry) {
                Ok(()) => {}
                Err(_) => unreachable!(),
            },
            Waiting::ByDeadline(entries) => entries.push_reserved(entry),
        }
    }

    /// Takes out the entry that the policy serves next: the first that was pushed, or the least by deadline, then place, then turns. The others keep their order.
    ///
    /// It answers `None` exactly where no entry is held.
    pub fn next(&mut self) -> Option<Entry>
        ensures some { IfSome result (λ entry. Takes self.old.policy self.old.entries self.new.entries entry) }
        ensures none { IsNone result ↔ (self.old.entries ≡ []) }
        ensures same { IfNone result (self.new ≡ self.old) }
        ensures queue { (self.new.policy ≡ self.old.policy) × (self.new.room ≡ self.old.room) }
    {
        match &mut self.waiting {
            Waiting::InTurn(ring) => ring.pop_front(),
            Waiting::ByDeadline(entries) => take_first(entries),
        }
    }
}

// Takes out the least entry, the earliest of several that are equal.
fn take_first(entries: &mut Vec<Entry>) -> Option<Entry>
    ensures some { IfSome result (λ entry. Takes Policy.EarliestDeadline entries.old.items entries.new.items entry) }
    ensures none { IsNone result ↔ (entries.old.items ≡ []) }
    ensures same { IfNone result (entries.new.items ≡ entries.old.items) }
    ensures capacity { vec_capacity entries.new ≡ vec_capacity entries.old }
{
    if entries.is_empty() {
        return None;
    }
    let first = first_of(entries.as_slice());
    Some(entries.remove(first))
}

// The index of the least entry.
fn first_of(entries: &[Entry]) -> usize
    requires { 0 < length entries.now }
    ensures { IsFirstBest comes_before entries.now (length entries.now) result }
{
    let mut first = 0;
    for i in 1..entries.len() {
        if comes_before(&entries[i], &entries[first]) {
            first = i;
        }
    }
    first
}

// Whether an entry is served before another one by earliest deadline.
fn comes_before(entry: &Entry, other: &Entry) -> bool
    ensures { result ≡ comes_before entry.now other.now }
{
    if entry.deadline != other.deadline {
        return entry.deadline < other.deadline;
    }
    if entry.place != other.place {
        return entry.place < other.place;
    }
    entry.turns < other.turns
}
