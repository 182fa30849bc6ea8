//! A desk's own queue, which knows when it is full.
ghost use Rattle.std.specs.Prelude.{◌≡◌, ◌<◌, ◌≤◌, ◌++◌, ◌∷◌, ◌↔◌, [], length, IfOk, IfSome, IfNone, IsNone};
ghost use Rattle.std.specs.Bool.{Decides};
ghost use Rattle.run_queues.specs.Serving.{Takes};
ghost use Rattle.worker_desks.specs.Sharing.{empty_queue};

use run_queues::{Entry, Local, Policy};
use std::alloc::{AllocError, Global};
use std::marker::Model;

// How many entries a desk's queue has room for: as many as there are places.
const ROOM: u32 = 256;

// The entries of what the desk has stopped, and how many there are.
pub(crate) struct OwnQueue {
    local: Local,
    count: u32,
}

impl Drop for OwnQueue {
    fn drop(self) {
        let OwnQueue { local: _, count: _ } = self;
    }
}

impl Model for OwnQueue {
    ghost use Rattle.std.specs.Prelude.{◌≡◌, ◌≤◌, length};
    ghost use Rattle.run_queues.specs.Queue.{Queue};

    ghost Value = { Queue };

    ghost view = { λ own. own.local };

    ghost invariant = { λ own. (own.count ≡ length own.local.entries) × (own.count ≤ 256) × (own.local.room ≡ 256) };
}

impl OwnQueue {
    // An empty queue with room for 256 entries.
    pub(crate) fn new(alloc: Global, policy: Policy) -> Result<OwnQueue, AllocError>
        ensures { IfOk result (λ own. own ≡ empty_queue policy 256) }
    {
        let local = Local::new(alloc, policy, ROOM)?;
        Ok(OwnQueue { local, count: 0 })
    }

    // Whether there are 256 entries.
    pub(crate) fn is_full(&self) -> bool
        ensures { Decides result (256 ≤ length self.now.entries) }
    {
        self.count >= ROOM
    }

    // Whether there is more than one entry, so that another worker may go on with one.
    pub(crate) fn has_others(&self) -> bool
        ensures { Decides result (2 ≤ length self.now.entries) }
    {
        self.count >= 2
    }

    // Adds an entry.
    pub(crate) fn push(&mut self, entry: Entry)
        requires room { length self.old.entries < 256 }
        ensures { self.new ≡ record self.old { entries = self.old.entries ++ entry ∷ [] } }
    {
        self.local.push(entry);
        self.count += 1;
    }

    // Takes out the entry that the policy serves next.
    pub(crate) fn next(&mut self) -> Option<Entry>
        ensures some { IfSome result (λ entry. Takes self.old.policy self.old.entries self.new.entries entry) }
        ensures none { IsNone result ↔ (self.old.entries ≡ []) }
        ensures same { IfNone result (self.new ≡ self.old) }
        ensures queue { (self.new.policy ≡ self.old.policy) × (self.new.room ≡ self.old.room) }
    {
        let entry = self.local.next()?;
        self.count -= 1;
        Some(entry)
    }
}
