// A sink in memory.
ghost use Rattle.std.specs.Prelude.{◌≡◌, ◌≤◌, ◌↔◌, [], length, is_ok, IfOk, OnOk, OnErr, IsOk, IsTrue};
ghost use Rattle.outside.specs.Faults.{FailsOnlyWhereRose};
ghost use Rattle.outside.specs.Sink.{Appends, TakesPrefix};
ghost use Rattle.outside.specs.Page.{PageTook, Passes, next_cut, page_state, taken_of, after_write};

use crate::faults::Failed;
use crate::sinks::Sink;
use std::alloc::{AllocError, Global};
use std::marker::Model;

/// A call of `write` that fails, by its number counted from 0, and how many bytes it lets pass
/// before it fails.
#[derive(Clone, Copy, Debug, PartialEq, Eq)]
pub struct Cut {
    /// The number of the call.
    pub call: u64,
    /// How many of its bytes are taken at most.
    pub passes: u64,
}

/// A sink in memory with a fixed room, which shows what it has taken and fails only at the calls
/// that it was told and where its room ends.
pub struct Page {
    bytes: Vec<u8>,
    room: u64,
    failing: Vec<Cut>,
    calls: u64,
    faults: u64,
}

impl Drop for Page {
    fn drop(self) {
        let Page {
            bytes: _,
            room: _,
            failing: _,
            calls: _,
            faults: _,
        } = self;
    }
}

impl Model for Page {
    ghost use Rattle.std.specs.Prelude.{◌≤◌, vec_len, vec_capacity};
    ghost use Rattle.outside.specs.Page.{Writing};

    ghost Value = { Writing };

    ghost view = { λ p. record {
      bytes = p.bytes.items;
      room = p.room;
      failing = p.failing.items;
      calls = p.calls;
      faults = p.faults;
    } };

    // The room was reserved when the page was made, so no write takes memory.
    ghost invariant = { λ p. (vec_len p.bytes ≤ p.room) × (p.room ≤ vec_capacity p.bytes) };
}

impl Page {
    /// An empty page with room for `room` bytes, which are reserved now. A call of `write` with a
    /// number in `failing` fails after the bytes that its cut lets pass, or that fit. Where two
    /// cuts have one number the first stands.
    pub fn new(alloc: Global, room: u64, failing: Vec<Cut>) -> Result<Page, AllocError>
        ensures { IfOk result (λ page. page
            ≡ record { bytes = []; room = room; failing = failing.items; calls = 0; faults = 0 }) }
    {
        Ok(Page {
            bytes: Vec::with_capacity(alloc, room as usize)?,
            room,
            failing,
            calls: 0,
            faults: 0,
        })
    }

    /// What was written so far.
    pub fn bytes(&self) -> &[u8]
        ensures { result.now ≡ self.now.bytes }
    {
        self.bytes.as_slice()
    }

    /// How many bytes the next call lets pass, where it is cut.
    fn next_cut(&self) -> Option<u64>
        ensures { result ≡ next_cut self.now }
    {
        self.failing
            .iter()
            .find(|cut| cut.call == self.calls)
            .map(|cut| cut.passes)
    }

    /// Whether the next call writes a whole piece of this length.
    fn passes(&self, len: u64) -> bool
        ensures { IsTrue result ↔ Passes self.now len }
    {
        self.next_cut().is_none() && len <= self.room - self.bytes.len() as u64
    }

    /// How many bytes of a piece of this length the next call takes.
    fn taken_of(&self, len: u64) -> u64
        ensures taken { result ≡ taken_of self.now len }
        ensures within { result ≤ len }
    {
        let left = self.room - self.bytes.len() as u64;
        self.next_cut().unwrap_or(len).min(len).min(left)
    }
}

impl Sink for Page {
    ghost state = { page_state };

    ghost took = { PageTook };

    ghost takes = { λ old new bytes all took. took.takes };

    fn write(&mut self, bytes: &[u8]) -> Result<(), Failed>
        ensures taken { PageTook self.old self.new bytes.now (is_ok result) }
        ensures ok { OnOk result (Appends (page_state self.old) (page_state self.new) bytes.now) }
        ensures err { OnErr result
            (TakesPrefix (page_state self.old) (page_state self.new) bytes.now) }
        ensures cause { FailsOnlyWhereRose result self.old.faults self.new.faults }
        ensures later { self.old.faults ≤ self.new.faults }

        // Exactly when it fails, and what the call leaves.
        ensures passes { IsOk result ↔ Passes self.old (length bytes.now) }
        ensures after { self.new ≡ after_write self.old bytes.now (is_ok result) }
    {
        let len = bytes.len() as u64;
        let passes = self.passes(len);
        let (front, _) = bytes.split_at(self.taken_of(len) as usize);
        match self.bytes.extend_from_slice(front) {
            Ok(()) => {}
            Err(_) => unreachable!(),
        }
        self.calls = self.calls.saturating_add(1);
        if passes {
            return Ok(());
        }
        self.faults = self.faults.saturating_add(1);
        Err(Failed)
    }

    fn faults(&self) -> u64 {
        self.faults
    }
}
