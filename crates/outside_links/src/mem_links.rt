// A connection in memory.
ghost use Rattle.std.specs.Prelude.{◌≡◌, ◌↔◌, ◌≤◌, [], false, length, map, take, is_ok, IfOk, OnOk, OnErr, IsOk, IsErr, IsTrue};
ghost use Rattle.outside_links.specs.Link.{Fails, Reads, SendsPart, Writes};
ghost use Rattle.outside_links.specs.Exchanges.{Exchanges-none, Exchanges-behind};
ghost use Rattle.outside_links.specs.MemLink.{MemExchanges, Passes, after_read, after_write, items_of, mem_link_state, next_bytes, next_cut, pass_empty, read_fails, taken_of};

use crate::cuts::Cut;
use crate::faults::Failed;
use crate::links::Link;
use crate::pieces::Pieces;
use std::alloc::{AllocError, Global};
use std::marker::Model;

/// A link in memory, which shows what was written to it and fails only at the calls that it was
/// told and where its room ends.
pub struct MemLink {
    pieces: Pieces,
    out: Vec<u8>,
    room: u64,
    failing_reads: Vec<u64>,
    failing_writes: Vec<Cut>,
    reads: u64,
    writes: u64,
    ended: bool,
    used: bool,
    faults: u64,
}

impl Drop for MemLink {
    fn drop(self) {
        let MemLink {
            pieces: _,
            out: _,
            room: _,
            failing_reads: _,
            failing_writes: _,
            reads: _,
            writes: _,
            ended: _,
            used: _,
            faults: _,
        } = self;
    }
}

impl Model for MemLink {
    ghost use Rattle.std.specs.Prelude.{◌≡◌, ◌≤◌, true, vec_len, vec_capacity};
    ghost use Rattle.outside_links.specs.MemLink.{Linked};

    ghost Value = { Linked };

    ghost view = { λ l. record {
      pieces = l.pieces;
      out = l.out.items;
      room = l.room;
      failing_reads = l.failing_reads.items;
      failing_writes = l.failing_writes.items;
      reads = l.reads;
      writes = l.writes;
      ended = l.ended;
      used = l.used;
      faults = l.faults;
    } };

    // The room was reserved when the link was made, so no write takes memory. A link that has
    // ended is used.
    ghost invariant = { λ l. (vec_len l.out ≤ l.room) × (l.room ≤ vec_capacity l.out)
        × (l.ended ≡ true → l.used ≡ true) };
}

impl MemLink {
    /// A link whose peer sends these pieces and ends. There is room for `room` bytes to be
    /// written, which are reserved now.
    ///
    /// A read takes bytes of one piece, as many as fit, and passes over empty pieces. A call of
    /// `read` fails if its number, counted from 0, stands in `failing_reads`, and a call of
    /// `write` with a number in `failing_writes` fails behind the bytes that its cut lets pass, or
    /// that fit. Where two cuts have one number the first stands.
    pub fn new(
        alloc: Global,
        pieces: Vec<Vec<u8>>,
        room: u64,
        failing_reads: Vec<u64>,
        failing_writes: Vec<Cut>,
    ) -> Result<MemLink, AllocError>
        ensures { IfOk result (λ link. link ≡ record {
          pieces = pass_empty (map items_of pieces.items);
          out = [];
          room = room;
          failing_reads = failing_reads.items;
          failing_writes = failing_writes.items;
          reads = 0;
          writes = 0;
          ended = false;
          used = false;
          faults = 0;
        }) }
    {
        let out = Vec::with_capacity(alloc, room as usize)?;
        Ok(MemLink {
            pieces: Pieces::new(alloc, pieces),
            out,
            room,
            failing_reads,
            failing_writes,
            reads: 0,
            writes: 0,
            ended: false,
            used: false,
            faults: 0,
        })
    }

    /// The bytes that were written so far.
    pub fn written(&self) -> &[u8]
        ensures { result.now ≡ self.now.out }
    {
        self.out.as_slice()
    }

    /// Shows that a link which is not used has not ended.
    pub(crate) fn shows_its_end(&self)
        ensures { self.now.used ≡ false → self.now.ended ≡ false }
    {
        let _ = &self.used;
    }

    /// Whether the next read fails.
    fn read_fails(&self) -> bool
        ensures { result ≡ read_fails self.now }
    {
        self.failing_reads.contains(&self.reads)
    }

    /// How many bytes the next write lets pass, where it is cut.
    fn next_cut(&self) -> Option<u64>
        ensures { result ≡ next_cut self.now }
    {
        self.failing_writes
            .iter()
            .find(|cut| cut.call == self.writes)
            .map(|cut| cut.passes)
    }

    /// Whether the next write takes a whole piece of this length.
    fn passes(&self, len: u64) -> bool
        ensures { IsTrue result ↔ Passes self.now len }
    {
        self.next_cut().is_none() && len <= self.room - self.out.len() as u64
    }

    /// How many bytes of a piece of this length the next write takes.
    fn taken_of(&self, len: u64) -> u64
        ensures taken { result ≡ taken_of self.now len }
        ensures within { result ≤ len }
    {
        let left = self.room - self.out.len() as u64;
        self.next_cut().unwrap_or(len).min(len).min(left)
    }
}

impl Link for MemLink {
    ghost state = { mem_link_state };

    ghost exchanged = { MemExchanges };

    fn read(&mut self, into: &mut [u8]) -> Result<u32, Failed>
        requires { (1 ≤ length into.old) × (length into.old ≤ 65536) }
        ensures within { IfOk result (λ count. count ≤ length into.new) }
        ensures taken { IfOk result (λ count.
            MemExchanges self.old self.new (take count into.new) []) }
        ensures none { OnErr result (MemExchanges self.old self.new [] []) }
        ensures ok { IfOk result (Reads (mem_link_state self.old) (mem_link_state self.new)) }
        ensures err { OnErr result (Fails (mem_link_state self.old) (mem_link_state self.new)) }
        ensures later { self.old.faults ≤ self.new.faults }

        // Exactly when it fails, what it lays down, and what the call leaves.
        ensures fails { IsErr result ↔ IsTrue (read_fails self.old) }
        ensures laid { IfOk result (λ count.
            take count into.new ≡ next_bytes self.old.pieces (length into.old)) }
        ensures after { self.new ≡ after_read self.old (length into.old) }
    {
        let failing = self.read_fails();
        self.reads = self.reads.saturating_add(1);
        if failing {
            self.used = true;
            self.faults = self.faults.saturating_add(1);
            return Err(Failed);
        }
        let count = self.pieces.lay(into);
        if count == 0 {
            self.ended = true;
            self.used = true;
        }
        Ok(count as u32)
    }

    fn ended(&self) -> bool {
        self.ended
    }

    fn used(&self) -> bool {
        self.used
    }

    fn write(&mut self, bytes: &[u8]) -> Result<(), Failed>
        ensures sent { OnOk result (MemExchanges self.old self.new [] bytes.now) }
        ensures part { OnErr result (SendsPart MemExchanges self.old self.new bytes.now) }
        ensures ok { OnOk result
            (Writes (mem_link_state self.old) (mem_link_state self.new) bytes.now) }
        ensures err { OnErr result (Fails (mem_link_state self.old) (mem_link_state self.new)) }
        ensures later { self.old.faults ≤ self.new.faults }

        // Exactly when it fails, and what the call leaves.
        ensures passes { IsOk result ↔ Passes self.old (length bytes.now) }
        ensures after { self.new ≡ after_write self.old bytes.now (is_ok result) }
    {
        let len = bytes.len() as u64;
        let passes = self.passes(len);
        let (front, _) = bytes.split_at(self.taken_of(len) as usize);
        match self.out.extend_from_slice(front) {
            Ok(()) => {}
            Err(_) => unreachable!(),
        }
        self.writes = self.writes.saturating_add(1);
        if passes {
            if !bytes.is_empty() {
                self.used = true;
            }
            return Ok(());
        }
        self.used = true;
        self.faults = self.faults.saturating_add(1);
        Err(Failed)
    }

    fn faults(&self) -> u64 {
        self.faults
    }

    ghost nothing = { λ link. Exchanges-none (mem_link_state link) };

    ghost behind = { λ old mid new read read' sent sent' first second.
        Exchanges-behind (mem_link_state old) (mem_link_state mid) (mem_link_state new) read read' sent sent' first second };

    ghost tells = { λ old new read sent told. told };
}
