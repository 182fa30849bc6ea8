//! A recording, which reading and code make alike.
ghost use Rattle.std.specs.Prelude.{◌≡◌, ◌≤◌, [], ◌∷◌, ◌++◌, ◌<◌, length, vec_len, vec_capacity, OnOk, OnErr};
ghost use Rattle.recording_format.specs.Connections.{connections_of};
ghost use Rattle.recording_format.specs.Following.{LinkFollows, MayFollow, IsLegal, is_open};
ghost use Rattle.recording_format.specs.Standing.{links_behind, behind, standing_behind};

use crate::records::{Event, Record};
use std::alloc::{AllocError, Global};
use std::marker::Model;

/// A recording: records that follow one another, from an empty one on. A connection that is open behind the last record ends there.
///
/// Contracts see it as the list of its records, which is legal: moments never fall, connections begin with the links 0, 1, 2 and so on, at most 1,024 of them, and no record is of a link that has not begun or is closed.
#[derive(Drop)]
pub struct Recording {
    records: Vec<Record>,

    // The moment of the last record, or 0.
    last: u32,

    // Of each connection that has begun, whether it is open.
    links: Vec<bool>,
}

impl Model for Recording {
    ghost use Rattle.std.specs.Prelude.{◌≡◌, List};
    ghost use Rattle.recording_format.specs.declared.records.Record.{Record as RecordValue};
    ghost use Rattle.recording_format.specs.Standing.{standing_behind};
    ghost use Rattle.recording_format.specs.Following.{IsLegal};

    ghost Value = { List RecordValue };

    ghost view = { λ recording. recording.records.items };

    ghost invariant = { λ recording. IsLegal recording.records.items × (standing_behind recording.records.items ≡ record { last = recording.last; links = recording.links.items }) };
}

impl Recording {
    /// A recording of no records.
    pub fn new(alloc: Global) -> Self
        ensures { result ≡ [] }
    {
        Recording {
            records: Vec::new(alloc),
            last: 0,
            links: Vec::new(alloc),
        }
    }

    /// The records, in order.
    pub fn records(&self) -> &[Record]
        ensures same { result.now ≡ self.now }
        ensures legal { IsLegal result.now }
    {
        self.records.as_slice()
    }

    /// The moment of the last record, in milliseconds; 0 where there is none.
    pub fn last(&self) -> u32
        ensures { result ≡ (standing_behind self.now).last }
    {
        self.last
    }

    /// How many connections have begun, at most 1,024. It is the link of the next one.
    pub fn connections(&self) -> u32
        ensures begun { result ≡ length (standing_behind self.now).links }
        ensures all { result ≡ length (connections_of self.now) }
        ensures few { result ≤ 1024 }
    {
        self.links.len() as u32
    }

    /// Whether the connection of this link has begun and is not closed.
    pub fn is_open(&self, link: u32) -> bool
        ensures { result ≡ is_open (standing_behind self.now).links link }
    {
        self.links.get(link as usize).copied().unwrap_or(false)
    }

    /// Adds a record behind the others. Where there is no memory for it, nothing changes.
    pub fn push(&mut self, next: Record) -> Result<(), AllocError>
        requires { MayFollow (standing_behind self.old) next }
        ensures ok { OnOk result (self.new ≡ self.old ++ next ∷ []) }
        ensures stands { OnOk result (standing_behind self.new ≡ behind (standing_behind self.old) next) }
        ensures err { OnErr result (self.new ≡ self.old) }
    {
        self.records.try_reserve(1)?;
        self.links.try_reserve(1)?;
        mark(&mut self.links, next.link, &next.event);
        self.last = next.moment;
        self.records.push_reserved(next);
        Ok(())
    }
}

// Marks what an event does to its connection. There is room for one that begins.
fn mark(links: &mut Vec<bool>, link: u32, event: &Event)
    requires room { vec_len links.old < vec_capacity links.old }
    requires follows { LinkFollows links.old.items link event.now }
    ensures { links.new.items ≡ links_behind links.old.items link event.now }
{
    match event {
        Event::Begins(_) => links.push_reserved(true),
        Event::Arrives(_) => {}
        Event::Closes => links[link as usize] = false,
    }
}
