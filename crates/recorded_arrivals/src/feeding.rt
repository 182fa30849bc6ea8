//! Feeding the connections of a recording to their fronts.
ghost use Rattle.std.specs.Prelude.{◌≡◌, ℕ, ◌≤◌, ◌<◌, List, ◌++◌, [], length, map, IfOk, IfErr, OnOk, vec_len};
ghost use Rattle.http_front.specs.Views.{heard_of};
ghost use Rattle.recording_format.specs.declared.records.Record.{Record as RecordValue};
ghost use Rattle.recording_format.specs.Connections.{tenants_of};
ghost use Rattle.recording_format.specs.Standing.{standing_behind};
ghost use Rattle.recorded_arrivals.specs.Arrivals.{arrivals, arrivals_behind, arrived_at, endings_from};
ghost use Rattle.recorded_arrivals.specs.Feeding.{AreFed, FeedsAt, IsBegun, Takes};
ghost use Rattle.recorded_arrivals.specs.Limits.{IsTooMany};
ghost use Rattle.recorded_arrivals.specs.Seen.{arrival_seen};

use crate::arrivals::Arrival;
use http_front::{Front, Item};
use recording_format::{Event, Record, Recording, RecordingFault};
use std::alloc::{AllocError, Global};

/// The most items of all connections.
const MOST_ITEMS: usize = 4096;

/// The refusal of a recording that has more.
const TOO_MANY_REQUESTS: u8 = 77;

/// All items of all connections, each once, in the order in which they are complete: by the record of the piece that completes them, then by their place in the stream. Behind them come those that the ends of the streams complete, connection by connection.
///
/// A recording that has more than 4,096 is refused as 77. The only other error is want of memory.
/// Each byte is looked at once, but for the head of a request that comes in several pieces. Memory is taken for the items, and for each connection for what has come of an unfinished request, at most about twice that; a body that is announced and does not come takes none.
pub fn arrivals_of(alloc: Global, recording: &Recording) -> Result<Vec<Arrival>, RecordingFault>
    ensures all { IfOk result (λ all. map arrival_seen all.items ≡ arrivals recording.now) }
    ensures few { IfOk result (λ all. vec_len all ≤ 4096) }
    ensures refused { IfErr result (IsTooMany recording.now) }
{
    let Fed {
        fronts,
        mut arrived,
    } = feed_all(alloc, recording)?;
    end_all(fronts, recording.last(), &mut arrived)?;
    if arrived.len() > MOST_ITEMS {
        return Err(RecordingFault::Refused(TOO_MANY_REQUESTS));
    }
    Ok(arrived)
}

/// The connections once all records were fed to them, and the items that came out.
#[derive(Drop)]
struct Fed {
    fronts: Vec<Front>,
    arrived: Vec<Arrival>,
}

/// Feeds all records.
fn feed_all(alloc: Global, recording: &Recording) -> Result<Fed, RecordingFault>
    ensures fed { IfOk result (λ fed. AreFed 0 recording.now fed.fronts.items) }
    ensures begun { IfOk result (λ fed. length fed.fronts.items ≡ length (tenants_of recording.now)) }
    ensures few { IfOk result (λ fed. length fed.fronts.items ≤ 1024) }
    ensures arrived { IfOk result (λ fed. map arrival_seen fed.arrived.items ≡ arrivals_behind [] recording.now) }
    ensures refused { IfErr result (IsTooMany recording.now) }
{
    let mut fronts = Vec::new(alloc);
    let mut arrived = Vec::new(alloc);
    for record in recording.records() {
        let items = take(alloc, &mut fronts, record)?;
        append(&mut arrived, record.link, record.moment, items)?;
        if arrived.len() > MOST_ITEMS {
            return Err(RecordingFault::Refused(TOO_MANY_REQUESTS));
        }
    }
    Ok(Fed { fronts, arrived })
}

/// Takes a record, and answers the items that it completes.
fn take(alloc: Global, fronts: &mut Vec<Front>, one: &Record) -> Result<Vec<Item>, AllocError>
    requires { IsBegun (length fronts.old.items) one.now.link one.now.event }
    ensures { IfOk result (λ items. Takes one.now.event one.now.link fronts.old.items fronts.new.items (map heard_of items.items)) }
{
    match &one.event {
        Event::Begins(_) => {
            fronts.push(Front::new(alloc))?;
            Ok(Vec::new(alloc))
        }
        Event::Arrives(piece) => feed(fronts, one.link, piece.as_slice()),
        Event::Closes => Ok(Vec::new(alloc)),
    }
}

/// Feeds a piece to the front of its connection.
fn feed(fronts: &mut Vec<Front>, link: u32, piece: &[u8]) -> Result<Vec<Item>, AllocError>
    requires { link < length fronts.old.items }
    ensures { IfOk result (λ items. FeedsAt link piece.now fronts.old.items fronts.new.items (map heard_of items.items)) }
{
    fronts[link as usize].feed(piece)
}

/// Appends items of a connection.
fn append(
    arrived: &mut Vec<Arrival>,
    link: u32,
    moment: u32,
    items: Vec<Item>,
) -> Result<(), AllocError>
    ensures { OnOk result (map arrival_seen arrived.new.items ≡ map arrival_seen arrived.old.items ++ map (arrived_at link moment) (map heard_of items.items)) }
{
    for item in items {
        arrived.push(Arrival { link, moment, item })?;
    }
    Ok(())
}

/// Ends all connections, each of which is one of those of the recording, in order.
fn end_all(fronts: Vec<Front>, moment: u32, arrived: &mut Vec<Arrival>) -> Result<(), AllocError>
    requires few { length fronts.items ≤ 1024 }
    ensures { (records : List RecordValue) (owners : List ℕ) → AreFed 0 records fronts.items → length fronts.items ≡ length owners → moment ≡ (standing_behind records).last
        → OnOk result (map arrival_seen arrived.new.items ≡ map arrival_seen arrived.old.items ++ endings_from 0 owners records) }
{
    let mut link = 0;
    for front in fronts {
        append(arrived, link, moment, front.finish()?)?;
        link += 1;
    }
    Ok(())
}
