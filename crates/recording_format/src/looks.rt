//! What stands at the front of the bytes ahead: why it is refused, or the record that it spells.
ghost use Rattle.std.specs.Prelude.{◌≡◌, ◌==◌, ◌+◌, ◌<◌, ◌≤◌, nat_lt, length, drop, IfOk};
ghost use Rattle.std.specs.Int.{w32, from_le_bytes};
ghost use Rattle.recording_format.specs.Standing.{standing_behind};
ghost use Rattle.recording_format.specs.Looks.{kind_ahead, size_ahead, event_ahead, record_ahead, is_in_order, first_of, looks_at_record, refusal_ahead};

use crate::recordings::Recording;
use crate::records::{Event, Piece, Record};
use crate::refusals::Refusal;
use std::alloc::{AllocError, Global};

// The kinds of records. The greatest one is that of a close.
const END: u8 = 0;

const BEGIN: u8 = 1;

const PIECE: u8 = 2;

const CLOSE: u8 = 3;

// Where the moment and the link of a record lie, the tenant of a beginning or the length of a piece, and the bytes of a piece.
const MOMENT: usize = 1;

const LINK: usize = 5;

const NUMBER: usize = 9;

const BYTES: usize = 13;

// The most connections.
const MOST_CONNECTIONS: u32 = 1024;

/// Why what stands ahead is refused behind these records, if it is.
pub(crate) fn refusal(recording: &Recording, tenants: u32, ahead: &[u8]) -> Option<Refusal>
    ensures { result ≡ refusal_ahead tenants (standing_behind recording.now) ahead.now }
{
    let Some((kind, rest)) = ahead.split_first() else {
        return Some(Refusal::CutShort);
    };
    if CLOSE < *kind {
        return Some(Refusal::UnknownKind);
    }
    if *kind != END {
        return refusal_of_record(recording, tenants, ahead);
    }
    if rest.is_empty() {
        None
    } else {
        Some(Refusal::RestAfterEnd)
    }
}

// Why a record is refused, whose kind is known.
fn refusal_of_record(recording: &Recording, tenants: u32, ahead: &[u8]) -> Option<Refusal>
    ensures { result ≡ first_of (looks_at_record tenants (standing_behind recording.now) ahead.now) }
{
    if ahead.len() < NUMBER {
        return Some(Refusal::CutShort);
    }
    if number_at(ahead, MOMENT) < recording.last() {
        return Some(Refusal::MomentFell);
    }
    let kind = ahead[0];
    let link = number_at(ahead, LINK);
    if !follows(recording, kind, link) {
        return Some(Refusal::LinkOrder);
    }
    if is_cut(ahead) {
        return Some(Refusal::CutShort);
    }
    if MOST_CONNECTIONS <= link {
        return Some(Refusal::TooLarge);
    }
    if kind == BEGIN && tenants <= number_at(ahead, NUMBER) {
        return Some(Refusal::UnknownTenant);
    }
    None
}

// Whether a record of this kind may be on this link.
fn follows(recording: &Recording, kind: u8, link: u32) -> bool
    ensures { result ≡ is_in_order (standing_behind recording.now).links kind link }
{
    if kind == BEGIN {
        link == recording.connections()
    } else {
        recording.is_open(link)
    }
}

// Whether the contents of a record pass the end of the bytes.
fn is_cut(ahead: &[u8]) -> bool
    requires { NUMBER ≤ length ahead.now }
    ensures { result ≡ nat_lt (length ahead.now) (size_ahead ahead.now) }
{
    if ahead[0] == BEGIN {
        ahead.len() < BYTES
    } else if ahead[0] == PIECE {
        ahead.len() < BYTES || ahead.len() - BYTES < number_at(ahead, NUMBER) as usize
    } else {
        false
    }
}

/// Whether the end stands ahead.
pub(crate) fn is_end(ahead: &[u8]) -> bool
    requires { 0 < length ahead.now }
    ensures { result ≡ (kind_ahead ahead.now == END) }
{
    ahead[0] == END
}

/// How many bytes the record ahead has.
pub(crate) fn size(ahead: &[u8]) -> usize
    requires { size_ahead ahead.now ≤ length ahead.now }
    ensures { result ≡ size_ahead ahead.now }
{
    if ahead[0] == BEGIN {
        BYTES
    } else if ahead[0] == PIECE {
        BYTES + number_at(ahead, NUMBER) as usize
    } else {
        NUMBER
    }
}

/// The record ahead.
pub(crate) fn record_at(alloc: Global, ahead: &[u8]) -> Result<Record, AllocError>
    requires { size_ahead ahead.now ≤ length ahead.now }
    ensures { IfOk result (λ r. r ≡ record_ahead ahead.now) }
{
    Ok(Record {
        moment: number_at(ahead, MOMENT),
        link: number_at(ahead, LINK),
        event: event_at(alloc, ahead)?,
    })
}

// What the record ahead says of its connection.
fn event_at(alloc: Global, ahead: &[u8]) -> Result<Event, AllocError>
    requires { size_ahead ahead.now ≤ length ahead.now }
    ensures { IfOk result (λ event. event ≡ event_ahead ahead.now) }
{
    if ahead[0] == BEGIN {
        Ok(Event::Begins(number_at(ahead, NUMBER)))
    } else if ahead[0] == PIECE {
        let (_, behind) = ahead.split_at(BYTES);
        let (bytes, _) = behind.split_at(number_at(ahead, NUMBER) as usize);
        Ok(Event::Arrives(Piece::new(Vec::from_slice(alloc, bytes)?)))
    } else {
        Ok(Event::Closes)
    }
}

// The number that stands at a place, 32 bits wide, its lowest byte first.
fn number_at(bytes: &[u8], place: usize) -> u32
    requires { place + 4 ≤ length bytes.now }
    ensures { result ≡ from_le_bytes w32 (drop place bytes.now) }
{
    let (_, behind) = bytes.split_at(place);
    u32::from_le_bytes([behind[0], behind[1], behind[2], behind[3]])
}
