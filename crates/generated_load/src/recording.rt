//! The recording of the load.
ghost use Rattle.std.specs.Prelude.{◌≡◌, ◌<◌, ◌≤◌, [], IfOk};
ghost use Rattle.std.specs.List.{AllByRecursion};
ghost use Rattle.recording_format.specs.Standing.{standing_behind};
ghost use Rattle.recording_format.specs.Recorded.{Fits};
ghost use Rattle.generated_load.specs.Recording.{beginnings, opened, soak_records};

use crate::generator::Generator;
use crate::requests::request;
use recording_format::{Event, Piece, Record, Recording};
use std::alloc::{AllocError, Global};

/// The most connections.
const MOST_LINKS: u32 = 16;

/// How many requests arrive in a millisecond.
const IN_A_MILLISECOND: u32 = 8;

/// So many connections of the one tenant begin.
fn begun(alloc: Global, links: u32) -> Result<Recording, AllocError>
    requires { links ≤ 16 }
    ensures records { IfOk result (λ recording. recording ≡ beginnings links) }
    ensures stands { IfOk result (λ recording. standing_behind recording ≡ record { last = 0; links = opened links }) }
{
    let mut recording = Recording::new(alloc);
    for link in 0..links {
        recording.push(Record {
            moment: 0,
            link,
            event: Event::Begins(0),
        })?;
    }
    Ok(recording)
}

/// The recording of `soak START COUNT`: on at most 16 connections, which begin at moment 0, a request arrives on one after the other, eight in each millisecond. What is asked and with which body, the generator draws from `start` on.
///
/// Only want of memory keeps it from being made. It takes memory for the requests, about a kilobyte each.
pub fn soak_recording(alloc: Global, start: u64, count: u32) -> Result<Recording, AllocError>
    requires some { 1 ≤ count }
    requires few { count ≤ 4096 }
    ensures records { IfOk result (λ recording. recording ≡ soak_records start count) }
{
    let links = count.min(MOST_LINKS);
    let mut recording = begun(alloc, links)?;
    let mut generator = Generator::new(start);
    for place in 0..count {
        let piece = request(alloc, generator.draw())?;
        recording.push(Record {
            moment: place / IN_A_MILLISECOND,
            link: place % links,
            event: Event::Arrives(Piece::new(piece)),
        })?;
    }
    Ok(recording)
}
