//! The reader of recordings.
ghost use Rattle.std.specs.Prelude.{◌≡◌, ◌≢◌, ◌⊎◌, ℕ, ◌++◌, ◌∷◌, [], List, length, take, MatchOption, IfOk, IfErr};
ghost use Rattle.std.specs.List.{flat_map, AllByRecursion};
ghost use Rattle.recording_format.specs.declared.records.Record.{Record as RecordValue};
ghost use Rattle.recording_format.specs.declared.refusals.Refusal.{Refusal as RefusalValue};
ghost use Rattle.recording_format.specs.Faults.{IsFor, GivesRecords, GivesRefusal};
ghost use Rattle.recording_format.specs.Recorded.{Recorded, IsRefused, AreRecords, IsRefusedAhead};
ghost use Rattle.recording_format.specs.Spelling.{magic};

use crate::faults::RecordingFault;
use crate::looks::{is_end, record_at, refusal, size};
use crate::recordings::Recording;
use crate::refusals::Refusal;
use std::alloc::Global;

// SLR1
const MAGIC: [u8; 4] = [0x53, 0x4C, 0x52, 0x31];

// The most bytes, 32 MiB.
const MOST_BYTES: usize = 33_554_432;

/// The recording that the bytes spell, all of them, where there are so many tenants.
///
/// Else the first refusal is answered: 76 above 32 MiB; then 70 where the magic is another one; then what is met first behind records, each of which is looked at in this order: 71 no byte is left, 72 its kind, 78 bytes behind the end, 71 its moment or link is cut, 73 its moment, 74 its link, 71 its contents are cut, 76 the 1,025th connection, 75 its tenant.
/// It is one pass over the bytes, which takes memory for the records and a copy of the pieces.
pub fn read_recording(
    alloc: Global,
    bytes: &[u8],
    tenants: u32,
) -> Result<Recording, RecordingFault>
    ensures found { IfOk result (λ recording. Recorded tenants bytes.now recording) }
    ensures refused { IfErr result (λ fault. IsFor fault (IsRefused tenants bytes.now)) }

    // No other answer is possible, but for want of memory.
    ensures only { (records : List RecordValue) → Recorded tenants bytes.now records → GivesRecords result records }
    ensures only_refused { (why : RefusalValue) → IsRefused tenants bytes.now why → GivesRefusal result why }
{
    read_bytes(alloc, bytes, tenants)
}

// The magic, and the records behind it.
fn read_bytes(alloc: Global, bytes: &[u8], tenants: u32) -> Result<Recording, RecordingFault>
    ensures found { IfOk result (λ recording. Recorded tenants bytes.now recording) }
    ensures refused { IfErr result (λ fault. IsFor fault (IsRefused tenants bytes.now)) }
{
    if MOST_BYTES < bytes.len() {
        return Err(Refusal::TooLarge.into());
    }
    let Some(records) = behind_magic(bytes) else {
        return Err(Refusal::BadMagic.into());
    };
    read_records(alloc, records, tenants)
}

// What stands behind the magic, if it stands at the front.
fn behind_magic(bytes: &[u8]) -> Option<&[u8]>
    ensures { MatchOption result (take 4 bytes.now ≢ magic) (λ records. bytes.now ≡ magic ++ records.now) }
{
    bytes.strip_prefix(&MAGIC)
}

// All records up to the end, behind which no byte may stand.
fn read_records(alloc: Global, bytes: &[u8], tenants: u32) -> Result<Recording, RecordingFault>
    ensures found { IfOk result (λ recording. AreRecords tenants bytes.now recording (0 ∷ [])) }
    ensures refused { IfErr result (λ fault. IsFor fault (IsRefusedAhead tenants bytes.now)) }
{
    let mut recording = Recording::new(alloc);
    let mut ahead = bytes;
    'records: loop {
        if let Some(why) = refusal(&recording, tenants, ahead) {
            return Err(why.into());
        }
        if is_end(ahead) {
            return Ok(recording);
        }
        let record = record_at(alloc, ahead)?;
        let (_, rest) = ahead.split_at(size(ahead));
        recording.push(record)?;
        ahead = rest;
    }
}
