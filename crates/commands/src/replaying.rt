//! The replay of a recording: the configuration and its modules, then the recording, then the run.

ghost use Rattle.std.specs.Prelude.{◌≡◌, ◌≤◌, IfOk, length};
ghost use Rattle.recorded_runner.specs.Serving.{AreOwned, AreProgramsOf};
ghost use Rattle.serve_config.specs.Loaded.{programs_in};
ghost use Rattle.serve_config.specs.Routing.{all_routes};
ghost use Rattle.commands.specs.CommandLine.{replay_view};
ghost use Rattle.commands.specs.Endings.{IsBrief, due};
ghost use Rattle.commands.specs.Plans.{Comes};
ghost use Rattle.commands.specs.ReplayPlans.{check_recording, recording_end, recording_plan, replay_plan, replayed};

use crate::checking::{Configured, prepare};
use crate::command::Replay;
use crate::ending::Ending;
use outside::{Fetch, Gate, Library};
use recorded_runner::{Recording, RecordingFault, read_recording, replay};
use std::alloc::{AllocError, Global};
use std::thread::Threads;

/// The most bytes of a recording's file.
const RECORDING_LIMIT: u64 = 1 << 25;

/// The ending of a `replay`, by the reads that are made here.
pub fn replay_files<R: Threads + Sync, L: Library, G: Gate>(
    rt: &R,
    alloc: Global,
    words: Replay<'_>,
    lib: &mut L,
    gate: &G,
) -> Result<Ending, AllocError>
    ensures comes { IfOk result
        (Comes L.gave (replay_plan (replay_view words.entry)) lib.old lib.new) }
    ensures brief { IfOk result IsBrief }
    ensures same { (L.state lib.new).held ≡ (L.state lib.old).held }
    ensures later { (L.state lib.old).faults ≤ (L.state lib.new).faults }
{
    match prepare(alloc, words.config_name, lib) {
        Ok(ready) => {
            let ending = from_recording(rt, alloc, &ready, words.recording_name, lib, gate);
            drop(ready);
            ending
        }
        Err(why) => why.into_ending(),
    }
}

/// The ending of a `replay` from the reading of its recording on.
fn from_recording<R: Threads + Sync, L: Library, G: Gate>(
    rt: &R,
    alloc: Global,
    ready: &Configured,
    name: &str,
    lib: &mut L,
    gate: &G,
) -> Result<Ending, AllocError>
    requires programs { AreProgramsOf (all_routes ready.now.config.tenants)
        (programs_in ready.now.programs.items) }
    ensures comes { IfOk result (Comes L.gave
        (recording_plan name.now ready.now.config (programs_in ready.now.programs.items))
        lib.old lib.new) }
    ensures brief { IfOk result IsBrief }
    ensures same { (L.state lib.new).held ≡ (L.state lib.old).held }
    ensures later { (L.state lib.old).faults ≤ (L.state lib.new).faults }
{
    // One byte more is read of a longer file, by which its reader sees that it is too long.
    match lib.read(alloc, name, RECORDING_LIMIT) {
        Ok(bytes) => from_bytes(rt, alloc, ready, bytes.as_slice(), gate),
        Err(Fetch::Missing) => Ending::not_read(alloc, name),
        Err(Fetch::Failed) => Ending::not_read(alloc, name),
        Err(Fetch::NoMemory) => Err(AllocError),
    }
}

/// The ending of a `replay` once the bytes of its recording are there.
fn from_bytes<R: Threads + Sync, G: Gate>(
    rt: &R,
    alloc: Global,
    ready: &Configured,
    bytes: &[u8],
    gate: &G,
) -> Result<Ending, AllocError>
    requires programs { AreProgramsOf (all_routes ready.now.config.tenants)
        (programs_in ready.now.programs.items) }
    ensures brief { IfOk result IsBrief }
    ensures due { IfOk result (λ e. e ≡ due
        (recording_end ready.now.config (programs_in ready.now.programs.items)
        (check_recording (length ready.now.config.tenants) bytes.now))) }
{
    let tenants = ready.config.tenants();
    match read_recording(alloc, bytes, tenants.len() as u32) {
        Ok(recording) => {
            let ending = from_replay(rt, alloc, ready, &recording, gate);
            drop(recording);
            ending
        }
        Err(RecordingFault::Refused(number)) => Ending::recording_fault(alloc, number),
        Err(RecordingFault::NoMemory) => Err(AllocError),
    }
}

/// The ending of a `replay` of this recording.
fn from_replay<R: Threads + Sync, G: Gate>(
    rt: &R,
    alloc: Global,
    ready: &Configured,
    recording: &Recording,
    gate: &G,
) -> Result<Ending, AllocError>
    requires programs { AreProgramsOf (all_routes ready.now.config.tenants)
        (programs_in ready.now.programs.items) }
    requires tenants { AreOwned (length ready.now.config.tenants) recording.now }
    ensures brief { IfOk result IsBrief }
    ensures due { IfOk result (λ e. e ≡ due
        (replayed ready.now.config (programs_in ready.now.programs.items) recording.now)) }
{
    let programs = ready.programs.as_slice();
    match replay(rt, alloc, &ready.config, programs, recording, gate) {
        Ok(played) => Ending::replayed(alloc, played),
        Err(RecordingFault::Refused(number)) => Ending::recording_fault(alloc, number),
        Err(RecordingFault::NoMemory) => Err(AllocError),
    }
}
