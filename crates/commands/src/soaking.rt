//! The load that the program makes for itself, and its replay.

ghost use Rattle.std.specs.Prelude.{◌≡◌, ◌≤◌, Ok, IfOk, length};
ghost use Rattle.recorded_runner.specs.Serving.{AreOwned, AreProgramsOf};
ghost use Rattle.serve_config.specs.Loaded.{programs_in};
ghost use Rattle.serve_config.specs.Loading.{loaded};
ghost use Rattle.serve_config.specs.Routing.{all_routes};
ghost use Rattle.generated_load.specs.Configuration.{soak_configuration};
ghost use Rattle.generated_load.specs.Modules.{soak_files};
ghost use Rattle.generated_load.specs.Recording.{soak_records};
ghost use Rattle.commands.specs.CommandLine.{soak_view};
ghost use Rattle.commands.specs.Endings.{due};
ghost use Rattle.commands.specs.SoakPlans.{soak_end, soak_loaded, summed};

use crate::command::Soak;
use crate::ending::Ending;
use generated_load::laws::load_is_whole;
use generated_load::{soak_config, soak_programs, soak_recording};
use outside::Gate;
use recorded_runner::{Played, Recording, RecordingFault, replay};
use serve_config::Config;
use std::alloc::{AllocError, Global};
use std::sync::Arc;
use std::thread::Threads;
use wasm_instance::Program;

/// The ending of a `soak`.
pub fn soak<R: Threads + Sync, G: Gate>(
    rt: &R,
    alloc: Global,
    words: Soak,
    gate: &G,
) -> Result<Ending, AllocError>
    requires some { 1 ≤ words.count }
    requires few { words.count ≤ 4096 }
    ensures { IfOk result (λ e. e ≡ due (soak_end (soak_view words))) }
{
    let config = soak_config(alloc)?;
    let ending = from_config(rt, alloc, &config, words, gate);
    drop(config);
    ending
}

/// The same from the programs on.
fn from_config<R: Threads + Sync, G: Gate>(
    rt: &R,
    alloc: Global,
    config: &Config,
    words: Soak,
    gate: &G,
) -> Result<Ending, AllocError>
    requires config { config.now ≡ soak_configuration }
    requires some { 1 ≤ words.count }
    requires few { words.count ≤ 4096 }
    ensures { IfOk result (λ e. e ≡ due
        (summed config.now soak_loaded (soak_records words.start words.count))) }
{
    load_is_whole();
    let programs = soak_programs(alloc)?;
    let ending = from_programs(rt, alloc, config, programs.as_slice(), words, gate);
    drop(programs);
    ending
}

/// The same from the recording on.
fn from_programs<R: Threads + Sync, G: Gate>(
    rt: &R,
    alloc: Global,
    config: &Config,
    programs: &[Arc<Program>],
    words: Soak,
    gate: &G,
) -> Result<Ending, AllocError>
    requires config { config.now ≡ soak_configuration }
    requires programs { AreProgramsOf (all_routes config.now.tenants) (programs_in programs.now) }
    requires some { 1 ≤ words.count }
    requires few { words.count ≤ 4096 }
    ensures { IfOk result (λ e. e ≡ due (summed config.now (programs_in programs.now)
        (soak_records words.start words.count))) }
{
    load_is_whole();
    let recording = soak_recording(alloc, words.start, words.count)?;
    let ending = from_recording(rt, alloc, config, programs, &recording, gate);
    drop(recording);
    ending
}

/// The ending once all of the load is there.
fn from_recording<R: Threads + Sync, G: Gate>(
    rt: &R,
    alloc: Global,
    config: &Config,
    programs: &[Arc<Program>],
    recording: &Recording,
    gate: &G,
) -> Result<Ending, AllocError>
    requires programs { AreProgramsOf (all_routes config.now.tenants) (programs_in programs.now) }
    requires tenants { AreOwned (length config.now.tenants) recording.now }
    ensures { IfOk result (λ e. e ≡ due
        (summed config.now (programs_in programs.now) recording.now)) }
{
    match replay(rt, alloc, config, programs, recording, gate) {
        Ok(played) => {
            let Played { text, summary } = played;
            drop(text);
            Ending::summed(alloc, summary)
        }
        Err(RecordingFault::Refused(number)) => Ending::recording_fault(alloc, number),
        Err(RecordingFault::NoMemory) => Err(AllocError),
    }
}
