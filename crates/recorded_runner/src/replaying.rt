//! The replay of a recording.
ghost use Rattle.std.specs.Prelude.{◌≡◌, ◌<◌, ◌^◌, ℕ, IfOk, IfErr, length};
ghost use Rattle.recording_format.specs.Connections.{tenants_of};
ghost use Rattle.serve_config.specs.Loaded.{programs_in};
ghost use Rattle.serve_config.specs.Routing.{all_routes};
ghost use Rattle.recorded_arrivals.specs.Limits.{IsTooMany};
ghost use Rattle.recorded_runner.specs.Fates.{decided};
ghost use Rattle.recorded_runner.specs.Alone.{alone};
ghost use Rattle.recorded_runner.specs.Readings.{replies_in, replies_to};
ghost use Rattle.recorded_runner.specs.ReplayText.{replay_text, replies_on};
ghost use Rattle.recorded_runner.specs.Serving.{AreOwned, AreProgramsOf, IsPlayed};

use crate::deciding::decide_all;
use crate::laws::tenants_are_isolated;
use crate::played::Played;
use crate::serving::serve_all;
use outside::Gate;
use recorded_arrivals::arrivals_of;
use recorded_arrivals::laws::items_within_limits;
use recording_format::{Event, Record, Recording, RecordingFault};
use serve_config::Config;
use serve_config::laws::routes_are_numbered;
use std::alloc::{AllocError, Global};
use std::sync::Arc;
use std::thread::Threads;
use wasm_instance::Program;

/// Answers a recording: the text of the replies to all its items, and what they took.
///
/// The programs are those of the configuration's routes, in order, and the recording is one that was read with its number of tenants. A recording of more than 4,096 items is refused as 77, `TooManyRequests`, before any request runs; the only other error is want of memory.
///
/// The whole text has fewer than 2^32 bytes, and so have the replies of each connection. So the text tells their length, and they can be read back from it. Of each tenant they are, in order, those of the recording without the connections of all others: no tenant's replies depend on what the others ask.
///
/// Each connection's pieces go through a `Front`, in the order of the records. The meters are asked for the requests in the order of their arrival. All requests that are admitted are made before the first turn, each with its body, so all bodies stand in memory at once.
///
/// Then they run as one batch: as many workers as the configuration says take them up in any order, in turns of its quantum, by its policy, on its berths of the largest pages that a route has; the calling thread finishes what they leave. The gate is passed before each turn by whichever worker runs it, 0 to `workers` - 1, or `workers` for the calling thread, with the request's number among those that are admitted and the turns that it has had. Behind the last turn the replies are made, in the order of the items.
pub fn replay<R: Threads + Sync, G: Gate>(
    rt: &R,
    alloc: Global,
    config: &Config,
    programs: &[Arc<Program>],
    recording: &Recording,
    gate: &G,
) -> Result<Played, RecordingFault>
    requires programs { AreProgramsOf (all_routes config.now.tenants) (programs_in programs.now) }
    requires tenants { AreOwned (length config.now.tenants) recording.now }
    ensures played { IfOk result (λ played. IsPlayed config.now (programs_in programs.now) recording.now played) }
    ensures refused { IfErr result (IsTooMany recording.now) }
    ensures short { IfOk result (λ played. (link : ℕ)
        → length (replies_on config.now.tenants (programs_in programs.now) link (decided config.now.tenants recording.now)) < 2 ^ 32) }
    ensures fits { IfOk result (λ played. length played.text.items < 2 ^ 32) }
    ensures isolated { IfOk result (λ played. (tenant : ℕ)
        → replies_to tenant recording.now played.text.items
        ≡ replies_in (alone tenant recording.now) (replay_text config.now (programs_in programs.now) (alone tenant recording.now))) }
{
    items_within_limits();
    routes_are_numbered();
    tenants_are_isolated();
    let arrived = arrivals_of(alloc, recording)?;
    let owners = owners_of(alloc, recording.records())?;
    let decided = decide_all(alloc, config, owners.as_slice(), arrived)?;
    let connections = recording.connections();
    Ok(serve_all(rt, alloc, config, programs, connections, decided, gate)?)
}

/// The tenants of all connections, in order.
fn owners_of(alloc: Global, records: &[Record]) -> Result<Vec<u32>, AllocError>
    ensures { IfOk result (λ owners. owners.items ≡ tenants_of records.now) }
{
    let mut owners = Vec::new(alloc);
    for one in records {
        if let Event::Begins(tenant) = &one.event {
            owners.push(*tenant)?;
        }
    }
    Ok(owners)
}
