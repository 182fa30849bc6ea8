//! The job that an admitted request is.
ghost use Rattle.std.specs.Prelude.{◌≡◌, ◌≤◌, ◌<◌, ◌^◌, length, IfOk};
ghost use Rattle.serve_config.specs.Loaded.{programs_in};
ghost use Rattle.serve_config.specs.Routing.{all_routes};
ghost use Rattle.recorded_runner.specs.Batch.{IsJobOf};
ghost use Rattle.recorded_runner.specs.Seen.{entry_seen};

use crate::deciding::Entry;
use sandbox_states::Admitted;
use serve_config::Config;
use std::alloc::{AllocError, Global};
use std::sync::Arc;
use wasi_calls::Streams;
use wasm_instance::Program;

/// The job of a request that is admitted to a route, with its place in its batch. It is the one job that is made of it.
pub(crate) fn job_of(
    alloc: Global,
    config: &Config,
    programs: &[Arc<Program>],
    place: u32,
    entry: Entry,
) -> Result<Admitted, AllocError>
    requires known { entry.route < length (all_routes config.now.tenants) }
    requires each { length programs.now ≡ length (all_routes config.now.tenants) }
    requires fits { length entry.body.items ≤ 2 ^ 20 }
    ensures job { IfOk result
        (IsJobOf config.now.tenants (programs_in programs.now) (entry_seen entry)) }
    ensures place { IfOk result (λ job. job.place ≡ place) }
{
    let Entry {
        route,
        deadline,
        body,
    } = entry;
    let budget = config.route(route).budget;
    let streams = match Streams::new(alloc, body) {
        Ok(streams) => streams,
        Err((body, fault)) => {
            drop(body);
            return Err(fault);
        }
    };
    match programs[route as usize].clone() {
        Ok(program) => Ok(Admitted::new(place, deadline, budget, streams, program)),
        Err(fault) => {
            drop(streams);
            Err(fault)
        }
    }
}
