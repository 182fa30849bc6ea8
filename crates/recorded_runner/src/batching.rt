//! The requests of a batch, and the items whose replies await their answers.
ghost use Rattle.std.specs.Prelude.{◌≡◌, ◌≤◌, ◌<◌, length, map, IfOk, OnOk};
ghost use Rattle.std.specs.List.{AllByRecursion};
ghost use Rattle.serve_config.specs.Loaded.{programs_in};
ghost use Rattle.serve_config.specs.Routing.{all_routes};
ghost use Rattle.recorded_runner.specs.Batch.{AddsJobOf, AreJobsOf};
ghost use Rattle.recorded_runner.specs.Fates.{Decided as DecidedValue};
ghost use Rattle.recorded_runner.specs.Seen.{awaited_seen, decided_seen, fate_seen};
ghost use Rattle.recorded_runner.specs.Serving.{AreProgramsOf, IsServable};
ghost use Rattle.workers.specs.Batches.{AreNumbered};

use crate::deciding::{Decided, Fate};
use crate::jobs::job_of;
use http_front::Refusal;
use sandbox_states::Admitted;
use serve_config::Config;
use std::alloc::{AllocError, Global};
use std::snapshot::Snapshot;
use std::sync::Arc;
use wasm_instance::Program;

/// What the reply to an item is made of.
#[derive(Drop)]
pub(crate) enum Source {
    /// Its refusal.
    Refused(Refusal),

    /// The answer to its request, which is in the batch.
    Answered(Sent),
}

/// A request that went into the batch: the number of its route, and for proofs alone when its answer is due, and its body.
#[derive(Drop)]
pub(crate) struct Sent {
    pub(crate) route: u32,
    deadline: Snapshot<u64>,
    body: Snapshot<Vec<u8>>,
}

/// An item whose reply is still to be made: its connection, whether its reply has no body, whether the connection is kept after it, and what the reply is made of.
#[derive(Drop)]
pub(crate) struct Awaited {
    pub(crate) link: u32,
    pub(crate) head: bool,
    pub(crate) keep: bool,
    pub(crate) source: Source,
}

/// All items in the order of their arrival, and the requests of those that are admitted, in the same order.
#[derive(Drop)]
pub(crate) struct Batch {
    pub(crate) awaited: Vec<Awaited>,
    pub(crate) jobs: Vec<Admitted>,
}

/// The batch of these items: the job of each that is admitted, with its number among them as its place.
pub(crate) fn batch_of(
    alloc: Global,
    config: &Config,
    programs: &[Arc<Program>],
    decided: Vec<Decided>,
) -> Result<Batch, AllocError>
    requires programs { AreProgramsOf (all_routes config.now.tenants) (programs_in programs.now) }
    requires servable { AllByRecursion (λ (d : DecidedValue). IsServable config.now.tenants d.fate)
        (map decided_seen decided.items) }
    requires few { length decided.items ≤ 4096 }
    ensures seen { IfOk result
        (λ batch. map awaited_seen batch.awaited.items ≡ map decided_seen decided.items) }
    ensures jobs { IfOk result (λ batch. AreJobsOf config.now.tenants (programs_in programs.now)
        (map decided_seen decided.items) batch.jobs.items) }
    ensures numbered { IfOk result (λ batch. AreNumbered batch.jobs.items) }
{
    let mut awaited = Vec::with_capacity(alloc, decided.len())?;
    let mut jobs = Vec::with_capacity(alloc, decided.len())?;
    for item in decided {
        awaited.push(add_job(alloc, config, programs, item, &mut jobs)?)?;
    }
    Ok(Batch { awaited, jobs })
}

/// Adds the job of an item that is admitted, and answers what awaits its answer.
fn add_job(
    alloc: Global,
    config: &Config,
    programs: &[Arc<Program>],
    item: Decided,
    jobs: &mut Vec<Admitted>,
) -> Result<Awaited, AllocError>
    requires each { length programs.now ≡ length (all_routes config.now.tenants) }
    requires servable { IsServable config.now.tenants (fate_seen item.fate) }
    requires few { length jobs.old.items < 4096 }
    ensures seen { IfOk result (λ awaited. awaited_seen awaited ≡ decided_seen item) }
    ensures jobs { OnOk result (AddsJobOf config.now.tenants (programs_in programs.now)
        (fate_seen item.fate) jobs.old.items jobs.new.items) }
{
    let Decided {
        link,
        head,
        keep,
        fate,
    } = item;
    let source = match fate {
        Fate::Refused(refusal) => Source::Refused(refusal),
        Fate::Admitted(entry) => {
            let sent = Sent {
                route: entry.route,
                deadline: Snapshot::of(&entry.deadline),
                body: Snapshot::of(&entry.body),
            };
            let place = jobs.len() as u32;
            jobs.push(job_of(alloc, config, programs, place, entry)?)?;
            Source::Answered(sent)
        }
    };
    Ok(Awaited {
        link,
        head,
        keep,
        source,
    })
}
