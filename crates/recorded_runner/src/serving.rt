//! Serving all items: their requests run by the workers of a batch, and their replies in order.
ghost use Rattle.std.specs.Prelude.{◌≡◌, ◌∷◌, [], ◌++◌, ◌+◌, ◌*◌, ◌^◌, ◌≤◌, ◌<◌, ℕ, List, length, map, IfOk, OnOk};
ghost use Rattle.std.specs.List.{AllByRecursion};
ghost use Rattle.serve_config.specs.Configuration.{Configuration};
ghost use Rattle.serve_config.specs.Loaded.{programs_in};
ghost use Rattle.serve_config.specs.Routing.{all_routes};
ghost use Rattle.wasm_meaning.specs.Programs.{Program as ProgramValue};
ghost use Rattle.recorded_runner.specs.Batch.{FirstIs, IsAnswerFor, IsWithinBudgets, behind};
ghost use Rattle.recorded_runner.specs.Fates.{Decided as DecidedValue};
ghost use Rattle.recorded_runner.specs.ReplayText.{replies_on};
ghost use Rattle.recorded_runner.specs.Seen.{awaited_seen, decided_seen};
ghost use Rattle.recorded_runner.specs.Serving.{AreProgramsOf, IsServable};
ghost use Rattle.recorded_runner.specs.Sizes.{AreWithin, most_reply};
ghost use Rattle.recorded_runner.specs.Tallies.{IsSmall, IsTallied, IsWritten};

use crate::answering::{Replied, reply_next};
use crate::batching::{Awaited, Batch, batch_of};
use crate::deciding::Decided;
use crate::played::{Played, Summary};
use crate::replies::{Replies, add_reply, no_replies, text_of};
use crate::settings::settings_of;
use outside::Gate;
use sandbox_states::Answer;
use serve_config::Config;
use std::alloc::{AllocError, Global};
use std::collections::VecDeque;
use std::sync::Arc;
use std::thread::Threads;
use wasm_instance::Program;
use wasm_meaning::laws::requests_keep_their_verdict;
use workers::run_batch;

/// The replies so far, connection by connection, and what they took.
#[derive(Drop)]
pub(crate) struct Tally {
    replies: Vec<Replies>,
    summary: Summary,
}

/// Serves all items: runs the requests of those that are admitted as one batch, and then makes all replies in order.
pub(crate) fn serve_all<R: Threads + Sync, G: Gate>(
    rt: &R,
    alloc: Global,
    config: &Config,
    programs: &[Arc<Program>],
    connections: u32,
    decided: Vec<Decided>,
    gate: &G,
) -> Result<Played, AllocError>
    requires programs { AreProgramsOf (all_routes config.now.tenants) (programs_in programs.now) }
    requires servable { AllByRecursion (λ (d : DecidedValue). IsServable config.now.tenants d.fate)
        (map decided_seen decided.items) }
    requires begun { AllByRecursion (λ (d : DecidedValue). d.link < connections)
        (map decided_seen decided.items) }
    requires few { length decided.items ≤ 4096 }
    requires links { connections ≤ 1024 }
    ensures written { IfOk result
        (λ played. IsWritten config.now (programs_in programs.now) connections (map decided_seen decided.items) played) }
    ensures short { IfOk result (λ played. (link : ℕ)
        → length (replies_on config.now.tenants (programs_in programs.now) link (map decided_seen decided.items)) < 2 ^ 32) }
    ensures fits { IfOk result (λ played. length played.text.items < 2 ^ 32) }
{
    requests_keep_their_verdict();
    // The ranges that each configuration keeps bound the budgets, and so the units.
    let _tenants = config.tenants();
    let Batch { awaited, jobs } = batch_of(alloc, config, programs, decided)?;
    let answers = run_batch(rt, alloc, jobs, &settings_of(config), gate)?;
    let mut answers = VecDeque::from_vec(answers);
    let mut tally = Tally {
        replies: no_replies(alloc, connections)?,
        summary: Summary::nothing(),
    };
    for item in awaited {
        serve_next(alloc, config, item, &mut answers, &mut tally)?;
    }
    played(alloc, tally)
}

/// Adds the reply to the next item, and what it took.
fn serve_next(
    alloc: Global,
    config: &Config,
    item: Awaited,
    answers: &mut VecDeque<Answer>,
    tally: &mut Tally,
) -> Result<(), AllocError>
    requires servable { IsServable config.now.tenants (awaited_seen item).fate }
    requires answered { FirstIs IsWithinBudgets (awaited_seen item).fate answers.old.items }
    requires begun { item.link < length tally.old.replies.items }
    requires small { IsSmall tally.old.summary }
    requires few { tally.old.summary.requests < 4096 }
    ensures tallied { (programs : List ProgramValue) (done : List DecidedValue)
        → FirstIs (IsAnswerFor config.now.tenants programs config.now.quantum)
        (awaited_seen item).fate answers.old.items
        → IsTallied config.now programs done tally.old.replies.items tally.old.summary
        → OnOk result (IsTallied config.now programs (done ++ awaited_seen item ∷ [])
        tally.new.replies.items tally.new.summary) }
    ensures left { answers.new.items ≡ behind (awaited_seen item).fate answers.old.items }
    ensures short { (most : ℕ) → AreWithin most tally.old.replies.items
        → OnOk result (AreWithin (most + most_reply) tally.new.replies.items) }
    ensures small { OnOk result (IsSmall tally.new.summary) }
    ensures counted { OnOk result (length tally.new.replies.items ≡ length tally.old.replies.items) }
{
    let link = item.link;
    let Replied {
        reply,
        admitted,
        turns,
        units,
    } = reply_next(alloc, config, item, answers)?;
    add_reply(&mut tally.replies, link, reply.as_slice())?;
    tally.summary = tally.summary.with(admitted, turns, units);
    Ok(())
}

/// What comes of all replies.
fn played(alloc: Global, tally: Tally) -> Result<Played, AllocError>
    requires few { length tally.replies.items < 4294967296 }
    ensures written { (config : Configuration) (programs : List ProgramValue) (done : List DecidedValue)
        → IsTallied config programs done tally.replies.items tally.summary
        → IfOk result (λ played. IsWritten config programs (length tally.replies.items) done played) }
    ensures short { (config : Configuration) (programs : List ProgramValue) (done : List DecidedValue) (most : ℕ)
        → IsTallied config programs done tally.replies.items tally.summary
        → AreWithin most tally.replies.items
        → (link : ℕ) → length (replies_on config.tenants programs link done) ≤ most }
    ensures fits { (most : ℕ) → AreWithin most tally.replies.items
        → IfOk result (λ played. length played.text.items ≤ 4 + 8 * length tally.replies.items + most) }
{
    let text = text_of(alloc, tally.replies.as_slice())?;
    Ok(Played {
        text,
        summary: tally.summary,
    })
}
