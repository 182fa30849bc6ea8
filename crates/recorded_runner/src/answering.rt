//! The reply to one item, and what that took.
ghost use Rattle.std.specs.Prelude.{◌≡◌, ◌+◌, ◌^◌, ◌≤◌, ◌<◌, List, [], length, IfOk};
ghost use Rattle.http_front.specs.Reply.{reply_of};
ghost use Rattle.http_front.specs.Reported.{RefusedAs};
ghost use Rattle.serve_config.specs.Routing.{all_routes};
ghost use Rattle.wasm_meaning.specs.Programs.{Program};
ghost use Rattle.recorded_runner.specs.Batch.{FirstIs, IsAnswerFor, IsWithinBudgets, behind};
ghost use Rattle.recorded_runner.specs.Lookups.{of_member};
ghost use Rattle.recorded_runner.specs.Seen.{awaited_seen};
ghost use Rattle.recorded_runner.specs.Serving.{IsReplyTo, IsServable};
ghost use Rattle.recorded_runner.specs.Sizes.{most_reply};
ghost use Rattle.workers.specs.Outcomes.{reported_verdict};

use crate::batching::{Awaited, Source};
use http_front::{Outcome, Refusal, reply_text};
use sandbox_states::Answer;
use serve_config::Config;
use std::alloc::{AllocError, Global};
use std::collections::VecDeque;
use workers::outcome;

/// A reply, how many requests it answers that were admitted, which is one or none, and what these took.
#[derive(Drop)]
pub(crate) struct Replied {
    pub(crate) reply: Vec<u8>,
    pub(crate) admitted: u64,
    pub(crate) turns: u64,
    pub(crate) units: u64,
}

/// The reply to the next item: to a refusal by its text, and to a request by the first of the answers, which is taken out. For whichever programs that is the answer to its request, the reply is the item's.
pub(crate) fn reply_next(
    alloc: Global,
    config: &Config,
    item: Awaited,
    answers: &mut VecDeque<Answer>,
) -> Result<Replied, AllocError>
    requires servable { IsServable config.now.tenants (awaited_seen item).fate }
    requires answered { FirstIs IsWithinBudgets (awaited_seen item).fate answers.old.items }
    ensures replied { (programs : List Program)
        → FirstIs (IsAnswerFor config.now.tenants programs config.now.quantum)
        (awaited_seen item).fate answers.old.items
        → IfOk result (λ r. IsReplyTo config.now programs (awaited_seen item)
        r.reply.items r.admitted r.turns r.units) }
    ensures short { IfOk result (λ r. length r.reply.items ≤ most_reply) }
    ensures few { IfOk result (λ r. (r.admitted ≤ 1) × ((r.turns ≤ 2 ^ 40 + 1) × (r.units ≤ 2 ^ 40))) }
    ensures left { answers.new.items ≡ behind (awaited_seen item).fate answers.old.items }
{
    let Awaited {
        head,
        keep,
        source,
        ..
    } = item;
    match source {
        Source::Refused(refusal) => Ok(Replied {
            reply: reply_to_refusal(alloc, refusal, head, keep)?,
            admitted: 0,
            turns: 0,
            units: 0,
        }),
        Source::Answered(sent) => {
            let Some(answer) = answers.pop_front() else {
                unreachable!()
            };
            let reply = reply_to_answer(alloc, config, sent.route, &answer, head, keep)?;
            Ok(Replied {
                reply,
                admitted: 1,
                turns: answer.turns(),
                units: answer.units(),
            })
        }
    }
}

/// The reply to an item that is refused.
fn reply_to_refusal(
    alloc: Global,
    refusal: Refusal,
    head: bool,
    keep: bool,
) -> Result<Vec<u8>, AllocError>
    ensures reply { IfOk result (λ reply. reply.items ≡ reply_of (RefusedAs refusal) [] head keep) }
    ensures short { IfOk result (λ reply. length reply.items ≤ most_reply) }
{
    let reply = reply_text(alloc, Outcome::Refused(refusal.number()), "", head, keep)?;
    Ok(reply)
}

/// The reply to a request of a route, from its answer.
fn reply_to_answer(
    alloc: Global,
    config: &Config,
    route: u32,
    answer: &Answer,
    head: bool,
    keep: bool,
) -> Result<Vec<u8>, AllocError>
    requires known { route < length (all_routes config.now.tenants) }
    ensures reply { IfOk result (λ reply. reply.items ≡ reply_of (reported_verdict answer.now.verdict)
        (of_member (λ r. r.content_type) [] (all_routes config.now.tenants) route) head keep) }
    ensures short { IfOk result (λ reply. length reply.items ≤ most_reply) }
{
    let content_type = config.route(route).content_type.as_str();
    let reply = reply_text(alloc, outcome(answer), content_type, head, keep)?;
    Ok(reply)
}
