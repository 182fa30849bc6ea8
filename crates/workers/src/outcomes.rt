//! What replies report of answers.
ghost use Rattle.std.specs.Prelude.{◌≡◌};
ghost use Rattle.http_front.specs.Reported.{IsOutcome, reported};
ghost use Rattle.sandbox_states.specs.Views.{told};
ghost use Rattle.workers.specs.Outcomes.{IsShort, reported_verdict};

use http_front::Outcome;
use sandbox_states::{Answer, Verdict};

/// What the reply reports of an answer's verdict, for `reply_text`. A function that ends itself with code 0 has replied.
///
/// A reply has at most 65,536 bytes, an exit code 32 bits, and the text of a trap at most 64 bytes.
pub fn outcome(answer: &Answer) -> Outcome<'_>
    ensures reports { reported result ≡ reported_verdict answer.now.verdict }
    ensures tells { IsOutcome result }
    ensures short { IsShort (reported result) }
{
    outcome_of(answer.verdict())
}

/// The same of a verdict alone.
pub fn outcome_of(verdict: &Verdict) -> Outcome<'_>
    ensures reports { reported result ≡ reported_verdict (told verdict.now) }
    ensures tells { IsOutcome result }
    ensures short { IsShort (reported result) }
{
    match verdict {
        Verdict::Replied(reply) => Outcome::Bytes(reply.bytes()),
        Verdict::Exit { code: 0, reply } => Outcome::Bytes(reply.bytes()),
        Verdict::Exit { code, .. } => Outcome::Exit(*code),
        Verdict::Trap(why) => Outcome::Trap(why.text()),
        Verdict::Spent => Outcome::Spent,
    }
}
