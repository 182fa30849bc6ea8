//! Laws of histories. The functions do nothing: their contracts are the laws.
ghost use Rattle.std.specs.Prelude.{◌+◌, ◌*◌, ◌≤◌, List, ◌∷◌};
ghost use Rattle.tenant_meters.specs.Chains.{Asked, HaveAsked, StandInOneHistory, EndsWithItsLatest};
ghost use Rattle.tenant_meters.specs.Histories.{empty_bucket, behind_calls, IsLegal, entered};
ghost use Rattle.tenant_meters.specs.Metered.{PassView};
ghost use Rattle.tenant_meters.specs.declared.callers.Call.{Call};
ghost use Rattle.tenant_meters.specs.declared.callers.Terms.{Terms};

use admission::laws::any_questions;

/// What any calls of one pass come to, one after another, whatever other passes ask in between.
///
/// The history goes on from what was seen, and the pass has just these calls more, each once and in order. Where there was one, the history is legal, has of the calls with the pass's number just its own, and ends with the latest.
pub fn calls_stand_in_one_history()
    ensures asked { (given : Terms) (old new : PassView) (asked : List Asked) → HaveAsked given old new asked → StandInOneHistory old new asked }
    ensures history { (given : Terms) (old new : PassView) (first : Asked) (more : List Asked) → HaveAsked given old new (first ∷ more) → EndsWithItsLatest given new }
{}

/// What a legal history lets in, whoever made its calls: at most the capacity, and what leaks from the moment 0 to its last one.
pub fn legal_histories_are_limited()
    ensures { (given : Terms) (calls : List Call) → IsLegal (empty_bucket given) calls → entered calls ≤ given.capacity + given.rate * (behind_calls (empty_bucket given) calls).last }
{
    any_questions();
}
