//! Claims of the places of a board, one by one and along the queues.
ghost use Rattle.std.specs.Prelude.{◌≡◌, ℕ, ◌<◌, ◌≤◌, ◌≢◌, ◌^◌, true, None, Some, IfSome, length, MatchOption};
ghost use Rattle.std.specs.List.{All};
ghost use Rattle.job_board.specs.Boarding.{places_of, IsPassOf};
ghost use Rattle.worker_desks.specs.Parts.{GetsTask, FindsOther, IsBegun, IsResumed, IsTakenOver, unbegun};
ghost use Rattle.worker_desks.specs.Sharing.{IsEntryOf};
ghost use Rattle.worker_desks.specs.declared.tasks.Task.TheVariants as task;

use crate::tasks::Task;
use job_board::{Board, BoardPass, Claim, State, Word};
use run_queues::{Common, CommonPass, Entry, Local};
use sandbox_states::{Admitted, Sandbox};

// The word of a place whose request has not begun.
const UNBEGUN: Word = Word {
    turns: 0,
    state: State::Waiting,
};

// Claims the request of a place as one that has not begun.
fn begin_at(board: &Board<Task>, pass: &mut BoardPass<Task>, place: u32) -> Option<Admitted>
    requires own { IsPassOf board.now pass.old }
    requires place { place < places_of board.now }
    requires free { pass.old.held ≡ None }
    ensures { MatchOption result (FindsOther pass.old pass.new place unbegun) (λ job. GetsTask pass.old pass.new place unbegun (task.Waiting job)) }
{
    match board.claim(pass, place, UNBEGUN) {
        Claim::Got(Task::Waiting(job)) => Some(job),
        Claim::Got(_) => unreachable!(),
        Claim::Other(_) => None,
    }
}

// Claims the request of a place as one that was stopped, after so many turns.
fn resume_at(
    board: &Board<Task>,
    pass: &mut BoardPass<Task>,
    place: u32,
    seen: Word,
) -> Option<Sandbox>
    requires own { IsPassOf board.now pass.old }
    requires place { place < places_of board.now }
    requires free { pass.old.held ≡ None }
    requires seen { (seen.state ≡ State.Suspended) × (seen.turns < 2 ^ 61) }
    ensures claimed { MatchOption result (FindsOther pass.old pass.new place seen) (λ sandbox. GetsTask pass.old pass.new place seen (task.Suspended sandbox)) }
    ensures few { IfSome result (λ sandbox. sandbox.turns ≤ 2 ^ 40) }
{
    match board.claim(pass, place, seen) {
        Claim::Got(Task::Suspended(sandbox)) => {
            let _turns = sandbox.turns();
            Some(sandbox)
        }
        Claim::Got(_) => unreachable!(),
        Claim::Other(_) => None,
    }
}

// Draws a place and claims its request.
pub(crate) fn begin_next(
    board: &Board<Task>,
    pass: &mut BoardPass<Task>,
    queue: &Common,
    queue_pass: &mut CommonPass,
) -> Option<Admitted>
    requires own { IsPassOf board.now pass.old }
    requires free { pass.old.held ≡ None }
    requires queue { queue_pass.old.id ≡ queue.now.id }
    requires drawn { All (λ place. place < places_of board.now) queue.now.places }
    ensures { IsBegun queue.now queue_pass.old queue_pass.new pass.old pass.new result }
{
    match queue.draw(queue_pass) {
        Some(place) => begin_at(board, pass, place),
        None => None,
    }
}

// Goes through a desk's own queue until a claim gets a request.
pub(crate) fn resume_own(
    board: &Board<Task>,
    pass: &mut BoardPass<Task>,
    local: &mut Local,
) -> Option<Sandbox>
    requires own { IsPassOf board.now pass.old }
    requires free { pass.old.held ≡ None }
    requires entries { All (IsEntryOf (places_of board.now)) local.old.entries }
    ensures few { IfSome result (λ sandbox. sandbox.turns ≤ 2 ^ 40) }
    ensures resumed { IsResumed local.old.policy local.old.entries local.new.entries pass.old pass.new result }
    ensures queue { (local.new.policy ≡ local.old.policy) × (local.new.room ≡ local.old.room) }
{
    'entries: while let Some(entry) = local.next() {
        let Entry { place, turns, .. } = entry;
        let seen = Word {
            turns,
            state: State::Suspended,
        };
        match resume_at(board, pass, place, seen) {
            Some(sandbox) => return Some(sandbox),
            None => {}
        }
    }
    None
}

// Looks at each place once until a claim gets a request.
pub(crate) fn take_over(board: &Board<Task>, pass: &mut BoardPass<Task>) -> Option<Sandbox>
    requires own { IsPassOf board.now pass.old }
    requires free { pass.old.held ≡ None }
    ensures taken { IsTakenOver (places_of board.now) pass.old pass.new result }
    ensures few { IfSome result (λ sandbox. sandbox.turns ≤ 2 ^ 40) }
{
    for place in 0..board.places() {
        let seen = board.look(pass, place);
        let State::Suspended = seen.state else {
            continue;
        };
        match resume_at(board, pass, place, seen) {
            Some(sandbox) => return Some(sandbox),
            None => {}
        }
    }
    None
}
