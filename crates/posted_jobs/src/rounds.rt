//! A worker's round over all places.
ghost use Rattle.std.specs.Prelude.{◌≡◌, ◌<◌, ◌≤◌, ◌≢◌, ◌^◌, false, None, MatchOption};
ghost use Rattle.job_board.specs.Boarding.{places_of, IsPassOf};
ghost use Rattle.posted_jobs.specs.Rounds.{IsRound, Refuses, IsClaimed, MayClaim, Claims};

use crate::jobs::PostedJob;
use job_board::{Board, BoardPass, Claim, State, Word};

/// Looks at each place once, in order, until there is a job to run: one that was stopped, or one that waits and whose program has at most the pages of the berth at hand. The pass then holds its place. It takes no memory, and waits for nobody.
///
/// `berth` is the pages of that berth, and none where there is none. No job comes only where each place was refused in this call: its look found a job that neither waits nor was stopped, or one that waits where there is no berth; or the claim of the word seen found another one; or the job that was claimed wants more pages, and was put back.
pub fn next_job(
    board: &Board<PostedJob>,
    pass: &mut BoardPass<PostedJob>,
    berth: Option<u32>,
) -> Option<PostedJob>
    requires own { IsPassOf board.now pass.old }
    requires free { pass.old.held ≡ None }
    requires open_board { board.now.terms.fixed ≡ false }
    ensures { IsRound berth (places_of board.now) pass.old pass.new result }
{
    for place in 0..board.places() {
        match job_at(board, pass, place, berth) {
            Some(job) => return Some(job),
            None => {}
        }
    }
    None
}

// The job of this place, if there is one to run.
fn job_at(
    board: &Board<PostedJob>,
    pass: &mut BoardPass<PostedJob>,
    place: u32,
    berth: Option<u32>,
) -> Option<PostedJob>
    requires own { IsPassOf board.now pass.old }
    requires free { pass.old.held ≡ None }
    requires open_board { board.now.terms.fixed ≡ false }
    requires place { place < places_of board.now }
    ensures { MatchOption result (Refuses berth place pass.old pass.new) (λ job. IsClaimed berth place pass.old pass.new job) }
{
    let seen = board.look(pass, place);
    match seen.state {
        State::Suspended => claim_at(board, pass, place, seen, u32::MAX),
        State::Waiting => match berth {
            Some(room) => claim_at(board, pass, place, seen, room),
            None => None,
        },
        _ => None,
    }
}

/// Claims the job of a place whose word was seen so: one that was stopped, or one that waits. One that waits and whose program has more pages than `room` is put back. It takes no memory, and waits for nobody.
///
/// A job comes with its place, which the pass then holds. None comes only where the claim found another word, or the job was put back. Of a job that was stopped `room` asks nothing.
pub fn claim_at(
    board: &Board<PostedJob>,
    pass: &mut BoardPass<PostedJob>,
    place: u32,
    seen: Word,
    room: u32,
) -> Option<PostedJob>
    requires own { IsPassOf board.now pass.old }
    requires free { pass.old.held ≡ None }
    requires open_board { board.now.terms.fixed ≡ false }
    requires place { place < places_of board.now }
    requires seen { MayClaim seen × (seen.turns < 2 ^ 61) }
    requires unbegun { seen.state ≡ State.Waiting → seen.turns ≡ 0 }
    ensures { Claims room place seen pass.old pass.new result }
{
    match board.claim(pass, place, seen) {
        Claim::Got(job) => match seen.state {
            State::Waiting => {
                let pages = job.pages();
                if room < pages {
                    board.put_waiting(pass, place, job);
                    return None;
                }
                Some(job)
            }
            _ => Some(job),
        },
        Claim::Other(_) => None,
    }
}
