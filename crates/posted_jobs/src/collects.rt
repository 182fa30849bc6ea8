//! What a session does at its place until its request is answered.
ghost use Rattle.std.specs.Prelude.{◌≡◌, ◌<◌, false, None};
ghost use Rattle.job_board.specs.Boarding.{places_of, IsPassOf};
ghost use Rattle.posted_jobs.specs.Collecting.{IsCollected};

use crate::jobs::PostedJob;
use crate::requests::KeptRequest;
use job_board::{Board, BoardPass, Claim, State, Word};
use sandbox_states::Verdict;

/// What one look for an answer came to.
#[derive(Drop)]
pub enum Collected {
    /// The place is vacant now, and this became of the request.
    Answered(Verdict),

    /// The place is vacant now; what was over there was another request's.
    Another,

    /// The job of the place is not over, or it is no longer there: the word that was found.
    NotOver(Word),
}

/// Looks once whether the job of a place is over, takes it out, and compares its request with this one. It takes no memory, and waits for nobody.
pub fn collect(
    board: &Board<PostedJob>,
    pass: &mut BoardPass<PostedJob>,
    place: u32,
    request: &KeptRequest,
) -> Collected
    requires own { IsPassOf board.now pass.old }
    requires free { pass.old.held ≡ None }
    requires open_board { board.now.terms.fixed ≡ false }
    requires place { place < places_of board.now }
    ensures own { IsPassOf board.now pass.new × (pass.new.held ≡ None) × (pass.new.parts ≡ pass.old.parts) }
    ensures collected { IsCollected request.now pass.old pass.new place result }
{
    let seen = board.look(pass, place);
    match seen.state {
        State::Answered => {}
        _ => return Collected::NotOver(seen),
    }
    match board.vacate(pass, place, seen) {
        Claim::Got(job) => match job.answer_to(request) {
            Some(verdict) => Collected::Answered(verdict),
            None => Collected::Another,
        },
        Claim::Other(word) => Collected::NotOver(word),
    }
}
