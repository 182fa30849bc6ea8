//! Rows of a board of one job and of a vacant one, and a hundred jobs that two threads pass between them.
ghost use Rattle.std.specs.Prelude.{◌≡◌, ◌+◌, ◌<◌, ◌≤◌, ◌≢◌, true, None, length, IfOk};
ghost use Rattle.job_board.specs.Words.{IsResting};
ghost use Rattle.job_board.specs.Ends.{AreUnbegun};
ghost use Rattle.job_board.specs.Boarding.{places_of, IsPassOf};
ghost use Rattle.library_tests.specs.declared.boards.jobs.Job.{Job};

mod jobs;

use self::jobs::{Job, turned, waiting};
use job_board::{Board, BoardPass, Claim, Fill, Kind, State, Word};
use std::alloc::{AllocError, Global};
use std::test::Fail;
use std::thread::{Threads, join};

const WAITS: Word = Word {
    turns: 0,
    state: State::Waiting,
};

// Gives a job one turn more, or tells the word that was found in place of this one.
fn run_turn(board: &Board<Job>, pass: &mut BoardPass<Job>, place: u32, seen: Word) -> Option<Word>
    requires place { place < places_of board.now }
    requires own { IsPassOf board.now pass.old × (pass.old.held ≡ None) }
    requires seen { IsResting seen.state × (seen.state ≢ State.Answered) × (seen.turns < 1000) }
    ensures { IsPassOf board.now pass.new × (pass.new.held ≡ None) × (pass.new.parts ≡ pass.old.parts) }
{
    match board.claim(pass, place, seen) {
        Claim::Got(job) => {
            board.put_suspended(pass, place, turned(job, Kind::Suspended));
            None
        }
        Claim::Other(word) => Some(word),
    }
}

#[test]
fn one_holder_at_a_time(rt: HostRuntime) -> Result<(), Fail> {
    let mut jobs = Vec::with_capacity(rt.alloc(), 1)?;
    jobs.push_reserved(waiting(0));
    let (board, mut pass) = Board::new(rt.alloc(), jobs, 7)?;
    let mut other = board.split(&mut pass);
    assert_eq!(rt; board.look(&mut pass, 0), WAITS);
    let Claim::Got(job) = board.claim(&mut pass, 0, WAITS) else {
        panic!(rt; "nobody else claims");
    };
    let held = Word {
        turns: 0,
        state: State::Held(Kind::Waiting),
    };
    assert_eq!(rt; run_turn(&board, &mut other, 0, WAITS), Some(held));
    board.put_suspended(&mut pass, 0, turned(job, Kind::Suspended));
    let suspended = Word {
        turns: 1,
        state: State::Suspended,
    };
    assert_eq!(rt; run_turn(&board, &mut other, 0, WAITS), Some(suspended));
    board.join(&mut pass, other);
    let jobs = board.close(pass);
    assert_eq!(rt; jobs.len(), 1);
    Ok(())
}

#[test]
fn vacant_places_are_used_again(rt: HostRuntime) -> Result<(), Fail> {
    let (board, mut pass) = Board::vacant(rt.alloc(), 1)?;
    let vacant = board.look(&mut pass, 0);
    assert_eq!(rt; vacant.state, State::Vacant);
    assert!(rt; matches!(board.fill(&mut pass, 0, waiting(0)), Fill::Filled));
    assert!(rt; matches!(board.fill(&mut pass, 0, waiting(0)), Fill::Other(_, WAITS)));
    let Claim::Got(job) = board.claim(&mut pass, 0, WAITS) else {
        panic!(rt; "nobody else claims");
    };
    board.put_answered(&mut pass, 0, turned(job, Kind::Answered));
    let answered = Word {
        turns: 1,
        state: State::Answered,
    };
    assert!(rt; matches!(board.vacate(&mut pass, 0, answered), Claim::Got(_)));
    assert_eq!(rt; board.look(&mut pass, 0), vacant);
    Ok(())
}

// Gives each job that is free and has had fewer than a hundred turns one turn more, place by place, so many times.
fn pass_round(board: &Board<Job>, pass: &mut BoardPass<Job>, places: u32, rounds: u32)
    requires places { places ≤ places_of board.now }
    requires own { IsPassOf board.now pass.old × (pass.old.held ≡ None) × (board.now.terms.fixed ≡ true) }
    ensures { IsPassOf board.now pass.new × (pass.new.held ≡ None) × (pass.new.parts ≡ pass.old.parts) }
{
    for _ in 0..rounds {
        for place in 0..places {
            turn_at(board, pass, place);
        }
    }
}

fn turn_at(board: &Board<Job>, pass: &mut BoardPass<Job>, place: u32)
    requires place { place < places_of board.now }
    requires own { IsPassOf board.now pass.old × (pass.old.held ≡ None) × (board.now.terms.fixed ≡ true) }
    ensures { IsPassOf board.now pass.new × (pass.new.held ≡ None) × (pass.new.parts ≡ pass.old.parts) }
{
    let seen = board.look(pass, place);
    if seen.turns >= 100 {
        return;
    }
    match seen.state {
        State::Waiting | State::Suspended => {
            run_turn(board, pass, place, seen);
        }
        _ => {}
    }
}

// So many jobs that wait.
fn all_waiting(alloc: Global, places: u32) -> Result<Vec<Job>, AllocError>
    ensures { IfOk result (λ jobs. (length jobs.items ≡ places) × AreUnbegun (λ (job : Job). job.place) (λ (job : Job). job.kind) (λ (job : Job). job.turns) jobs.items) }
{
    let mut jobs = Vec::with_capacity(alloc, places as usize)?;
    for place in 0..places {
        jobs.push_reserved(waiting(place));
    }
    Ok(jobs)
}

// Two threads pass the jobs between them, and then one goes on until each has had its turns.
fn pass_by_two<R: Threads + Sync>(
    rt: &R,
    board: &Board<Job>,
    mut pass: BoardPass<Job>,
) -> BoardPass<Job>
    requires places { 100 ≤ places_of board.now }
    requires own { IsPassOf board.now pass × (pass.held ≡ None) × (pass.parts ≡ 65536) × (board.now.terms.fixed ≡ true) }
    ensures { IsPassOf board.now result × (result.held ≡ None) × (result.parts ≡ 65536) }
{
    let other = board.split(&mut pass);
    let (mut pass, other) = join(
        rt,
        move || -> BoardPass<Job>
            requires { (100 ≤ places_of board.now) × IsPassOf board.now pass × (pass.held ≡ None) × (board.now.terms.fixed ≡ true) }
            ensures { IsPassOf board.entry.now result × (result.held ≡ None) × (result.parts ≡ pass.parts) }
        { passed(board, pass) },
        move || -> BoardPass<Job>
            requires { (100 ≤ places_of board.now) × IsPassOf board.now other × (other.held ≡ None) × (board.now.terms.fixed ≡ true) }
            ensures { IsPassOf board.entry.now result × (result.held ≡ None) × (result.parts ≡ other.parts) }
        { passed(board, other) },
    );
    board.join(&mut pass, other);
    pass_round(board, &mut pass, 100, 100);
    pass
}

fn passed(board: &Board<Job>, mut pass: BoardPass<Job>) -> BoardPass<Job>
    requires places { 100 ≤ places_of board.now }
    requires own { IsPassOf board.now pass × (pass.held ≡ None) × (board.now.terms.fixed ≡ true) }
    ensures { IsPassOf board.now result × (result.held ≡ None) × (result.parts ≡ pass.parts) }
{
    pass_round(board, &mut pass, 100, 60);
    pass
}

#[test]
fn two_threads_pass_a_hundred_jobs(rt: HostRuntime) -> Result<(), Fail> {
    let (board, pass) = Board::new(rt.alloc(), all_waiting(rt.alloc(), 100)?, 7)?;
    let pass = pass_by_two(&rt, &board, pass);
    let jobs = board.close(pass);
    for (i, job) in jobs.iter().enumerate() {
        assert_eq!(rt; (job.place as usize, job.turns), (i, 100));
    }
    assert_eq!(rt; jobs.len(), 100);
    Ok(())
}
