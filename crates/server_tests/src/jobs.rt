//! One place of a vacant board, which serves one request after another: a session posts it, a worker runs it, and the session takes the answer that is its own.
ghost use Rattle.std.specs.Prelude.{◌≡◌, ◌≤◌, ◌<◌, false, None, IfSome};
ghost use Rattle.job_board.specs.Boarding.{places_of, IsPassOf};
ghost use Rattle.worker_desks.specs.Tasks.{place_of, kind_of, turns_of};

use job_board::{Board, BoardPass, Fill, Kind, Placed, State, Word};
use memory_pool::Berth;
use module_files::program_of;
use posted_jobs::{Collected, KeptRequest, PostedJob, collect, next_job};
use sandbox_states::{Turn, Verdict, run_turn, settle, start};
use std::alloc::Global;
use std::process::Abort;
use std::sync::Arc;
use std::test::Fail;
use wasm_instance::Program;
use worker_desks::Task;

// `_start` is a `nop`.
const NOP: [u8; 37] = [
    0x00, 0x61, 0x73, 0x6D, 0x01, 0x00, 0x00, 0x00, 0x01, 0x04, 0x01, 0x60, 0x00, 0x00, 0x03, 0x02,
    0x01, 0x00, 0x07, 0x0A, 0x01, 0x06, 0x5F, 0x73, 0x74, 0x61, 0x72, 0x74, 0x00, 0x00, 0x0A, 0x05,
    0x01, 0x03, 0x00, 0x01, 0x0B,
];

const VACANT: Word = Word {
    turns: 0,
    state: State::Vacant,
};

const WAITS: Word = Word {
    turns: 0,
    state: State::Waiting,
};

// A request to this program, with a body of one byte and so many units of budget.
pub(crate) fn request_to(
    alloc: Global,
    program: &Arc<Program>,
    byte: u8,
    budget: u64,
) -> Option<Arc<KeptRequest>>
    requires { budget ≤ 100 }
{
    let program = Arc::try_clone(program).ok()?;
    let mut body = Vec::new(alloc);
    if body.push(byte).is_err() {
        drop(program);
        return None;
    }
    Arc::new(alloc, KeptRequest::new(program, body, budget)).ok()
}

// A request to run the `nop`, with a budget of 10 units.
fn request(alloc: Global, byte: u8) -> Option<Arc<KeptRequest>> {
    let program = Arc::new(alloc, program_of(alloc, &NOP, 1).ok()?).ok()?;
    request_to(alloc, &program, byte, 10)
}

// A job that waits at this place.
fn waiting(alloc: Global, request: &Arc<KeptRequest>, place: u32) -> Option<PostedJob>
    ensures { IfSome result (λ job. (place_of job.task ≡ place) × (kind_of job.task ≡ Kind.Waiting) × (turns_of job.task ≡ 0)) }
{
    let theirs = Arc::try_clone(request).ok()?;
    PostedJob::new(alloc, theirs, place, 7).ok()
}

// The job after its one turn, on a new berth.
fn turned(alloc: Global, job: PostedJob) -> Option<PostedJob>
    ensures { IfSome result (λ over. (place_of over.task ≡ place_of job.task) × (kind_of over.task ≡ Kind.Answered) × (turns_of job.task ≤ turns_of over.task)) }
{
    let pages = job.pages();
    let (request, task) = job.into_parts();
    let Task::Waiting(admitted) = task else {
        return None;
    };
    if pages != 1 || admitted.pages() != 1 {
        return None;
    }
    let Ok(berth) = Berth::new(alloc, 1) else {
        return None;
    };
    match run_turn(start(admitted, berth), 100) {
        Turn::Suspended(_) => None,
        Turn::Done(finished) => Some(PostedJob::of(request, Task::Answered(settle(finished).0))),
    }
}

// The session puts its request at the place, which is vacant, and then no longer.
fn posts<R: Abort>(
    rt: &R,
    alloc: Global,
    board: &Board<PostedJob>,
    pass: &mut BoardPass<PostedJob>,
    request: &Arc<KeptRequest>,
)
    requires own { IsPassOf board.now pass.old × (pass.old.held ≡ None) }
    requires place { (board.now.terms.fixed ≡ false) × (0 < places_of board.now) }
    ensures { IsPassOf board.now pass.new × (pass.new.held ≡ None) }
{
    assert_eq!(rt; board.look(pass, 0), VACANT);
    let job = waiting(alloc, request, 0).expect(rt, "memory");
    assert!(rt; matches!(board.fill(pass, 0, job), Fill::Filled));
    let again = waiting(alloc, request, 0).expect(rt, "memory");
    let Fill::Other(_, found) = board.fill(pass, 0, again) else {
        panic!(rt; "the place is in use");
    };
    assert_eq!(rt; found, WAITS);
}

// A worker finds no job without a berth, and with one it claims this one, runs it to its end, and puts its answer in its place.
fn works<R: Abort>(rt: &R, alloc: Global, board: &Board<PostedJob>, pass: &mut BoardPass<PostedJob>)
    requires own { IsPassOf board.now pass.old × (pass.old.held ≡ None) }
    requires place { (board.now.terms.fixed ≡ false) × (0 < places_of board.now) }
    ensures { IsPassOf board.now pass.new × (pass.new.held ≡ None) }
{
    assert!(rt; next_job(board, pass, None).is_none());
    let Some(job) = next_job(board, pass, Some(1)) else {
        panic!(rt; "it waits");
    };
    assert_eq!(rt; job.place(), 0);
    let job = turned(alloc, job).expect(rt, "an answer");
    board.put_answered(pass, 0, job);
}

// Whether what was collected answers the request, where something was.
fn is_own(collected: Collected) -> Option<bool> {
    match collected {
        Collected::Answered(verdict) => Some(matches!(verdict, Verdict::Replied(_))),
        Collected::Another => Some(false),
        Collected::NotOver(_) => None,
    }
}

// The session looks for the answer to this request.
fn looks<R: Abort>(
    rt: &R,
    board: &Board<PostedJob>,
    pass: &mut BoardPass<PostedJob>,
    request: &KeptRequest,
    own: Option<bool>,
)
    requires own { IsPassOf board.now pass.old × (pass.old.held ≡ None) }
    requires place { (board.now.terms.fixed ≡ false) × (0 < places_of board.now) }
    ensures { IsPassOf board.now pass.new × (pass.new.held ≡ None) }
{
    assert_eq!(rt; is_own(collect(board, pass, 0, request)), own);
}

#[test]
fn a_place_serves_one_request_after_another(rt: HostRuntime) -> Result<(), Fail> {
    let alloc = rt.alloc();
    let (board, mut pass) = Board::vacant(alloc, 256)?;
    let mut other = board.split(&mut pass);
    let first = request(alloc, 1).expect(&rt, "memory");
    let second = request(alloc, 2).expect(&rt, "memory");
    let equal = request(alloc, 1).expect(&rt, "memory");
    posts(&rt, alloc, &board, &mut pass, &first);
    looks(&rt, &board, &mut pass, &equal, None);
    works(&rt, alloc, &board, &mut other);
    looks(&rt, &board, &mut pass, &equal, Some(true));
    posts(&rt, alloc, &board, &mut pass, &second);
    works(&rt, alloc, &board, &mut other);
    looks(&rt, &board, &mut pass, &first, Some(false));
    Ok(())
}
