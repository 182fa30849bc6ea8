//! Where a desk finds its next duty.
ghost use Rattle.std.specs.Prelude.{◌≡◌, ◌+◌, ◌<◌, ◌≤◌, ◌^◌, None, IfSome, length, vec_capacity};
ghost use Rattle.std.specs.List.{All};
ghost use Rattle.job_board.specs.Boarding as boards;
ghost use Rattle.job_board.specs.Boarding.{places_of};
ghost use Rattle.memory_pool.specs.Passing as pools;
ghost use Rattle.worker_desks.specs.Parts.{Begins, Resumes};
ghost use Rattle.worker_desks.specs.Sharing.{IsEntryOf};

use crate::berths::take_berth;
use crate::claims::{begin_next, resume_own, take_over};
use crate::duties::Duty;
use crate::tasks::Task;
use job_board::{Board, BoardPass};
use memory_pool::{Berth, Pool, PoolPass};
use run_queues::{Common, CommonPass, Local};
use sandbox_states::Sandbox;

// A request that begins, where there is a berth for it. The berth goes into stock where no request does.
pub(crate) fn begin(
    board: &Board<Task>,
    board_pass: &mut BoardPass<Task>,
    queue: &Common,
    queue_pass: &mut CommonPass,
    pool: &Pool,
    pool_pass: &mut PoolPass,
    stock: &mut Vec<Berth>,
) -> Option<Duty>
    requires board { boards.IsPassOf board.now board_pass.old }
    requires free { board_pass.old.held ≡ None }
    requires queue { queue_pass.old.id ≡ queue.now.id }
    requires drawn { All (λ place. place < places_of board.now) queue.now.places }
    requires pool { pools.IsPassOf pool.now pool_pass.old }
    requires room { 1 ≤ vec_capacity stock.old }
    ensures begun { Begins pool.now pool_pass.old pool_pass.new stock.old.items stock.new.items queue.now queue_pass.old queue_pass.new board_pass.old board_pass.new result }
    ensures room { vec_capacity stock.new ≡ vec_capacity stock.old }
{
    let berth = take_berth(pool, pool_pass, stock)?;
    match begin_next(board, board_pass, queue, queue_pass) {
        Some(job) => Some(Duty::Begin(job, berth)),
        None => {
            stock.push_reserved(berth);
            None
        }
    }
}

// A request that was stopped, of the desk's own queue or at any place.
pub(crate) fn resume(
    board: &Board<Task>,
    pass: &mut BoardPass<Task>,
    local: &mut Local,
) -> Option<Sandbox>
    requires own { boards.IsPassOf board.now pass.old }
    requires free { pass.old.held ≡ None }
    requires entries { All (IsEntryOf (places_of board.now)) local.old.entries }
    ensures resumed { Resumes local.old.policy local.old.entries local.new.entries (places_of board.now) pass.old pass.new result }
    ensures few { IfSome result (λ sandbox. sandbox.turns ≤ 2 ^ 40) }
    ensures queue { (local.new.policy ≡ local.old.policy) × (local.new.room ≡ local.old.room) }
{
    match resume_own(board, pass, local) {
        Some(sandbox) => Some(sandbox),
        None => take_over(board, pass),
    }
}
