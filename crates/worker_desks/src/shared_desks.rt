//! A desk over the board, the pool and the queue that all workers share.
ghost use Rattle.std.specs.Prelude.{◌≡◌, ℕ, ◌+◌, ◌*◌, ◌<◌, ◌≤◌, ◌^◌, true, None, Some, IfOk, IfErr, IfSome, IfNone};
ghost use Rattle.std.specs.List.{All};
ghost use Rattle.job_board.specs.Boarding.{places_of};
ghost use Rattle.job_board.specs.Boarding as boards;
ghost use Rattle.memory_pool.specs.Passing as pools;
ghost use Rattle.sandbox_states.specs.Stands.{IsOneTurn};
ghost use Rattle.wasm_store.specs.View.{View};
ghost use Rattle.worker_desks.specs.Desks.{Closes, Gives, Regains};
ghost use Rattle.worker_desks.specs.Duties.{IsDelivered, OfDuty};
ghost use Rattle.worker_desks.specs.Nexts.{IsNext, IsPutBack, IsTakenIn};
ghost use Rattle.worker_desks.specs.Noted.{most_turns};
ghost use Rattle.worker_desks.specs.Sharing.{new_desk, state_of, served_by};
ghost use Rattle.worker_desks.specs.Tasks.{FitsIn};

use crate::berths::give_back;
use crate::desks::Desk;
use crate::duties::Duty;
use crate::finds::{begin, resume};
use crate::sharing::Shared;
use crate::tasks::Task;
use job_board::{Board, BoardPass};
use memory_pool::{Berth, Pool, PoolPass};
use run_queues::{Common, CommonPass, Entry, Local, Policy};
use sandbox_states::laws::turns_keep;
use sandbox_states::{Answer, Sandbox};
use std::alloc::{AllocError, Global};
use std::marker::Model;
use std::snapshot::Snapshot;

/// A worker's desk over shared objects, for each of which it has a pass.
///
/// Contracts see the objects and the passes, the desk's own queue with its policy and its room, the berths that it has in stock and how many it has memory for, the duty that is out, how many it has given, and whether its last `next` gave none.
///
/// All its memory is taken by `new`. No call changes the policy, the room of the queue, or the memory of the stock.
#[derive(Drop)]
pub struct SharedDesk<'a> {
    board: &'a Board<Task>,
    board_pass: BoardPass<Task>,
    pool: &'a Pool,
    pool_pass: PoolPass,
    queue: &'a Common,
    queue_pass: CommonPass,
    local: Local,
    stock: Vec<Berth>,
    // What is out, for proofs alone.
    out: Option<Snapshot<Duty>>,
    // Wide enough for the turns of all places: 2^32 of 2^40 + 1 each.
    given: u128,
    ended: bool,
}

impl<'a> Model for SharedDesk<'a> {
    ghost use Rattle.std.specs.Prelude.{◌+◌, ◌≤◌, vec_capacity};
    ghost use Rattle.job_board.specs.Boarding.{places_of};
    ghost use Rattle.worker_desks.specs.Handed.{duty_out};
    ghost use Rattle.worker_desks.specs.Sharing.{SharedView, IsShared};

    ghost Value = { SharedView };

    ghost view = { λ d. record { board = d.board.now; board_pass = d.board_pass; pool = d.pool.now; pool_pass = d.pool_pass; queue = d.queue.now; queue_pass = d.queue_pass; local = d.local; stock = d.stock.items; stock_room = vec_capacity d.stock; out = duty_out d.out; given = d.given; ended = d.ended } };

    ghost invariant = { λ d. IsShared (record { board = d.board.now; board_pass = d.board_pass; pool = d.pool.now; pool_pass = d.pool_pass; queue = d.queue.now; queue_pass = d.queue_pass; local = d.local; stock = d.stock.items; stock_room = vec_capacity d.stock; out = duty_out d.out; given = d.given; ended = d.ended }) × (places_of d.board.now + 1 ≤ vec_capacity d.stock) };
}

impl<'a> SharedDesk<'a> {
    /// A desk with these passes, which are of these objects. It takes all its memory here: room for one entry and one berth more than the board has places.
    ///
    /// The board was made of jobs, and its pass holds no place; all places of the queue are the board's; the pool's berths have at least the pages of each request's program. Where memory runs out the passes come back.
    pub fn new(
        alloc: Global,
        policy: Policy,
        board: &'a Board<Task>,
        board_pass: BoardPass<Task>,
        pool: &'a Pool,
        pool_pass: PoolPass,
        queue: &'a Common,
        queue_pass: CommonPass,
    ) -> Result<SharedDesk<'a>, (BoardPass<Task>, PoolPass, CommonPass, AllocError)>
        requires board { boards.IsPassOf board.now board_pass × (board_pass.held ≡ None) × (board.now.terms.fixed ≡ true) }
        requires pool { pools.IsPassOf pool.now pool_pass }
        requires queue { queue_pass.id ≡ queue.now.id }
        requires drawn { All (λ place. place < places_of board.now) queue.now.places }
        requires roomy { All (FitsIn pool.now.pages) board.now.terms.jobs }
        ensures desk { IfOk result (λ desk. desk
            ≡ new_desk policy board.now board_pass pool.now pool_pass queue.now queue_pass desk.stock_room) }
        ensures stock { IfOk result (λ desk. places_of board.now + 1 ≤ desk.stock_room) }
        ensures bound { IfOk result (λ desk. (state_of desk).bound ≤ places_of board.now * most_turns) }
        ensures refused { IfErr result (λ back. (back.0 ≡ board_pass) × (back.1 ≡ pool_pass) × (back.2 ≡ queue_pass)) }
    {
        let places = board.places();
        let local = match Local::new(alloc, policy, places + 1) {
            Ok(local) => local,
            Err(fault) => return Err((board_pass, pool_pass, queue_pass, fault)),
        };
        let stock = match Vec::with_capacity(alloc, places as usize + 1) {
            Ok(stock) => stock,
            Err(fault) => {
                drop(local);
                return Err((board_pass, pool_pass, queue_pass, fault));
            }
        };
        Ok(SharedDesk {
            board,
            board_pass,
            pool,
            pool_pass,
            queue,
            queue_pass,
            local,
            stock,
            out: None,
            given: 0,
            ended: false,
        })
    }

    /// Takes a desk apart while no duty is out: its passes, which are of the objects that it served, and the berths that it has in stock. The board's pass holds no place, and each berth has the pool's pages.
    pub fn into_parts(self) -> (BoardPass<Task>, PoolPass, CommonPass, Vec<Berth>)
        requires { self.out ≡ None }
        ensures passes { (result.0 ≡ self.entry.board_pass) × (result.1 ≡ self.entry.pool_pass) × (result.2 ≡ self.entry.queue_pass) }
        ensures stock { result.3.items ≡ self.entry.stock }
        ensures board { boards.IsPassOf self.entry.board result.0 × (result.0.held ≡ None) }
        ensures pool { pools.IsPassOf self.entry.pool result.1 }
        ensures queue { result.2.id ≡ self.entry.queue.id }
        ensures pages { All (λ (berth : View). berth.pages ≡ self.entry.pool.pages) result.3.items }
    {
        let SharedDesk {
            board_pass,
            pool_pass,
            queue_pass,
            stock,
            ..
        } = self;
        (board_pass, pool_pass, queue_pass, stock)
    }
}

impl<'a> Desk for SharedDesk<'a> {
    type Served = Shared;

    ghost state = { state_of };

    ghost serves = { served_by };

    /// The next duty: a request that begins on a berth of the stock or the pool, at the place that the queue gives; else the next of the desk's own queue, in the order of its policy, that is still where it was; else any that is stopped at its place.
    ///
    /// An entry whose claim found another word is dropped. There is none only where no berth was to be had, the queue gave no place, or the request there had begun; and the own queue is empty; and each place, looked at once, had no request that was stopped, or another desk claimed it first.
    fn next(&mut self) -> Option<Duty>
        requires { (state_of self.old).out ≡ None }
        ensures next { IsNext self.old self.new result }
        ensures some { IfSome result (λ duty. Gives (state_of self.old) (state_of self.new) duty) }
        ensures none { IfNone result (Closes (state_of self.old) (state_of self.new)) }
        ensures serves { served_by self.new ≡ served_by self.old }
        ensures memory { self.new.stock_room ≡ self.old.stock_room }
    {
        let begun = begin(
            self.board,
            &mut self.board_pass,
            self.queue,
            &mut self.queue_pass,
            self.pool,
            &mut self.pool_pass,
            &mut self.stock,
        );
        if let Some(duty) = begun {
            self.out = Some(Snapshot::of(&duty));
            self.given += 1;
            self.ended = false;
            return Some(duty);
        }
        match resume(self.board, &mut self.board_pass, &mut self.local) {
            Some(sandbox) => {
                let duty = Duty::Resume(sandbox);
                self.out = Some(Snapshot::of(&duty));
                self.given += 1;
                self.ended = false;
                Some(duty)
            }
            None => {
                self.ended = true;
                None
            }
        }
    }

    /// Puts a request that was stopped back at its place, and notes it in the desk's own queue.
    fn put_back(&mut self, sandbox: Sandbox)
        requires { OfDuty (state_of self.old).out (λ old. IsOneTurn (state_of self.old).quantum old sandbox) }
        ensures put { IsPutBack self.old self.new sandbox }
        ensures back { Regains (state_of self.old) (state_of self.new) }
        ensures serves { served_by self.new ≡ served_by self.old }
        ensures memory { self.new.stock_room ≡ self.old.stock_room }
    {
        turns_keep();
        let entry = Entry {
            place: sandbox.place(),
            deadline: sandbox.deadline(),
            turns: sandbox.turns(),
        };
        self.board.put_suspended(&mut self.board_pass, entry.place, Task::Suspended(sandbox));
        self.local.push(entry);
        self.out = None;
    }

    /// Puts an answer at its place, and gives the berth to the pool. Where the pool answers that it has no empty slot the berth stays in stock, and one that has other pages than the pool's is dropped.
    fn deliver(&mut self, answer: Answer, berth: Berth)
        requires { OfDuty (state_of self.old).out (λ old. IsDelivered (state_of self.old).quantum old answer berth) }
        ensures taken { IsTakenIn self.old self.new answer berth }
        ensures back { Regains (state_of self.old) (state_of self.new) }
        ensures serves { served_by self.new ≡ served_by self.old }
        ensures memory { self.new.stock_room ≡ self.old.stock_room }
    {
        turns_keep();
        let place = answer.place();
        let _turns = answer.turns();
        self.board
            .put_answered(&mut self.board_pass, place, Task::Answered(answer));
        give_back(self.pool, &mut self.pool_pass, &mut self.stock, berth);
        self.out = None;
    }
}
