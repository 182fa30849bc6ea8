//! The desk of a server's worker.
ghost use Rattle.std.specs.Prelude.{◌≡◌, ◌≤◌, None, MatchResult, IfOk, IfSome, IfNone};
ghost use Rattle.std.specs.Arc.{arc_value};
ghost use Rattle.sandbox_states.specs.Stands.{IsOneTurn};
ghost use Rattle.worker_desks.specs.Desks.{Closes, Gives, Regains};
ghost use Rattle.worker_desks.specs.Duties.{IsDelivered, OfDuty};
ghost use Rattle.shop_desks.specs.Desks.{IsNewDesk, IsPutBack, IsTakenIn, granted, state_of};
ghost use Rattle.shop_desks.specs.Nexts.{IsNext};
ghost use Rattle.shop_desks.specs.Shops.{IsVisitOf, less_one};

use crate::berths::{duty_of, give_back};
use crate::handed::HandedOut;
use crate::own_queues::OwnQueue;
use crate::searches::search;
use crate::shops::Shop;
use crate::visits::Visit;
use job_board::BoardPass;
use memory_pool::{Berth, PoolPass};
use place_lists::InboxPass;
use posted_jobs::PostedJob;
use run_queues::Entry;
use sandbox_states::{Answer, Sandbox};
use std::alloc::{AllocError, Global};
use std::marker::Model;
use std::sync::{Arc, Wait};
use worker_desks::{Desk, Duty};

/// The desk of a server's worker, which serves a shop. It gives no more duties than were granted to it.
///
/// Contracts see the shop and the desk's passes, its own queue with policy and room, the berths that it has in stock and how many it has memory for, the duty that is out with its request, how many duties it may still give, how many it has given since the last grant, and whether its last `next` gave none.
pub struct ShopDesk<R> {
    rt: R,
    shop: Arc<Shop>,
    board_pass: BoardPass<PostedJob>,
    pool_pass: PoolPass,
    inbox_pass: InboxPass,
    local: OwnQueue,
    stock: Vec<Berth>,
    out: Option<HandedOut>,
    left: u64,
    given: u64,
    ended: bool,
}

impl<R: Drop> Drop for ShopDesk<R> {
    fn drop(self) {
        let ShopDesk {
            rt: _,
            shop: _,
            board_pass: _,
            pool_pass: _,
            inbox_pass: _,
            local: _,
            stock: _,
            out: _,
            left: _,
            given: _,
            ended: _,
        } = self;
    }
}

impl<R> Model for ShopDesk<R> {
    ghost use Rattle.std.specs.Prelude.{vec_capacity};
    ghost use Rattle.std.specs.Arc.{arc_value};
    ghost use Rattle.shop_desks.specs.Desks.{ShopDeskView, IsDeskOf};

    ghost Value = { ShopDeskView };

    ghost view = { λ d. record { shop = arc_value d.shop; board_pass = d.board_pass; pool_pass = d.pool_pass; inbox_pass = d.inbox_pass; local = d.local; stock = d.stock.items; stock_room = vec_capacity d.stock; out = d.out; left = d.left; given = d.given; ended = d.ended } };

    ghost invariant = { λ d. IsDeskOf (record { shop = arc_value d.shop; board_pass = d.board_pass; pool_pass = d.pool_pass; inbox_pass = d.inbox_pass; local = d.local; stock = d.stock.items; stock_room = vec_capacity d.stock; out = d.out; left = d.left; given = d.given; ended = d.ended }) };
}

impl<R: Wait + Copy> ShopDesk<R> {
    /// A desk of this shop, to which nothing was granted yet. It takes all its memory here: room for 256 entries and for 256 berths.
    ///
    /// It has one part of the visit's passes of the board and of the pool, of which each has two at least. Where memory runs out the visit stays as it was.
    pub fn new(
        rt: R,
        alloc: Global,
        shop: Arc<Shop>,
        from: &mut Visit,
    ) -> Result<ShopDesk<R>, AllocError>
        requires own { IsVisitOf (arc_value shop) from.old }
        requires parts { (2 ≤ from.old.board_pass.parts) × (2 ≤ from.old.pool_pass.parts) }
        ensures from { MatchResult result (λ desk. from.new ≡ less_one from.old) (λ _. from.new ≡ from.old) }
        ensures desk { IfOk result (λ desk. IsNewDesk (arc_value shop) from.old desk) }
    {
        let local = OwnQueue::new(alloc, shop.policy)?;
        let stock = Vec::with_capacity(alloc, 256)?;
        let board_pass = shop.board.split(&mut from.board_pass);
        let pool_pass = shop.pool.split(&mut from.pool_pass);
        let inbox_pass = shop.inbox.pass();
        Ok(ShopDesk {
            rt,
            shop,
            board_pass,
            pool_pass,
            inbox_pass,
            local,
            stock,
            out: None,
            left: 0,
            given: 0,
            ended: false,
        })
    }

    // The runtime with which it waits.
    pub(crate) fn runtime(&self) -> R {
        self.rt
    }

    /// Sets how many duties it may still give, and counts those that it gives anew.
    pub fn grant(&mut self, duties: u64)
        ensures { self.new ≡ granted self.old duties }
    {
        self.left = duties;
        self.given = 0;
        self.ended = false;
    }
}

impl<R: Wait + Copy> Desk for ShopDesk<R> {
    type Served = Shop;

    ghost state = { state_of };

    ghost serves = { λ d. d.shop };

    /// The next duty: a request that begins, on a berth of the stock or the pool, at a place that the inbox gives; else the next of the desk's own queue, in the order of its policy, that is still where it was; else any at its place that was stopped, or that waits where there is a berth. Where the own queue is full it comes first.
    ///
    /// An entry whose claim found another word is dropped; a job that waits and wants more pages than the berth has is put back. There is none only where no more duties may be given; or the own queue is empty, and each place was refused in this call: its look found a job that neither waits nor was stopped, or one that waits while no berth was in stock and the pool gave none; or the claim of the word seen found another one; or the job that was claimed was put back.
    fn next(&mut self) -> Option<Duty>
        requires { (state_of self.old).out ≡ None }
        ensures next { IsNext self.old self.new result }
        ensures some { IfSome result (λ duty. Gives (state_of self.old) (state_of self.new) duty) }
        ensures none { IfNone result (Closes (state_of self.old) (state_of self.new)) }
        ensures serves { self.new.shop ≡ self.old.shop }
    {
        if self.left == 0 {
            self.ended = true;
            return None;
        }
        let found = search(
            &self.rt,
            &self.shop,
            &mut self.board_pass,
            &mut self.pool_pass,
            &mut self.inbox_pass,
            &mut self.local,
            &mut self.stock,
        );
        match found {
            Some(job) => {
                let (request, task) = job.into_parts();
                let duty = duty_of(task, &mut self.stock);
                self.out = Some(HandedOut::of(request, &duty));
                self.left -= 1;
                self.given += 1;
                self.ended = false;
                Some(duty)
            }
            None => {
                self.ended = true;
                None
            }
        }
    }

    /// Puts a request that was stopped back at its place, and notes it in the desk's own queue.
    fn put_back(&mut self, sandbox: Sandbox)
        requires { OfDuty (state_of self.old).out (λ old. IsOneTurn (state_of self.old).quantum old sandbox) }
        ensures put { IsPutBack self.old self.new sandbox }
        ensures back { Regains (state_of self.old) (state_of self.new) }
        ensures serves { self.new.shop ≡ self.old.shop }
    {
        let entry = Entry {
            place: sandbox.place(),
            deadline: sandbox.deadline(),
            turns: sandbox.turns(),
        };
        match self.out.take() {
            Some(out) => {
                let job = out.stopped(self.shop.quantum, sandbox);
                self.shop
                    .board
                    .put_suspended(&mut self.board_pass, entry.place, job);
                self.local.push(entry);
                if self.local.has_others() {
                    self.shop.posted.notify_one();
                }
            }
            None => unreachable!(),
        }
    }

    /// Puts an answer at its place, and gives the berth to the pool. Where the pool answers that it has no empty slot the berth stays in stock, if that has not 256; one more, and one that has other pages than the pool's, is dropped.
    fn deliver(&mut self, answer: Answer, berth: Berth)
        requires { OfDuty (state_of self.old).out (λ old. IsDelivered (state_of self.old).quantum old answer berth) }
        ensures taken { IsTakenIn self.old self.new answer berth }
        ensures back { Regains (state_of self.old) (state_of self.new) }
        ensures serves { self.new.shop ≡ self.old.shop }
    {
        let place = answer.place();
        let _turns = answer.turns();
        match self.out.take() {
            Some(out) => {
                let job = out.answered(self.shop.quantum, answer, &berth);
                self.shop
                    .board
                    .put_answered(&mut self.board_pass, place, job);
                self.shop.tell_answered(place);
                give_back(&self.shop.pool, &mut self.pool_pass, &mut self.stock, berth);
            }
            None => unreachable!(),
        }
    }
}
