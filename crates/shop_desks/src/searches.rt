//! The search for a job, in the order of its parts.
ghost use Rattle.std.specs.Prelude.{◌≡◌, ◌≤◌, None, vec_capacity};
ghost use Rattle.std.specs.List.{All};
ghost use Rattle.job_board.specs.Boarding as boards;
ghost use Rattle.memory_pool.specs.Passing as pools;
ghost use Rattle.place_lists.specs.Inboxes as inboxes;
ghost use Rattle.worker_desks.specs.Sharing.{IsEntryOf};
ghost use Rattle.shop_desks.specs.Nexts.{IsSearch, Searches, standing};

use crate::berths::stock_up;
use crate::finds::{begin, resume};
use crate::own_queues::OwnQueue;
use crate::shops::Shop;
use job_board::BoardPass;
use memory_pool::{Berth, PoolPass};
use place_lists::InboxPass;
use posted_jobs::{PostedJob, next_job};
use std::sync::Wait;

// The next job. Where the desk's own queue is full it is gone through first.
pub(crate) fn search<R: Wait>(
    rt: &R,
    shop: &Shop,
    board_pass: &mut BoardPass<PostedJob>,
    pool_pass: &mut PoolPass,
    inbox_pass: &mut InboxPass,
    local: &mut OwnQueue,
    stock: &mut Vec<Berth>,
) -> Option<PostedJob>
    requires board { boards.IsPassOf shop.now.board board_pass.old × (board_pass.old.held ≡ None) }
    requires pool { pools.IsPassOf shop.now.pool pool_pass.old }
    requires inbox { inboxes.IsPassOf shop.now.inbox inbox_pass.old }
    requires entries { All (IsEntryOf 256) local.old.entries }
    requires room { 1 ≤ vec_capacity stock.old }
    ensures search { IsSearch shop.now.pool
        (standing board_pass.old pool_pass.old inbox_pass.old local.old stock.old.items)
        (standing board_pass.new pool_pass.new inbox_pass.new local.new stock.new.items) result }
    ensures room { vec_capacity stock.new ≡ vec_capacity stock.old }
{
    if local.is_full() {
        if let Some(job) = resume(&shop.board, board_pass, local) {
            return Some(job);
        }
    }
    search_in_order(rt, shop, board_pass, pool_pass, inbox_pass, local, stock)
}

// The next job: one that begins, where there is a berth; else one of the desk's own queue; else one at any place.
fn search_in_order<R: Wait>(
    rt: &R,
    shop: &Shop,
    board_pass: &mut BoardPass<PostedJob>,
    pool_pass: &mut PoolPass,
    inbox_pass: &mut InboxPass,
    local: &mut OwnQueue,
    stock: &mut Vec<Berth>,
) -> Option<PostedJob>
    requires board { boards.IsPassOf shop.now.board board_pass.old × (board_pass.old.held ≡ None) }
    requires pool { pools.IsPassOf shop.now.pool pool_pass.old }
    requires inbox { inboxes.IsPassOf shop.now.inbox inbox_pass.old }
    requires entries { All (IsEntryOf 256) local.old.entries }
    requires room { 1 ≤ vec_capacity stock.old }
    ensures search { Searches shop.now.pool
        (standing board_pass.old pool_pass.old inbox_pass.old local.old stock.old.items)
        (standing board_pass.new pool_pass.new inbox_pass.new local.new stock.new.items) result }
    ensures room { vec_capacity stock.new ≡ vec_capacity stock.old }
{
    let berth = stock_up(&shop.pool, pool_pass, stock);
    let begun = begin(rt, &shop.board, board_pass, &shop.inbox, inbox_pass, berth);
    if let Some(job) = begun {
        return Some(job);
    }
    if let Some(job) = resume(&shop.board, board_pass, local) {
        return Some(job);
    }
    next_job(&shop.board, board_pass, berth)
}
