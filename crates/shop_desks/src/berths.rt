//! A desk's berths, in its stock and of the pool.
ghost use Rattle.std.specs.Prelude.{◌≡◌, ◌≢◌, ◌≤◌, [], length, vec_capacity};
ghost use Rattle.memory_pool.specs.Passing.{IsPassOf};
ghost use Rattle.shop_desks.specs.Desks.{IsGivenBack};
ghost use Rattle.shop_desks.specs.Nexts.{IsDutyOf, IsReady, IsStocked};

use memory_pool::{Berth, Given, Pool, PoolPass};
use worker_desks::{Duty, Task};

// Takes a berth of the pool into stock where there is none. The pages of the last one in stock.
pub(crate) fn stock_up(pool: &Pool, pass: &mut PoolPass, stock: &mut Vec<Berth>) -> Option<u32>
    requires own { IsPassOf pool.now pass.old }
    requires room { 1 ≤ vec_capacity stock.old }
    ensures berth { IsStocked pool.now pass.old pass.new stock.old.items stock.new.items result }
    ensures room { vec_capacity stock.new ≡ vec_capacity stock.old }
{
    match stock.last() {
        Some(berth) => Some(berth.pages()),
        None => {
            let berth = pool.take(pass)?;
            let pages = berth.pages();
            stock.push_reserved(berth);
            Some(pages)
        }
    }
}

// The duty of a task that was found: one that waits begins on the last berth in stock.
pub(crate) fn duty_of(task: Task, stock: &mut Vec<Berth>) -> Duty
    requires ready { IsReady task stock.old.items }
    ensures duty { IsDutyOf task stock.old.items stock.new.items result }
    ensures room { vec_capacity stock.new ≡ vec_capacity stock.old }
{
    match task {
        Task::Waiting(job) => match stock.pop() {
            Some(berth) => Duty::Begin(job, berth),
            None => unreachable!(),
        },
        Task::Suspended(sandbox) => Duty::Resume(sandbox),
        Task::Answered(_) => unreachable!(),
    }
}

// Gives a berth to the pool, or keeps it in stock where the pool has no empty slot and the stock is not full. One that has not the pool's pages is dropped.
pub(crate) fn give_back(pool: &Pool, pass: &mut PoolPass, stock: &mut Vec<Berth>, berth: Berth)
    requires own { IsPassOf pool.now pass.old }
    requires room { 256 ≤ vec_capacity stock.old }
    ensures berth { IsGivenBack pool.now pass.old pass.new stock.old.items stock.new.items berth }
    ensures room { vec_capacity stock.new ≡ vec_capacity stock.old }
{
    if berth.pages() != pool.pages() {
        drop(berth);
        return;
    }
    match pool.give(pass, berth) {
        Given::Home => {}
        Given::Kept(berth) => {
            if stock.len() < 256 {
                stock.push_reserved(berth);
            } else {
                drop(berth);
            }
        }
    }
}
