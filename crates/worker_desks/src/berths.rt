//! A desk's berths, in its stock and of the pool.
ghost use Rattle.std.specs.Prelude.{◌≡◌, ◌+◌, ◌<◌, ◌≤◌, length, vec_capacity};
ghost use Rattle.memory_pool.specs.Passing.{IsPassOf};
ghost use Rattle.worker_desks.specs.Parts.{IsBerth, IsGivenBack};

use memory_pool::{Berth, Given, Pool, PoolPass};

// A berth of the stock, or else of the pool.
pub(crate) fn take_berth(pool: &Pool, pass: &mut PoolPass, stock: &mut Vec<Berth>) -> Option<Berth>
    requires own { IsPassOf pool.now pass.old }
    ensures berth { IsBerth pool.now pass.old pass.new stock.old.items stock.new.items result }
    ensures room { vec_capacity stock.new ≡ vec_capacity stock.old }
{
    match stock.pop() {
        Some(berth) => Some(berth),
        None => pool.take(pass),
    }
}

// Gives a berth to the pool, or keeps it in stock where the pool has no empty slot. One that has not the pool's pages is dropped.
pub(crate) fn give_back(pool: &Pool, pass: &mut PoolPass, stock: &mut Vec<Berth>, berth: Berth)
    requires own { IsPassOf pool.now pass.old }
    requires room { length stock.old.items < vec_capacity stock.old }
    ensures berth { IsGivenBack pool.now pass.old pass.new stock.old.items stock.new.items berth }
    ensures room { vec_capacity stock.new ≡ vec_capacity stock.old }
{
    if berth.pages() != pool.pages() {
        drop(berth);
        return;
    }
    match pool.give(pass, berth) {
        Given::Home => {}
        Given::Kept(berth) => stock.push_reserved(berth),
    }
}
