//! A worker's life in a shop.
ghost use Rattle.std.specs.Prelude.{◌≡◌, true, None};

use crate::desks::ShopDesk;
use crate::shops::Shop;
use std::sync::Wait;
use worker_desks::{Gate, work};

// How many duties a worker is granted at a time.
const GRANT: u64 = 4096;

/// Runs the requests of a shop with this desk, which is the shop's, until the workers are dismissed. Where there is nothing to run it sleeps until a request is put at a place.
///
/// No duty is out, before and after, and the desk's last `next` gave none. Requests that are not over at the end stay at their places.
pub fn work_until_dismissed<R: Wait + Copy, G: Gate>(
    shop: &Shop,
    worker: u32,
    desk: &mut ShopDesk<R>,
    gate: &G,
)
    requires shop { desk.old.shop ≡ shop.now }
    requires free { desk.old.out ≡ None }
    ensures shop { desk.new.shop ≡ desk.old.shop }
    ensures free { desk.new.out ≡ None }
    ensures ended { desk.new.ended ≡ true }
{
    let rt = desk.runtime();
    for _ in rt.forever() {
        let worked = works(shop, worker, desk, gate);
        if shop.is_dismissed() {
            return;
        }
        if !worked {
            rests(&rt, shop, worker, desk, gate);
        }
    }
    unreachable!()
}

// Works on duties of one grant. Whether there were any.
fn works<R: Wait + Copy, G: Gate>(
    shop: &Shop,
    worker: u32,
    desk: &mut ShopDesk<R>,
    gate: &G,
) -> bool
    requires shop { desk.old.shop ≡ shop.now }
    requires free { desk.old.out ≡ None }
    ensures shop { desk.new.shop ≡ desk.old.shop }
    ensures free { desk.new.out ≡ None }
    ensures ended { desk.new.ended ≡ true }
{
    desk.grant(GRANT);
    work(worker, desk, shop.quantum, gate) > 0
}

// Sleeps until a request is put at a place. The wait is told of before the last try, so that what is put behind that ends it.
fn rests<R: Wait + Copy, G: Gate>(
    rt: &R,
    shop: &Shop,
    worker: u32,
    desk: &mut ShopDesk<R>,
    gate: &G,
)
    requires shop { desk.old.shop ≡ shop.now }
    requires free { desk.old.out ≡ None }
    ensures shop { desk.new.shop ≡ desk.old.shop }
    ensures free { desk.new.out ≡ None }
{
    let key = shop.posted.prepare_wait();
    if works(shop, worker, desk, gate) || shop.is_dismissed() {
        drop(key);
    } else {
        key.wait(rt);
    }
}
