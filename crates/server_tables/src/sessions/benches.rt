// The worker beside the sessions.
ghost use Rattle.std.specs.Prelude.{◌≤◌};
ghost use Rattle.std.specs.Arc.{arc_value};
ghost use Rattle.shop_desks.specs.Shops.{IsVisitOf};

use outside::OpenGate;
use shop_desks::{Shop, ShopDesk, Visit, work_until_dismissed};
use std::alloc::Global;
use std::sync::{Arc, Wait};
use std::thread;
use std::thread::{JoinHandle, Threads};

/// What the worker's thread has. It makes its desk there, so that nothing but the runtime's type is left open of what crosses.
#[derive(Drop)]
pub(crate) struct Bench<R> {
    pub(crate) rt: R,
    pub(crate) alloc: Global,
    pub(crate) shop: Arc<Shop>,
    pub(crate) visit: Visit,
}

/// The worker's thread, until the workers are dismissed. Without memory for a desk nobody answers.
fn works<R: Wait + Copy>(bench: Bench<R>)
    requires own { IsVisitOf (arc_value bench.shop) bench.visit }
    requires parts { (2 ≤ bench.visit.board_pass.parts) × (2 ≤ bench.visit.pool_pass.parts) }
{
    let Bench {
        rt,
        alloc,
        shop,
        mut visit,
    } = bench;
    let Ok(theirs) = Arc::try_clone(&shop) else {
        return;
    };
    if let Ok(desk) = ShopDesk::new(rt, alloc, theirs, &mut visit) {
        let mut desk = desk;
        work_until_dismissed(&shop, 0, &mut desk, &OpenGate);
    }
}

/// Starts the worker's thread, where one can be made.
pub(crate) fn start<R>(rt: &R, bench: Bench<R>) -> Option<JoinHandle<()>>
where
    R: Threads + Wait + Copy + Send + Sync + 'static,
    requires own { IsVisitOf (arc_value bench.shop) bench.visit }
    requires parts { (2 ≤ bench.visit.board_pass.parts) × (2 ≤ bench.visit.pool_pass.parts) }
{
    let spawned = thread::spawn(
        rt,
        move || -> ()
            requires { IsVisitOf (arc_value bench.shop) bench.visit × (2 ≤ bench.visit.board_pass.parts) × (2 ≤ bench.visit.pool_pass.parts) }
        { works(bench) },
    );
    match spawned {
        Ok(worker) => Some(worker),
        Err(_) => None,
    }
}
