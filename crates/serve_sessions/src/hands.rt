//! A worker's thread: what it owns, and what it does.
ghost use Rattle.std.specs.Prelude.{◌≡◌, None};
ghost use Rattle.std.specs.Arc.{arc_value};

use crossbeam_channel::Sender;
use link_sessions::Server;
use shop_desks::{ShopDesk, work_until_dismissed};
use std::sync::{Arc, Wait};
use worker_desks::Gate;

/// What a worker's thread owns.
pub(crate) struct Bench<R, G> {
    pub(crate) rt: R,
    pub(crate) server: Arc<Server>,
    pub(crate) desk: ShopDesk<R>,
    pub(crate) number: u32,
    pub(crate) gate: Arc<G>,
    pub(crate) to: Sender<u32>,
}

impl<R: Drop, G: Drop> Drop for Bench<R, G> {
    fn drop(self) {
        let Bench {
            rt: _,
            server: _,
            desk: _,
            number: _,
            gate: _,
            to: _,
        } = self;
    }
}

impl<R: Wait + Copy, G: Gate + Drop> Bench<R, G> {
    /// Runs the requests of the shop until the workers are dismissed, and then says so.
    pub(crate) fn run(self)
        requires shop { self.desk.shop ≡ (arc_value self.server).shop }
        requires free { self.desk.out ≡ None }
    {
        let Bench {
            rt,
            server,
            desk,
            number,
            gate,
            to,
        } = self;
        let mut desk = desk;
        work_until_dismissed(&**server.shop(), number, &mut desk, &*gate);
        let _sent = to.send(&rt, number);
    }
}
