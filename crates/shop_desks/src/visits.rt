//! One thread's handle on a shop.

use job_board::BoardPass;
use memory_pool::PoolPass;
use place_lists::{InboxPass, VacancyPass};
use posted_jobs::PostedJob;
use std::marker::Model;
use tenant_meters::MeterVisit;

/// A thread's passes of all that a shop has. A thread that has none makes no call of the shop.
///
/// Contracts see the passes: what each has noted, seen, taken and asked.
pub struct Visit {
    pub(crate) board_pass: BoardPass<PostedJob>,
    pub(crate) pool_pass: PoolPass,
    pub(crate) inbox_pass: InboxPass,
    pub(crate) vacancy_pass: VacancyPass,
    pub(crate) meter_visit: MeterVisit,
}

impl Drop for Visit {
    fn drop(self) {
        let Visit {
            board_pass: _,
            pool_pass: _,
            inbox_pass: _,
            vacancy_pass: _,
            meter_visit: _,
        } = self;
    }
}

impl Model for Visit {
    ghost use Rattle.shop_desks.specs.Shops.{VisitView};

    ghost Value = { VisitView };

    ghost view = { λ visit. record { board_pass = visit.board_pass; pool_pass = visit.pool_pass; inbox_pass = visit.inbox_pass; vacancy_pass = visit.vacancy_pass; meter_visit = visit.meter_visit } };
}
