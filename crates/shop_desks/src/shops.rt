//! What all threads of a server share.
ghost use Rattle.std.specs.Prelude.{◌≡◌, ◌*◌, ◌≤◌, ◌^◌, All, length, map, MatchResult, IfOk};
ghost use Rattle.place_lists.specs.Places.{IsPlace};
ghost use Rattle.tenant_meters.specs.Visiting.{terms_of};
ghost use Rattle.shop_desks.specs.Shops.{IsSetBy, IsVisitOf, IsFirstVisit, IsSecondVisit, less_one};

use crate::visits::Visit;
use crossbeam_utils::sync::EventCount;
use job_board::{Board, BoardPass};
use memory_pool::{Pool, PoolPass};
use place_lists::{Inbox, Vacancies};
use posted_jobs::PostedJob;
use run_queues::Policy;
use std::alloc::{AllocError, Global};
use std::marker::Model;
use std::sync::Wait;
use std::sync::atomic::{AtomicBool, Ordering};
use tenant_meters::{Meters, Terms};
use worker_desks::Settings;

/// What a server's sessions and workers share: a board of 256 places for jobs that keep their request, the pool of berths, the inbox, the queue of vacant places, and the meters of all tenants; and the quantum and the policy by which its workers serve.
///
/// Contracts see which objects these are. The type keeps that the board has 256 places and was made vacant, so that each number of the inbox and of the vacant places is one of its places.
pub struct Shop {
    pub(crate) board: Board<PostedJob>,
    pub(crate) pool: Pool,
    pub(crate) inbox: Inbox,
    pub(crate) vacancies: Vacancies,
    pub(crate) meters: Meters,
    pub(crate) quantum: u64,
    pub(crate) policy: Policy,
    // Told when a request is put at a place, or another one is left for others to go on with.
    pub(crate) posted: EventCount,
    // Told when the request at a place is over, one for each place.
    pub(crate) answered: Vec<EventCount>,
    pub(crate) closed: AtomicBool,
    pub(crate) dismissed: AtomicBool,
}

impl Drop for Shop {
    fn drop(self) {
        let Shop {
            board: _,
            pool: _,
            inbox: _,
            vacancies: _,
            meters: _,
            quantum: _,
            policy: _,
            posted: _,
            answered: _,
            closed: _,
            dismissed: _,
        } = self;
    }
}

impl Model for Shop {
    ghost use Rattle.std.specs.Prelude.{◌≡◌, ◌≤◌, length};
    ghost use Rattle.shop_desks.specs.Shops.{ShopView, IsVacantBoard};

    ghost Value = { ShopView };

    ghost view = { λ shop. record { board = shop.board; pool = shop.pool; inbox = shop.inbox; vacancies = shop.vacancies; meters = shop.meters; quantum = shop.quantum; policy = shop.policy } };

    ghost invariant = { λ shop. IsVacantBoard shop.board × (1 ≤ shop.quantum) × (length shop.answered.items ≡ 256) };
}

impl Shop {
    /// A shop of which all places are vacant, all berths are in the pool, and all meters, one for each of the terms, are empty; and its first visit, which has done nothing. Of the settings the number of workers is not used.
    ///
    /// The settings have at least one berth and one page, a quantum of at least 1, and at most 16,384 pages in all berths; no meter's capacity is above 2^40 units.
    pub fn new<R: Wait>(
        rt: &R,
        alloc: Global,
        settings: Settings,
        terms: &[Terms],
    ) -> Result<(Shop, Visit), AllocError>
        requires some { (1 ≤ settings.berths) × (1 ≤ settings.pages) × (1 ≤ settings.quantum) }
        requires most { settings.berths * settings.pages ≤ 16384 }
        requires few { All (λ (t : _). t.capacity ≤ 2 ^ 40) terms.now }
        ensures settings { IfOk result (λ made. IsSetBy settings made.0) }
        ensures terms { IfOk result (λ made. map terms_of made.0.meters ≡ terms.now) }
        ensures visit { IfOk result (λ made. IsFirstVisit made.0 made.1) }
        ensures own { IfOk result (λ made. IsVisitOf made.0 made.1) }
    {
        let answered = events(alloc)?;
        let (board, board_pass) = Board::vacant(alloc, 256)?;
        let (pool, pool_pass) = Pool::new(alloc, settings.berths, settings.pages)?;
        let (inbox, inbox_pass) = Inbox::new(alloc)?;
        let (vacancies, vacancy_pass) = Vacancies::new(rt, alloc)?;
        let (meters, meter_visit) = Meters::new(rt, alloc, terms)?;
        let shop = Shop {
            board,
            pool,
            inbox,
            vacancies,
            meters,
            quantum: settings.quantum,
            policy: settings.policy,
            posted: EventCount::new(),
            answered,
            closed: AtomicBool::new(false),
            dismissed: AtomicBool::new(false),
        };
        let visit = Visit {
            board_pass,
            pool_pass,
            inbox_pass,
            vacancy_pass,
            meter_visit,
        };
        Ok((shop, visit))
    }

    /// A second visit, which may go to another thread: it has one part of the board's and of the pool's pass, has seen as much of the meters as the first one, and has done nothing.
    ///
    /// Both passes have two parts at least. Where memory runs out the first visit stays as it was.
    pub fn visit(&self, alloc: Global, from: &mut Visit) -> Result<Visit, AllocError>
        requires own { IsVisitOf self.now from.old }
        requires parts { (2 ≤ from.old.board_pass.parts) × (2 ≤ from.old.pool_pass.parts) }
        ensures from { MatchResult result (λ visit. from.new ≡ less_one from.old) (λ _. from.new ≡ from.old) }
        ensures visit { IfOk result (λ visit. IsSecondVisit from.old visit) }
        ensures own { IfOk result (λ visit. IsVisitOf self.now visit) }
    {
        let meter_visit = self.meters.visit(alloc, &mut from.meter_visit)?;
        Ok(Visit {
            board_pass: self.board.split(&mut from.board_pass),
            pool_pass: self.pool.split(&mut from.pool_pass),
            inbox_pass: self.inbox.pass(),
            vacancy_pass: self.vacancies.split(&mut from.vacancy_pass),
            meter_visit,
        })
    }

    /// Tells all clerks that they are to accept no more connections. It wakes nobody.
    pub fn close(&self) {
        self.closed.store(true, Ordering::SeqCst);
    }

    /// Whether the shop was closed.
    pub fn is_closed(&self) -> bool {
        self.closed.load(Ordering::SeqCst)
    }

    /// Tells all workers that nothing more will be put at a place, and wakes them, so that they end. It is for the time when all sessions have ended.
    pub fn dismiss(&self) {
        self.dismissed.store(true, Ordering::SeqCst);
        self.posted.notify_all();
    }

    /// Whether the workers were dismissed.
    pub fn is_dismissed(&self) -> bool {
        self.dismissed.load(Ordering::SeqCst)
    }
}

impl Shop {
    // Wakes who waits for the answer at a place.
    pub(crate) fn tell_answered(&self, place: u32)
        requires { IsPlace place }
    {
        self.answered[place as usize].notify_all();
    }
}

// An event for each place.
fn events(alloc: Global) -> Result<Vec<EventCount>, AllocError>
    ensures { IfOk result (λ all. length all.items ≡ 256) }
{
    let mut all = Vec::with_capacity(alloc, 256)?;
    for place in 0..256 {
        let _place: u32 = place;
        all.push_reserved(EventCount::new());
    }
    Ok(all)
}
