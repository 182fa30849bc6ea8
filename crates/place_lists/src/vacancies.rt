//! The queue of vacant places.
ghost use Rattle.std.specs.Prelude.{◌≡◌, [], ◌∷◌, IfOk, MatchOption};
ghost use Rattle.place_lists.specs.Keeping.{counted_from};
ghost use Rattle.place_lists.specs.Places.{IsPlace};
ghost use Rattle.place_lists.specs.Vacating.{IsPassOf, HasLast, with_out};

use crate::keepers::Keeper;
use crate::rules::{EachInOneHand, Gives, Joins, Takes};
use crossbeam_queue::{Pass, RuledArrayQueue};
use crossbeam_utils::sync::EventCount;
use std::alloc::{AllocError, Global};
use std::marker::Model;
use std::sync::Wait;

/// The places of a board of 256 places that no session uses, shared by all threads that have a pass.
///
/// Contracts see which queue it is.
pub struct Vacancies {
    queue: RuledArrayQueue<u32, Keeper, EachInOneHand>,
    given: EventCount,
}

impl Drop for Vacancies {
    fn drop(self) {
        let Vacancies { queue: _, given: _ } = self;
    }
}

impl Model for Vacancies {
    ghost use Rattle.std.specs.Prelude.{◌≡◌};
    ghost use Rattle.place_lists.specs.Vacating.{QueueView};

    ghost Value = { QueueView };

    ghost view = { λ all. record { id = all.queue.table.shared.table_id } };

    ghost invariant = { λ all. all.queue.cap ≡ 256 };
}

/// A thread's handle on the vacant places. It takes no bytes.
///
/// Contracts see which queue it is for, its number, and the places that it has out of the queue, the latest first. Each of these is out with this pass alone.
pub struct VacancyPass {
    seat: Pass<u32, Keeper>,
}

impl Drop for VacancyPass {
    fn drop(self) {
        let VacancyPass { seat: _ } = self;
    }
}

impl Model for VacancyPass {
    ghost use Rattle.std.specs.Prelude.{◌≡◌, []};
    ghost use Rattle.place_lists.specs.Vacating.{PassView};

    ghost Value = { PassView };

    ghost view = { λ pass. record { id = pass.seat.table_id; number = pass.seat.id; out = pass.seat.me.0.client.out } };

    ghost invariant = { λ pass. pass.seat.me.1 ≡ [] };
}

impl Vacancies {
    /// All 256 places are vacant, in their order; the first pass has none of them.
    #[tactic(auto, using(crate::proofs::Keeping::begins))]
    pub fn new<R: Wait>(rt: &R, alloc: Global) -> Result<(Vacancies, VacancyPass), AllocError>
        ensures { IfOk result (λ made. IsPassOf made.0 made.1 × (made.1.out ≡ [])) }
    {
        let (queue, seat) = RuledArrayQueue::ruled(alloc, 256)?;
        let vacancies = Vacancies {
            queue,
            given: EventCount::new(),
        };
        let mut pass = VacancyPass { seat };
        give_all(rt, &vacancies, &mut pass);
        Ok((vacancies, pass))
    }

    /// Makes a second pass, which may go to another thread. It has no place.
    pub fn split(&self, pass: &mut VacancyPass) -> VacancyPass
        requires { IsPassOf self.now pass.old }
        ensures left { pass.new ≡ pass.old }
        ensures right { IsPassOf self.now result × (result.out ≡ []) }
    {
        VacancyPass {
            seat: self.queue.another::<Joins>(&mut pass.seat),
        }
    }

    /// Takes the place that has been vacant longest, and sleeps until there is one.
    pub fn take<R: Wait>(&self, rt: &R, pass: &mut VacancyPass) -> u32
        requires { IsPassOf self.now pass.old }
        ensures place { IsPlace result }
        ensures taken { pass.new ≡ with_out pass.old (result ∷ pass.old.out) }
    {
        for _ in rt.forever() {
            let key = self.given.prepare_wait();
            if let Some(place) = self.try_take(rt, pass) {
                drop(key);
                return place;
            }
            key.wait(rt);
        }
        unreachable!()
    }

    // Takes the place that has been vacant longest, if there is one.
    fn try_take<R: Wait>(&self, rt: &R, pass: &mut VacancyPass) -> Option<u32>
        requires { IsPassOf self.now pass.old }
        ensures { MatchOption result (pass.new ≡ pass.old) (λ place. IsPlace place × (pass.new ≡ with_out pass.old (place ∷ pass.old.out))) }
    {
        self.queue.pop_as::<Takes, R>(rt, &mut pass.seat)
    }

    /// Gives back the place that the pass took last, and wakes one that waits for it. There is room for it always.
    #[tactic(auto, using(crate::proofs::Keeping::some_out))]
    pub fn give<R: Wait>(&self, rt: &R, pass: &mut VacancyPass, place: u32)
        requires own { IsPassOf self.now pass.old }
        requires last { HasLast place pass.old.out }
        ensures { pass.old ≡ with_out pass.new (place ∷ pass.new.out) }
    {
        match self.queue.push_as::<Gives, R>(rt, &mut pass.seat, place) {
            Ok(()) => self.given.notify_one(),
            Err(_) => unreachable!(),
        }
    }
}

// The maker gives all places, in their order.
#[tactic(auto, using(crate::proofs::Keeping::last_counted))]
fn give_all<R: Wait>(rt: &R, vacancies: &Vacancies, pass: &mut VacancyPass)
    requires own { IsPassOf vacancies.now pass.old }
    requires all { pass.old.out ≡ counted_from 0 256 }
    ensures own { IsPassOf vacancies.now pass.new }
    ensures none { pass.new.out ≡ [] }
{
    for place in 0..256 {
        vacancies.give(rt, pass, place);
    }
}
