//! A tenant's meter and its passes.
ghost use Rattle.std.specs.Prelude.{◌≡◌, ◌^◌, ◌≤◌, IfOk, MatchOption};
ghost use Rattle.tenant_meters.specs.Knowing.{IsKnown};
ghost use Rattle.tenant_meters.specs.Metered.{IsPassOf, first_pass, second, HasLooked, HasAsked};

use crate::callers::{Caller, Terms};
use crate::charges::Charge;
use crate::rules::{Asks, InOneOrder, Looks, Opens, Tells};
use admission::Admission;
use crossbeam_utils::atomic::seq_cell::{Pass, RuledSeqCell};
use std::alloc::{AllocError, Global};
use std::marker::Model;
use std::sync::Wait;

/// A tenant's meter, shared by all threads that have a pass: a leaky bucket by the definition of `admission`.
///
/// Contracts see which meter it is, and its terms.
pub struct TenantMeter {
    cell: RuledSeqCell<Charge, Caller, InOneOrder, 7>,
    terms: Terms,
}

impl Drop for TenantMeter {
    fn drop(self) {
        let TenantMeter { cell: _, terms: _ } = self;
    }
}

impl Model for TenantMeter {
    ghost use Rattle.tenant_meters.specs.Metered.{MeterView};

    ghost Value = { MeterView };

    ghost view = { λ meter. record { id = meter.cell.table.shared.table_id; terms = meter.terms } };
}

/// A thread's handle on a tenant's meter. It takes no bytes.
///
/// Contracts see which meter it is for and that one's terms, the history of all calls as far as this pass has seen it, and its own calls. Its type keeps that what was seen is legal, and has just the pass's own calls of those with its number.
pub struct MeterPass {
    seat: Pass<Charge, Caller>,
}

impl Drop for MeterPass {
    fn drop(self) {
        let MeterPass { seat: _ } = self;
    }
}

impl Model for MeterPass {
    ghost use Rattle.tenant_meters.specs.Knowing.{IsKnown};
    ghost use Rattle.tenant_meters.specs.Metered.{PassView};

    ghost Value = { PassView };

    ghost view = { λ pass. record { id = pass.seat.table_id; terms = pass.seat.me.0.client.terms; seen = pass.seat.me.0.client.seen; mine = pass.seat.me.0.client.mine } };

    ghost invariant = { λ pass. IsKnown pass.seat.me.0.client.terms pass.seat.me.0.client.seen pass.seat.me.0.client.mine };
}

impl MeterPass {
    /// Tells what its type keeps: what was seen is one legal history of the meter, and of the calls with this pass's number it has just those that this pass made.
    pub fn told(&self)
        ensures { IsKnown self.now.terms self.now.seen self.now.mine }
    {
        let _seat = &self.seat;
    }
}

impl TenantMeter {
    /// An empty meter, whose last moment is 0, and its first pass, which has seen nothing and made no call.
    pub fn new<R: Wait>(
        rt: &R,
        alloc: Global,
        terms: Terms,
    ) -> Result<(TenantMeter, MeterPass), AllocError>
        requires { terms.capacity ≤ 2 ^ 40 }
        ensures meter { IfOk result (λ made. made.0.terms ≡ terms) }
        ensures pass { IfOk result (λ made. made.1 ≡ first_pass made.0) }
    {
        let first = Charge::first(terms);
        let (cell, mut seat) = RuledSeqCell::ruled(alloc, first)?;
        cell.swap_as::<Opens, R>(rt, &mut seat, first);
        Ok((TenantMeter { cell, terms }, MeterPass { seat }))
    }

    /// Makes a second pass, which may go to another thread. It has seen as much as this one, and has made no call.
    pub fn split(&self, pass: &mut MeterPass) -> MeterPass
        requires { IsPassOf self.now pass.old }
        ensures left { pass.new ≡ pass.old }
        ensures right { result ≡ second pass.old }
    {
        MeterPass {
            seat: self.cell.split_pass::<Tells>(&mut pass.seat),
        }
    }

    /// Asks to let in a request of this estimate, in units, at this moment, in milliseconds, and waits until it is answered.
    ///
    /// The answer is that of the leaky bucket at this call's place in the one history of all calls. The history begins with all that the pass had seen, and ends with this call; the pass has this one call more.
    pub fn ask<R: Wait>(
        &self,
        rt: &R,
        pass: &mut MeterPass,
        moment: u64,
        estimate: u64,
    ) -> Admission
        requires own { IsPassOf self.now pass.old }
        requires few { estimate ≤ 2 ^ 40 }
        ensures own { IsPassOf self.now pass.new }
        ensures call { HasAsked self.now.terms pass.old pass.new moment estimate result }
    {
        for _ in rt.forever() {
            if let Some(answer) = self.try_ask(rt, pass, moment, estimate) {
                return answer;
            }
        }
        unreachable!()
    }

    // One try: a load, and an exchange that fails where another call came between.
    fn try_ask<R: Wait>(
        &self,
        rt: &R,
        pass: &mut MeterPass,
        moment: u64,
        estimate: u64,
    ) -> Option<Admission>
        requires own { IsPassOf self.now pass.old }
        requires few { estimate ≤ 2 ^ 40 }
        ensures own { IsPassOf self.now pass.new }
        ensures tried { MatchOption result (HasLooked self.now.terms pass.old pass.new) (λ answer. HasAsked self.now.terms pass.old pass.new moment estimate answer) }
    {
        let seen = self.cell.load_as::<Looks, R>(rt, &mut pass.seat);
        let (answer, next) = seen.asked(moment, estimate);
        let cell = &self.cell;
        match cell.compare_exchange_as::<Asks, R>(rt, &mut pass.seat, seen, next) {
            Ok(_) => Some(answer),
            Err(_) => None,
        }
    }
}
