//! The meters of all tenants, and the handles on them.
ghost use Rattle.std.specs.Prelude.{◌≡◌, ◌<◌, ◌≤◌, ◌^◌, All, map, length, slice_get, slice_set, [], vec_capacity, Some, IfOk, OnOk};
ghost use Rattle.tenant_meters.specs.Knowing.{IsKnown};
ghost use Rattle.tenant_meters.specs.Metered.{MeterView, PassView, first_pass, second, HasAsked};
ghost use Rattle.tenant_meters.specs.Visiting.{IsVisitOf, terms_of};

use crate::callers::Terms;
use crate::meters::{MeterPass, TenantMeter};
use admission::Admission;
use std::alloc::{AllocError, Global};
use std::marker::Model;
use std::sync::Wait;

/// The meters of all tenants, in their order. Contracts see the list of them.
#[derive(Drop)]
pub struct Meters {
    meters: Vec<TenantMeter>,
}

impl Model for Meters {
    ghost use Rattle.std.specs.Prelude.{List};
    ghost use Rattle.tenant_meters.specs.Metered.{MeterView};

    ghost Value = { List MeterView };

    ghost view = { λ all. all.meters.items };
}

/// A thread's handle on the meters of all tenants: a pass of each, in their order. Contracts see the list of what these know.
#[derive(Drop)]
pub struct MeterVisit {
    passes: Vec<MeterPass>,
}

impl Model for MeterVisit {
    ghost use Rattle.std.specs.Prelude.{List};
    ghost use Rattle.tenant_meters.specs.Metered.{PassView};

    ghost Value = { List PassView };

    ghost view = { λ visit. visit.passes.items };
}

impl MeterVisit {
    /// Tells what its type keeps of a tenant's pass: what was seen is legal, and has just the pass's own calls of those with its number.
    pub fn told(&self, tenant: usize)
        requires { tenant < length self.now }
        ensures { (pass : PassView) → slice_get self.now tenant ≡ Some pass → IsKnown pass.terms pass.seen pass.mine }
    {
        self.passes[tenant].told();
    }
}

impl Meters {
    /// Empty meters of these terms, one for each tenant, and the first visit, which has seen nothing and made no call.
    pub fn new<R: Wait>(
        rt: &R,
        alloc: Global,
        terms: &[Terms],
    ) -> Result<(Meters, MeterVisit), AllocError>
        requires { All (λ (t : _). t.capacity ≤ 2 ^ 40) terms.now }
        ensures terms { IfOk result (λ made. map terms_of made.0 ≡ terms.now) }
        ensures visit { IfOk result (λ made. made.1 ≡ map first_pass made.0) }
        ensures own { IfOk result (λ made. IsVisitOf made.0 made.1) }
    {
        let mut meters = Vec::with_capacity(alloc, terms.len())?;
        let mut passes = Vec::with_capacity(alloc, terms.len())?;
        make_each(rt, alloc, terms, &mut meters, &mut passes)?;
        Ok((Meters { meters }, MeterVisit { passes }))
    }

    /// A second visit, which may go to another thread. It has seen as much as the first one, and has made no call.
    pub fn visit(&self, alloc: Global, from: &mut MeterVisit) -> Result<MeterVisit, AllocError>
        requires own { IsVisitOf self.now from.old }
        ensures from { from.new ≡ from.old }
        ensures visit { IfOk result (λ visit. visit ≡ map second from.old) }
        ensures own { IfOk result (λ visit. IsVisitOf self.now visit) }
    {
        let mut passes = Vec::with_capacity(alloc, from.passes.len())?;
        split_each(&self.meters, &mut from.passes, &mut passes);
        Ok(MeterVisit { passes })
    }

    /// Asks a tenant's meter to let in a request of this estimate, in units, at this moment, in milliseconds, and waits until it is answered.
    ///
    /// The visit has this one call more of this tenant's meter, and of no other one.
    pub fn ask<R: Wait>(
        &self,
        rt: &R,
        visit: &mut MeterVisit,
        tenant: usize,
        moment: u64,
        estimate: u64,
    ) -> Admission
        requires own { IsVisitOf self.now visit.old }
        requires tenant { tenant < length self.now }
        requires few { estimate ≤ 2 ^ 40 }
        ensures own { IsVisitOf self.now visit.new }
        ensures call { (meter : MeterView) (old : PassView) → slice_get self.now tenant ≡ Some meter → slice_get visit.old tenant ≡ Some old → (new : PassView) × (visit.new ≡ slice_set visit.old tenant new) × HasAsked meter.terms old new moment estimate result }
    {
        self.meters[tenant].ask(rt, &mut visit.passes[tenant], moment, estimate)
    }
}

// A meter of each of the terms, with its first pass, in their order.
fn make_each<R: Wait>(
    rt: &R,
    alloc: Global,
    terms: &[Terms],
    meters: &mut Vec<TenantMeter>,
    passes: &mut Vec<MeterPass>,
) -> Result<(), AllocError>
    requires few { All (λ (t : _). t.capacity ≤ 2 ^ 40) terms.now }
    requires new { (meters.old.items ≡ []) × (passes.old.items ≡ []) }
    requires room { (length terms.now ≤ vec_capacity meters.old) × (length terms.now ≤ vec_capacity passes.old) }
    ensures meters { OnOk result (map terms_of meters.new.items ≡ terms.now) }
    ensures passes { OnOk result (passes.new.items ≡ map first_pass meters.new.items) }
{
    for i in 0..terms.len() {
        let (meter, pass) = TenantMeter::new(rt, alloc, terms[i])?;
        meters.push_reserved(meter);
        passes.push_reserved(pass);
    }
    Ok(())
}

// A second pass of each meter, in their order.
fn split_each(meters: &Vec<TenantMeter>, from: &mut Vec<MeterPass>, passes: &mut Vec<MeterPass>)
    requires own { IsVisitOf meters.now.items from.old.items }
    requires room { (passes.old.items ≡ []) × (length from.old.items ≤ vec_capacity passes.old) }
    ensures from { from.new.items ≡ from.old.items }
    ensures passes { passes.new.items ≡ map second from.old.items }
{
    for i in 0..meters.len() {
        passes.push_reserved(meters[i].split(&mut from[i]));
    }
}
