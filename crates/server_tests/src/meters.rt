//! Meters that several passes ask: one bucket by rows, those of two tenants, and one that two threads fill.
ghost use Rattle.std.specs.Prelude.{◌≡◌, ◌+◌, ◌≤◌, ◌<◌, length};
ghost use Rattle.tenant_meters.specs.Metered.{IsPassOf};
ghost use Rattle.tenant_meters.specs.Visiting.{IsVisitOf};

use admission::Admission;
use std::process::Abort;
use std::sync::Wait;
use std::test::Fail;
use std::thread::{Threads, join};
use tenant_meters::{MeterPass, MeterVisit, Meters, TenantMeter, Terms};

// The level at which a request was refused.
fn refused_at(answer: Admission) -> Option<u64> {
    match answer {
        Admission::Entered => None,
        Admission::Spent { level, .. } => Some(level),
    }
}

// A row: a request of 60 units is let in, or refused at this level.
fn asks<R: Abort + Wait>(
    rt: &R,
    meter: &TenantMeter,
    pass: &mut MeterPass,
    moment: u64,
    refused: Option<u64>,
)
    requires { IsPassOf meter.now pass.old }
    ensures { IsPassOf meter.now pass.new }
{
    let answer = meter.ask(rt, pass, moment, 60);
    pass.told();
    assert_eq!(rt; refused_at(answer), refused);
}

#[test]
fn two_passes_share_a_bucket(rt: HostRuntime) -> Result<(), Fail> {
    let terms = Terms {
        capacity: 100,
        rate: 1,
    };
    let (meter, mut pass) = TenantMeter::new(&rt, rt.alloc(), terms)?;
    let mut other = meter.split(&mut pass);
    asks(&rt, &meter, &mut pass, 0, None);
    asks(&rt, &meter, &mut other, 0, Some(60));
    asks(&rt, &meter, &mut other, 19, Some(41));
    asks(&rt, &meter, &mut pass, 20, None);
    Ok(())
}

// A row of a visit: a request of 60 units to a tenant is let in, or refused at this level.
fn visits<R: Abort + Wait>(
    rt: &R,
    meters: &Meters,
    visit: &mut MeterVisit,
    tenant: usize,
    refused: Option<u64>,
)
    requires own { IsVisitOf meters.now visit.old }
    requires tenant { tenant < length meters.now }
    ensures { IsVisitOf meters.now visit.new }
{
    let answer = meters.ask(rt, visit, tenant, 0, 60);
    assert_eq!(rt; refused_at(answer), refused);
}

// The meters of two tenants, of which only the second has room for two requests.
fn rows<R: Abort + Wait>(rt: &R, meters: &Meters, first: &mut MeterVisit, second: &mut MeterVisit)
    requires two { length meters.now ≡ 2 }
    requires own { IsVisitOf meters.now first.old × IsVisitOf meters.now second.old }
{
    visits(rt, meters, first, 0, None);
    visits(rt, meters, second, 0, Some(60));
    visits(rt, meters, second, 1, None);
    visits(rt, meters, first, 1, None);
    visits(rt, meters, first, 1, Some(120));
    first.told(1);
}

#[test]
fn tenants_have_meters_of_their_own(rt: HostRuntime) -> Result<(), Fail> {
    let terms = [
        Terms {
            capacity: 100,
            rate: 0,
        },
        Terms {
            capacity: 150,
            rate: 0,
        },
    ];
    let (meters, mut first) = Meters::new(&rt, rt.alloc(), &terms)?;
    let mut second = meters.visit(rt.alloc(), &mut first)?;
    rows(&rt, &meters, &mut first, &mut second);
    Ok(())
}

// Asks so many times for one unit, and counts the answers that let in.
fn entered<R: Wait>(rt: &R, meter: &TenantMeter, mut pass: MeterPass, times: u32) -> u32
    requires { IsPassOf meter.now pass }
    ensures { result ≤ times }
{
    let mut entered = 0;
    for round in 0..times {
        let _round = round;
        if let Admission::Entered = meter.ask(rt, &mut pass, 0, 1) {
            entered += 1;
        }
    }
    entered
}

// Two threads ask beside each other.
fn entered_by_two<R: Threads + Wait + Sync>(
    rt: &R,
    meter: &TenantMeter,
    mut pass: MeterPass,
    times: u32,
) -> (u32, u32)
    requires { IsPassOf meter.now pass }
{
    let other = meter.split(&mut pass);
    join(
        rt,
        move || -> u32
            requires { IsPassOf meter.now pass }
        { entered(rt, meter, pass, times) },
        move || -> u32
            requires { IsPassOf meter.now other }
        { entered(rt, meter, other, times) },
    )
}

#[test]
fn two_threads_fill_a_bucket(rt: HostRuntime) -> Result<(), Fail> {
    let terms = Terms {
        capacity: 1_000,
        rate: 0,
    };
    let (meter, pass) = TenantMeter::new(&rt, rt.alloc(), terms)?;
    let (first, second) = entered_by_two(&rt, &meter, pass, 800);
    assert_eq!(rt; u64::from(first) + u64::from(second), 1_000);
    Ok(())
}
