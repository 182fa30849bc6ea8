//! Rows of pools of one berth, and two threads that hand berths round.
ghost use Rattle.std.specs.Prelude.{◌≡◌, IfOk, IfSome};
ghost use Rattle.memory_pool.specs.Passing.{IsPassOf, IsTaken};
ghost use Rattle.memory_pool.specs.Giving.{IsGiven};
ghost use Rattle.wasm_store.specs.View.{empty};

use memory_pool::{Berth, Given, Pool, PoolPass};
use std::alloc::{AllocError, Global};
use std::test::Fail;
use std::thread::{Threads, join};
use wasm_store::Vessel;

// A take after which the pass is the pool's as before.
fn take_one(pool: &Pool, pass: &mut PoolPass) -> Option<Berth>
    requires { IsPassOf pool.now pass.old }
    ensures pass { IsPassOf pool.now pass.new × (pass.new.parts ≡ pass.old.parts) }
    ensures taken { IsTaken pool.now pass.old pass.new result }
{
    match pool.take(pass) {
        Some(berth) => Some(berth),
        None => None,
    }
}

// A give after which the pass is the pool's as before.
fn give_one(pool: &Pool, pass: &mut PoolPass, berth: Berth) -> Given
    requires pass { IsPassOf pool.now pass.old }
    requires pages { berth.pages ≡ pool.now.pages }
    ensures pass { IsPassOf pool.now pass.new × (pass.new.parts ≡ pass.old.parts) }
    ensures given { IsGiven pool.now pass.old pass.new berth result }
{
    match pool.give(pass, berth) {
        Given::Home => Given::Home,
        Given::Kept(berth) => Given::Kept(berth),
    }
}

#[test]
fn one_berth(rt: HostRuntime) -> Result<(), Fail> {
    let (pool, mut pass) = Pool::new(rt.alloc(), 1, 1)?;
    let Some(berth) = take_one(&pool, &mut pass) else {
        panic!(rt; "a berth is at home");
    };
    let second = take_one(&pool, &mut pass);
    assert!(rt; second.is_none());
    drop(second);
    let given = give_one(&pool, &mut pass, berth);
    assert!(rt; matches!(given, Given::Home));
    drop(given);
    let berths = pool.close(pass);
    assert_eq!(rt; berths.len(), 1);
    drop(berths);
    Ok(())
}

// The berth of a pool of one.
fn only_berth(alloc: Global) -> Result<Option<Berth>, AllocError>
    ensures { IfOk result (λ taken. IfSome taken (λ berth. berth.pages ≡ 1)) }
{
    let (pool, mut pass) = Pool::new(alloc, 1, 1)?;
    let berth = take_one(&pool, &mut pass);
    drop(pool);
    drop(pass);
    Ok(berth)
}

#[test]
fn berth_of_another_pool(rt: HostRuntime) -> Result<(), Fail> {
    let (pool, mut pass) = Pool::new(rt.alloc(), 1, 1)?;
    let Ok(Some(berth)) = only_berth(rt.alloc()) else {
        panic!(rt; "a berth is at home");
    };
    let Given::Kept(berth) = give_one(&pool, &mut pass, berth) else {
        panic!(rt; "no slot is empty");
    };
    let own = take_one(&pool, &mut pass);
    assert!(rt; own.is_some());
    drop(own);
    let given = give_one(&pool, &mut pass, berth);
    assert!(rt; matches!(given, Given::Home));
    drop(given);
    drop(pool);
    drop(pass);
    Ok(())
}

// A berth is taken, written over, rinsed and given back, so many times.
fn hand_round(pool: &Pool, pass: &mut PoolPass, rounds: u32)
    requires { IsPassOf pool.now pass.old × (pool.now.pages ≡ 1) }
    ensures { IsPassOf pool.now pass.new × (pass.new.parts ≡ pass.old.parts) }
{
    for _ in 0..rounds {
        if let Some(berth) = pool.take(pass) {
            let berth = written_over(berth);
            drop(pool.give(pass, berth));
        }
    }
}

// Writes over the whole page.
fn use_page(vessel: &mut Vessel)
    requires { vessel.old ≡ empty 1 }
    ensures { vessel.new.pages ≡ 1 }
{
    if vessel.grow(1, 1).is_none() {
        return;
    }
    vessel.copy_in(0, &[0xFF; 65_536]);
}

// The berth, behind a run that used its page.
fn written_over(berth: Berth) -> Berth
    requires { berth.pages ≡ 1 }
    ensures { result.pages ≡ 1 }
{
    let mut vessel = berth.into_vessel();
    use_page(&mut vessel);
    vessel.rinse();
    Berth::from_vessel(vessel)
}

fn handed(pool: &Pool, mut pass: PoolPass) -> PoolPass
    requires { IsPassOf pool.now pass × (pool.now.pages ≡ 1) }
    ensures { IsPassOf pool.now result × (result.parts ≡ pass.parts) }
{
    hand_round(pool, &mut pass, 1_000);
    pass
}

fn hand_by_two<R: Threads + Sync>(rt: &R, pool: &Pool, mut pass: PoolPass) -> PoolPass
    requires { IsPassOf pool.now pass × (pass.parts ≡ 65536) × (pool.now.pages ≡ 1) }
    ensures { IsPassOf pool.now result × (result.parts ≡ 65536) }
{
    let other = pool.split(&mut pass);
    let (mut pass, other) = join(
        rt,
        move || -> PoolPass
            requires { IsPassOf pool.now pass × (pool.now.pages ≡ 1) }
            ensures { IsPassOf pool.entry.now result × (result.parts ≡ pass.parts) }
        { handed(pool, pass) },
        move || -> PoolPass
            requires { IsPassOf pool.now other × (pool.now.pages ≡ 1) }
            ensures { IsPassOf pool.entry.now result × (result.parts ≡ other.parts) }
        { handed(pool, other) },
    );
    pool.join(&mut pass, other);
    pass
}

#[test]
fn two_threads_hand_berths_round(rt: HostRuntime) -> Result<(), Fail> {
    let (pool, pass) = Pool::new(rt.alloc(), 2, 1)?;
    let pass = hand_by_two(&rt, &pool, pass);
    let berths = pool.close(pass);
    assert_eq!(rt; berths.len(), 2);
    for berth in berths {
        assert!(rt; is_blank(berth));
    }
    Ok(())
}

// Whether the page of a berth is zero.
fn is_blank(berth: Berth) -> bool
    requires { berth.pages ≡ 1 }
{
    let mut vessel = berth.into_vessel();
    let grown = vessel.grow(1, 1).is_some();
    let is_zero = vessel.memory().iter().all(|&byte| byte == 0);
    drop(vessel);
    grown && is_zero
}
