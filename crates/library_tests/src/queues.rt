//! Rows of draws and of both policies, and draws of four threads at once.
ghost use Rattle.std.specs.Prelude.{◌≡◌, All};
ghost use Rattle.run_queues.specs.Drawing.{Drawing};

use run_queues::{Common, CommonPass, Entry, Local, Policy};
use std::alloc::{AllocError, Global};
use std::sync::atomic::{AtomicU64, Ordering};
use std::test::Fail;
use std::thread;
use std::thread::Threads;

#[test]
fn draws_in_order_and_then_nothing(rt: HostRuntime) -> Result<(), Fail> {
    let mut places = Vec::with_capacity(rt.alloc(), 2)?;
    places.push_reserved(3);
    places.push_reserved(1);
    let (queue, mut pass) = Common::new(rt.alloc(), places)?;
    let mut other = queue.split(&mut pass);
    assert_eq!(rt; queue.draw(&mut pass), Some(3));
    assert_eq!(rt; queue.draw(&mut other), Some(1));
    queue.join(&mut pass, other);
    assert_eq!(rt; queue.draw(&mut pass), None);
    assert_eq!(rt; queue.draw(&mut pass), None);
    Ok(())
}

fn entry(place: u32, deadline: u64) -> Entry {
    Entry {
        place,
        deadline,
        turns: 1,
    }
}

// The places of three entries in the order in which a policy serves them, and that nothing is left.
fn served(alloc: Global, policy: Policy) -> Result<([Option<u32>; 3], bool), AllocError> {
    let mut queue = Local::new(alloc, policy, 3)?;
    queue.push(entry(0, 9));
    queue.push(entry(1, 5));
    queue.push(entry(2, 5));
    let places = [
        queue.next().map(|entry| entry.place),
        queue.next().map(|entry| entry.place),
        queue.next().map(|entry| entry.place),
    ];
    Ok((places, queue.next().is_none()))
}

#[test]
fn serves_by_policy(rt: HostRuntime) -> Result<(), Fail> {
    assert_eq!(rt;
        served(rt.alloc(), Policy::RoundRobin)?,
        ([Some(0), Some(1), Some(2)], true)
    );
    assert_eq!(rt;
        served(rt.alloc(), Policy::EarliestDeadline)?,
        ([Some(1), Some(2), Some(0)], true)
    );
    Ok(())
}

// Draws until nothing is left, and counts a draw at each place that is drawn.
fn draw_all(queue: &Common, pass: &mut CommonPass, draws: &[AtomicU64])
    requires { pass.old.id ≡ queue.now.id }
{
    for _ in 0..=draws.len() {
        let Some(place) = queue.draw(pass) else {
            return;
        };
        if let Some(count) = draws.get(place as usize) {
            count.fetch_add(1, Ordering::SeqCst);
        }
    }
}

fn draw_by_four<R: Threads + Sync>(
    rt: &R,
    queue: &Common,
    mut pass: CommonPass,
    draws: &[AtomicU64],
)
    requires { (pass.id ≡ queue.now.id) × (pass.parts ≡ 65536) }
{
    let mut passes = [
        queue.split(&mut pass),
        queue.split(&mut pass),
        queue.split(&mut pass),
        pass,
    ];
    thread::for_each_mut(
        rt,
        &mut passes,
        4,
        &|_i: usize, pass: &mut CommonPass|
            requires { pass.now.id ≡ queue.now.id }
        { draw_all(queue, pass, draws) },
    );
}

#[test]
fn four_threads_draw_each_place_once(rt: HostRuntime) -> Result<(), Fail> {
    let mut places = Vec::with_capacity(rt.alloc(), 10_000)?;
    let mut draws = Vec::with_capacity(rt.alloc(), 10_000)?;
    for place in 0..10_000 {
        places.push(place)?;
        draws.push(AtomicU64::new(0))?;
    }
    let (queue, pass) = Common::new(rt.alloc(), places)?;
    draw_by_four(&rt, &queue, pass, draws.as_slice());
    for count in draws.as_slice() {
        assert_eq!(rt; count.load(Ordering::SeqCst), 1);
    }
    Ok(())
}
