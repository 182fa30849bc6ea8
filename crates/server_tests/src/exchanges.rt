//! A thousand requests, which a session and a worker of a shop pass between them, by the shop's own calls: through the tenant's meter, a vacant place, the board and the inbox, and back as answers.
ghost use Rattle.std.specs.Prelude.{◌≡◌, ◌≤◌, length, None};
ghost use Rattle.std.specs.Arc.{arc_value};
ghost use Rattle.shop_desks.specs.Shops.{IsVisitOf};

use crate::jobs::request_to;
use admission::Admission;
use module_files::program_of;
use run_queues::Policy;
use sandbox_states::Verdict;
use shop_desks::{Shop, ShopDesk, Visit, work_until_dismissed};
use std::alloc::Global;
use std::process::Abort;
use std::sync::{Arc, Wait};
use std::test::Fail;
use std::thread;
use std::thread::Threads;
use tenant_meters::Terms;
use wasm_instance::Program;
use worker_desks::{OpenGate, Settings};

// `_start` replies with the first byte of the body: the pair at address 0 tells `fd_read` and `fd_write` of one byte at address 16.
const FIRST_BYTE: [u8; 157] = [
    0x00, 0x61, 0x73, 0x6D, 0x01, 0x00, 0x00, 0x00, 0x01, 0x0C, 0x02, 0x60, 0x04, 0x7F, 0x7F, 0x7F,
    0x7F, 0x01, 0x7F, 0x60, 0x00, 0x00, 0x02, 0x44, 0x02, 0x16, 0x77, 0x61, 0x73, 0x69, 0x5F, 0x73,
    0x6E, 0x61, 0x70, 0x73, 0x68, 0x6F, 0x74, 0x5F, 0x70, 0x72, 0x65, 0x76, 0x69, 0x65, 0x77, 0x31,
    0x07, 0x66, 0x64, 0x5F, 0x72, 0x65, 0x61, 0x64, 0x00, 0x00, 0x16, 0x77, 0x61, 0x73, 0x69, 0x5F,
    0x73, 0x6E, 0x61, 0x70, 0x73, 0x68, 0x6F, 0x74, 0x5F, 0x70, 0x72, 0x65, 0x76, 0x69, 0x65, 0x77,
    0x31, 0x08, 0x66, 0x64, 0x5F, 0x77, 0x72, 0x69, 0x74, 0x65, 0x00, 0x00, 0x03, 0x02, 0x01, 0x01,
    0x05, 0x03, 0x01, 0x00, 0x01, 0x07, 0x0A, 0x01, 0x06, 0x5F, 0x73, 0x74, 0x61, 0x72, 0x74, 0x00,
    0x02, 0x0A, 0x1A, 0x01, 0x18, 0x00, 0x41, 0x00, 0x41, 0x00, 0x41, 0x01, 0x41, 0x08, 0x10, 0x00,
    0x1A, 0x41, 0x01, 0x41, 0x00, 0x41, 0x01, 0x41, 0x08, 0x10, 0x01, 0x1A, 0x0B, 0x0B, 0x0E, 0x01,
    0x00, 0x41, 0x00, 0x0B, 0x08, 0x10, 0x00, 0x00, 0x00, 0x01, 0x00, 0x00, 0x00,
];

// What the worker's thread has. It makes its desk there, so that nothing but the runtime's type is left open of what crosses.
#[derive(Drop)]
struct Bench<R> {
    rt: R,
    alloc: Global,
    shop: Arc<Shop>,
    visit: Visit,
}

// The worker's thread, until the workers are dismissed.
fn works<R: Abort + Wait + Copy>(bench: Bench<R>)
    requires own { IsVisitOf (arc_value bench.shop) bench.visit }
    requires parts { (2 ≤ bench.visit.board_pass.parts) × (2 ≤ bench.visit.pool_pass.parts) }
{
    let Bench {
        rt,
        alloc,
        shop,
        mut visit,
    } = bench;
    let theirs = Arc::try_clone(&shop).expect(&rt, "memory");
    let mut desk = ShopDesk::new(rt, alloc, theirs, &mut visit).expect(&rt, "memory");
    work_until_dismissed(&shop, 0, &mut desk, &OpenGate);
}

// A shop of one tenant, who may enter a thousand requests of one unit, and its first visit. A request takes several turns of its quantum.
fn opened<R: Abort + Wait>(rt: &R, alloc: Global) -> (Arc<Shop>, Visit)
    ensures own { IsVisitOf (arc_value result.0) result.1 }
    ensures tenant { length (arc_value result.0).meters ≡ 1 }
    ensures parts { (result.1.board_pass.parts ≡ 65536) × (result.1.pool_pass.parts ≡ 65536) }
{
    let settings = Settings {
        workers: 1,
        quantum: 5,
        policy: Policy::RoundRobin,
        berths: 1,
        pages: 1,
    };
    let terms = [Terms {
        capacity: 1_000,
        rate: 0,
    }];
    let (shop, visit) = Shop::new(rt, alloc, settings, terms.as_slice()).expect(rt, "memory");
    (Arc::new(alloc, shop).expect(rt, "memory"), visit)
}

// Whether this is the reply of one byte.
fn is_reply(verdict: Verdict, byte: u8) -> bool {
    match verdict {
        Verdict::Replied(reply) => matches!(reply.bytes(), [found] if *found == byte),
        _ => false,
    }
}

// The session's way with one request, which has a budget of 100 units.
fn exchanges<R: Abort + Wait>(
    rt: &R,
    alloc: Global,
    shop: &Shop,
    visit: &mut Visit,
    program: &Arc<Program>,
    byte: u8,
)
    requires own { IsVisitOf shop.now visit.old }
    requires tenant { length shop.now.meters ≡ 1 }
    ensures { IsVisitOf shop.now visit.new }
{
    let admission = shop.ask(rt, visit, 0, 0, 1);
    assert!(rt; matches!(admission, Admission::Entered));
    let request = request_to(alloc, program, byte, 100).expect(rt, "memory");
    let verdict = shop
        .answer(rt, alloc, visit, &request, 7)
        .expect(rt, "memory");
    assert!(rt; is_reply(verdict, byte));
}

// The session: the bodies of its requests are all bytes in turn. Then the tenant is spent, and the worker is dismissed.
fn exchanges_all<R: Abort + Wait>(
    rt: &R,
    alloc: Global,
    shop: &Shop,
    mut visit: Visit,
    program: &Arc<Program>,
)
    requires own { IsVisitOf shop.now visit }
    requires tenant { length shop.now.meters ≡ 1 }
{
    for round in 0..1_000u32 {
        exchanges(rt, alloc, shop, &mut visit, program, (round % 256) as u8);
    }
    let admission = shop.ask(rt, &mut visit, 0, 0, 1);
    assert!(rt; matches!(admission, Admission::Spent { .. }));
    shop.dismiss();
}

// Both beside each other.
fn exchange_by_two<R: Threads + Abort + Wait + Copy + Send + Sync + 'static>(
    rt: &R,
    alloc: Global,
    program: &Arc<Program>,
) {
    let (shop, mut first) = opened(rt, alloc);
    let visit = shop.visit(alloc, &mut first).expect(rt, "memory");
    let bench = Bench {
        rt: *rt,
        alloc,
        shop: Arc::try_clone(&shop).expect(rt, "memory"),
        visit: first,
    };
    let spawned = thread::spawn(
        rt,
        move || -> ()
            requires { IsVisitOf (arc_value bench.shop) bench.visit × (2 ≤ bench.visit.board_pass.parts) × (2 ≤ bench.visit.pool_pass.parts) }
        { works(bench) },
    );
    let Ok(worker) = spawned else {
        panic!(rt; "a thread");
    };
    exchanges_all(rt, alloc, &shop, visit, program);
    worker.join(rt);
}

#[test]
fn two_threads_pass_a_thousand_requests(rt: HostRuntime) -> Result<(), Fail> {
    let alloc = rt.alloc();
    let program = program_of(alloc, &FIRST_BYTE, 1)
        .ok()
        .expect(&rt, "a program");
    let program = Arc::new(alloc, program)?;
    exchange_by_two(&rt, alloc, &program);
    Ok(())
}
