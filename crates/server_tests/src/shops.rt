//! A shop with its visits, and a worker's desk of it.

use run_queues::Policy;
use shop_desks::{Shop, ShopDesk};
use std::sync::Arc;
use std::test::Fail;
use tenant_meters::Terms;
use worker_desks::Settings;

#[test]
fn a_shop_has_a_second_visit_and_a_desk(rt: HostRuntime) -> Result<(), Fail> {
    let settings = Settings {
        workers: 1,
        quantum: 1000,
        policy: Policy::RoundRobin,
        berths: 2,
        pages: 1,
    };
    let terms = [Terms {
        capacity: 100,
        rate: 0,
    }];
    let (shop, mut visit) = Shop::new(&rt, rt.alloc(), settings, terms.as_slice())?;
    let _other = shop.visit(rt.alloc(), &mut visit)?;
    let shop = Arc::new(rt.alloc(), shop)?;
    let mut desk = ShopDesk::new(rt, rt.alloc(), shop, &mut visit)?;
    desk.grant(4096);
    Ok(())
}
