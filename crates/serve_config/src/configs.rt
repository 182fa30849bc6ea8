//! A configuration whose parts fit.
ghost use Rattle.std.specs.Prelude.{◌≡◌, ◌≤◌, ◌<◌, None, Some, length, slice_get};
ghost use Rattle.serve_config.specs.Routing.{all_routes};
ghost use Rattle.serve_config.specs.Ranges.{IsInRange, IsRouteInRange};
ghost use Rattle.serve_config.specs.Overview.{first_fault, route_count};

use crate::tenants::{Route, Tenant};
use run_queues::Policy;
use std::marker::Model;
use wasm_ops::Items;

/// A configuration: how the server works, and whom it serves.
///
/// Contracts see it as the record of its fields. Each value has its numbers and texts in their ranges, and nothing is wrong with it as a whole, whoever made it: at most 64 routes in all, no two tenants of one name or one port, no path twice in a tenant, and paths and content types of the letters that they may have. `berths + 1` memories of any route's pages have at most 16,384 pages, 1 GiB, together.
#[derive(Debug, Drop)]
pub struct Config {
    /// How many threads run functions, 1 to 64.
    pub workers: u32,

    /// How many units of fuel a function is given until another one's turn comes: 1 to 2^32 - 1.
    pub quantum: u64,

    /// Which waiting request a worker takes up next.
    pub policy: Policy,

    /// How many functions may have their memory at a time: as many as there are workers, or more, and at most 256.
    pub berths: u32,

    /// How many connections of a tenant are served at a time, 1 to 16.
    pub clerks: u32,

    /// 1 to 64 tenants. Routes are numbered through all of them, in order.
    pub tenants: Items<Tenant>,
}

impl Model for Config {
    ghost use Rattle.std.specs.Prelude.{◌≡◌, None};
    ghost use Rattle.serve_config.specs.Configuration.{Configuration};

    ghost Value = { Configuration };

    ghost use Rattle.serve_config.specs.Ranges.{IsInRange};
    ghost use Rattle.serve_config.specs.Overview.{first_fault};

    ghost view = { λ config. record { workers = config.workers; quantum = config.quantum; policy = config.policy; berths = config.berths; clerks = config.clerks; tenants = config.tenants } };

    ghost invariant = { λ config. IsInRange (record { workers = config.workers; quantum = config.quantum; policy = config.policy; berths = config.berths; clerks = config.clerks; tenants = config.tenants }) × (first_fault config.berths config.tenants ≡ None) };
}

impl Config {
    /// The tenants, in order. What each configuration keeps is known of a call.
    pub fn tenants(&self) -> &[Tenant]
        ensures same { result.now ≡ self.now.tenants }
        ensures in_range { IsInRange self.now }
        ensures fits { first_fault self.now.berths self.now.tenants ≡ None }
    {
        self.tenants.as_slice()
    }

    /// How many routes all tenants have, 1 to 64.
    pub fn route_count(&self) -> u32
        ensures counted { result ≡ length (all_routes self.now.tenants) }
        ensures few { result ≤ 64 }
    {
        count_routes(self.tenants())
    }

    /// The route with this number. Routes are numbered through all tenants, in order.
    pub fn route(&self, number: u32) -> &Route
        requires { number < length (all_routes self.now.tenants) }
        ensures is { slice_get (all_routes self.now.tenants) number ≡ Some result.now }
        ensures in_range { IsRouteInRange result.now }
    {
        route_at(self.tenants(), number as usize)
    }
}

/// How many routes tenants have that have at most 64.
fn count_routes(tenants: &[Tenant]) -> u32
    requires { route_count tenants.now ≤ 64 }
    ensures { result ≡ route_count tenants.now }
{
    let mut count = 0;
    for tenant in tenants {
        count += tenant.routes.as_slice().len() as u32;
    }
    count
}

/// The route at this place among those of all tenants.
fn route_at(tenants: &[Tenant], place: usize) -> &Route
    requires { place < length (all_routes tenants.now) }
    ensures { slice_get (all_routes tenants.now) place ≡ Some result.now }
{
    let mut left = place;
    for tenant in tenants {
        let routes = tenant.routes.as_slice();
        if left < routes.len() {
            return &routes[left];
        }
        left -= routes.len();
    }
    unreachable!()
}
