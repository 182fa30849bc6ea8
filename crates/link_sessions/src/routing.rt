//! Which route a request asks for.
ghost use Rattle.std.specs.Prelude.{◌≡◌, ◌+◌, ◌<◌, ◌≤◌, ◌^◌, length, take};
ghost use Rattle.std.specs.Str.{bytes_eq};
ghost use Rattle.std.specs.List.{position_from};
ghost use Rattle.serve_config.specs.Overview.{route_count};
ghost use Rattle.serve_config.specs.Routing.{route_number};

use serve_config::{Config, Route, Tenant};

// The number of the tenant's route that has this path, if there is one. Routes are numbered through all tenants.
//
// Threads share what it looks through, and the tables that `serve_config` makes of it belong to one thread.
pub(crate) fn route_with(config: &Config, tenant: u32, path: &str) -> Option<u32>
    requires { tenant < length config.now.tenants }
    ensures { result ≡ route_number config.now.tenants tenant path.now }
{
    let tenants = config.tenants();
    let place = tenant as usize;
    let (before, _) = tenants.split_at(place);
    number_from(count_routes(before), tenants[place].routes.as_slice(), path)
}

// How many routes some tenants have, of which there are at most 64.
fn count_routes(tenants: &[Tenant]) -> u32
    requires { route_count tenants.now ≤ 64 }
    ensures { result ≡ route_count tenants.now }
{
    let mut count = 0;
    for tenant in tenants {
        count += tenant.routes.as_slice().len() as u32;
    }
    count
}

// The number of the first of these routes that has the path, where they are numbered from `first` on.
fn number_from(first: u32, routes: &[Route], path: &str) -> Option<u32>
    requires { first + length routes.now < 2 ^ 32 }
    ensures { result ≡ position_from (λ route. bytes_eq route.path path.now) first routes.now }
{
    let mut number = first;
    for route in routes {
        if route.path.as_str() == path {
            return Some(number);
        }
        number += 1;
    }
    None
}
