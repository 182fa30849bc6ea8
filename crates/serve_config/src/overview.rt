//! What is looked at over a whole configuration, behind the walk through its keys.
ghost use Rattle.std.specs.Prelude.{◌≡◌, ◌≤◌, ◌<◌, ◌^◌, length, nat_lt};
ghost use Rattle.std.specs.List.{list_any, AllByRecursion};
ghost use Rattle.serve_config.specs.Overview.{route_count, has_double, are_rivals as are_rival, has_one_path as has_path_of, some_route, has_bad_path, has_bad_content_type, is_too_large as takes_too_much, first_fault as fault_due};

use crate::letters::{has_content_type_letters, is_path};
use crate::refusals::Refusal;
use crate::tenants::{Route, Tenant};

/// The most routes of all tenants.
const MOST_ROUTES: usize = 64;

/// The most pages of all memories together: 1 GiB.
const MOST_PAGES: u64 = 16_384;

/// Whether the tenants have more than 64 routes.
fn has_many_routes(tenants: &[Tenant]) -> bool
    ensures { result ≡ nat_lt 64 (route_count tenants.now) }
{
    let mut left = MOST_ROUTES;
    for tenant in tenants {
        let routes = tenant.routes.as_slice().len();
        if left < routes {
            return true;
        }
        left -= routes;
    }
    false
}

/// Whether two tenants have one name or one port.
fn are_rivals(one: &Tenant, other: &Tenant) -> bool
    ensures { result ≡ are_rival one.now other.now }
{
    one.name == other.name || one.port == other.port
}

/// Whether one of the others has the tenant's name or port.
fn has_rival(one: &Tenant, others: &[Tenant]) -> bool
    ensures { result ≡ list_any (λ u. are_rival one.now u) others.now }
{
    others.iter().any(|other| are_rivals(one, other))
}

/// Whether two of the tenants have one name or one port.
fn has_rivals(tenants: &[Tenant]) -> bool
    ensures { result ≡ has_double are_rival tenants.now }
{
    let Some((first, rest)) = tenants.split_first() else {
        return false;
    };
    if has_rival(first, rest) {
        return true;
    }
    has_rivals(rest)
}

/// Whether one of the others has the route's path.
fn has_path(one: &Route, others: &[Route]) -> bool
    ensures { result ≡ list_any (λ s. has_path_of one.now s) others.now }
{
    others.iter().any(|other| one.path == other.path)
}

/// Whether two of the routes have one path.
fn has_path_twice(routes: &[Route]) -> bool
    ensures { result ≡ has_double has_path_of routes.now }
{
    let Some((first, rest)) = routes.split_first() else {
        return false;
    };
    if has_path(first, rest) {
        return true;
    }
    has_path_twice(rest)
}

/// Whether a tenant has a path twice.
fn some_path_twice(tenants: &[Tenant]) -> bool
    ensures { result ≡ list_any (λ t. has_double has_path_of t.routes) tenants.now }
{
    tenants
        .iter()
        .any(|tenant| has_path_twice(tenant.routes.as_slice()))
}

/// Whether a path has a letter that paths have not.
fn bad_path(routes: &[Route]) -> bool
    ensures { result ≡ list_any has_bad_path routes.now }
{
    routes.iter().any(|route| !is_path(route.path.as_str()))
}

fn some_bad_path(tenants: &[Tenant]) -> bool
    ensures { result ≡ some_route has_bad_path tenants.now }
{
    tenants
        .iter()
        .any(|tenant| bad_path(tenant.routes.as_slice()))
}

/// Whether a content type has a letter that content types have not.
fn bad_content_type(routes: &[Route]) -> bool
    ensures { result ≡ list_any has_bad_content_type routes.now }
{
    routes.iter().any(|route| !has_content_type_letters(route.content_type.as_str()))
}

fn some_bad_content_type(tenants: &[Tenant]) -> bool
    ensures { result ≡ some_route has_bad_content_type tenants.now }
{
    tenants
        .iter()
        .any(|tenant| bad_content_type(tenant.routes.as_slice()))
}

/// Whether the memories of the berths and one more would be too large with the route's pages each.
fn is_too_large(berths: u32, route: &Route) -> bool
    ensures { result ≡ takes_too_much berths route.now }
{
    let pages = route.pages;
    MOST_PAGES < (berths as u64 + 1) * pages as u64
}

fn too_large(berths: u32, routes: &[Route]) -> bool
    ensures { result ≡ list_any (takes_too_much berths) routes.now }
{
    routes.iter().any(|route| is_too_large(berths, route))
}

fn some_too_large(berths: u32, tenants: &[Tenant]) -> bool
    ensures { result ≡ some_route (takes_too_much berths) tenants.now }
{
    tenants
        .iter()
        .any(|tenant| too_large(berths, tenant.routes.as_slice()))
}

/// What is wrong with a configuration as a whole, the first that is looked at.
#[tactic(auto, unfolding(crate::specs::Overview::first_fault))]
pub(crate) fn first_fault(berths: u32, tenants: &[Tenant]) -> Option<Refusal>
    ensures { result ≡ fault_due berths tenants.now }
{
    if has_many_routes(tenants) {
        return Some(Refusal::OutOfRange);
    }
    if has_rivals(tenants) {
        return Some(Refusal::DoubleName);
    }
    if some_bad_path(tenants) {
        return Some(Refusal::BadRoute);
    }
    if some_path_twice(tenants) {
        return Some(Refusal::DoubleRoute);
    }
    if some_bad_content_type(tenants) {
        return Some(Refusal::BadContentType);
    }
    if some_too_large(berths, tenants) {
        return Some(Refusal::RegionTooLarge);
    }
    None
}
