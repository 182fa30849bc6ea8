//! The routers: which route a path of a tenant has.
ghost use Rattle.std.specs.Prelude.{◌≡◌, ◌+◌, ◌<◌, ◌≤◌, ◌^◌, length, false, true, None, IfOk, OnOk};
ghost use Rattle.std.specs.List.{list_any};
ghost use Rattle.matchit.specs.Order.{placed};
ghost use Rattle.matchit.specs.declared.error.InsertError.TheVariants.{OutOfMemory};
ghost use Rattle.serve_config.specs.Letters.{is_path};
ghost use Rattle.serve_config.specs.Overview.{route_count, some_route, has_bad_path, has_double, has_one_path};
ghost use Rattle.serve_config.specs.Tables.{AreTexts, number_at, table_of, found_in, IsTable, AreMade, AreTablesOf, row_of};

use crate::configs::Config;
use crate::tenants::{Route, Tenant};
use matchit::{InsertError, Router};
use std::alloc::{AllocError, Global};
use std::marker::Model;

/// The routes of a configuration, by their paths: a router for each tenant, in order.
///
/// Contracts see, for each tenant, its paths, each with the number of its route.
#[derive(Drop)]
pub struct Routes {
    routers: Vec<Router<u32>>,
}

impl Model for Routes {
    ghost use Rattle.std.specs.Prelude.{List, ℕ};
    ghost use Rattle.serve_config.specs.Tables.{tables_of, AllTexts};

    ghost Value = { List (List (List ℕ × ℕ)) };

    ghost view = { λ routes. tables_of routes.routers.items };

    ghost invariant = { λ routes. AllTexts routes.routers.items };
}

/// What an insertion ends with that fails for want of memory. No other failure can come where the route is another one, without parameters.
fn no_memory(_error: InsertError) -> AllocError
    requires { _error ≡ OutOfMemory }
{
    AllocError
}

/// Adds a route with its number.
fn add(router: &mut Router<u32>, path: &str, number: u32) -> Result<(), AllocError>
    requires texts { AreTexts router.old }
    requires path { is_path path.now ≡ true }
    requires another { number_at (table_of router.old) path.now ≡ None }
    ensures { OnOk result (router.new ≡ placed (path.now, row_of path.now number) router.old) }
{
    match router.insert(path, number) {
        Ok(()) => Ok(()),
        Err(error) => Err(no_memory(error)),
    }
}

/// The router of a tenant's routes, of which the first has this number.
fn router_of(alloc: Global, routes: &[Route], first: u32) -> Result<Router<u32>, AllocError>
    requires room { first + length routes.now < 2 ^ 32 }
    requires paths { list_any has_bad_path routes.now ≡ false }
    requires once { has_double has_one_path routes.now ≡ false }
    ensures { IfOk result (IsTable first routes.now) }
{
    let mut router = Router::new(alloc);
    let mut number = first;
    for route in routes {
        add(&mut router, route.path.as_str(), number)?;
        number += 1;
    }
    Ok(router)
}

/// The routers of tenants that have at most 64 routes, in order.
fn routers_of(alloc: Global, tenants: &[Tenant]) -> Result<Vec<Router<u32>>, AllocError>
    requires few { route_count tenants.now ≤ 64 }
    requires paths { some_route has_bad_path tenants.now ≡ false }
    requires once { list_any (λ t. has_double has_one_path t.routes) tenants.now ≡ false }
    ensures { IfOk result (λ routers. AreMade 0 tenants.now routers.items) }
{
    let mut routers = Vec::new(alloc);
    let mut first = 0;
    for tenant in tenants {
        let routes = tenant.routes.as_slice();
        routers.push(router_of(alloc, routes, first)?)?;
        first += routes.len() as u32;
    }
    Ok(routers)
}

impl Routes {
    /// The routes of a configuration.
    pub fn new(alloc: Global, config: &Config) -> Result<Routes, AllocError>
        ensures { IfOk result (AreTablesOf config.now) }
    {
        let routers = routers_of(alloc, config.tenants())?;
        Ok(Routes { routers })
    }

    /// How many tenants there are.
    pub fn tenants(&self) -> usize
        ensures { result ≡ length self.now }
    {
        self.routers.len()
    }

    /// The number of the tenant's route whose text is the path, byte by byte, if there is one. Routes are numbered through all tenants, in order.
    ///
    /// It takes no memory, and time in the length of the path.
    pub fn find(&self, tenant: u32, path: &str) -> Option<u32>
        requires { tenant < length self.now }
        ensures { result ≡ found_in self.now tenant path.now }
    {
        let router = &self.routers[tenant as usize];
        match router.at(path) {
            Ok(found) => Some(*found.value),
            Err(_) => None,
        }
    }
}
