//! The configuration of the load.
ghost use Rattle.std.specs.Prelude.{◌≡◌, [], IfOk, OnOk};
ghost use Rattle.generated_load.specs.Configuration.{soak_route, soak_routes, soak_tenant, soak_configuration};

use outside::Text;
use run_queues::Policy;
use serve_config::{Config, Route, Tenant};
use std::alloc::{AllocError, Global};
use wasm_ops::Items;

/// Text of one's own.
fn owned(alloc: Global, text: &str) -> Result<Text, AllocError>
    ensures { IfOk result (λ own. own ≡ text.now) }
{
    Ok(Text::new(String::from_str(alloc, text)?))
}

/// A route, whose budget and content type are those of all.
fn route(
    alloc: Global,
    path: &str,
    file: &str,
    pages: u32,
    estimate: u64,
    deadline: u64,
) -> Result<Route, AllocError>
    ensures { IfOk result (λ one. one ≡ soak_route path.now file.now pages estimate deadline) }
{
    Ok(Route {
        path: owned(alloc, path)?,
        module: owned(alloc, file)?,
        budget: 1000,
        pages,
        estimate,
        deadline,
        content_type: owned(alloc, "application/octet-stream")?,
    })
}

/// Adds the routes, in order.
fn add_routes(alloc: Global, routes: &mut Vec<Route>) -> Result<(), AllocError>
    requires { routes.old.items ≡ [] }
    ensures { OnOk result (routes.new.items ≡ soak_routes) }
{
    routes.push(route(alloc, "/nil", "m0", 1, 10, 10)?)?;
    routes.push(route(alloc, "/trap", "m1", 1, 10, 10)?)?;
    routes.push(route(alloc, "/loop", "m2", 1, 1000, 20)?)?;
    routes.push(route(alloc, "/echo", "e", 2, 200, 20)?)?;
    Ok(())
}

/// The routes.
fn routes(alloc: Global) -> Result<Items<Route>, AllocError>
    ensures { IfOk result (λ all. all ≡ soak_routes) }
{
    let mut routes = Vec::new(alloc);
    match add_routes(alloc, &mut routes) {
        Ok(()) => Ok(Items::new(routes)),
        Err(fault) => {
            drop(routes);
            Err(fault)
        }
    }
}

/// The one tenant.
fn tenant(alloc: Global) -> Result<Tenant, AllocError>
    ensures { IfOk result (λ one. one ≡ soak_tenant) }
{
    Ok(Tenant {
        name: owned(alloc, "soak")?,
        port: 8080,
        capacity: 20_000,
        rate: 500,
        routes: routes(alloc)?,
    })
}

/// The configuration of the load: four workers with a quantum of 100 units, and one tenant with four routes. Their functions do nothing, trap, run until their budget of 1,000 units is spent, and reply with the body of their request.
///
/// Only want of memory keeps it from being made.
pub fn soak_config(alloc: Global) -> Result<Config, AllocError>
    ensures { IfOk result (λ config. config ≡ soak_configuration) }
{
    let tenants = Vec::from_array(alloc, [tenant(alloc)?])?;
    Ok(Config {
        workers: 4,
        quantum: 100,
        policy: Policy::RoundRobin,
        berths: 8,
        clerks: 4,
        tenants: Items::new(tenants),
    })
}
