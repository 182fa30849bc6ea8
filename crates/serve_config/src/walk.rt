//! The walk through a configuration's keys: each object in the order of its table.
ghost use Rattle.std.specs.Prelude.{◌≡◌, IfOk, length};
ghost use Rattle.std.specs.List.{AllByRecursion};
ghost use Rattle.serde_json.specs.View.{view, items_view};
ghost use Rattle.serve_config.specs.Kinds.{each_of};
ghost use Rattle.serve_config.specs.Walk.{route_of as route_due, tenant_of as tenant_due, config_of as config_due};
ghost use Rattle.serve_config.specs.Ranges.{IsRouteInRange, IsTenantInRange};
ghost use Rattle.serve_config.specs.Outcome.{Gives};

use crate::configs::Config;
use crate::faults::Stop;
use crate::keys::{array, name, number, number_or, policy, text, text_or};
use crate::objects::Object;
use crate::overview::first_fault;
use crate::tenants::{Route, Tenant};
use outside::Text;
use serde_json::Value;
use std::alloc::{AllocError, Global};
use wasm_ops::Items;

/// What a route's `content_type` is where it is missing: any bytes (RFC 9110, section 8.3).
const OCTET_STREAM: &str = "application/octet-stream";

/// How many clerks there are where `clerks` is missing.
const CLERKS: u64 = 4;

/// Text of one's own.
fn owned(alloc: Global, text: &str) -> Result<Text, AllocError>
    ensures { IfOk result (λ own. own ≡ text.now) }
{
    Ok(Text::new(String::from_str(alloc, text)?))
}

/// The route that a value is.
#[tactic(auto, unfolding(crate::specs::Walk::route_of))]
fn route_of(alloc: Global, value: &Value) -> Result<Route, Stop>
    ensures exact { Gives (λ route. route) result (route_due (view value.now)) }
    ensures in_range { IfOk result IsRouteInRange }
{
    Object::Route.accepts(value)?;
    let path = text(value, "path", 256)?;
    let module = text(value, "module", 256)?;
    let budget = number(value, "budget", 0, 1 << 40)?;
    let pages = number(value, "pages", 1, 1024)?;
    let estimate = number(value, "estimate", 0, 1 << 40)?;
    let deadline = number(value, "deadline", 0, 0xFFFF_FFFF)?;
    let content_type = text_or(value, "content_type", 128, OCTET_STREAM)?;
    Ok(Route {
        path: owned(alloc, path)?,
        module: owned(alloc, module)?,
        budget,
        pages: pages as u32,
        estimate,
        deadline,
        content_type: owned(alloc, content_type)?,
    })
}

/// The routes that values are, in order.
fn routes_of(alloc: Global, values: &[Value]) -> Result<Items<Route>, Stop>
    ensures exact { Gives (λ routes. routes) result (each_of route_due (items_view values.now)) }
    ensures one_each { IfOk result (λ routes. length routes ≡ length values.now) }
    ensures in_range { IfOk result (AllByRecursion IsRouteInRange) }
{
    let mut routes = Vec::new(alloc);
    for value in values {
        routes.push(route_of(alloc, value)?)?;
    }
    Ok(Items::new(routes))
}

/// The tenant that a value is.
#[tactic(auto, unfolding(crate::specs::Walk::tenant_of))]
fn tenant_of(alloc: Global, value: &Value) -> Result<Tenant, Stop>
    ensures exact { Gives (λ tenant. tenant) result (tenant_due (view value.now)) }
    ensures in_range { IfOk result IsTenantInRange }
{
    Object::Tenant.accepts(value)?;
    let called = name(value, "name")?;
    let port = number(value, "port", 1, 65_535)?;
    let capacity = number(value, "capacity", 0, 1 << 40)?;
    let rate = number(value, "rate", 0, 0xFFFF_FFFF)?;
    let routes = routes_of(alloc, array(value, "routes")?)?;
    Ok(Tenant {
        name: owned(alloc, called)?,
        port: port as u16,
        capacity,
        rate,
        routes,
    })
}

/// The tenants that values are, in order.
fn tenants_of(alloc: Global, values: &[Value]) -> Result<Items<Tenant>, Stop>
    ensures exact { Gives (λ tenants. tenants) result (each_of tenant_due (items_view values.now)) }
    ensures one_each { IfOk result (λ tenants. length tenants ≡ length values.now) }
    ensures in_range { IfOk result (AllByRecursion IsTenantInRange) }
{
    let mut tenants = Vec::new(alloc);
    for value in values {
        tenants.push(tenant_of(alloc, value)?)?;
    }
    Ok(Items::new(tenants))
}

/// The configuration that a value is.
#[tactic(auto, unfolding(crate::specs::Walk::config_of))]
pub(crate) fn config_of(alloc: Global, value: &Value) -> Result<Config, Stop>
    ensures { Gives (λ config. config) result (config_due (view value.now)) }
{
    Object::Top.accepts(value)?;
    let workers = number(value, "workers", 1, 64)?;
    let quantum = number(value, "quantum", 1, 0xFFFF_FFFF)?;
    let policy = policy(value, "policy")?;
    let berths = number(value, "berths", workers, 256)?;
    let clerks = number_or(value, "clerks", 1, 16, CLERKS)?;
    let tenants = tenants_of(alloc, array(value, "tenants")?)?;
    if let Some(refusal) = first_fault(berths as u32, tenants.as_slice()) {
        return Err(Stop::Refused(refusal));
    }
    Ok(Config {
        workers: workers as u32,
        quantum,
        policy,
        berths: berths as u32,
        clerks: clerks as u32,
        tenants,
    })
}
