//! What a server's threads share.
ghost use Rattle.std.specs.Prelude.{◌≡◌, ◌≤◌, ◌<◌, ◌^◌, All, length, map, IfOk, Some, slice_get};
ghost use Rattle.std.specs.Arc.{arc_value};
ghost use Rattle.serve_config.specs.Loaded.{programs_in};
ghost use Rattle.serve_config.specs.Routing.{all_routes, route_number};
ghost use Rattle.shop_desks.specs.Shops.{IsSetBy, IsFirstVisit, IsVisitOf};
ghost use Rattle.serve_config.specs.Ranges.{IsRouteInRange};
ghost use Rattle.link_sessions.specs.Servers.{KeepsParts, terms_at, terms_in};
ghost use Rattle.recorded_runner.specs.Replies.{request_at, verdict_at};
ghost use Rattle.sandbox_states.specs.Views.{told};
ghost use Rattle.link_sessions.specs.Calling.{AsksMeter};

use crate::routing::route_with;
use admission::Admission;
use posted_jobs::KeptRequest;
use recorded_runner::settings_of;
use sandbox_states::Verdict;
use serve_config::{Config, Route, Tenant};
use shop_desks::{Shop, Visit};
use std::alloc::{AllocError, Global};
use std::marker::Model;
use std::sync::{Arc, Wait};
use tenant_meters::Terms;
use wasm_instance::Program;

/// What all threads of a server share: the shop, and what its tenants are served.
///
/// Contracts see the shop, the configuration, and the program of each route. The type keeps that the shop has a meter for each tenant, with that one's capacity and rate.
pub struct Server {
    pub(crate) shop: Arc<Shop>,
    pub(crate) config: Config,
    pub(crate) programs: Vec<Arc<Program>>,
}

impl Drop for Server {
    fn drop(self) {
        let Server {
            shop: _,
            config: _,
            programs: _,
        } = self;
    }
}

impl Model for Server {
    ghost use Rattle.std.specs.Prelude.{◌≡◌, length, map};
    ghost use Rattle.std.specs.Arc.{arc_value};
    ghost use Rattle.serve_config.specs.Loaded.{programs_in};
    ghost use Rattle.serve_config.specs.Routing.{all_routes};
    ghost use Rattle.tenant_meters.specs.Visiting.{terms_of};
    ghost use Rattle.link_sessions.specs.Servers.{ServerView, terms_in};

    ghost Value = { ServerView };

    ghost view = { λ s. record { shop = arc_value s.shop; config = s.config; programs = programs_in s.programs.items } };

    ghost invariant = { λ s. (length s.programs.items ≡ length (all_routes s.config.tenants)) × (map terms_of (arc_value s.shop).meters ≡ map terms_in s.config.tenants) };
}

impl Server {
    /// A server of this configuration, with the program of each route in order; its shop, of which all places are vacant and all meters empty; and the first visit of that, which has done nothing.
    pub fn new<R: Wait>(
        rt: &R,
        alloc: Global,
        config: Config,
        programs: Vec<Arc<Program>>,
    ) -> Result<(Server, Visit), AllocError>
        requires each { length programs.items ≡ length (all_routes config.tenants) }
        ensures config { IfOk result (λ made. made.0.config ≡ config) }
        ensures programs { IfOk result (λ made. made.0.programs ≡ programs_in programs.items) }
        ensures visit { IfOk result (λ made. IsFirstVisit made.0.shop made.1) }
        ensures own { IfOk result (λ made. IsVisitOf made.0.shop made.1) }
    {
        let terms = terms_of_tenants(alloc, config.tenants())?;
        let (shop, visit) = Shop::new(rt, alloc, settings_of(&config), terms.as_slice())?;
        let shop = Arc::new(alloc, shop)?;
        let server = Server {
            shop,
            config,
            programs,
        };
        Ok((server, visit))
    }

    /// The shop, for a worker's desk.
    pub fn shop(&self) -> &Arc<Shop>
        ensures { arc_value result.now ≡ self.now.shop }
    {
        &self.shop
    }

    /// The configuration that it serves.
    pub fn config(&self) -> &Config
        ensures { result.now ≡ self.now.config }
    {
        &self.config
    }

    // The number of the tenant's route that has this path, if there is one.
    pub(crate) fn find(&self, tenant: u32, path: &str) -> Option<u32>
        requires { tenant < length self.now.config.tenants }
        ensures { result ≡ route_number self.now.config.tenants tenant path.now }
    {
        route_with(&self.config, tenant, path)
    }

    // The route with this number.
    pub(crate) fn route(&self, number: u32) -> &Route
        requires { number < length (all_routes self.now.config.tenants) }
        ensures is { slice_get (all_routes self.now.config.tenants) number ≡ Some result.now }
        ensures in_range { IsRouteInRange result.now }
    {
        self.config.route(number)
    }

    // The request that a body makes at the route with this number.
    fn request(
        &self,
        alloc: Global,
        number: u32,
        body: Vec<u8>,
    ) -> Result<Arc<KeptRequest>, AllocError>
        requires number { number < length (all_routes self.now.config.tenants) }
        requires body { length body.items ≤ 2 ^ 20 }
        ensures { IfOk result (λ request. request_at self.now.config.tenants self.now.programs number body.items ≡ Some (arc_value request)) }
    {
        let budget = self.config.route(number).budget;
        let program = Arc::try_clone(&self.programs[number as usize])?;
        let request = Arc::new(alloc, KeptRequest::new(program, body, budget))?;
        Ok(request)
    }

    // What became of the request that a body makes at a route, once the workers have run it.
    pub(crate) fn run<R: Wait>(
        &self,
        rt: &R,
        alloc: Global,
        visit: &mut Visit,
        route: u32,
        body: Vec<u8>,
        deadline: u64,
    ) -> Result<Verdict, AllocError>
        requires own { IsVisitOf self.now.shop visit.old }
        requires route { route < length (all_routes self.now.config.tenants) }
        requires body { length body.items ≤ 2 ^ 20 }
        ensures own { IsVisitOf self.now.shop visit.new }
        ensures verdict { IfOk result (λ given. verdict_at self.now.config.tenants self.now.programs route body.items ≡ Some (told given)) }
        ensures meters { visit.new.meter_visit ≡ visit.old.meter_visit }
        ensures parts { KeepsParts visit.old visit.new }
    {
        let request = self.request(alloc, route, body)?;
        self.shop.answer(rt, alloc, visit, &request, deadline)
    }

    // Asks the tenant's meter to let in a request of this estimate at this moment.
    pub(crate) fn ask<R: Wait>(
        &self,
        rt: &R,
        visit: &mut Visit,
        tenant: u32,
        moment: u64,
        estimate: u64,
    ) -> Admission
        requires own { IsVisitOf self.now.shop visit.old }
        requires tenant { tenant < length self.now.config.tenants }
        requires few { estimate ≤ 2 ^ 40 }
        ensures own { IsVisitOf self.now.shop visit.new }
        ensures asked { AsksMeter (terms_at self.now.config.tenants tenant) tenant visit.old.meter_visit visit.new.meter_visit moment estimate result }
        ensures parts { KeepsParts visit.old visit.new }
    {
        self.shop.ask(rt, visit, tenant as usize, moment, estimate)
    }
}

// What the meter of each tenant is made for, in order.
fn terms_of_tenants(alloc: Global, tenants: &[Tenant]) -> Result<Vec<Terms>, AllocError>
    ensures { IfOk result (λ terms. terms.items ≡ map terms_in tenants.now) }
{
    let mut terms = Vec::with_capacity(alloc, tenants.len())?;
    for tenant in tenants {
        terms.push(Terms {
            capacity: tenant.capacity,
            rate: tenant.rate,
        })?;
    }
    Ok(terms)
}
