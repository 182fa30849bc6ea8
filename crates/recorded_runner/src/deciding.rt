//! What becomes of each item: refused, or admitted to a route.
ghost use Rattle.std.specs.Prelude.{◌≡◌, ℕ, ◌<◌, [], length, map, IfOk, IfSome, Some};
ghost use Rattle.std.specs.List.{AllByRecursion};
ghost use Rattle.admission.specs.Metering.{behind_all};
ghost use Rattle.http_front.specs.Views.{heard_of};
ghost use Rattle.recorded_arrivals.specs.Arrivals.{Arrived};
ghost use Rattle.http_items.specs.Items.{IsWithin};
ghost use Rattle.recorded_arrivals.specs.Seen.{arrival_seen};
ghost use Rattle.serve_config.specs.Routing.{all_routes};
ghost use Rattle.serve_config.specs.Tables.{AreTablesOf};
ghost use Rattle.recorded_runner.specs.Fates.{asked_for, asked_of, decided_behind, decided_item, fate_by_route, fate_of_heard};
ghost use Rattle.recorded_runner.specs.Seen.{decided_seen, fate_seen};

use crate::meters::meters_of;
use admission::{Admission, Meter};
use http_front::{Item, Method, Refusal};
use recorded_arrivals::Arrival;
use serve_config::laws::routes_are_numbered;
use serve_config::{Config, Routes};
use std::alloc::{AllocError, Global};

/// What becomes of an item.
#[derive(Drop)]
pub(crate) enum Fate {
    /// It is refused.
    Refused(Refusal),

    /// It is a request that its tenant's meter lets in.
    Admitted(Entry),
}

/// A request that is let in: the number of its route, when its answer is due in milliseconds, and its body.
#[derive(Drop)]
pub(crate) struct Entry {
    pub(crate) route: u32,
    pub(crate) deadline: u64,
    pub(crate) body: Vec<u8>,
}

/// An item whose fate is known: its connection, whether its reply has no body, and whether the connection is kept after it.
#[derive(Drop)]
pub(crate) struct Decided {
    pub(crate) link: u32,
    pub(crate) head: bool,
    pub(crate) keep: bool,
    pub(crate) fate: Fate,
}

/// The fates of all items, in the order of their arrival. The connections' tenants are the owners.
pub(crate) fn decide_all(
    alloc: Global,
    config: &Config,
    owners: &[u32],
    arrived: Vec<Arrival>,
) -> Result<Vec<Decided>, AllocError>
    requires within { AllByRecursion (λ (a : Arrived). IsWithin a.heard) (map arrival_seen arrived.items) }
    requires begun { AllByRecursion (λ (a : Arrived). a.link < length owners.now) (map arrival_seen arrived.items) }
    requires owned { AllByRecursion (λ (owner : ℕ). owner < length config.now.tenants) owners.now }
    ensures { IfOk result (λ decided. map decided_seen decided.items ≡ decided_behind config.now.tenants owners.now [] (map arrival_seen arrived.items)) }
{
    let routes = Routes::new(alloc, config)?;
    let mut meters = meters_of(alloc, config.tenants())?;
    let mut decided = Vec::with_capacity(alloc, arrived.len())?;
    for arrival in arrived {
        let tenant = owners[arrival.link as usize];
        decided.push(decide(
            config,
            &routes,
            tenant,
            &mut meters[tenant as usize],
            arrival,
        ))?;
    }
    Ok(decided)
}

/// The fate of an item on a connection of this tenant, whose meter is asked where it has to be.
fn decide(
    config: &Config,
    routes: &Routes,
    tenant: u32,
    meter: &mut Meter,
    arrival: Arrival,
) -> Decided
    requires tables { AreTablesOf config.now routes.now }
    requires known { tenant < length config.now.tenants }
    requires within { IsWithin (heard_of arrival.item) }
    ensures decided { decided_seen result ≡ decided_item (arrival_seen arrival) (fate_of_heard config.now.tenants tenant meter.old arrival.moment (heard_of arrival.item)) }
    ensures asked { meter.new ≡ behind_all meter.old (asked_of config.now.tenants tenant arrival.moment (heard_of arrival.item)) }
{
    let Arrival { link, moment, item } = arrival;
    match item {
        Item::Fault { number, head, keep } => Decided {
            link,
            head,
            keep,
            fate: Fate::Refused(Refusal::numbered(number)),
        },
        Item::Request(ask) => {
            routes_are_numbered();
            let route = routes.find(tenant, ask.path.as_str());
            Decided {
                link,
                head: ask.method == Method::Head,
                keep: ask.keep,
                fate: admit(config, route, meter, moment, ask.body),
            }
        }
    }
}

/// The fate of a request with this route, if it has one.
fn admit(config: &Config, route: Option<u32>, meter: &mut Meter, moment: u32, body: Vec<u8>) -> Fate
    requires known { IfSome route (λ number. number < length (all_routes config.now.tenants)) }
    ensures fate { fate_seen result ≡ fate_by_route config.now.tenants meter.old moment route body.items }
    ensures asked { meter.new ≡ behind_all meter.old (asked_for config.now.tenants moment route) }
{
    let Some(number) = route else {
        return Fate::Refused(Refusal::NoRoute);
    };
    let route = config.route(number);
    match meter.admit(moment as u64, route.estimate) {
        Admission::Entered => Fate::Admitted(Entry {
            route: number,
            deadline: (moment as u64).saturating_add(route.deadline),
            body,
        }),
        Admission::Spent { .. } => Fate::Refused(Refusal::AdmissionSpent),
    }
}
