//! The replies to items, and the writing of them.
ghost use Rattle.std.specs.Prelude.{◌≡◌, ◌≤◌, ◌<◌, ◌^◌, [], ◌∷◌, Some, map, length, IfOk, IfErr, OnOk, OnErr};
ghost use Rattle.std.specs.List.{AllByRecursion};
ghost use Rattle.http_front.specs.Reply.{reply_of};
ghost use Rattle.http_front.specs.Reported.{RefusedAs};
ghost use Rattle.http_front.specs.Views.{heard_of};
ghost use Rattle.http_items.specs.Items.{Asked, IsWithin, keeps};
ghost use Rattle.serve_config.specs.Routing.{route_number};
ghost use Rattle.shop_desks.specs.Shops.{IsVisitOf};
ghost use Rattle.link_sessions.specs.Going.{Asks, Does, IsKept, StopCause};
ghost use Rattle.link_sessions.specs.Servers.{KeepsParts, service_of, terms_at};
ghost use Rattle.link_sessions.specs.Serving.{Begins, Replies};

use crate::servers::Server;
use crate::sessions::Ended;
use admission::Admission;
use http_front::{Ask, Item, Method, Outcome, Refusal, reply_text};
use outside_links::{Clock, Link};
use serve_config::laws::routes_are_numbered;
use shop_desks::Visit;
use std::alloc::{AllocError, Global};
use std::collections::VecDeque;
use std::sync::Wait;
use workers::outcome_of;

// The reply that refuses a request.
fn refusal_text(
    alloc: Global,
    refusal: Refusal,
    head: bool,
    keep: bool,
) -> Result<Vec<u8>, AllocError>
    ensures { IfOk result (λ text. text.items ≡ reply_of (RefusedAs refusal) [] head keep) }
{
    reply_text(alloc, Outcome::Refused(refusal.number()), "", head, keep)
}

// The reply to a request that has a route: the meter is asked once, and what it lets in is run.
fn serve_routed<R: Wait, C: Clock>(
    rt: &R,
    alloc: Global,
    server: &Server,
    visit: &mut Visit,
    tenant: u32,
    clock: &C,
    number: u32,
    ask: Ask,
) -> Result<Vec<u8>, AllocError>
    requires own { IsVisitOf server.now.shop visit.old }
    requires tenant { tenant < length server.now.config.tenants }
    requires route { route_number server.now.config.tenants tenant ask.path ≡ Some number }
    requires body { length ask.body.items ≤ 2 ^ 20 }
    ensures own { IsVisitOf server.now.shop visit.new }
    ensures ok { IfOk result (λ text. Asks (terms_at server.now.config.tenants tenant) tenant (Replies (service_of server.now tenant (C.gave clock.now)) (Asked ask.method ask.path ask.keep ask.body.items ∷ [])) text.items visit.old.meter_visit visit.new.meter_visit) }
    ensures err { OnErr result (Asks (terms_at server.now.config.tenants tenant) tenant (Begins (service_of server.now tenant (C.gave clock.now)) (Asked ask.method ask.path ask.keep ask.body.items ∷ [])) [] visit.old.meter_visit visit.new.meter_visit) }
    ensures parts { KeepsParts visit.old visit.new }
{
    routes_are_numbered();
    let head = ask.method == Method::Head;
    let keep = ask.keep;
    let route = server.route(number);
    let moment = clock.now();
    match server.ask(rt, visit, tenant, moment, route.estimate) {
        Admission::Spent { .. } => refusal_text(alloc, Refusal::AdmissionSpent, head, keep),
        Admission::Entered => {
            let deadline = moment.saturating_add(route.deadline);
            let verdict = server.run(rt, alloc, visit, number, ask.body, deadline)?;
            let content_type = route.content_type.as_str();
            reply_text(alloc, outcome_of(&verdict), content_type, head, keep)
        }
    }
}

// The reply to an item.
fn answer<R: Wait, C: Clock>(
    rt: &R,
    alloc: Global,
    server: &Server,
    visit: &mut Visit,
    tenant: u32,
    clock: &C,
    item: Item,
) -> Result<Vec<u8>, AllocError>
    requires own { IsVisitOf server.now.shop visit.old }
    requires tenant { tenant < length server.now.config.tenants }
    requires within { IsWithin (heard_of item) }
    ensures own { IsVisitOf server.now.shop visit.new }
    ensures ok { IfOk result (λ text. Asks (terms_at server.now.config.tenants tenant) tenant (Replies (service_of server.now tenant (C.gave clock.now)) (heard_of item ∷ [])) text.items visit.old.meter_visit visit.new.meter_visit) }
    ensures err { OnErr result (Asks (terms_at server.now.config.tenants tenant) tenant (Begins (service_of server.now tenant (C.gave clock.now)) (heard_of item ∷ [])) [] visit.old.meter_visit visit.new.meter_visit) }
    ensures parts { KeepsParts visit.old visit.new }
{
    match item {
        Item::Fault { number, head, keep } => {
            refusal_text(alloc, Refusal::numbered(number), head, keep)
        }
        Item::Request(ask) => match server.find(tenant, ask.path.as_str()) {
            Some(number) => { serve_routed(rt, alloc, server, visit, tenant, clock, number, ask) }
            None => {
                refusal_text(
                    alloc,
                    Refusal::NoRoute,
                    ask.method == Method::Head,
                    ask.keep,
                )
            }
        },
    }
}

// Replies to an item over the link.
fn serve_item<R: Wait, K: Link, C: Clock>(
    rt: &R,
    alloc: Global,
    server: &Server,
    visit: &mut Visit,
    tenant: u32,
    link: &mut K,
    clock: &C,
    item: Item,
) -> Result<(), Ended>
    requires own { IsVisitOf server.now.shop visit.old }
    requires tenant { tenant < length server.now.config.tenants }
    requires within { IsWithin (heard_of item) }
    ensures own { IsVisitOf server.now.shop visit.new }
    ensures ok { OnOk result (Does K.state K.exchanged (terms_at server.now.config.tenants tenant) tenant (Replies (service_of server.now tenant (C.gave clock.now)) (heard_of item ∷ [])) link.old link.new visit.old.meter_visit visit.new.meter_visit) }
    ensures err { OnErr result (Does K.state K.exchanged (terms_at server.now.config.tenants tenant) tenant (Begins (service_of server.now tenant (C.gave clock.now)) (heard_of item ∷ [])) link.old link.new visit.old.meter_visit visit.new.meter_visit) }
    ensures cause { IfErr result (λ ended. StopCause ended (K.state link.old) (K.state link.new)) }
    ensures parts { KeepsParts visit.old visit.new }
    ensures later { (K.state link.old).faults ≤ (K.state link.new).faults }
{
    let Ok(text) = answer(rt, alloc, server, visit, tenant, clock, item) else {
        return Err(Ended::NoMemory);
    };
    match link.write(text.as_slice()) {
        Ok(()) => Ok(()),
        Err(_) => Err(Ended::LinkFault),
    }
}

// Whether the connection is kept after an item.
fn is_kept(item: &Item) -> bool
    ensures { result ≡ keeps (heard_of item.now) }
{
    match item {
        Item::Request(ask) => ask.keep,
        Item::Fault { keep, .. } => *keep,
    }
}

// Replies to some items in order, and says whether the connection is kept after the last one.
pub(crate) fn serve_items<R: Wait, K: Link, C: Clock>(
    rt: &R,
    alloc: Global,
    server: &Server,
    visit: &mut Visit,
    tenant: u32,
    link: &mut K,
    clock: &C,
    items: Vec<Item>,
) -> Result<bool, Ended>
    requires own { IsVisitOf server.now.shop visit.old }
    requires tenant { tenant < length server.now.config.tenants }
    requires within { AllByRecursion IsWithin (map heard_of items.items) }
    ensures own { IsVisitOf server.now.shop visit.new }
    ensures ok { OnOk result (Does K.state K.exchanged (terms_at server.now.config.tenants tenant) tenant (Replies (service_of server.now tenant (C.gave clock.now)) (map heard_of items.items)) link.old link.new visit.old.meter_visit visit.new.meter_visit) }
    ensures kept { IfOk result (λ keep. IsKept keep (map heard_of items.items)) }
    ensures err { OnErr result (Does K.state K.exchanged (terms_at server.now.config.tenants tenant) tenant (Begins (service_of server.now tenant (C.gave clock.now)) (map heard_of items.items)) link.old link.new visit.old.meter_visit visit.new.meter_visit) }
    ensures cause { IfErr result (λ ended. StopCause ended (K.state link.old) (K.state link.new)) }
    ensures parts { KeepsParts visit.old visit.new }
    ensures later { (K.state link.old).faults ≤ (K.state link.new).faults }
{
    let mut rest = VecDeque::from_vec(items);
    let mut keep = true;
    while let Some(item) = rest.pop_front() {
        keep = is_kept(&item);
        serve_item(rt, alloc, server, visit, tenant, link, clock, item)?;
    }
    Ok(keep)
}
