//! One connection, served from its first byte to its last.
ghost use Rattle.std.specs.Prelude.{◌≡◌, ◌≢◌, ◌≤◌, ◌<◌, length, true, false};
ghost use Rattle.outside.specs.Faults.{Rose};
ghost use Rattle.shop_desks.specs.Shops.{IsVisitOf};
ghost use Rattle.link_sessions.specs.Calling.{IsOneHistory, OthersStay};
ghost use Rattle.link_sessions.specs.Going.{Serves};
ghost use Rattle.link_sessions.specs.Servers.{KeepsParts, service_of, terms_at};
ghost use Rattle.link_sessions.specs.Sessions.{HasServed, HasServedAll};

use crate::answering::serve_items;
use crate::servers::Server;
use http_front::Front;
use http_items::items_have_numbers;
use outside_links::{Clock, Link};
use shop_desks::Visit;
use std::alloc::Global;
use std::sync::Wait;

/// How a session ended.
#[derive(Clone, Copy, Debug, PartialEq, Eq)]
pub enum Ended {
    /// The input was read to its end, or the last reply closes the connection; and all replies were written.
    Done,

    /// A read or a write of the link failed.
    LinkFault,

    /// Memory ran out.
    NoMemory,
}

/// How many bytes are read at a time.
const PIECE: usize = 16_384;

/// Serves a connection of a tenant: reads its requests, and writes the reply to each in order, until the input ends or a reply closes the connection.
///
/// A refusal of the bytes of a request, and a path that no route has, are replied to at once. For any other request the tenant's meter is asked, with a moment of the clock; what it lets in is run by the workers, within the deadline of its route, and waited for. One request is answered at a time, and a reply is written before the next request is begun. The session holds one request besides what was read and not yet answered.
///
/// Which bytes were read and written, and which moments the clock gave, is by what the link and the clock show of the calls that were made on them.
pub fn session<R: Wait, K: Link, C: Clock>(
    rt: &R,
    alloc: Global,
    server: &Server,
    visit: &mut Visit,
    tenant: u32,
    link: &mut K,
    clock: &C,
) -> Ended
    requires own { IsVisitOf server.now.shop visit.old }
    requires tenant { tenant < length server.now.config.tenants }
    requires fresh { (K.state link.old).ended ≡ false }
    ensures served { HasServed (service_of server.now tenant (C.gave clock.now)) (K.exchanged link.old link.new) (K.state link.new).ended tenant visit.old.meter_visit visit.new.meter_visit }
    ensures done { result ≡ Ended.Done → HasServedAll (service_of server.now tenant (C.gave clock.now)) (K.exchanged link.old link.new) (K.state link.new).ended tenant visit.old.meter_visit visit.new.meter_visit }
    ensures fault { result ≡ Ended.LinkFault → Rose (K.state link.old).faults (K.state link.new).faults }
    ensures used { result ≢ Ended.NoMemory → (K.state link.new).used ≡ true }
    ensures history { IsOneHistory (terms_at server.now.config.tenants tenant) tenant visit.old.meter_visit visit.new.meter_visit }
    ensures others { OthersStay tenant visit.old.meter_visit visit.new.meter_visit }
    ensures own { IsVisitOf server.now.shop visit.new }
    ensures parts { KeepsParts visit.old visit.new }
    ensures later { (K.state link.old).faults ≤ (K.state link.new).faults }
{
    serve_link(rt, alloc, server, visit, tenant, link, clock)
}

// The same in one piece.
fn serve_link<R: Wait, K: Link, C: Clock>(
    rt: &R,
    alloc: Global,
    server: &Server,
    visit: &mut Visit,
    tenant: u32,
    link: &mut K,
    clock: &C,
) -> Ended
    requires own { IsVisitOf server.now.shop visit.old }
    requires tenant { tenant < length server.now.config.tenants }
    requires fresh { (K.state link.old).ended ≡ false }
    ensures serves { Serves K.state K.exchanged (terms_at server.now.config.tenants tenant) tenant (service_of server.now tenant (C.gave clock.now)) result link.old link.new visit.old.meter_visit visit.new.meter_visit }
    ensures own { IsVisitOf server.now.shop visit.new }
    ensures parts { KeepsParts visit.old visit.new }
    ensures later { (K.state link.old).faults ≤ (K.state link.new).faults }
{
    items_have_numbers();
    let mut front = Front::new(alloc);
    let mut room = [0u8; PIECE];
    for _ in rt.forever() {
        let Ok(count) = link.read(&mut room) else {
            return Ended::LinkFault;
        };
        if count == 0 {
            let Ok(items) = front.finish() else {
                return Ended::NoMemory;
            };
            return match serve_items(rt, alloc, server, visit, tenant, link, clock, items) {
                Ok(_) => Ended::Done,
                Err(ended) => ended,
            };
        }
        let (piece, _) = room.split_at(count as usize);
        let Ok(items) = front.feed(piece) else {
            return Ended::NoMemory;
        };
        match serve_items(rt, alloc, server, visit, tenant, link, clock, items) {
            Ok(true) => {}
            Ok(false) => return Ended::Done,
            Err(ended) => return ended,
        }
    }
    unreachable!()
}
