//! A clerk, who serves the connections of one tenant, one after another.
ghost use Rattle.std.specs.Prelude.{◌≡◌, ◌<◌, length};
ghost use Rattle.std.specs.Arc.{arc_value};
ghost use Rattle.shop_desks.specs.Shops.{IsVisitOf};

use crossbeam_channel::Sender;
use link_sessions::{Ended, Server, session};
use outside_links::{Clock, Port};
use shop_desks::Visit;
use std::alloc::Global;
use std::sync::Wait;

/// What a clerk gives back when it ends.
pub(crate) struct Report<P> {
    pub(crate) port: P,

    /// Whether memory ran out in one of its sessions.
    pub(crate) no_memory: bool,
}

impl<P: Drop> Drop for Report<P> {
    fn drop(self) {
        let Report {
            port: _,
            no_memory: _,
        } = self;
    }
}

impl<P> Report<P> {
    /// The port, and whether memory ran out.
    pub(crate) fn into_parts(self) -> (P, bool)
        ensures { result ≡ (self.port, self.no_memory) }
    {
        let Report { port, no_memory } = self;
        (port, no_memory)
    }
}

/// Accepts one connection after another and serves it, until no more will come or the shop is closed; then sends the port back. A port that fails closes the shop.
pub(crate) fn clerk<R: Wait, P: Port, C: Clock>(
    rt: &R,
    alloc: Global,
    server: &Server,
    visit: Visit,
    tenant: u32,
    port: P,
    clock: &C,
    to: &Sender<Report<P>>,
)
    requires own { IsVisitOf server.now.shop visit }
    requires tenant { tenant < length server.now.config.tenants }
{
    let mut visit = visit;
    let mut port = port;
    let mut no_memory = false;
    for _ in rt.forever() {
        if server.shop().is_closed() {
            break;
        }
        match port.accept() {
            Ok(Some(accepted)) => {
                let mut link = accepted;
                let ended = session(rt, alloc, server, &mut visit, tenant, &mut link, clock);
                if ended == Ended::NoMemory {
                    no_memory = true;
                }
                port.close(link);
            }
            Ok(None) => break,
            Err(_) => {
                server.shop().close();
                break;
            }
        }
    }
    // Whoever started the clerk holds the other end, and there is room for each report.
    let _sent = to.send(rt, Report { port, no_memory });
}
