// Rows of ports.
ghost use Rattle.std.specs.Prelude.{◌≡◌, All, false, IfOk, IfSome};
ghost use Rattle.outside_links.specs.MemPort.{IsUntouched};

use crate::calls::words::{NoRow, mark_of, number_in, numbers_in, say};
use outside_links::{Link, MemLink, MemPort, Port};
use std::alloc::Global;
use std::collections::VecDeque;

/// The most links that a row has.
const MOST_LINKS: u64 = 8;

/// A link with room for one byte, on which no call was made.
fn new_link(alloc: Global) -> Result<MemLink, NoRow>
    ensures { IfOk result (λ link. link.used ≡ false) }
{
    match MemLink::new(alloc, Vec::new(alloc), 1, Vec::new(alloc), Vec::new(alloc)) {
        Ok(link) => Ok(link),
        Err(_) => Err(NoRow),
    }
}

/// So many links, none of them used.
fn links_of(alloc: Global, count: u64) -> Result<Vec<MemLink>, NoRow>
    ensures { IfOk result (λ links. All (λ link. link.used ≡ false) links.items) }
{
    let mut links = Vec::new(alloc);
    for _ in 0..count.min(MOST_LINKS) {
        let link = new_link(alloc)?;
        links.push(link)?;
    }
    Ok(links)
}

/// A port with so many links, of which these calls fail.
pub(crate) fn port_of(alloc: Global, count: u64, failing: Vec<u64>) -> Result<MemPort, NoRow>
    ensures { IfOk result IsUntouched }
{
    match links_of(alloc, count) {
        Ok(links) => Ok(MemPort::new(links, failing)),
        Err(_) => Err(NoRow),
    }
}

/// What a port tells of itself.
pub(crate) fn say_port<P: Port>(rt: &impl Print, port: &P) {
    let open = port.open();
    let ended = mark_of(port.ended());
    let faults = port.faults();
    let _ = print!(rt; "/{open},{ended},{faults}");
}

/// Keeps a link.
fn keep(out: &mut VecDeque<MemLink>, link: MemLink) -> &'static str {
    match out.push_back(link) {
        Ok(()) => "link",
        Err(_) => "no memory",
    }
}

/// Makes one call of a row, and says what it answers.
fn call_port(
    rt: &impl Print,
    port: &mut MemPort,
    out: &mut VecDeque<MemLink>,
    call: &str,
) -> &'static str {
    match call {
        "a" => match port.accept() {
            Ok(Some(link)) => keep(out, link),
            Ok(None) => "none",
            Err(_) => "failed",
        },
        "w" => match out.front_mut() {
            Some(link) => {
                if link.write(b"x").is_ok() {
                    "wrote"
                } else {
                    "cut"
                }
            }
            None => "no link",
        },
        "c" => match out.pop_front() {
            Some(link) => {
                port.close(link);
                "closed"
            }
            None => "no link",
        },
        "t" => match port.twin() {
            Ok(twin) => {
                let mut twin = twin;
                let none = matches!(twin.accept(), Ok(None));
                say_port(rt, &twin);
                if none { "twin" } else { "links" }
            }
            Err(_) => "failed",
        },
        _ => "no call",
    }
}

/// Makes the calls of a row on a port.
pub(crate) fn port_row(rt: &impl Print, alloc: Global, row: &[&str]) -> Result<(), NoRow> {
    let [links, failing, calls @ ..] = row else {
        return Err(NoRow);
    };
    let links = number_in(links)?;
    let failing = numbers_in(alloc, failing)?;
    let mut port = port_of(alloc, links, failing)?;
    let mut out = VecDeque::new(alloc);
    for call in calls {
        let answer = call_port(rt, &mut port, &mut out, call);
        say(rt, answer);
        say_port(rt, &port);
    }
    Ok(())
}
