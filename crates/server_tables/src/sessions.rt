//! What sessions over links in memory write, with a worker beside them.
//!
//! The file has groups, each ended by an empty line. The first line of a group is what a server serves: its configuration and then the modules, `CONFIG NAME:MODULE NAME:MODULE ..`, the bytes of each in hexadecimal.
//! Each line behind it is a session of this server, `TENANT MOMENT FAILING_READS CUTS PIECE PIECE ..`: the number of its tenant, the moment that its clock gives, the calls of `read` that fail, the calls of `write` that fail with how many bytes they let pass (`CALL:PASSES`), and the pieces that its peer sends, in hexadecimal. Lists are joined by commas, and `-` is an empty one.
//!
//! All sessions of a group are of one visit, one after the other, and a second thread is the worker that answers their requests. A session is printed as how it ended, and what was written, in hexadecimal.
//! `tests/sessions_table.py` makes the cases, and computes what must be printed of them apart from this code.
ghost use Rattle.std.specs.Prelude.{◌≡◌, false, IfOk};
ghost use Rattle.shop_desks.specs.Shops.{IsVisitOf};

mod benches;
mod servers;

use crate::calls::words::{NoRow, cuts_in, number_in, numbers_in};
use crate::spelling::bytes_of;
use benches::{Bench, start};
use link_sessions::{Ended, Server, session};
use outside_links::{FixedClock, MemLink};
use servers::server_of;
use shop_desks::Visit;
use std::alloc::Global;
use std::io;
use std::sync::{Arc, Wait};
use std::thread::Threads;

/// How many bytes a session may write.
const ROOM: u64 = 65_536;

/// A session of a line.
#[derive(Drop)]
struct Case {
    tenant: u32,
    clock: FixedClock,
    link: MemLink,
}

/// The pieces that a peer sends.
fn pieces_of(alloc: Global, words: &[&str]) -> Result<Vec<Vec<u8>>, NoRow> {
    let mut pieces = Vec::new(alloc);
    for word in words {
        let Some(piece) = bytes_of(alloc, word) else {
            return Err(NoRow);
        };
        pieces.push(piece)?;
    }
    Ok(pieces)
}

/// The link over which these pieces come.
fn link_of(alloc: Global, reads: &str, cuts: &str, pieces: &[&str]) -> Result<MemLink, NoRow>
    ensures { IfOk result (λ link. link.ended ≡ false) }
{
    let reads = numbers_in(alloc, reads)?;
    let cuts = cuts_in(alloc, cuts)?;
    let pieces = pieces_of(alloc, pieces)?;
    match MemLink::new(alloc, pieces, ROOM, reads, cuts) {
        Ok(link) => Ok(link),
        Err(_) => Err(NoRow),
    }
}

/// The session of a line.
fn case_of(alloc: Global, line: &str) -> Result<Case, NoRow>
    ensures { IfOk result (λ case. case.link.ended ≡ false) }
{
    let mut words = Vec::new(alloc);
    for word in line.split(' ') {
        words.push(word)?;
    }
    let [tenant, moment, reads, cuts, pieces @ ..] = words.as_slice() else {
        return Err(NoRow);
    };
    let Ok(tenant) = tenant.parse::<u32>() else {
        return Err(NoRow);
    };
    let clock = FixedClock {
        moment: number_in(moment)?,
    };
    let link = link_of(alloc, reads, cuts, pieces)?;
    Ok(Case {
        tenant,
        clock,
        link,
    })
}

/// The word for how a session ended.
fn word_of(ended: Ended) -> &'static str {
    match ended {
        Ended::Done => "done",
        Ended::LinkFault => "fault",
        Ended::NoMemory => "memory",
    }
}

/// Serves the session of a case, and prints how it ended and what was written.
fn print_case<R: Wait + Print>(
    rt: &R,
    alloc: Global,
    server: &Server,
    visit: &mut Visit,
    case: Case,
) -> io::Result<()>
    requires own { IsVisitOf server.now.shop visit.old }
    requires fresh { case.link.ended ≡ false }
    ensures own { IsVisitOf server.now.shop visit.new }
{
    let Case {
        tenant,
        clock,
        mut link,
    } = case;
    if server.config().tenants().len() <= tenant as usize {
        return println!(rt; "no tenant");
    }
    let ended = word_of(session(rt, alloc, server, visit, tenant, &mut link, &clock));
    let written = hex::encode(alloc, link.written())?;
    println!(rt; "{ended} {written}")
}

/// Serves the session of each line, in order.
fn print_sessions<R: Wait + Print>(
    rt: &R,
    alloc: Global,
    server: &Server,
    visit: &mut Visit,
    lines: &str,
) -> io::Result<()>
    requires { IsVisitOf server.now.shop visit.old }
{
    for line in lines.lines() {
        match case_of(alloc, line) {
            Ok(case) => print_case(rt, alloc, server, visit, case)?,
            Err(NoRow) => println!(rt; "no session")?,
        }
    }
    Ok(())
}

/// Serves the sessions of a group, with the worker beside them.
fn print_group<R>(rt: &R, alloc: Global, group: &str) -> io::Result<()>
where
    R: Threads + Wait + Print + Copy + Send + Sync + 'static,
{
    let (line, lines) = group.split_once('\n').unwrap_or((group, ""));
    let Ok((server, first)) = server_of(rt, alloc, line) else {
        return println!(rt; "no server");
    };
    let mut first = first;
    let mut visit = server.shop().visit(alloc, &mut first)?;
    let bench = Bench {
        rt: *rt,
        alloc,
        shop: Arc::try_clone(server.shop())?,
        visit: first,
    };
    let Some(worker) = start(rt, bench) else {
        return println!(rt; "no worker");
    };
    let printed = print_sessions(rt, alloc, &server, &mut visit, lines);
    server.shop().dismiss();
    worker.join(rt);
    printed
}

/// Serves the sessions of each group.
pub fn print_all<R>(rt: &R, cases: &str) -> io::Result<()>
where
    R: Threads + Wait + Print + AllocGlobal + Copy + Send + Sync + 'static,
{
    let mut rest = cases;
    for _ in 0..u64::MAX {
        let Some((group, behind)) = rest.split_once("\n\n") else {
            return Ok(());
        };
        print_group(rt, rt.alloc(), group)?;
        rest = behind;
    }
    Ok(())
}
