// Rows of links.
use crate::calls::words::{NoRow, cuts_in, mark_of, number_in, numbers_in, pieces_in, say};
use outside_links::{Link, MemLink};
use std::alloc::Global;
use std::str;

/// The most bytes that a row reads at once, and that it writes in all.
const MOST_ROOM: usize = 16;

const MOST_WRITTEN: u64 = 1024;

/// The flags and the count of a link.
pub(crate) fn say_link<L: Link>(rt: &impl Print, link: &L) {
    let ended = mark_of(link.ended());
    let used = mark_of(link.used());
    let faults = link.faults();
    let _ = print!(rt; "/{ended},{used},{faults}");
}

/// Reads once with this room, and says what came.
pub(crate) fn read_once<L: Link>(rt: &impl Print, link: &mut L, room: u64) {
    let mut piece = [0u8; MOST_ROOM];
    let room = (room as usize).min(MOST_ROOM).max(1);
    match link.read(&mut piece[..room]) {
        Ok(0) => say(rt, "end"),
        Ok(count) => say(rt, str::from_utf8(&piece[..count as usize]).unwrap_or("?")),
        Err(_) => say(rt, "failed"),
    }
    say_link(rt, link)
}

/// Writes once, and says whether it passed.
pub(crate) fn write_once<L: Link>(rt: &impl Print, link: &mut L, text: &str) {
    let passed = link.write(text.as_bytes()).is_ok();
    say(rt, if passed { "ok" } else { "failed" });
    say_link(rt, link)
}

/// Makes one call of a row.
fn call_link(rt: &impl Print, link: &mut MemLink, call: &str) {
    if let Some(text) = call.strip_prefix('w') {
        return write_once(rt, link, text);
    }
    match number_in(call.strip_prefix('r').unwrap_or("")) {
        Ok(room) => read_once(rt, link, room),
        Err(_) => say(rt, "no call"),
    }
}

/// The link of a row.
fn link_of(
    alloc: Global,
    pieces: &str,
    room: &str,
    reads: &str,
    cuts: &str,
) -> Result<MemLink, NoRow> {
    let room = number_in(room)?.min(MOST_WRITTEN);
    let reads = numbers_in(alloc, reads)?;
    let cuts = cuts_in(alloc, cuts)?;
    let pieces = pieces_in(alloc, pieces)?;
    match MemLink::new(alloc, pieces, room, reads, cuts) {
        Ok(link) => Ok(link),
        Err(_) => Err(NoRow),
    }
}

/// Makes the calls of a row on a link, and says what was written.
pub(crate) fn link_row(rt: &impl Print, alloc: Global, row: &[&str]) -> Result<(), NoRow> {
    let [pieces, room, reads, cuts, calls @ ..] = row else {
        return Err(NoRow);
    };
    let mut link = link_of(alloc, pieces, room, reads, cuts)?;
    for call in calls {
        call_link(rt, &mut link, call);
    }
    let written = str::from_utf8(link.written()).unwrap_or("?");
    let _ = print!(rt; " wrote:{written}");
    Ok(())
}
