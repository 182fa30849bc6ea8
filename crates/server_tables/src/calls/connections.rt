// Connections of the system, over the loopback address.
use crate::calls::links::{read_once, say_link, write_once};
use crate::calls::ports::say_port;
use crate::calls::words::{mark_of, say};
use outside_links::{
    Clock, Door, Limits, Link, Port, Spawner, SystemClock, TcpDoor, TcpLink, TcpPort, ThreadSpawner,
};
use std::alloc::Global;
use std::io::{Read, Write};
use std::net::{Ipv4Addr, Net, Shutdown, SocketAddr, SocketAddrV4, TcpListener, TcpStream};
use std::str;
use std::sync::Arc;
use std::sync::atomic::{AtomicU64, Ordering};
use std::thread::Threads;
use std::time::Duration;

/// How long a link waits that is to wait for what comes, and one that is to wait in vain.
const LONG_MILLIS: u64 = 20_000;

const SHORT_MILLIS: u64 = 60;

/// How many pieces, and of how many bytes each, are sent that nobody reads.
const UNREAD_PIECES: u64 = 64;

const UNREAD_PIECE: usize = 8192;

/// How many pieces fill what the system holds for a peer that never reads.
const FULL_PIECES: u64 = 1 << 16;

fn loopback(number: u16) -> SocketAddr {
    SocketAddr::V4(SocketAddrV4::new(Ipv4Addr::new(127, 0, 0, 1), number))
}

/// What is done with a connection.
#[derive(Clone, Copy)]
enum Scene {
    BothWays,
    Reset,
    Silent,
    Deaf,
}

/// A port at a number that the system chooses, and the number.
fn listening<R: Net<Listener = TcpListener, Stream = TcpStream>>(
    rt: &R,
    millis: u64,
) -> Option<(TcpPort, u16)> {
    let limits = Limits {
        patience: Duration::from_millis(millis),
        connections: 1,
    };
    match TcpDoor::new(rt, limits).listen(0) {
        Ok(port) => {
            let number = port.system_number().unwrap_or(0);
            Some((port, number))
        }
        Err(_) => None,
    }
}

/// Reads so many bytes with room for three at a time, and says them.
fn say_bytes(rt: &impl Print, link: &mut TcpLink, total: u64) {
    let mut piece = [0u8; 3];
    let mut left = total;
    for _ in 0..total {
        if 0 < left {
            let count = link.read(&mut piece).unwrap_or(0);
            let text = str::from_utf8(&piece[..(count as usize).min(3)]).unwrap_or("?");
            let _ = print!(rt; "{text}");
            left = left.saturating_sub(u64::from(count));
        }
    }
}

/// Bytes both ways in pieces, and the end of input.
fn both_ways(rt: &impl Print, link: &mut TcpLink, peer: &mut TcpStream) {
    let _ = peer.write_all(b"abcd");
    let _ = peer.write_all(b"efg");
    say_bytes(rt, link, 7);
    say_link(rt, link);
    write_once(rt, link, "hello ");
    write_once(rt, link, "peer");
    let mut reply = [0u8; 10];
    let _ = peer.read_exact(&mut reply);
    say(rt, str::from_utf8(&reply).unwrap_or("?"));
    let _ = peer.shutdown(Shutdown::Write);
    read_once(rt, link, 3)
}

/// A peer that goes away with bytes unread, which resets the connection.
fn reset(rt: &impl Print, link: &mut TcpLink, peer: TcpStream) {
    write_once(rt, link, "unread");
    let mut piece = [0u8; 1];
    let _ = peer.peek(&mut piece);
    drop(peer);
    read_once(rt, link, 3);
    write_once(rt, link, "more")
}

/// A peer that never reads.
fn deaf(rt: &impl Print, link: &mut TcpLink) {
    let piece = [0u8; UNREAD_PIECE];
    for _ in 0..FULL_PIECES {
        if link.write(&piece).is_err() {
            return say_link(rt, link);
        }
    }
    say(rt, "never full")
}

/// What is done with this connection.
fn act(rt: &impl Print, scene: Scene, link: &mut TcpLink, peer: TcpStream) {
    let mut peer = peer;
    match scene {
        Scene::BothWays => both_ways(rt, link, &mut peer),
        Scene::Reset => reset(rt, link, peer),
        Scene::Silent => read_once(rt, link, 3),
        Scene::Deaf => deaf(rt, link),
    }
}

/// Accepts, does what is to be done with the connection, and closes it.
fn accept_and_act(rt: &impl Print, scene: Scene, port: &mut TcpPort, peer: TcpStream) {
    match port.accept() {
        Ok(Some(link)) => {
            let mut link = link;
            act(rt, scene, &mut link, peer);
            say_port(rt, port);
            port.close(link);
            say_port(rt, port)
        }
        _ => say(rt, "no link"),
    }
}

/// A line on one connection.
fn line<R: Print + Net<Listener = TcpListener, Stream = TcpStream>>(
    rt: &R,
    name: &str,
    scene: Scene,
    millis: u64,
) {
    let _ = print!(rt; "{name}: ");
    match listening(rt, millis) {
        Some((port, number)) => {
            let mut port = port;
            match rt.connect(loopback(number)) {
                Ok(peer) => accept_and_act(rt, scene, &mut port, peer),
                Err(_) => say(rt, "no peer"),
            }
        }
        None => say(rt, "no port"),
    }
    let _ = println!(rt; "");
}

/// Accepts from two ends of one listener.
fn accept_both(rt: &impl Print, port: &mut TcpPort, twin: &mut TcpPort) {
    match (port.accept(), twin.accept()) {
        (Ok(Some(mine)), Ok(Some(theirs))) => {
            say_port(rt, port);
            say_port(rt, twin);
            port.close(mine);
            twin.close(theirs);
        }
        _ => say(rt, "no link"),
    }
    say_port(rt, port);
    say_port(rt, twin)
}

/// A line on two ends of one listener, whose peers have ended.
fn twins<R: Print + Net<Listener = TcpListener, Stream = TcpStream>>(rt: &R) {
    let _ = print!(rt; "twins: ");
    if let Some((port, number)) = listening(rt, LONG_MILLIS) {
        let mut port = port;
        if let Ok(twin) = port.twin() {
            let mut twin = twin;
            drop(rt.connect(loopback(number)));
            drop(rt.connect(loopback(number)));
            accept_both(rt, &mut port, &mut twin);
        }
    }
    let _ = println!(rt; "");
}

/// The one connection of a port, which the port ends first, so that the system keeps its number
/// for a while; and that the port then has no more.
fn end_port(rt: &impl Print, port: &mut TcpPort, peer: TcpStream) {
    if let Ok(Some(link)) = port.accept() {
        let mut link = link;
        write_once(rt, &mut link, "x");
        let mut peer = peer;
        let mut piece = [0u8; 1];
        let _ = peer.read_exact(&mut piece);
        port.close(link);
    }
    let last = mark_of(matches!(port.accept(), Ok(None)));
    let _ = print!(rt; " last:{last}");
    say_port(rt, port)
}

/// A line on a number that is taken, the end of its port, and the same number again at once.
fn taken<R: Print + Net<Listener = TcpListener, Stream = TcpStream>>(rt: &R) {
    let _ = print!(rt; "taken: ");
    if let Some((port, number)) = listening(rt, LONG_MILLIS) {
        let mut port = port;
        let mut door = TcpDoor::new(rt, Limits::of_server());
        let refused = mark_of(door.listen(number).is_err());
        if let Ok(peer) = rt.connect(loopback(number)) {
            end_port(rt, &mut port, peer);
        }
        door.give_back(port);
        let again = mark_of(door.listen(number).is_ok());
        let ended = door.ended();
        let faults = door.faults();
        let _ = print!(rt; " refused:{refused} again:{again}/{ended},{faults}");
    }
    let _ = println!(rt; "");
}

/// What a peer does that sends much and then reads to the end: how many bytes it read, and 100
/// more where it could send all.
fn send_and_read(peer: TcpStream) -> u64 {
    let mut peer = peer;
    let piece = [0u8; UNREAD_PIECE];
    let mut seen: u64 = 100;
    for _ in 0..UNREAD_PIECES {
        if peer.write_all(&piece).is_err() {
            seen = 0;
        }
    }
    let mut reply = [0u8; 8];
    for _ in 0..UNREAD_PIECES {
        match peer.read(&mut reply) {
            Ok(0) => break,
            Ok(count) => seen = seen.wrapping_add(count as u64),
            Err(_) => break,
        }
    }
    seen
}

/// Closes a link behind a reply, with nothing read of what its peer sends.
fn reply_and_close(port: &mut TcpPort) {
    if let Ok(Some(link)) = port.accept() {
        let mut link = link;
        let _ = link.write(b"reply");
        port.close(link);
    }
}

/// A line on a link that is closed while its peer still sends.
fn closed_early<R: Print + Threads + Net<Listener = TcpListener, Stream = TcpStream>>(
    rt: &R,
    seen: &Arc<AtomicU64>,
    theirs: Arc<AtomicU64>,
    alloc: Global,
) {
    let mut spawner = ThreadSpawner::new(rt, alloc);
    if let Some((port, number)) = listening(rt, LONG_MILLIS) {
        let mut port = port;
        if let Ok(peer) = rt.connect(loopback(number)) {
            let work = move || theirs.store(send_and_read(peer), Ordering::SeqCst);
            if let Err(work) = spawner.start(work) {
                drop(work);
            }
            reply_and_close(&mut port);
        }
    }
    spawner.join();
    let seen = seen.load(Ordering::SeqCst);
    let _ = println!(rt; "closed early: {seen}");
}

/// Makes the calls on connections.
pub(crate) fn say_all<R: Print + Threads + Net<Listener = TcpListener, Stream = TcpStream>>(
    rt: &R,
    alloc: Global,
) {
    line(rt, "both ways", Scene::BothWays, LONG_MILLIS);
    line(rt, "reset", Scene::Reset, LONG_MILLIS);
    line(rt, "silent", Scene::Silent, SHORT_MILLIS);
    line(rt, "deaf", Scene::Deaf, SHORT_MILLIS);
    twins(rt);
    taken(rt);
    if let Ok(seen) = Arc::new(alloc, AtomicU64::new(0)) {
        if let Ok(theirs) = Arc::try_clone(&seen) {
            closed_early(rt, &seen, theirs, alloc);
        }
    }
}

/// Two moments of the clock of the system: the first is not 0, which it says where it can't be read, and the second is not the earlier.
pub(crate) fn say_clock<R: Print + std::time::Clock + Copy + Send + Sync + 'static>(rt: &R) {
    let clock = SystemClock::new(*rt);
    let first = clock.now();
    let later = mark_of(0 < first && first <= clock.now());
    let _ = println!(rt; "clock goes on: {later}");
}
