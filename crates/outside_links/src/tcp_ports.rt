// Listeners of the system.
ghost use Rattle.std.specs.Prelude.{◌≡◌, ◌≤◌, IfOk, OnOk, OnErr};
ghost use Rattle.outside_links.specs.Counted.{untold_link};
ghost use Rattle.outside_links.specs.Door.{DoorState, after_refusal, after_return};
ghost use Rattle.outside_links.specs.Link.{IsFresh};
ghost use Rattle.outside_links.specs.Port.{Accepts, PortState, after_close, after_fault, new_port};

use crate::doors::Door;
use crate::faults::Failed;
use crate::links::Link;
use crate::ports::Port;
use crate::stream_links::{StreamLink, TcpLink};
use std::io;
use std::io::ErrorKind;
use std::marker::Model;
use std::net::{Ipv4Addr, Net, SocketAddr, SocketAddrV4, TcpListener, TcpStream};
use std::time::Duration;

/// What a door of the system sets its ports.
#[derive(Clone, Copy)]
pub struct Limits {
    /// How long a read or a write of a link waits for its peer. It is not 0.
    pub patience: Duration,
    /// How many connections each port accepts before it says that no more will come.
    pub connections: u64,
}

/// How many seconds a link of a server waits for its peer.
const PATIENCE_SECONDS: u64 = 30;

impl Limits {
    /// The limits of a server: 30 seconds, and no end of connections.
    pub fn of_server() -> Limits {
        Limits {
            patience: Duration::from_secs(PATIENCE_SECONDS),
            connections: u64::MAX,
        }
    }
}

/// One end of a listener of the system.
///
/// Contracts see it as what a port is to them.
pub struct TcpPort {
    listener: TcpListener,
    limits: Limits,
    // How many connections it still accepts.
    left: u64,
    number: u16,
    lent: u64,
    ended: bool,
    faults: u64,
}

impl Drop for TcpPort {
    fn drop(self) {
        let TcpPort {
            listener: _,
            limits: _,
            left: _,
            number: _,
            lent: _,
            ended: _,
            faults: _,
        } = self;
    }
}

impl Model for TcpPort {
    ghost use Rattle.outside_links.specs.Port.{PortState};

    ghost Value = { PortState };

    ghost view = { λ p. record {
      number = p.number;
      lent = p.lent;
      ended = p.ended;
      faults = p.faults;
    } };
}

/// A connection that was accepted, with the limits set.
fn link_of(stream: TcpStream, patience: Duration) -> io::Result<TcpLink>
    ensures { IfOk result (λ link. IsFresh (untold_link link)) }
{
    stream.set_nodelay(true)?;
    stream.set_read_timeout(Some(patience))?;
    stream.set_write_timeout(Some(patience))?;
    Ok(StreamLink::new(stream))
}

/// Whether `accept` goes on after this error, which is none of the listener's.
fn is_passing(error: &io::Error) -> bool {
    matches!(
        error.kind(),
        ErrorKind::Interrupted | ErrorKind::ConnectionAborted
    )
}

impl TcpPort {
    fn new(listener: TcpListener, number: u16, limits: Limits) -> TcpPort
        ensures { result ≡ new_port number }
    {
        TcpPort {
            listener,
            limits,
            left: limits.connections,
            number,
            lent: 0,
            ended: false,
            faults: 0,
        }
    }

    /// The number at which the system listens, which it chose itself where it was asked for 0.
    pub fn system_number(&self) -> io::Result<u16> {
        Ok(self.listener.local_addr()?.port())
    }

    /// Counts a call that failed.
    fn fail(&mut self) -> Failed
        ensures counted { self.new ≡ after_fault self.old }
        ensures later { self.old.faults ≤ self.new.faults }
    {
        self.faults = self.faults.saturating_add(1);
        Failed
    }
}

impl Port for TcpPort {
    type Link = TcpLink;

    ghost state = { λ port. port };

    fn accept(&mut self) -> Result<Option<TcpLink>, Failed>
        ensures ok { IfOk result (Accepts untold_link self.old self.new) }
        ensures err { OnErr result (self.new ≡ after_fault self.old) }
        ensures later { self.old.faults ≤ self.new.faults }
    {
        if self.left == 0 {
            if self.lent == 0 {
                self.ended = true;
            }
            return Ok(None);
        }
        for _ in 0..u64::MAX {
            match self.listener.accept() {
                Ok((stream, _)) => {
                    // A connection on which no limit can be set is gone already.
                    if let Ok(link) = link_of(stream, self.limits.patience) {
                        self.left = self.left.saturating_sub(1);
                        self.lent = self.lent.saturating_add(1);
                        return Ok(Some(link));
                    }
                }
                Err(error) => {
                    if !is_passing(&error) {
                        return Err(self.fail());
                    }
                }
            }
        }
        Err(self.fail())
    }

    fn close(&mut self, link: TcpLink)
        ensures { self.new ≡ after_close self.old (untold_link link) }
    {
        if link.used() {
            self.lent = self.lent.saturating_sub(1);
        }
        link.close();
    }

    fn open(&self) -> u64 {
        self.lent
    }

    fn twin(&mut self) -> Result<TcpPort, Failed> {
        match self.listener.try_clone() {
            Ok(listener) => Ok(TcpPort::new(listener, self.number, self.limits)),
            Err(_) => Err(self.fail()),
        }
    }

    fn ended(&self) -> bool {
        self.ended
    }

    fn faults(&self) -> u64 {
        self.faults
    }
}

/// The network of the system: it listens at every address of the machine.
///
/// Contracts see it as what a door is to them.
pub struct TcpDoor<'a, R> {
    net: &'a R,
    limits: Limits,
    ended: u64,
    faults: u64,
}

impl<'a, R> Drop for TcpDoor<'a, R> {
    fn drop(self) {
        let TcpDoor {
            net: _,
            limits: _,
            ended: _,
            faults: _,
        } = self;
    }
}

impl<'a, R> Model for TcpDoor<'a, R> {
    ghost use Rattle.outside_links.specs.Door.{DoorState};

    ghost Value = { DoorState };

    ghost view = { λ d. record { ended = d.ended; faults = d.faults } };
}

impl<'a, R: Net<Listener = TcpListener, Stream = TcpStream>> TcpDoor<'a, R> {
    /// A door whose ports have these limits.
    pub fn new(net: &'a R, limits: Limits) -> TcpDoor<'a, R>
        ensures { result ≡ record { ended = 0; faults = 0 } }
    {
        TcpDoor {
            net,
            limits,
            ended: 0,
            faults: 0,
        }
    }
}

impl<'a, R: Net<Listener = TcpListener, Stream = TcpStream>> Door for TcpDoor<'a, R> {
    type Port = TcpPort;

    ghost state = { λ door. door };

    fn listen(&mut self, number: u16) -> Result<TcpPort, Failed> {
        let address = SocketAddr::V4(SocketAddrV4::new(Ipv4Addr::new(0, 0, 0, 0), number));
        match self.net.bind(address) {
            Ok(listener) => Ok(TcpPort::new(listener, number, self.limits)),
            Err(_) => {
                self.faults = self.faults.saturating_add(1);
                Err(Failed)
            }
        }
    }

    fn give_back(&mut self, port: TcpPort)
        ensures { self.new ≡ after_return self.old port }
    {
        if port.ended() {
            self.ended = self.ended.saturating_add(1);
        }
        if port.faults() != 0 {
            self.faults = self.faults.saturating_add(1);
        }
    }

    fn ended(&self) -> u64 {
        self.ended
    }

    fn faults(&self) -> u64 {
        self.faults
    }
}
