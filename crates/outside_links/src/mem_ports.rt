// A listener in memory.
ghost use Rattle.std.specs.Prelude.{◌≡◌, ◌↔◌, ◌≤◌, [], All, false, IfOk, OnOk, OnErr, IsErr, IsOk, IsTrue};
ghost use Rattle.outside_links.specs.MemLink.{mem_link_state};
ghost use Rattle.outside_links.specs.MemPort.{accept_fails, after_accept, after_close, first_link, mem_port_state, unused_port};
ghost use Rattle.outside_links.specs.Port.{Accepts, after_fault, new_port};

use crate::faults::Failed;
use crate::links::Link;
use crate::mem_links::MemLink;
use crate::ports::Port;
use std::alloc::Global;
use std::collections::VecDeque;
use std::marker::Model;

/// A port in memory, which hands out the links that it was made with, in order, and then says
/// that no more will come. It fails only at the calls that it was told.
pub struct MemPort {
    links: VecDeque<MemLink>,
    failing: Vec<u64>,
    calls: u64,
    number: u16,
    lent: u64,
    ended: bool,
    faults: u64,
}

impl Drop for MemPort {
    fn drop(self) {
        let MemPort {
            links: _,
            failing: _,
            calls: _,
            number: _,
            lent: _,
            ended: _,
            faults: _,
        } = self;
    }
}

impl Model for MemPort {
    ghost use Rattle.std.specs.Prelude.{◌≡◌, All, false};
    ghost use Rattle.outside_links.specs.MemPort.{Listening};

    ghost Value = { Listening };

    ghost view = { λ p. record {
      links = p.links.items;
      failing = p.failing.items;
      calls = p.calls;
      number = p.number;
      lent = p.lent;
      ended = p.ended;
      faults = p.faults;
    } };

    // What is handed out was never used.
    ghost invariant = { λ p. All (λ link. link.used ≡ false) p.links.items };
}

impl MemPort {
    /// A port of these links, of which none is used. A call of `accept` fails if its number,
    /// counted from 0, stands in `failing`.
    ///
    /// It listens at the number 0 until a door hands it out at another one.
    pub fn new(links: Vec<MemLink>, failing: Vec<u64>) -> MemPort
        requires { All (λ link. link.used ≡ false) links.items }
        ensures { result ≡ unused_port links.items failing.items 0 }
    {
        MemPort {
            links: VecDeque::from_vec(links),
            failing,
            calls: 0,
            number: 0,
            lent: 0,
            ended: false,
            faults: 0,
        }
    }

    /// A port without links that listens at this number.
    pub(crate) fn without_links(alloc: Global, number: u16) -> MemPort
        ensures { result ≡ unused_port [] [] number }
    {
        MemPort {
            links: VecDeque::new(alloc),
            failing: Vec::new(alloc),
            calls: 0,
            number,
            lent: 0,
            ended: false,
            faults: 0,
        }
    }

    /// The port, listening at this number.
    pub(crate) fn at(self, number: u16) -> MemPort
        ensures { result ≡ record self { number = number } }
    {
        let mut port = self;
        port.number = number;
        port
    }

    /// Whether the next call of `accept` fails.
    fn fails(&self) -> bool
        ensures { result ≡ accept_fails self.now }
    {
        self.failing.contains(&self.calls)
    }
}

impl Port for MemPort {
    type Link = MemLink;

    ghost state = { mem_port_state };

    fn accept(&mut self) -> Result<Option<MemLink>, Failed>
        ensures ok { IfOk result
            (Accepts mem_link_state (mem_port_state self.old) (mem_port_state self.new)) }
        ensures err { OnErr result
            (mem_port_state self.new ≡ after_fault (mem_port_state self.old)) }
        ensures later { self.old.faults ≤ self.new.faults }

        // Exactly when it fails, what it answers, and what the call leaves.
        ensures fails { IsErr result ↔ IsTrue (accept_fails self.old) }
        ensures first { IfOk result (λ link. link ≡ first_link self.old.links) }
        ensures after { self.new ≡ after_accept self.old }
    {
        let failing = self.fails();
        self.calls = self.calls.saturating_add(1);
        if failing {
            self.faults = self.faults.saturating_add(1);
            return Err(Failed);
        }
        let Some(link) = self.links.pop_front() else {
            if self.lent == 0 {
                self.ended = true;
            }
            return Ok(None);
        };
        link.shows_its_end();
        self.lent = self.lent.saturating_add(1);
        Ok(Some(link))
    }

    fn close(&mut self, link: MemLink)
        ensures { self.new ≡ after_close self.old link }
    {
        if link.used() {
            self.lent = self.lent.saturating_sub(1);
        }
    }

    fn open(&self) -> u64 {
        self.lent
    }

    fn twin(&mut self) -> Result<MemPort, Failed>
        ensures twin { IfOk result (λ port.
            mem_port_state port ≡ new_port (mem_port_state self.old).number) }
        ensures ok { OnOk result (mem_port_state self.new ≡ mem_port_state self.old) }
        ensures err { OnErr result
            (mem_port_state self.new ≡ after_fault (mem_port_state self.old)) }
        ensures later { self.old.faults ≤ self.new.faults }

        // It never fails, and the other port has no links.
        ensures succeeds { IsOk result }
        ensures without { IfOk result (λ port. port ≡ unused_port [] [] self.old.number) }
        ensures same { self.new ≡ self.old }
    {
        Ok(MemPort::without_links(*self.failing.allocator(), self.number))
    }

    fn ended(&self) -> bool {
        self.ended
    }

    fn faults(&self) -> u64 {
        self.faults
    }
}
