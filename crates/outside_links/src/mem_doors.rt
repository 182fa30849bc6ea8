// A network in memory.
ghost use Rattle.std.specs.Prelude.{◌≡◌, ◌↔◌, ◌≤◌, All, IfOk, OnOk, OnErr, IsErr, IsTrue};
ghost use Rattle.outside_links.specs.Door.{after_refusal};
ghost use Rattle.outside_links.specs.MemDoor.{after_give_back, after_listen, listen_fails, mem_door_state, next_port};
ghost use Rattle.outside_links.specs.MemPort.{IsUntouched, mem_port_state};
ghost use Rattle.outside_links.specs.Port.{new_port};

use crate::doors::Door;
use crate::faults::Failed;
use crate::mem_ports::MemPort;
use crate::ports::Port;
use std::collections::VecDeque;
use std::marker::Model;

/// A door in memory, which hands out the ports that it was made with, in order, and then ports
/// without links. It fails only at the calls that it was told.
pub struct MemDoor {
    ports: VecDeque<MemPort>,
    failing: Vec<u64>,
    calls: u64,
    ended: u64,
    faults: u64,
}

impl Drop for MemDoor {
    fn drop(self) {
        let MemDoor {
            ports: _,
            failing: _,
            calls: _,
            ended: _,
            faults: _,
        } = self;
    }
}

impl Model for MemDoor {
    ghost use Rattle.std.specs.Prelude.{All};
    ghost use Rattle.outside_links.specs.MemDoor.{Doorway};
    ghost use Rattle.outside_links.specs.MemPort.{IsUntouched};

    ghost Value = { Doorway };

    ghost view = { λ d. record {
      ports = d.ports.items;
      failing = d.failing.items;
      calls = d.calls;
      ended = d.ended;
      faults = d.faults;
    } };

    // What is handed out is new.
    ghost invariant = { λ d. All IsUntouched d.ports.items };
}

impl MemDoor {
    /// A door of these ports, on which no call was made. A call of `listen` fails if its number,
    /// counted from 0, stands in `failing`.
    pub fn new(ports: Vec<MemPort>, failing: Vec<u64>) -> MemDoor
        requires { All IsUntouched ports.items }
        ensures { result ≡ record {
          ports = ports.items;
          failing = failing.items;
          calls = 0;
          ended = 0;
          faults = 0;
        } }
    {
        MemDoor {
            ports: VecDeque::from_vec(ports),
            failing,
            calls: 0,
            ended: 0,
            faults: 0,
        }
    }

    /// Whether the next call of `listen` fails.
    fn fails(&self) -> bool
        ensures { result ≡ listen_fails self.now }
    {
        self.failing.contains(&self.calls)
    }
}

impl Door for MemDoor {
    type Port = MemPort;

    ghost state = { mem_door_state };

    fn listen(&mut self, number: u16) -> Result<MemPort, Failed>
        ensures port { IfOk result (λ port. mem_port_state port ≡ new_port number) }
        ensures ok { OnOk result (mem_door_state self.new ≡ mem_door_state self.old) }
        ensures err { OnErr result
            (mem_door_state self.new ≡ after_refusal (mem_door_state self.old)) }
        ensures later { self.old.faults ≤ self.new.faults }

        // Exactly when it fails, what it answers, and what the call leaves.
        ensures fails { IsErr result ↔ IsTrue (listen_fails self.old) }
        ensures next { IfOk result (λ port. port ≡ next_port self.old.ports number) }
        ensures after { self.new ≡ after_listen self.old }
    {
        let failing = self.fails();
        self.calls = self.calls.saturating_add(1);
        if failing {
            self.faults = self.faults.saturating_add(1);
            return Err(Failed);
        }
        match self.ports.pop_front() {
            Some(port) => Ok(port.at(number)),
            None => Ok(MemPort::without_links(*self.failing.allocator(), number)),
        }
    }

    fn give_back(&mut self, port: MemPort)
        ensures { self.new ≡ after_give_back self.old port }
    {
        if port.ended() {
            self.ended = self.ended.saturating_add(1);
        }
        if port.faults() != 0 {
            self.faults = self.faults.saturating_add(1);
        }
    }

    fn ended(&self) -> u64 {
        self.ended
    }

    fn faults(&self) -> u64 {
        self.faults
    }
}
