// Where ports come from and go back to.
ghost use Rattle.std.specs.Prelude.{◌≡◌, ◌≤◌, IfOk, OnOk, OnErr};
ghost use Rattle.outside_links.specs.Door.{DoorState, after_refusal, after_return};
ghost use Rattle.outside_links.specs.Port.{new_port};

use crate::faults::Failed;
use crate::ports::Port;

/// The network: it listens at port numbers, and takes the ports back.
pub trait Door {
    type Port: Port;

    // How many ports came back ended, and its count of faults.
    ghost state: { Self → DoorState };

    /// Begins to listen at a port number. The port that it hands out is new.
    fn listen(&mut self, number: u16) -> Result<Self::Port, Failed>
        ensures port { IfOk result (λ port. Self.Port.Port.state port ≡ new_port number) }
        ensures ok { OnOk result (state self.new ≡ state self.old) }
        ensures err { OnErr result (state self.new ≡ after_refusal (state self.old)) }
        ensures later { (state self.old).faults ≤ (state self.new).faults };

    /// Takes a port in, and counts that it ended and that it had faults.
    fn give_back(&mut self, port: Self::Port)
        ensures { state self.new ≡ after_return (state self.old) (Self.Port.Port.state port) };

    /// How many ports came back ended, up to the count's greatest value.
    fn ended(&self) -> u64
        ensures { result ≡ (state self.now).ended };

    /// The count of faults, which never falls. Over the system it stops at its greatest value.
    fn faults(&self) -> u64
        ensures { result ≡ (state self.now).faults };
}
