// Where connections come from.
ghost use Rattle.std.specs.Prelude.{◌≡◌, ◌≤◌, IfOk, OnOk, OnErr};
ghost use Rattle.outside_links.specs.Port.{Accepts, PortState, after_close, after_fault, new_port};

use crate::faults::Failed;
use crate::links::Link;

/// One end of a listener, which hands out its connections.
///
/// A thread of a server owns a port and gives it back through a channel, for which it may be
/// dropped; its links may be sent.
pub trait Port: Sized + Send + Drop + 'static {
    type Link: Link + Send;

    // What contracts know of it.
    ghost state: { Self → PortState };

    /// The next connection, on which no call was made, or `None` where none will come.
    fn accept(&mut self) -> Result<Option<Self::Link>, Failed>
        ensures ok { IfOk result
            (Accepts Self.Link.Link.state (state self.old) (state self.new)) }
        ensures err { OnErr result (state self.new ≡ after_fault (state self.old)) }
        ensures later { (state self.old).faults ≤ (state self.new).faults };

    /// Takes a link in, and ends the connection.
    fn close(&mut self, link: Self::Link)
        ensures { state self.new ≡ after_close (state self.old) (Self.Link.Link.state link) };

    /// How many links it has handed out, less those that came back used.
    fn open(&self) -> u64
        ensures { result ≡ (state self.now).lent };

    /// A second port of the same listener, on which no call was made.
    fn twin(&mut self) -> Result<Self, Failed>
        ensures twin { IfOk result (λ port. state port ≡ new_port (state self.old).number) }
        ensures ok { OnOk result (state self.new ≡ state self.old) }
        ensures err { OnErr result (state self.new ≡ after_fault (state self.old)) }
        ensures later { (state self.old).faults ≤ (state self.new).faults };

    /// Whether `accept` has answered `None` while no link of it was out.
    fn ended(&self) -> bool
        ensures { result ≡ (state self.now).ended };

    /// The count of faults, which never falls. Over the system it stops at its greatest value.
    fn faults(&self) -> u64
        ensures { result ≡ (state self.now).faults };
}
