// One connection: bytes come in, and bytes go out.
ghost use Rattle.std.specs.Prelude.{◌≡◌, ◌≤◌, ℕ, List, [], ◌++◌, length, take, IfOk, OnOk, OnErr};
ghost use Rattle.outside_links.specs.Link.{Exchanges, Fails, LinkState, Reads, SendsPart, Writes};

use crate::faults::Failed;

/// One connection.
///
/// A link may tell the bytes that its peer has still to send and all bytes that were written to
/// it. Of each link it is known besides what its calls exchanged: only a call of `read` takes
/// bytes in, and only a call of `write` sends some.
///
/// A link need not be `Drop`, so that code over any link has to close it on its port.
pub trait Link {
    // What it tells of itself, and how many calls have failed so far.
    ghost state: { Self → LinkState };

    // Calls between these two states took these bytes in and sent those, each in order.
    ghost exchanged: { Self → Self → List ℕ → List ℕ → Type 0 };

    /// Lays the next bytes at the front of `into`, as many as have come and fit, and answers how
    /// many. 0 is the end of input. What `into` holds behind them is not said.
    ///
    /// `into` has 1 to 65,536 bytes.
    fn read(&mut self, into: &mut [u8]) -> Result<u32, Failed>
        requires { (1 ≤ length into.old) × (length into.old ≤ 65536) }
        ensures within { IfOk result (λ count. count ≤ length into.new) }
        ensures taken { IfOk result (λ count.
            exchanged self.old self.new (take count into.new) []) }
        ensures none { OnErr result (exchanged self.old self.new [] []) }
        ensures ok { IfOk result (Reads (state self.old) (state self.new)) }
        ensures err { OnErr result (Fails (state self.old) (state self.new)) }
        ensures later { (state self.old).faults ≤ (state self.new).faults };

    /// Whether a read has answered 0.
    fn ended(&self) -> bool
        ensures { result ≡ (state self.now).ended };

    /// Whether a read has answered 0, a call has failed, or a byte was written.
    fn used(&self) -> bool
        ensures { result ≡ (state self.now).used };

    /// Writes all bytes, or fails behind some of them.
    fn write(&mut self, bytes: &[u8]) -> Result<(), Failed>
        ensures sent { OnOk result (exchanged self.old self.new [] bytes.now) }
        ensures part { OnErr result (SendsPart exchanged self.old self.new bytes.now) }
        ensures ok { OnOk result (Writes (state self.old) (state self.new) bytes.now) }
        ensures err { OnErr result (Fails (state self.old) (state self.new)) }
        ensures later { (state self.old).faults ≤ (state self.new).faults };

    /// The count of faults, which never falls. Over the system it stops at its greatest value.
    fn faults(&self) -> u64
        ensures { result ≡ (state self.now).faults };

    // No call exchanges nothing, and one behind another both.
    ghost nothing: { (link : Self) → exchanged link link [] [] };

    ghost behind: { (old mid new : Self) (read read' sent sent' : List ℕ)
        → exchanged old mid read sent → exchanged mid new read' sent'
        → exchanged old new (read ++ read') (sent ++ sent') };

    // What was exchanged is what the link tells, where it does.
    ghost tells: { (old new : Self) (read sent : List ℕ)
        → exchanged old new read sent → Exchanges (state old) (state new) read sent };
}
