//! What a worker asks for duties.
ghost use Rattle.std.specs.Prelude.{◌≡◌, ℕ, None, Some, Option, IfSome, IfNone};
ghost use Rattle.sandbox_states.specs.Stands.{IsOneTurn};
ghost use Rattle.worker_desks.specs.Desks.{Closes, DeskView, Gives, Regains};
ghost use Rattle.worker_desks.specs.Duties.{IsDelivered, OfDuty};

use crate::duties::Duty;
use memory_pool::Berth;
use sandbox_states::{Answer, Sandbox};

/// A worker's scheduler. It hands out one duty at a time, and takes back what became of it.
///
/// A desk tells of itself (`specs/Desks.antt`): the most duties that it can still give, which falls with each one that it gives and never rises; how many it has given; whether its last `next` gave none; what the duty that is out begins with; and its quantum. Beside these it serves something, which no call changes.
pub trait Desk {
    type Served;

    ghost state: { Self → DeskView };

    ghost serves: { Self → Self.Served };

    /// The next duty, or none where the desk has nothing to hand out now.
    ///
    /// The berth of a `Begin` has at least the pages of the request's program.
    fn next(&mut self) -> Option<Duty>
        requires { (state self.old).out ≡ None }
        ensures some { IfSome result (λ duty. Gives (state self.old) (state self.new) duty) }
        ensures none { IfNone result (Closes (state self.old) (state self.new)) }
        ensures serves { serves self.new ≡ serves self.old };

    /// Takes back a request that was stopped after one turn of the duty that is out.
    fn put_back(&mut self, sandbox: Sandbox)
        requires { OfDuty (state self.old).out (λ old. IsOneTurn (state self.old).quantum old sandbox) }
        ensures back { Regains (state self.old) (state self.new) }
        ensures serves { serves self.new ≡ serves self.old };

    /// Takes the answer to the duty that is out, which came after one turn, and a clean berth of as many pages as the duty's own.
    fn deliver(&mut self, answer: Answer, berth: Berth)
        requires { OfDuty (state self.old).out (λ old. IsDelivered (state self.old).quantum old answer berth) }
        ensures back { Regains (state self.old) (state self.new) }
        ensures serves { serves self.new ≡ serves self.old };
}
