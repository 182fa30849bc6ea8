//! The inbox.
ghost use Rattle.std.specs.Prelude.{◌≡◌, [], IfOk, MatchResult, MatchOption};
ghost use Rattle.crossbeam_deque.specs.Steals.{MatchSteal};
ghost use Rattle.place_lists.specs.Inboxes.{IsPassOf, having_pushed, having_stolen};
ghost use Rattle.place_lists.specs.Places.{IsPlace};

use crate::keepers::Hand;
use crate::rules::{PushedAndStolen, Pushes, Steals};
use crossbeam_deque::{Injector, InjectorPass, Steal};
use std::alloc::{AllocError, Global};
use std::marker::Model;
use std::sync::Wait;

/// The places at which requests were put, in the order of pushing, for the workers to begin.
///
/// It is a hint: a place may be in it twice, or no longer have the request for which it was pushed. Who takes one claims it on the board. Contracts see which inbox it is.
pub struct Inbox {
    injector: Injector<u32, Global, Hand, PushedAndStolen>,
}

impl Drop for Inbox {
    fn drop(self) {
        let Inbox { injector: _ } = self;
    }
}

impl Model for Inbox {
    ghost use Rattle.place_lists.specs.Inboxes.{InboxView};

    ghost Value = { InboxView };

    ghost view = { λ inbox. record { queue = inbox.injector.queue } };
}

/// A thread's handle on an inbox. It takes no bytes.
///
/// Contracts see which inbox it is for, its number, and what it has pushed and stolen, in order.
pub struct InboxPass {
    seat: InjectorPass<u32, Hand>,
}

impl Drop for InboxPass {
    fn drop(self) {
        let InboxPass { seat: _ } = self;
    }
}

impl Model for InboxPass {
    ghost use Rattle.std.specs.Prelude.{◌≡◌, None};
    ghost use Rattle.place_lists.specs.Inboxes.{PassView};

    ghost Value = { PassView };

    ghost view = { λ pass. record { web = pass.seat.web; heap = pass.seat.heap; number = pass.seat.id; pushed = pass.seat.me.view.client.pushed; stolen = pass.seat.me.view.client.stolen } };

    ghost invariant = { λ pass. (pass.seat.me.hand ≡ None) × (pass.seat.me.spare ≡ None) };
}

impl Inbox {
    /// An empty inbox, and its first pass, which has pushed and stolen nothing.
    #[tactic(auto, using(crate::proofs::Handing::begins))]
    pub fn new(alloc: Global) -> Result<(Inbox, InboxPass), AllocError>
        ensures { IfOk result (λ made. IsPassOf made.0 made.1 × (made.1.pushed ≡ []) × (made.1.stolen ≡ [])) }
    {
        let (injector, seat) = Injector::new_as(alloc)?;
        Ok((Inbox { injector }, InboxPass { seat }))
    }

    /// Makes another pass, for any thread. It has pushed and stolen nothing.
    pub fn pass(&self) -> InboxPass
        ensures { IsPassOf self.now result × (result.pushed ≡ []) × (result.stolen ≡ []) }
    {
        InboxPass {
            seat: self.injector.pass(),
        }
    }

    /// Puts a place behind the others. It comes back where memory runs out.
    pub fn push<R: Wait>(&self, rt: &R, pass: &mut InboxPass, place: u32) -> Result<(), u32>
        requires own { IsPassOf self.now pass.old }
        requires place { IsPlace place }
        ensures { MatchResult result (λ _. pass.new ≡ having_pushed pass.old place) (λ back. (back ≡ place) × (pass.new ≡ pass.old)) }
    {
        self.injector
            .push_as::<Pushes, R>(rt, &mut pass.seat, place)
    }

    /// Takes the first number, which is a place of the board. A thread that is in the way is waited for; an empty inbox is not.
    pub fn steal<R: Wait>(&self, rt: &R, pass: &mut InboxPass) -> Option<u32>
        requires { IsPassOf self.now pass.old }
        ensures { MatchOption result (pass.new ≡ pass.old) (λ place. IsPlace place × (pass.new ≡ having_stolen pass.old place)) }
    {
        for _ in rt.forever() {
            match self.try_steal(rt, pass) {
                Steal::Success(place) => return Some(place),
                Steal::Empty => return None,
                Steal::Retry => {}
            }
        }
        unreachable!()
    }

    // One try, which another thread may be in the way of.
    fn try_steal<R: Wait>(&self, rt: &R, pass: &mut InboxPass) -> Steal<u32>
        requires { IsPassOf self.now pass.old }
        ensures { MatchSteal result (pass.new ≡ pass.old) (pass.new ≡ pass.old) (λ place. IsPlace place × (pass.new ≡ having_stolen pass.old place)) }
    {
        self.injector.steal_as::<Steals, R>(rt, &mut pass.seat)
    }
}
