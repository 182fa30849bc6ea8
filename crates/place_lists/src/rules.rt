//! The rules of both lists, and what each step tells its pass.

use crate::keepers::{Hand, Keeper};
use crossbeam_deque::protocol as deque;
use crossbeam_queue::protocol as queue;

// Of the inbox: each number in it is a place of the board, and as often in it as it was pushed and not stolen.
pub(crate) struct PushedAndStolen;

impl deque::Protocol<u32, Hand> for PushedAndStolen {
    ghost use Rattle.place_lists.specs.Handing.{Handed, empty_handed};

    ghost holds = { Handed };

    ghost first = { empty_handed };

    ghost guest = { empty_handed };
}

// The pass has pushed these numbers.
pub(crate) struct Pushes;

impl deque::Outcome<u32, Hand> for Pushes {
    ghost use Rattle.place_lists.specs.Handing.{pushed};

    ghost then = { pushed };
}

// The pass has stolen these numbers, which are places.
pub(crate) struct Steals;

impl deque::Outcome<u32, Hand> for Steals {
    ghost use Rattle.place_lists.specs.Handing.{stole};

    ghost then = { stole };
}

// Of the queue: each place is in it, or out with one pass.
pub(crate) struct EachInOneHand;

impl queue::Protocol<u32, Keeper> for EachInOneHand {
    ghost use Rattle.place_lists.specs.Keeping.{EachOnce, maker};

    ghost holds = { EachOnce };

    ghost first = { maker };
}

// The pass has one place more.
pub(crate) struct Takes;

impl queue::Outcome<u32, Keeper> for Takes {
    ghost use Rattle.place_lists.specs.Keeping.{took};

    ghost then = { took };
}

impl queue::Lesson<u32, Keeper> for Takes {
    ghost use Rattle.std.specs.Prelude.{⊤};

    ghost fact = { λ keeper items. ⊤ };
}

// The pass has given the place back that it took last. As long as it has one, the queue is not full.
pub(crate) struct Gives;

impl queue::Outcome<u32, Keeper> for Gives {
    ghost use Rattle.place_lists.specs.Keeping.{gave};

    ghost then = { gave };
}

impl queue::Lesson<u32, Keeper> for Gives {
    ghost use Rattle.place_lists.specs.Keeping.{HasRoom};

    ghost fact = { HasRoom };
}

// A second pass has no place.
pub(crate) struct Joins;

impl queue::Split<Keeper> for Joins {
    ghost use Rattle.std.specs.Prelude.{[]};
    ghost use Rattle.place_lists.specs.Keeping.{keeper};

    ghost left = { λ v. v };

    ghost right = { λ v. keeper [] };
}
