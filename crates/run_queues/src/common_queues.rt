//! The queue of all workers.
ghost use Rattle.std.specs.Prelude.{◌≡◌, ℕ, ◌+◌, ◌-◌, ◌<◌, ◌≤◌, ◌++◌, [], ◌∷◌, ◌↔◌, length, slice_get, IfOk, IsNone};
ghost use Rattle.run_queues.specs.Drawing.{first_drawing, apart, together};

use crate::drawers::Drawer;
use atomic_table::{Join, Play, Seat, Split, Table, TableRule};
use std::alloc::{AllocError, Global};
use std::marker::Model;

// The rule of the queue's one word: it is the number of draws.
struct Counting;

impl TableRule<(), Drawer, ()> for Counting {
    ghost use Rattle.run_queues.specs.Counting.{Counted, drawer};

    ghost holds = { λ _. Counted };

    ghost first = { λ _. drawer 65536 [] };
}

// A draw: the pass notes the number that the step gave.
struct Draw;

impl Play<(), Drawer> for Draw {
    ghost use Rattle.run_queues.specs.Counting.{drew};

    ghost then = { drew };
}

// A second pass: it has one part, and has drawn nothing.
struct Cut;

impl Split<Drawer> for Cut {
    ghost use Rattle.run_queues.specs.Counting.{less_one, one_part};

    ghost left = { less_one };

    ghost right = { one_part };
}

// Two passes in one, with what both have drawn.
struct Both;

impl Join<Drawer> for Both {
    ghost use Rattle.run_queues.specs.Counting.{both_drawn, drawer};

    ghost both = { both_drawn };

    ghost spent = { drawer 0 [] };
}

/// The queue from which all workers take requests that have not begun.
///
/// It is a list of places, which never changes, and one word that counts the draws. Contracts see it as its identity and its places.
#[derive(Drop)]
pub struct Common {
    table: Table<(), Drawer, (), Counting, Global>,
    places: Vec<u32>,
}

impl Model for Common {
    ghost use Rattle.std.specs.Prelude.{◌≡◌};
    ghost use Rattle.run_queues.specs.Drawing.{CommonView};

    ghost Value = { CommonView };

    ghost view = { λ common. record { id = common.table.shared.table_id; places = common.places.items } };

    ghost invariant = { λ common. common.table.shared.table_id.words ≡ 1 };
}

/// A thread's handle on a `Common`. It takes no bytes.
///
/// Contracts see which queue it is for, how many of the queue's 65,536 parts it has, and the numbers that its draws gave.
#[derive(Drop)]
pub struct CommonPass {
    seat: Seat<(), Drawer>,
}

impl Model for CommonPass {
    ghost use Rattle.std.specs.Prelude.{◌≡◌, ◌<◌, []};
    ghost use Rattle.run_queues.specs.Drawing.{Drawing};

    ghost Value = { Drawing };

    ghost view = { λ pass. record { id = pass.seat.table_id; parts = pass.seat.me.0.parts; drawn = pass.seat.me.0.drawn } };

    ghost invariant = { λ pass. (0 < pass.seat.me.0.parts) × (pass.seat.me.1 ≡ []) };
}

impl Common {
    /// A queue of these places, and the first pass, which has all parts and has drawn nothing.
    pub fn new(alloc: Global, places: Vec<u32>) -> Result<(Common, CommonPass), AllocError>
        ensures places { IfOk result (λ made. made.0.places ≡ places.items) }
        ensures pass { IfOk result (λ made. made.1 ≡ first_drawing made.0.id) }
    {
        let (table, seat) = Table::of_words(alloc, &[0], &())?;
        Ok((Common { table, places }, CommonPass { seat }))
    }

    /// Draws the next place: the one at the number of draws that were made before, by all passes. It takes no memory, and waits for nobody.
    ///
    /// `None` comes exactly where that number is not below the number of places.
    pub fn draw(&self, pass: &mut CommonPass) -> Option<u32>
        requires own { pass.old.id ≡ self.now.id }
        ensures drawn { (number : ℕ) × (pass.new ≡ record pass.old { drawn = pass.old.drawn ++ number ∷ [] }) × (result ≡ slice_get self.now.places number) }
    {
        let number = self.table.shared.fetch_add::<Draw>(&mut pass.seat, 0, 1);
        place_at(self.places.as_slice(), number)
    }

    /// Makes a second pass, which may go to another thread. It has one part of this one's, and has drawn nothing.
    pub fn split(&self, pass: &mut CommonPass) -> CommonPass
        requires own { pass.old.id ≡ self.now.id }
        requires parts { 2 ≤ pass.old.parts }
        ensures left { pass.new ≡ apart pass.old }
        ensures right { result ≡ record { id = self.now.id; parts = 1; drawn = [] } }
    {
        CommonPass {
            seat: self.table.shared.split_seat::<Cut>(&mut pass.seat),
        }
    }

    /// Takes another pass back, with its parts and what it has drawn.
    pub fn join(&self, pass: &mut CommonPass, other: CommonPass)
        requires own { pass.old.id ≡ self.now.id }
        requires other { other.id ≡ self.now.id }
        ensures { pass.new ≡ together pass.old other }
    {
        let CommonPass { seat } = other;
        self.table.shared.join_seat::<Both>(&mut pass.seat, seat);
    }
}

// The place at a number.
fn place_at(places: &[u32], number: u64) -> Option<u32>
    ensures { result ≡ slice_get places.now number }
{
    places.get(number as usize).copied()
}
