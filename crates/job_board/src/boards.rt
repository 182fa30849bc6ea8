//! A board and its passes.
ghost use Rattle.std.specs.Prelude.{◌≡◌, ◌^◌, ◌<◌, ◌≤◌, true, None};
ghost use Rattle.job_board.specs.Boarding.{places_of, IsPassOf, noting, apart, second, together, RisesPast, IsWordOf};

use crate::holders::{Charter, Holder};
use crate::placed::Placed;
use crate::rules::{Both, Cut, Looks, PlacesStand};
use crate::words::Word;
use atomic_table::{Seat, Table};
use std::alloc::Global;
use std::marker::Model;

/// The places of jobs, shared by all threads that have a pass.
///
/// Contracts see which board it is and what it was made for: whether it was made of jobs, which then are the first ones at its places, and the quantum of their turns.
#[derive(Drop)]
pub struct Board<J: Placed> {
    pub(crate) table: Table<Option<J>, Holder<J>, Charter<J>, PlacesStand<J>, Global>,
    // For the jobs of a board that is closed.
    pub(crate) room: Vec<J>,
}

impl<J: Placed> Model for Board<J> {
    ghost use Rattle.std.specs.Prelude.{◌≡◌, ◌^◌, ◌<◌, ◌≤◌, [], true, vec_capacity};
    ghost use Rattle.job_board.specs.Boarding.{BoardView};
    ghost use Rattle.job_board.specs.Ruled.{terms_of};

    ghost Value = { BoardView J };

    ghost view = { λ board. record { id = board.table.shared.table_id; terms = terms_of board.table.shared.key } };

    ghost invariant = { λ board. (board.table.shared.table_id.words ≡ board.table.shared.table_id.slots) × (0 < board.table.shared.table_id.words) × (board.room.items ≡ []) × (board.table.shared.key.fixed ≡ true → board.table.shared.table_id.words ≤ vec_capacity board.room) × (board.table.shared.table_id.words < 2 ^ 32) × (board.table.shared.key.fixed ≡ true → board.table.shared.table_id.words ≤ 2 ^ 31) };
}

/// A thread's handle on a board. It takes no bytes.
///
/// Contracts see which board it is for, how many of the board's 65,536 parts it has, the place that it holds with the word that it found there, and each word that it saw or stored, in order.
#[derive(Drop)]
pub struct BoardPass<J> {
    pub(crate) seat: Seat<Option<J>, Holder<J>>,
}

impl<J> Model for BoardPass<J> {
    ghost use Rattle.std.specs.Prelude.{◌<◌};
    ghost use Rattle.job_board.specs.Boarding.{PassView};
    ghost use Rattle.job_board.specs.Settled.{IsSettled};

    ghost Value = { PassView J };

    ghost view = { λ pass. record { id = pass.seat.table_id; terms = pass.seat.me.0.terms; parts = pass.seat.me.0.parts; held = pass.seat.me.0.held; notes = pass.seat.me.0.notes } };

    ghost invariant = { λ pass. (0 < pass.seat.me.0.parts) × IsSettled pass.seat.me.0.held pass.seat.me.1 };
}

impl<J: Placed> Board<J> {
    /// How many places there are: at least one, and at most 2^31 on a board that was made of jobs.
    pub fn places(&self) -> u32
        ensures places { result ≡ places_of self.now }
        ensures some { 1 ≤ result }
        ensures few { self.now.terms.fixed ≡ true → result ≤ 2 ^ 31 }
    {
        self.table.slot_count() as u32
    }

    /// One load of the place's word, which the pass notes. It takes no memory, and waits for nobody.
    ///
    /// On a board that was made of jobs the word tells no fewer turns than the pass has noted for the place before, and no job that goes back.
    pub fn look(&self, pass: &mut BoardPass<J>, place: u32) -> Word
        requires own { IsPassOf self.now pass.old }
        requires place { place < places_of self.now }
        ensures noted { pass.new ≡ noting pass.old place result }
        ensures past { pass.old.terms.fixed ≡ true → RisesPast pass.old.notes place result }
        ensures known { IsWordOf pass.old.terms result }
    {
        Word::of(
            self.table
                .shared
                .load::<Looks>(&mut pass.seat, place as usize),
        )
    }

    /// Makes a second pass, which may go to another thread. It has one part of this one's and its notes, and holds no place.
    pub fn split(&self, pass: &mut BoardPass<J>) -> BoardPass<J>
        requires own { IsPassOf self.now pass.old }
        requires parts { 2 ≤ pass.old.parts }
        ensures left { pass.new ≡ apart pass.old }
        ensures right { result ≡ second pass.old }
    {
        BoardPass {
            seat: self.table.shared.split_seat::<Cut>(&mut pass.seat),
        }
    }

    /// Takes another pass back, with its parts and its notes. Neither holds a place.
    pub fn join(&self, pass: &mut BoardPass<J>, other: BoardPass<J>)
        requires own { IsPassOf self.now pass.old }
        requires other { IsPassOf self.now other }
        requires free { (pass.old.held ≡ None) × (other.held ≡ None) }
        ensures { pass.new ≡ together pass.old other }
    {
        let BoardPass { seat } = other;
        self.table.shared.join_seat::<Both>(&mut pass.seat, seat);
    }
}
