//! A pool of berths and its passes.
ghost use Rattle.std.specs.Prelude.{◌≡◌, ℕ, ◌+◌, ◌*◌, ◌<◌, ◌≤◌, ◌≢◌, ◌++◌, false, [], ◌∷◌, length, replicate, vec_capacity, Some, IfOk, MatchOption, option_to_list};
ghost use Rattle.memory_pool.specs.Giving.{IsGiven, HasTried};
ghost use Rattle.memory_pool.specs.Moves.{try_of};
ghost use Rattle.memory_pool.specs.Passing.{slots_of, IsPassOf, first_pass, apart, second, together, after, IsTaken};
ghost use Rattle.memory_pool.specs.declared.movers.Found.{Found};
ghost use Rattle.memory_pool.specs.declared.movers.Found.TheVariants.{Full};
ghost use Rattle.wasm_store.specs.View.{empty};

use crate::answers::Given;
use crate::berths::Berth;
use crate::movers::Mover;
use crate::rules::{Both, Cut, Ends, Gives, SlotsStand, Takes};
use atomic_table::{Refused, Seat, Table};
use std::alloc::{AllocError, Global};
use std::marker::Model;

// The words of a slot.
const EMPTY: u64 = 0;

const FULL: u64 = 1;

const BUSY: u64 = 2;

/// Berths that all threads with a pass share.
///
/// Contracts see which pool it is, and the pages of its berths. Each slot has one word: a berth is at home, none is, or a pass moves the slot.
#[derive(Drop)]
pub struct Pool {
    table: Table<Option<Berth>, Mover, u32, SlotsStand, Global>,
    pages: u32,
    // For the berths of a pool that is closed.
    room: Vec<Berth>,
}

impl Model for Pool {
    ghost use Rattle.std.specs.Prelude.{◌≡◌, ◌<◌, ◌≤◌, [], vec_capacity};
    ghost use Rattle.memory_pool.specs.Passing.{PoolView};

    ghost Value = { PoolView };

    ghost view = { λ pool. record { id = pool.table.shared.table_id; pages = pool.table.shared.key } };

    ghost invariant = { λ pool. (pool.table.shared.table_id.words ≡ pool.table.shared.table_id.slots) × (0 < pool.table.shared.table_id.words) × (pool.pages ≡ pool.table.shared.key) × (pool.room.items ≡ []) × (pool.table.shared.table_id.slots ≤ vec_capacity pool.room) };
}

/// A thread's handle on a pool. It takes no bytes.
///
/// Contracts see which pool it is for, how many of the pool's 65,536 parts it has, all that its tries of slots found, in order, and how many berths it has taken and given back. Between its calls it moves no slot.
#[derive(Drop)]
pub struct PoolPass {
    seat: Seat<Option<Berth>, Mover>,
}

impl Model for PoolPass {
    ghost use Rattle.std.specs.Prelude.{◌≡◌, ◌<◌, []};
    ghost use Rattle.memory_pool.specs.Passing.{PassView};
    ghost use Rattle.memory_pool.specs.declared.movers.Moving.TheVariants.{Nothing};

    ghost Value = { PassView };

    ghost view = { λ pass. record { id = pass.seat.table_id; pages = pass.seat.me.0.pages; parts = pass.seat.me.0.parts; tries = pass.seat.me.0.tries; taken = pass.seat.me.0.taken; given = pass.seat.me.0.given } };

    ghost invariant = { λ pass. (0 < pass.seat.me.0.parts) × (pass.seat.me.0.moving ≡ Nothing) × (pass.seat.me.1 ≡ []) };
}

impl Pool {
    /// A pool of so many berths of so many pages of 64 KiB, all at home, and its first pass.
    pub fn new(alloc: Global, berths: u32, pages: u32) -> Result<(Pool, PoolPass), AllocError>
        requires some { (1 ≤ berths) × (1 ≤ pages) }
        requires most { berths * pages ≤ 16384 }
        ensures pool { IfOk result (λ made. (made.0.pages ≡ pages) × (slots_of made.0 ≡ berths)) }
        ensures pass { IfOk result (λ made. made.1 ≡ first_pass made.0) }
    {
        let words = vec![in alloc; FULL; berths as usize]?;
        let room = Vec::with_capacity(alloc, berths as usize)?;
        let slots = filled(alloc, berths, pages)?;
        match Table::new(alloc, words.as_slice(), slots, &pages) {
            Ok((table, seat)) => Ok((Pool { table, pages, room }, PoolPass { seat })),
            Err(Refused { slots: _ }) => Err(AllocError),
        }
    }

    /// How many pages each berth of the pool has.
    pub fn pages(&self) -> u32
        ensures { result ≡ self.now.pages }
    {
        self.pages
    }

    /// Takes a berth out of the pool. Each slot is tried once, by one compare and exchange; it takes no memory, and waits for nobody.
    ///
    /// The berth is clean and has the pool's pages, whoever held it before. `None` comes only where this call found no slot full, as the pass then tells.
    pub fn take(&self, pass: &mut PoolPass) -> Option<Berth>
        requires own { IsPassOf self.now pass.old }
        ensures { IsTaken self.now pass.old pass.new result }
    {
        for slot in 0..self.table.slot_count() {
            match self.try_take(pass, slot) {
                Some(berth) => return Some(berth),
                None => {}
            }
        }
        None
    }

    /// Gives a berth of the pool's pages back, into whatever slot is empty. Each slot is tried once, by one compare and exchange; it takes no memory, and waits for nobody.
    ///
    /// `Home` comes only where this call found a slot empty, and `Kept`, with the berth, only where it found none so, as the pass then tells.
    pub fn give(&self, pass: &mut PoolPass, berth: Berth) -> Given
        requires own { IsPassOf self.now pass.old }
        requires pages { berth.pages ≡ self.now.pages }
        ensures { IsGiven self.now pass.old pass.new berth result }
    {
        let mut berth = berth;
        for slot in 0..self.table.slot_count() {
            match self.try_give(pass, slot, berth) {
                Given::Home => return Given::Home,
                Given::Kept(back) => berth = back,
            }
        }
        Given::Kept(berth)
    }

    /// Makes a second pass, which may go to another thread. It has one part of this one's, and has tried nothing.
    pub fn split(&self, pass: &mut PoolPass) -> PoolPass
        requires own { IsPassOf self.now pass.old }
        requires parts { 2 ≤ pass.old.parts }
        ensures left { pass.new ≡ apart pass.old }
        ensures right { result ≡ second pass.old }
    {
        PoolPass {
            seat: self.table.shared.split_seat::<Cut>(&mut pass.seat),
        }
    }

    /// Takes another pass back, with its parts and all that it has done.
    pub fn join(&self, pass: &mut PoolPass, other: PoolPass)
        requires own { IsPassOf self.now pass.old }
        requires other { IsPassOf self.now other }
        ensures { pass.new ≡ together pass.old other }
    {
        let PoolPass { seat } = other;
        self.table.shared.join_seat::<Both>(&mut pass.seat, seat);
    }

    /// Ends a pool: the berths at home, in order of their slots. It takes no memory.
    ///
    /// All other passes were taken back, so no slot is moved. There are as many berths as at the beginning, less those that were taken and with those that were given back; each is clean and has the pool's pages.
    pub fn close(self, pass: PoolPass) -> Vec<Berth>
        requires own { IsPassOf self pass }
        requires all { pass.parts ≡ 65536 }
        ensures count { length result.items + pass.taken ≡ pass.given + slots_of self }
        ensures berths { result.items ≡ replicate (length result.items) (empty self.pages) }
    {
        let Pool {
            table,
            pages: _,
            room,
        } = self;
        let PoolPass { seat } = pass;
        let mut berths = room;
        let mut closed = table.close_with(seat);
        for slot in 0..closed.slot_count() {
            gather(&mut berths, closed.take(slot));
        }
        closed.free();
        berths
    }

    // Takes the berth of one slot, if that is full.
    fn try_take(&self, pass: &mut PoolPass, slot: usize) -> Option<Berth>
        requires own { IsPassOf self.now pass.old }
        requires slot { slot < slots_of self.now }
        ensures { MatchOption result ((f : Found) × (f ≢ Full) × (pass.new ≡ after pass.old (try_of false slot f ∷ []) 0 0)) (λ berth. (berth ≡ empty self.now.pages) × (pass.new ≡ after pass.old (try_of false slot Full ∷ []) 1 0)) }
    {
        let shared = &self.table.shared;
        let found = shared.compare_exchange::<Takes>(&mut pass.seat, slot, FULL, BUSY);
        if found != FULL {
            return None;
        }
        let berth = shared.exchange(&mut pass.seat, slot, None);
        shared.store::<Ends>(&mut pass.seat, slot, EMPTY);
        berth
    }

    // Puts the berth into one slot, if that is empty.
    fn try_give(&self, pass: &mut PoolPass, slot: usize, berth: Berth) -> Given
        requires own { IsPassOf self.now pass.old }
        requires slot { slot < slots_of self.now }
        requires pages { berth.pages ≡ self.now.pages }
        ensures { HasTried pass.old pass.new berth slot result }
    {
        let _pages = berth.pages();
        let shared = &self.table.shared;
        let found = shared.compare_exchange::<Gives>(&mut pass.seat, slot, EMPTY, BUSY);
        if found != EMPTY {
            return Given::Kept(berth);
        }
        match shared.exchange(&mut pass.seat, slot, Some(berth)) {
            None => shared.store::<Ends>(&mut pass.seat, slot, FULL),
            Some(_) => unreachable!(),
        }
        Given::Home
    }
}

// So many berths of so many pages, each in a slot.
fn filled(alloc: Global, berths: u32, pages: u32) -> Result<Vec<Option<Berth>>, AllocError>
    requires { (1 ≤ pages) × (pages ≤ 16384) }
    ensures { IfOk result (λ slots. slots.items ≡ replicate berths (Some (empty pages))) }
{
    let mut slots = Vec::with_capacity(alloc, berths as usize)?;
    for _ in 0..berths {
        slots.push_reserved(Some(Berth::new(alloc, pages)?));
    }
    Ok(slots)
}

// Puts the berth of a slot, if it has one, behind the others.
fn gather(berths: &mut Vec<Berth>, slot: Option<Berth>)
    requires { length berths.old.items < vec_capacity berths.old }
    ensures berths { berths.new.items ≡ berths.old.items ++ option_to_list slot }
    ensures room { vec_capacity berths.new ≡ vec_capacity berths.old }
{
    if let Some(berth) = slot {
        berths.push_reserved(berth);
    }
}
