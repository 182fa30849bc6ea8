//! Boards are made and closed.
ghost use Rattle.std.specs.Prelude.{◌≡◌, ℕ, ◌+◌, ◌*◌, ◌<◌, ◌≤◌, ◌^◌, ◌++◌, true, false, [], ◌∷◌, map, replicate, length, slice_get, vec_capacity, Some, None, IfOk, IsSome};
ghost use Rattle.job_board.specs.Boarding.{terms, places_of, IsPassOf, first_pass};
ghost use Rattle.job_board.specs.Ends.{AreUnbegun, IsLeft};

use crate::boards::{Board, BoardPass};
use crate::holders::Charter;
use crate::placed::Placed;
use atomic_table::{Refused, Table};
use std::alloc::{AllocError, Global};
use std::snapshot::Snapshot;

impl<J: Placed> Board<J> {
    /// A board of these jobs, which have not begun, and its first pass. It drops the jobs where memory runs out.
    ///
    /// The requests of these jobs and the quantum of their turns never change: whatever stands at a place later belongs to the request of the first job there.
    pub fn new(
        alloc: Global,
        jobs: Vec<J>,
        quantum: u64,
    ) -> Result<(Board<J>, BoardPass<J>), AllocError>
        requires some { 1 ≤ length jobs.items }
        requires most { length jobs.items ≤ 2 ^ 31 }
        requires quantum { 1 ≤ quantum }
        requires jobs { AreUnbegun J.place_of J.kind_of J.turns_of jobs.items }
        ensures board { IfOk result (λ made. (made.0.terms ≡ terms true quantum jobs.items) × (places_of made.0 ≡ length jobs.items)) }
        ensures pass { IfOk result (λ made. made.1 ≡ first_pass made.0) }
    {
        let words = vec![in alloc; 1; jobs.len()]?;
        let room = Vec::with_capacity(alloc, jobs.len())?;
        let charter = Charter {
            fixed: true,
            quantum,
            jobs: Snapshot::of(&jobs),
        };
        let slots = slots_of(alloc, jobs)?;
        match Table::new(alloc, words.as_slice(), slots, &charter) {
            Ok((table, seat)) => Ok((Board { table, room }, BoardPass { seat })),
            Err(Refused { slots: _ }) => Err(AllocError),
        }
    }

    /// A board of so many vacant places, and its first pass. Jobs are put there by `fill`, and each keeps its own request.
    pub fn vacant(alloc: Global, places: u32) -> Result<(Board<J>, BoardPass<J>), AllocError>
        requires { 1 ≤ places }
        ensures board { IfOk result (λ made. (made.0.terms ≡ terms false 0 []) × (places_of made.0 ≡ places)) }
        ensures pass { IfOk result (λ made. made.1 ≡ first_pass made.0) }
    {
        let words = vec![in alloc; 0; places as usize]?;
        let room = Vec::new(alloc);
        let charter = Charter {
            fixed: false,
            quantum: 0,
            jobs: Snapshot::of(&room),
        };
        let (table, seat) = Table::vacant(alloc, words.as_slice(), places as usize, &charter)?;
        Ok((Board { table, room }, BoardPass { seat }))
    }

    /// Ends a board that was made of jobs: all jobs, in order of their places. It takes no memory.
    ///
    /// All other passes were taken back, and this one holds nothing. Each job belongs to the request of its place, and is no less far than what was noted of it.
    pub fn close(self, pass: BoardPass<J>) -> Vec<J>
        requires own { IsPassOf self pass }
        requires all { pass.parts ≡ 65536 }
        requires free { pass.held ≡ None }
        requires made_of_jobs { self.terms.fixed ≡ true }
        ensures count { length result.items ≡ places_of self }
        ensures jobs { (place : ℕ) (job : J) → slice_get result.items place ≡ Some job → IsLeft J.place_of J.kind_of J.turns_of (λ quantum first job. J.belongs quantum (J.request_of first) job) self.terms pass.notes place job }
    {
        let Board { table, room } = self;
        let BoardPass { seat } = pass;
        let mut jobs = room;
        let mut closed = table.close_with(seat);
        for slot in 0..closed.slot_count() {
            gather(&mut jobs, closed.take(slot));
        }
        closed.free();
        jobs
    }
}

// The jobs, each in a slot.
fn slots_of<J: Drop>(alloc: Global, jobs: Vec<J>) -> Result<Vec<Option<J>>, AllocError>
    ensures { IfOk result (λ slots. slots.items ≡ map Some jobs.items) }
{
    jobs.into_iter().map(Some).collect(alloc)
}

// Puts the job of a slot behind the others.
fn gather<J: Drop>(jobs: &mut Vec<J>, slot: Option<J>)
    requires some { IsSome slot }
    requires room { length jobs.old.items < vec_capacity jobs.old }
    ensures jobs { map Some jobs.new.items ≡ map Some jobs.old.items ++ slot ∷ [] }
    ensures room { vec_capacity jobs.new ≡ vec_capacity jobs.old }
{
    match slot {
        Some(job) => jobs.push_reserved(job),
        None => unreachable!(),
    }
}
