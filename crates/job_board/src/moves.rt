//! Claims, and what puts a job back.
ghost use Rattle.std.specs.Prelude.{◌≡◌, ℕ, ◌<◌, ◌≤◌, ◌≢◌, ◌^◌, true, false, None};
ghost use Rattle.job_board.specs.Boarding.{places_of, IsPassOf, HoldsPlace, putting, noting};
ghost use Rattle.job_board.specs.Claiming.{IsClaim, IsFill, IsVacated, MayPut};
ghost use Rattle.job_board.specs.Ruled.{Fits, Belongs};
ghost use Rattle.job_board.specs.Ruled.{Belongs};
ghost use Rattle.job_board.specs.Words.{IsResting, resting, word};

use crate::boards::{Board, BoardPass};
use crate::placed::Placed;
use crate::rules::{Claims, Fills, Puts};
use crate::words::{Kind, State, Word};

/// What a claim gives.
#[derive(Drop)]
pub enum Claim<J> {
    /// The job of the place, which the pass now holds.
    Got(J),
    /// The word that the step found in place of the one asked for. Nothing has changed.
    Other(Word),
}

/// What a fill gives.
#[derive(Drop)]
pub enum Fill<J> {
    /// The job stands at the place.
    Filled,
    /// The job, and the word that the step found: the place is not vacant.
    Other(J, Word),
}

impl<J: Placed> Board<J> {
    /// Takes the job of a place whose word is `seen`, by one compare and exchange. It takes no memory, and waits for nobody.
    ///
    /// With `Got` the job is of that place, kind and turns, and on a board that was made of jobs it belongs to the request of its place. The pass then holds the place, until a put. `Other` comes only where the word at this step was another one, which is noted as in `look`.
    pub fn claim(&self, pass: &mut BoardPass<J>, place: u32, seen: Word) -> Claim<J>
        requires own { IsPassOf self.now pass.old }
        requires place { place < places_of self.now }
        requires free { pass.old.held ≡ None }
        requires rests { IsResting seen.state }
        requires few { seen.turns < 2 ^ 61 }
        ensures { IsClaim J.place_of J.kind_of J.turns_of (λ quantum first job. J.belongs quantum (J.request_of first) job) pass.old pass.new place seen result }
    {
        let at = place as usize;
        let asked = seen.code();
        let laid = seen.held().code();
        let shared = &self.table.shared;
        let found = shared.compare_exchange::<Claims<J>>(&mut pass.seat, at, asked, laid);
        if found == asked {
            match shared.exchange(&mut pass.seat, at, None) {
                Some(job) => Claim::Got(job),
                None => unreachable!(),
            }
        } else {
            Claim::Other(Word::of(found))
        }
    }

    // Puts a job into the place that the pass holds, and stores the word of this kind and of the job's turns.
    fn put(&self, pass: &mut BoardPass<J>, place: u32, job: J, kind: Kind)
        requires own { IsPassOf self.now pass.old }
        requires place { place < places_of self.now }
        requires kind { J.kind_of job ≡ kind }
        requires held { HoldsPlace pass.old.held place (MayPut J.place_of J.kind_of J.turns_of (λ quantum first job. J.belongs quantum (J.request_of first) job) pass.old.terms place job) }
        ensures { pass.new ≡ putting pass.old place (word (J.turns_of job) (resting kind)) }
    {
        let at = place as usize;
        let word = Word {
            turns: job.turns(),
            state: kind.at_rest(),
        };
        let shared = &self.table.shared;
        let _empty = shared.exchange(&mut pass.seat, at, Some(job));
        shared.store::<Puts>(&mut pass.seat, at, word.code());
    }

    /// Puts back a job that has not begun. The pass found it so, and no longer holds the place.
    pub fn put_waiting(&self, pass: &mut BoardPass<J>, place: u32, job: J)
        requires own { IsPassOf self.now pass.old }
        requires place { place < places_of self.now }
        requires kind { J.kind_of job ≡ Kind.Waiting }
        requires held { HoldsPlace pass.old.held place (λ found. (found.state ≡ State.Waiting) × (found.turns ≤ J.turns_of job)) }
        requires job { (J.place_of job ≡ place) × (J.turns_of job ≡ 0) }
        requires belongs { Belongs J.place_of J.kind_of J.turns_of (λ quantum first job. J.belongs quantum (J.request_of first) job) pass.old.terms place job }
        ensures { pass.new ≡ putting pass.old place (word (J.turns_of job) State.Waiting) }
    {
        self.put(pass, place, job, Kind::Waiting);
    }

    /// Puts back a job that was stopped. It has at least the turns that were found, and was not found over; the pass no longer holds the place.
    pub fn put_suspended(&self, pass: &mut BoardPass<J>, place: u32, job: J)
        requires own { IsPassOf self.now pass.old }
        requires place { place < places_of self.now }
        requires kind { J.kind_of job ≡ Kind.Suspended }
        requires held { HoldsPlace pass.old.held place (λ found. (found.state ≢ State.Answered) × (found.turns ≤ J.turns_of job)) }
        requires job { J.place_of job ≡ place }
        requires belongs { Belongs J.place_of J.kind_of J.turns_of (λ quantum first job. J.belongs quantum (J.request_of first) job) pass.old.terms place job }
        ensures { pass.new ≡ putting pass.old place (word (J.turns_of job) State.Suspended) }
    {
        self.put(pass, place, job, Kind::Suspended);
    }

    /// Puts back a job that is over. It has at least the turns that were found; the pass no longer holds the place.
    pub fn put_answered(&self, pass: &mut BoardPass<J>, place: u32, job: J)
        requires own { IsPassOf self.now pass.old }
        requires place { place < places_of self.now }
        requires kind { J.kind_of job ≡ Kind.Answered }
        requires held { HoldsPlace pass.old.held place (λ found. found.turns ≤ J.turns_of job) }
        requires job { J.place_of job ≡ place }
        requires belongs { Belongs J.place_of J.kind_of J.turns_of (λ quantum first job. J.belongs quantum (J.request_of first) job) pass.old.terms place job }
        ensures { pass.new ≡ putting pass.old place (word (J.turns_of job) State.Answered) }
    {
        self.put(pass, place, job, Kind::Answered);
    }

    /// Puts a job that waits at a vacant place, by one compare and exchange and a put. It takes no memory, and waits for nobody.
    ///
    /// `Other` comes only where the word at this step told that the place is not vacant; the pass has noted it. After `Filled` the pass holds nothing, and has noted the word that it stored.
    pub fn fill(&self, pass: &mut BoardPass<J>, place: u32, job: J) -> Fill<J>
        requires own { IsPassOf self.now pass.old }
        requires place { place < places_of self.now }
        requires free { pass.old.held ≡ None }
        requires open_board { pass.old.terms.fixed ≡ false }
        requires job { (J.place_of job ≡ place) × (J.kind_of job ≡ Kind.Waiting) × (J.turns_of job ≡ 0) }
        ensures { IsFill pass.old pass.new place job result }
    {
        let shared = &self.table.shared;
        let found = shared.compare_exchange::<Fills>(&mut pass.seat, place as usize, 0, 4);
        if found != 0 {
            return Fill::Other(job, Word::of(found));
        }
        self.put(pass, place, job, Kind::Waiting);
        Fill::Filled
    }

    /// Takes the job of a place that is over, and leaves the place vacant: a claim, and then one store. It takes no memory, and waits for nobody.
    ///
    /// After `Got` the pass holds nothing, and has noted the vacant word that it stored. `Other` comes as in `claim`.
    pub fn vacate(&self, pass: &mut BoardPass<J>, place: u32, seen: Word) -> Claim<J>
        requires own { IsPassOf self.now pass.old }
        requires place { place < places_of self.now }
        requires free { pass.old.held ≡ None }
        requires open_board { pass.old.terms.fixed ≡ false }
        requires answered { seen.state ≡ State.Answered }
        requires few { seen.turns < 2 ^ 61 }
        ensures { IsVacated J.place_of J.kind_of J.turns_of (λ quantum first job. J.belongs quantum (J.request_of first) job) pass.old pass.new place seen result }
    {
        match self.claim(pass, place, seen) {
            Claim::Got(job) => {
                self.leave(pass, place);
                Claim::Got(job)
            }
            Claim::Other(word) => Claim::Other(word),
        }
    }

    // Leaves the place that the pass holds vacant.
    fn leave(&self, pass: &mut BoardPass<J>, place: u32)
        requires own { IsPassOf self.now pass.old }
        requires place { place < places_of self.now }
        requires open_board { pass.old.terms.fixed ≡ false }
        requires held { HoldsPlace pass.old.held place (λ found. Unit {0}) }
        ensures { pass.new ≡ putting pass.old place (word 0 State.Vacant) }
    {
        self.table
            .shared
            .store::<Puts>(&mut pass.seat, place as usize, 0);
    }
}
