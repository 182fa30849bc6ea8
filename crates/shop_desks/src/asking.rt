//! What a session asks of a shop: to be let in, and to be answered.
ghost use Rattle.std.specs.Prelude.{◌≡◌, ◌<◌, ◌≤◌, ◌^◌, length, None, Some, IfOk, IfSome};
ghost use Rattle.std.specs.Arc.{arc_value};
ghost use Rattle.job_board.specs.Boarding as boards;
ghost use Rattle.place_lists.specs.Inboxes as inboxes;
ghost use Rattle.place_lists.specs.Places.{IsPlace};
ghost use Rattle.sandbox_states.specs.Views.{told};
ghost use Rattle.wasm_meaning.specs.Requests as due;
ghost use Rattle.shop_desks.specs.Asking.{AsksOnce, IsKnownOf, KeepsOthers};
ghost use Rattle.shop_desks.specs.Shops.{IsVacantBoard, IsVisitOf};

use crate::shops::Shop;
use crate::visits::Visit;
use admission::Admission;
use crossbeam_utils::sync::EventCount;
use job_board::{Board, BoardPass, Fill};
use place_lists::InboxPass;
use posted_jobs::{Collected, KeptRequest, PostedJob, collect};
use sandbox_states::Verdict;
use std::alloc::{AllocError, Global};
use std::sync::{Arc, Wait};

impl Shop {
    /// Asks a tenant's meter to let in a request of this estimate, in units, at this moment, in milliseconds, and waits until it is answered.
    ///
    /// The visit has this one call more of this tenant's meter, and of no other one.
    pub fn ask<R: Wait>(
        &self,
        rt: &R,
        visit: &mut Visit,
        tenant: usize,
        moment: u64,
        estimate: u64,
    ) -> Admission
        requires own { IsVisitOf self.now visit.old }
        requires tenant { tenant < length self.now.meters }
        requires few { estimate ≤ 2 ^ 40 }
        ensures own { IsVisitOf self.now visit.new }
        ensures call { AsksOnce self.now.meters visit.old.meter_visit visit.new.meter_visit tenant moment estimate result }
        ensures others { visit.new ≡ record visit.old { meter_visit = visit.new.meter_visit } }
    {
        self.meters
            .ask(rt, &mut visit.meter_visit, tenant, moment, estimate)
    }

    /// Has a request run by the shop's workers, and sleeps until it is answered: the verdict is the request's, whoever ran it, and in however many turns.
    ///
    /// It waits for a vacant place, puts the request there with its deadline in milliseconds, wakes the workers, and takes the answer out. Where the answer is another request's it begins again. Want of memory comes before anything is put at a place, for the copy of the body that the job has.
    pub fn answer<R: Wait>(
        &self,
        rt: &R,
        alloc: Global,
        visit: &mut Visit,
        request: &Arc<KeptRequest>,
        deadline: u64,
    ) -> Result<Verdict, AllocError>
        requires own { IsVisitOf self.now visit.old }
        ensures own { IsVisitOf self.now visit.new }
        ensures verdict { IfOk result (λ given. due.verdict (arc_value request.now) ≡ Some (told given)) }
        ensures others { KeepsOthers visit.old visit.new }
    {
        for _ in rt.forever() {
            if let Some(verdict) = self.try_answer(rt, alloc, visit, request, deadline)? {
                return Ok(verdict);
            }
        }
        unreachable!()
    }

    // One place for a request, until what was put there is over. None where the answer was another request's, or the place was not vacant.
    fn try_answer<R: Wait>(
        &self,
        rt: &R,
        alloc: Global,
        visit: &mut Visit,
        request: &Arc<KeptRequest>,
        deadline: u64,
    ) -> Result<Option<Verdict>, AllocError>
        requires own { IsVisitOf self.now visit.old }
        ensures own { IsVisitOf self.now visit.new }
        ensures verdict { IfOk result (λ found. IfSome found (λ given. due.verdict (arc_value request.now) ≡ Some (told given))) }
        ensures others { KeepsOthers visit.old visit.new }
    {
        let place = self.vacancies.take(rt, &mut visit.vacancy_pass);
        let answer = self.answer_at(
            rt,
            alloc,
            &mut visit.board_pass,
            &mut visit.inbox_pass,
            place,
            request,
            deadline,
        );
        self.vacancies.give(rt, &mut visit.vacancy_pass, place);
        answer
    }

    // Puts a request at a place, and waits for its answer.
    fn answer_at<R: Wait>(
        &self,
        rt: &R,
        alloc: Global,
        pass: &mut BoardPass<PostedJob>,
        inbox_pass: &mut InboxPass,
        place: u32,
        request: &Arc<KeptRequest>,
        deadline: u64,
    ) -> Result<Option<Verdict>, AllocError>
        requires board { boards.IsPassOf self.now.board pass.old × (pass.old.held ≡ None) }
        requires inbox { inboxes.IsPassOf self.now.inbox inbox_pass.old }
        requires place { IsPlace place }
        ensures board { boards.IsPassOf self.now.board pass.new × (pass.new.held ≡ None) × (pass.new.parts ≡ pass.old.parts) }
        ensures inbox { inboxes.IsPassOf self.now.inbox inbox_pass.new }
        ensures verdict { IfOk result (λ found. IfSome found (λ given. due.verdict (arc_value request.now) ≡ Some (told given))) }
    {
        let job = PostedJob::new(alloc, Arc::try_clone(request)?, place, deadline)?;
        if let Fill::Other(_, _) = self.board.fill(pass, place, job) {
            return Ok(None);
        }
        // The workers look at each place too, so one that the inbox has no memory for is found.
        let _pushed = self.inbox.push(rt, inbox_pass, place);
        self.posted.notify_all();
        let event = &self.answered[place as usize];
        Ok(awaited(rt, &self.board, event, pass, place, &**request))
    }
}

// What was put at a place, as soon as it is over; the place is vacant then. None where it is another request's. Between two looks it sleeps until it is told that the place is answered.
fn awaited<R: Wait>(
    rt: &R,
    board: &Board<PostedJob>,
    event: &EventCount,
    pass: &mut BoardPass<PostedJob>,
    place: u32,
    request: &KeptRequest,
) -> Option<Verdict>
    requires own { boards.IsPassOf board.now pass.old × (pass.old.held ≡ None) }
    requires vacant { IsVacantBoard board.now }
    requires place { IsPlace place }
    ensures own { boards.IsPassOf board.now pass.new × (pass.new.held ≡ None) × (pass.new.parts ≡ pass.old.parts) }
    ensures verdict { IfSome result (λ given. due.verdict request.now ≡ Some (told given)) }
{
    for _ in rt.forever() {
        let key = event.prepare_wait();
        match collect(board, pass, place, request) {
            Collected::Answered(verdict) => {
                drop(key);
                return Some(verdict);
            }
            Collected::Another => {
                drop(key);
                return None;
            }
            Collected::NotOver(_) => key.wait(rt),
        }
    }
    unreachable!()
}

impl Visit {
    /// Tells what its type keeps of a tenant's pass: what was seen of the meter is legal, and has just this visit's own calls of those with its number.
    pub fn told(&self, tenant: usize)
        requires { tenant < length self.now.meter_visit }
        ensures { IsKnownOf self.now.meter_visit tenant }
    {
        self.meter_visit.told(tenant);
    }
}
