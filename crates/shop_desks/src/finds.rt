//! Where a desk finds its next job.
ghost use Rattle.std.specs.Prelude.{◌≡◌, None, IfNone};
ghost use Rattle.std.specs.List.{All};
ghost use Rattle.job_board.specs.Boarding as boards;
ghost use Rattle.place_lists.specs.Inboxes as inboxes;
ghost use Rattle.worker_desks.specs.Sharing.{IsEntryOf};
ghost use Rattle.shop_desks.specs.Nexts.{IsBegun, IsResumed};
ghost use Rattle.shop_desks.specs.Shops.{IsVacantBoard};

use crate::own_queues::OwnQueue;
use job_board::{Board, BoardPass, State, Word};
use place_lists::{Inbox, InboxPass};
use posted_jobs::{PostedJob, claim_at};
use run_queues::Entry;
use std::sync::Wait;

// The word of a place whose request has not begun.
const UNBEGUN: Word = Word {
    turns: 0,
    state: State::Waiting,
};

// A job that waits at a place of the inbox, where there is a berth with at least its program's pages.
pub(crate) fn begin<R: Wait>(
    rt: &R,
    board: &Board<PostedJob>,
    pass: &mut BoardPass<PostedJob>,
    inbox: &Inbox,
    inbox_pass: &mut InboxPass,
    berth: Option<u32>,
) -> Option<PostedJob>
    requires own { boards.IsPassOf board.now pass.old }
    requires free { pass.old.held ≡ None }
    requires vacant { IsVacantBoard board.now }
    requires inbox { inboxes.IsPassOf inbox.now inbox_pass.old }
    ensures begun { IsBegun berth inbox_pass.old inbox_pass.new pass.old pass.new result }
    ensures rests { IfNone result (boards.IsPassOf board.now pass.new × (pass.new.held ≡ None)) }
{
    let room = berth?;
    let place = inbox.steal(rt, inbox_pass)?;
    claim_at(board, pass, place, UNBEGUN, room)
}

// Goes through a desk's own queue until a claim gets a job.
pub(crate) fn resume(
    board: &Board<PostedJob>,
    pass: &mut BoardPass<PostedJob>,
    local: &mut OwnQueue,
) -> Option<PostedJob>
    requires own { boards.IsPassOf board.now pass.old }
    requires free { pass.old.held ≡ None }
    requires vacant { IsVacantBoard board.now }
    requires entries { All (IsEntryOf 256) local.old.entries }
    ensures resumed { IsResumed local.old.policy local.old.entries local.new.entries pass.old pass.new result }
    ensures queue { (local.new.policy ≡ local.old.policy) × (local.new.room ≡ local.old.room) }
    ensures rests { IfNone result (boards.IsPassOf board.now pass.new × (pass.new.held ≡ None)) }
{
    'entries: while let Some(entry) = local.next() {
        let Entry { place, turns, .. } = entry;
        let seen = Word {
            turns,
            state: State::Suspended,
        };
        match claim_at(board, pass, place, seen, u32::MAX) {
            Some(job) => return Some(job),
            None => {}
        }
    }
    None
}
