//! The two lists of places that a server's sessions and workers share: the inbox, in which a session tells workers where it put a request, and the queue of the places that are vacant.
//!
//! Promised, between any two atomic steps of any threads: each number in either list is a place of the board, so that one that comes out is in range with no test. In the inbox each number is as often as it was pushed and not stolen (`specs/Handing.antt`). Each place is vacant in the queue or out with exactly one pass (`specs/Keeping.antt`): none is given back twice, and there is always room for one that is given back.
//! It stands on `view_totals`, and on `crossbeam_queue`, `crossbeam_deque` and `crossbeam_utils` of the kit. Calls may wait for other threads.
#![tactic(auto)]

mod inboxes;
mod keepers;
mod rules;
mod vacancies;

pub use inboxes::{Inbox, InboxPass};
pub use vacancies::{Vacancies, VacancyPass};
