//! The rule of a board's table, and what each step tells its pass.

use crate::holders::{Charter, Holder};
use crate::placed::Placed;
use atomic_table::{Join, Play, Split, TableRule};
use std::marker::PhantomData;

// The board rule.
pub(crate) struct PlacesStand<J> {
    marker: PhantomData<J>,
}

impl<J: Placed> TableRule<Option<J>, Holder<J>, Charter<J>> for PlacesStand<J> {
    ghost use Rattle.std.specs.Prelude.{[], None};
    ghost use Rattle.job_board.specs.Ruled.{Ruled, terms_of, holder};

    ghost holds = { λ charter. Ruled J.place_of J.kind_of J.turns_of (λ quantum first job. J.belongs quantum (J.request_of first) job) (terms_of charter) };

    ghost first = { λ charter. holder 65536 (terms_of charter) None [] };
}

pub(crate) struct Looks;

impl<J> Play<Option<J>, Holder<J>> for Looks {
    ghost use Rattle.job_board.specs.Steps.{looked};

    ghost then = { looked };
}

pub(crate) struct Claims<J> {
    marker: PhantomData<J>,
}

impl<J: Placed> Play<Option<J>, Holder<J>> for Claims<J> {
    ghost use Rattle.job_board.specs.Steps.{claimed};

    ghost then = { claimed J.place_of J.kind_of J.turns_of (λ quantum first job. J.belongs quantum (J.request_of first) job) };
}

pub(crate) struct Fills;

impl<J> Play<Option<J>, Holder<J>> for Fills {
    ghost use Rattle.job_board.specs.Steps.{filled};

    ghost then = { filled };
}

pub(crate) struct Puts;

impl<J> Play<Option<J>, Holder<J>> for Puts {
    ghost use Rattle.job_board.specs.Steps.{put};

    ghost then = { put };
}

pub(crate) struct Cut;

impl<J> Split<Holder<J>> for Cut {
    ghost use Rattle.job_board.specs.Steps.{less_one, one_part};

    ghost left = { less_one };

    ghost right = { one_part };
}

pub(crate) struct Both;

impl<J> Join<Holder<J>> for Both {
    ghost use Rattle.job_board.specs.Ruled.{spent_holder};
    ghost use Rattle.job_board.specs.Steps.{both_noted};

    ghost both = { both_noted };

    ghost spent = { spent_holder };
}
