//! The rule of a pool's table, and what each step tells its pass.

use crate::berths::Berth;
use crate::movers::Mover;
use atomic_table::{Join, Play, Split, TableRule};

// The pool rule. Its key is the pages of the pool.
pub(crate) struct SlotsStand;

impl TableRule<Option<Berth>, Mover, u32> for SlotsStand {
    ghost use Rattle.memory_pool.specs.Pooling.{Pooled, first_mover};

    ghost holds = { Pooled };

    ghost first = { first_mover };
}

pub(crate) struct Takes;

impl Play<Option<Berth>, Mover> for Takes {
    ghost use Rattle.memory_pool.specs.Moves.{took};

    ghost then = { took };
}

pub(crate) struct Gives;

impl Play<Option<Berth>, Mover> for Gives {
    ghost use Rattle.memory_pool.specs.Moves.{gave};

    ghost then = { gave };
}

pub(crate) struct Ends;

impl Play<Option<Berth>, Mover> for Ends {
    ghost use Rattle.memory_pool.specs.Moves.{ended};

    ghost then = { ended };
}

pub(crate) struct Cut;

impl Split<Mover> for Cut {
    ghost use Rattle.memory_pool.specs.Moves.{less_one, one_part};

    ghost left = { less_one };

    ghost right = { one_part };
}

pub(crate) struct Both;

impl Join<Mover> for Both {
    ghost use Rattle.memory_pool.specs.Moves.{both_moved};
    ghost use Rattle.memory_pool.specs.Pooling.{spent_mover};

    ghost both = { both_moved };

    ghost spent = { spent_mover };
}
