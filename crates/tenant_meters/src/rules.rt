//! The rule of a meter's cell, and what each step tells its pass.

use crate::callers::Caller;
use crate::charges::Charge;
use atomic_table::Split;
use crossbeam_utils::rule::{Outcome, Protocol};

// The meter rule.
pub(crate) struct InOneOrder;

impl Protocol<Charge, Caller> for InOneOrder {
    ghost use Rattle.tenant_meters.specs.Ruled.{Ruled, newcomer};

    ghost holds = { Ruled };

    ghost first = { newcomer };
}

// The maker lays the terms down, before there is another pass.
pub(crate) struct Opens;

impl Outcome<Charge, Caller> for Opens {
    ghost use Rattle.tenant_meters.specs.Steps.{opened};

    ghost then = { opened };
}

// The cell is read.
pub(crate) struct Looks;

impl Outcome<Charge, Caller> for Looks {
    ghost use Rattle.tenant_meters.specs.Steps.{looked};

    ghost then = { looked };
}

// The cell is exchanged for what it holds behind a call, or read where another call came between.
pub(crate) struct Asks;

impl Outcome<Charge, Caller> for Asks {
    ghost use Rattle.tenant_meters.specs.Steps.{asked};

    ghost then = { asked };
}

// A second pass has seen as much, and has made no call.
pub(crate) struct Tells;

impl Split<Caller> for Tells {
    ghost use Rattle.tenant_meters.specs.Steps.{same, told};

    ghost left = { same };

    ghost right = { told };
}
