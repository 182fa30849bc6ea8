//! Why a body is not typed.
ghost use Rattle.std.specs.Prelude.{◌≡◌};
ghost use Rattle.wasm_typing.specs.declared.faults.BodyFault.TheVariants.{Breaks, NoMemory as IsNoMemory};

use std::alloc::{AllocError, AllocFailed};
use wasm_meaning::Violation;

/// Why `type_body` answers no measure.
#[derive(Clone, Copy)]
pub enum BodyFault {
    /// The first rule that the body breaks, and the place of the operator.
    Breaks(Violation),

    /// No memory was left for the stacks.
    NoMemory,
}

impl From<Violation> for BodyFault {
    ghost from_gives = { λ violation result. result ≡ Breaks violation };

    fn from(violation: Violation) -> Self {
        BodyFault::Breaks(violation)
    }
}

impl From<AllocError> for BodyFault {
    ghost from_gives = { λ _ result. result ≡ IsNoMemory };

    fn from(_: AllocError) -> Self {
        BodyFault::NoMemory
    }
}

impl<T: Drop> From<AllocFailed<T>> for BodyFault {
    ghost from_gives = { λ _ result. result ≡ IsNoMemory };

    fn from(_: AllocFailed<T>) -> Self {
        BodyFault::NoMemory
    }
}
