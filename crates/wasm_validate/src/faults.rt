//! Why no valid module is answered.
ghost use Rattle.std.specs.Prelude.{◌≡◌};
ghost use Rattle.wasm_validate.specs.declared.faults.ValidFault.TheVariants.{Rule as IsRule, NoMemory as IsNoMemory};

use std::alloc::{AllocError, AllocFailed};
use wasm_meaning::Broken;

/// Why `validate` answers no valid module.
#[derive(Clone, Copy)]
pub enum ValidFault {
    /// The first rule that the module breaks, by its number: 30 to 43 (`wasm_meaning::Rule`).
    Rule(Broken),

    /// No memory was left for the answer.
    NoMemory,
}

impl From<Broken> for ValidFault {
    ghost from_gives = { λ broken result. result ≡ IsRule broken };

    fn from(broken: Broken) -> Self {
        ValidFault::Rule(broken)
    }
}

impl From<AllocError> for ValidFault {
    ghost from_gives = { λ _ result. result ≡ IsNoMemory };

    fn from(_: AllocError) -> Self {
        ValidFault::NoMemory
    }
}

impl<T: Drop> From<AllocFailed<T>> for ValidFault {
    ghost from_gives = { λ _ result. result ≡ IsNoMemory };

    fn from(_: AllocFailed<T>) -> Self {
        ValidFault::NoMemory
    }
}
