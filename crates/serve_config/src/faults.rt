//! Why no configuration is answered.
ghost use Rattle.std.specs.Prelude.{◌≡◌};
ghost use Rattle.serve_config.specs.Refusals.{number_of};
ghost use Rattle.serve_config.specs.declared.faults.ConfigFault.TheVariants.{Refused as IsNumbered, NoMemory as NoMemoryLeft};
ghost use Rattle.serve_config.specs.declared.faults.Stop.TheVariants.{Refused, NoMemory};

use crate::refusals::Refusal;
use std::alloc::{AllocError, AllocFailed};

/// Why a configuration is not answered.
#[derive(Clone, Copy, Debug, PartialEq, Eq)]
pub enum ConfigFault {
    /// The bytes are refused, with the number of a `Refusal`.
    Refused(u8),

    /// No memory was left for the answer.
    NoMemory,
}

impl From<Refusal> for ConfigFault {
    ghost from_gives = { λ refusal result. result ≡ IsNumbered (number_of refusal) };

    fn from(refusal: Refusal) -> Self {
        ConfigFault::Refused(refusal.number())
    }
}

/// Why the reading of a configuration stops.
#[derive(Clone, Copy, Debug, PartialEq, Eq)]
pub(crate) enum Stop {
    /// What was read is refused.
    Refused(Refusal),

    /// No memory was left.
    NoMemory,
}

impl From<Refusal> for Stop {
    ghost from_gives = { λ refusal result. result ≡ Refused refusal };

    fn from(refusal: Refusal) -> Self {
        Stop::Refused(refusal)
    }
}

impl From<AllocError> for Stop {
    ghost from_gives = { λ _ result. result ≡ NoMemory };

    fn from(_: AllocError) -> Self {
        Stop::NoMemory
    }
}

impl<T: Drop> From<AllocFailed<T>> for Stop {
    ghost from_gives = { λ _ result. result ≡ NoMemory };

    fn from(_: AllocFailed<T>) -> Self {
        Stop::NoMemory
    }
}
