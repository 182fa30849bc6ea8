//! Why no recording is answered.
ghost use Rattle.std.specs.Prelude.{◌≡◌};
ghost use Rattle.recording_format.specs.Refusals.{number_of};
ghost use Rattle.recording_format.specs.declared.faults.RecordingFault.TheVariants.{Refused, NoMemory};

use crate::refusals::Refusal;
use std::alloc::{AllocError, AllocFailed};

/// Why a recording is not answered.
#[derive(Clone, Copy, Debug, PartialEq, Eq)]
pub enum RecordingFault {
    /// The bytes are refused, with the number of a `Refusal`.
    Refused(u8),

    /// No memory was left for the answer.
    NoMemory,
}

impl From<Refusal> for RecordingFault {
    ghost from_gives = { λ refusal result. result ≡ Refused (number_of refusal) };

    fn from(refusal: Refusal) -> Self {
        RecordingFault::Refused(refusal.number())
    }
}

impl From<AllocError> for RecordingFault {
    ghost from_gives = { λ _ result. result ≡ NoMemory };

    fn from(_: AllocError) -> Self {
        RecordingFault::NoMemory
    }
}

impl<T: Drop> From<AllocFailed<T>> for RecordingFault {
    ghost from_gives = { λ _ result. result ≡ NoMemory };

    fn from(_: AllocFailed<T>) -> Self {
        RecordingFault::NoMemory
    }
}
