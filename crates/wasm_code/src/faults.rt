//! Why no body, or no module, is answered.
ghost use Rattle.std.specs.Prelude.{◌≡◌};
ghost use Rattle.wasm_code.specs.declared.faults.CodeFault.TheVariants.{Bytes, NoMemory};

use std::alloc::{AllocError, AllocFailed};
use std::fmt::{self, Display, Formatter, Write};
use wasm_ops::Fault;

/// Why a reader answers nothing. It shows itself as what a maker of modules reads of it.
#[derive(Clone, Copy)]
pub enum CodeFault {
    /// The bytes spell none: the number of the refusal, and its place counted from the first byte.
    ///
    /// Of `read_body` it is one of `CutShort`, `LebTooLong`, `LebSpare`, and those of `Refusal` from `FloatOperator` to `RestAfterEnd`.
    Bytes(Fault),

    /// No memory was left for the answer.
    NoMemory,
}

/// The refusal as `Fault` tells it, or that memory ran out.
impl Display for CodeFault {
    fn fmt<W: Write>(&self, f: &mut Formatter<W>) -> fmt::Result {
        match self {
            CodeFault::Bytes(fault) => write!(f, "{fault}"),
            CodeFault::NoMemory => f.write_str("out of memory"),
        }
    }
}

impl From<Fault> for CodeFault {
    ghost from_gives = { λ fault result. result ≡ Bytes fault };

    fn from(fault: Fault) -> Self {
        CodeFault::Bytes(fault)
    }
}

impl From<AllocError> for CodeFault {
    ghost from_gives = { λ _ result. result ≡ NoMemory };

    fn from(_: AllocError) -> Self {
        CodeFault::NoMemory
    }
}

impl<T: Drop> From<AllocFailed<T>> for CodeFault {
    ghost from_gives = { λ _ result. result ≡ NoMemory };

    fn from(_: AllocFailed<T>) -> Self {
        CodeFault::NoMemory
    }
}
