//! Why no program is answered.
ghost use Rattle.std.specs.Prelude.{◌≡◌};
ghost use Rattle.wasm_instance.specs.declared.faults.LinkFault.TheVariants.{Refused as IsRefused, NoMemory as IsNoMemory};

use std::alloc::{AllocError, AllocFailed};
use wasm_meaning::Unlinked;

/// Why `link` answers no program.
#[derive(Clone, Copy)]
pub enum LinkFault {
    /// The first rule of linking that the module breaks, and the index of the item that breaks it (`wasm_meaning::LinkRule`, whose numbers are 50 to 56).
    Refused(Unlinked),

    /// No memory was left for the tables of the program.
    NoMemory,
}

impl From<Unlinked> for LinkFault {
    ghost from_gives = { λ why result. result ≡ IsRefused why };

    fn from(why: Unlinked) -> Self {
        LinkFault::Refused(why)
    }
}

impl From<AllocError> for LinkFault {
    ghost from_gives = { λ _ result. result ≡ IsNoMemory };

    fn from(_: AllocError) -> Self {
        LinkFault::NoMemory
    }
}

impl<T: Drop> From<AllocFailed<T>> for LinkFault {
    ghost from_gives = { λ _ result. result ≡ IsNoMemory };

    fn from(_: AllocFailed<T>) -> Self {
        LinkFault::NoMemory
    }
}
