//! Why no programs are answered.
ghost use Rattle.std.specs.Prelude.{◌≡◌};
ghost use Rattle.serve_config.specs.declared.load_faults.LoadFault.TheVariants.{NoMemory as IsNoMemory};

use std::alloc::{AllocError, AllocFailed};

/// Why the programs of a configuration are not answered. Routes are told by their numbers through all tenants.
#[derive(Clone, Copy, Debug, PartialEq, Eq)]
pub enum LoadFault {
    /// The file of the route's module could not be read, or there is none.
    Read {
        /// The route's number.
        route: u32,
    },

    /// The file is no module (1 to 24), breaks a rule (30 to 43) or is not linked (50 to 56).
    Module {
        /// The route's number.
        route: u32,

        /// The number of the refusal.
        number: u8,

        /// Its place in the file, or the index of the item that breaks the rule.
        place: u32,
    },

    /// No memory was left for the programs.
    NoMemory,
}

impl From<AllocError> for LoadFault {
    ghost from_gives = { λ _ result. result ≡ IsNoMemory };

    fn from(_: AllocError) -> Self {
        LoadFault::NoMemory
    }
}

impl<T: Drop> From<AllocFailed<T>> for LoadFault {
    ghost from_gives = { λ _ result. result ≡ IsNoMemory };

    fn from(_: AllocFailed<T>) -> Self {
        LoadFault::NoMemory
    }
}
