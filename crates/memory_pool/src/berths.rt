//! One place for a sandbox.
ghost use Rattle.std.specs.Prelude.{◌≡◌, ◌*◌, ◌≤◌, IfOk};
ghost use Rattle.wasm_meaning.specs.Bytes.{page, zeros};
ghost use Rattle.wasm_store.specs.View.{IsClean, empty};

use std::alloc::{AllocError, Global};
use std::marker::Model;
use wasm_store::{Strip, Vessel};

/// A clean vessel. It cannot be cloned.
pub struct Berth {
    vessel: Vessel,
}

impl Drop for Berth {
    fn drop(self) {
        let Berth { vessel: _ } = self;
    }
}

impl Model for Berth {
    ghost use Rattle.wasm_store.specs.View.{IsClean, View};

    ghost Value = { View };

    ghost view = { λ berth. berth.vessel };

    ghost invariant = { λ berth. IsClean berth.vessel };
}

impl Berth {
    /// A berth of so many pages of 64 KiB, 1 to 16,384.
    pub fn new(alloc: Global, pages: u32) -> Result<Berth, AllocError>
        requires some { 1 ≤ pages }
        requires most { pages ≤ 16384 }
        ensures { IfOk result (λ berth. berth ≡ empty pages) }
    {
        let strip = Strip::blank(alloc, pages)?;
        match Vessel::new(alloc, strip) {
            Ok(vessel) => Ok(Berth { vessel }),
            Err((_, fault)) => Err(fault),
        }
    }

    /// How many pages its vessel has, the most that a memory in it may have.
    pub fn pages(&self) -> u32
        ensures pages { result ≡ self.now.pages }
        ensures most { result ≤ 16384 }
        ensures clean { IsClean self.now }
    {
        self.vessel.pages()
    }

    /// The vessel, which is clean.
    pub fn into_vessel(self) -> Vessel
        ensures vessel { result ≡ self }
        ensures clean { IsClean result }
    {
        let Berth { vessel } = self;
        vessel
    }

    /// A berth of this vessel.
    pub fn from_vessel(vessel: Vessel) -> Berth
        requires { IsClean vessel }
        ensures { result ≡ vessel }
    {
        Berth { vessel }
    }
}
