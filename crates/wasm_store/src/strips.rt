//! The allocation behind a linear memory.
ghost use Rattle.std.specs.Prelude.{◌≡◌, ◌*◌, ◌<◌, ◌≤◌, length, replicate, IfOk};
ghost use Rattle.wasm_meaning.specs.Bytes.{page, zeros};
ghost use Rattle.wasm_store.specs.Memory.{strip_of};

use crate::extents::Extent;
use std::alloc::{AllocError, Global};
use std::marker::Model;

/// A block of whole pages of its own, given back when the strip is dropped. Contracts see it as the list of its bytes.
///
/// It is not filled when it is made: what was never used counts as zero, and is not touched.
pub struct Strip {
    extent: Extent,
}

impl Drop for Strip {
    fn drop(self) {
        let Strip { extent: _ } = self;
    }
}

impl Model for Strip {
    ghost use Rattle.std.specs.Prelude.{◌*◌, ◌≤◌, ℕ, List, length};
    ghost use Rattle.wasm_meaning.specs.Bytes.{page};
    ghost use Rattle.wasm_store.specs.Memory.{strip_of};

    ghost Value = { List ℕ };

    ghost view = { λ strip. strip_of strip.extent };

    ghost invariant = { λ strip. (length strip.extent.bytes ≤ strip.extent.pages * page) × (strip.extent.pages ≤ 16384) };
}

impl Strip {
    /// So many strips of so many pages each, all zero.
    #[tactic(auto, using(std::proofs::lemmas::List::replicate_more))]
    pub fn carve(alloc: Global, count: u32, pages: u32) -> Result<Vec<Strip>, AllocError>
        requires some { 0 < count }
        requires none_empty { 0 < pages }
        requires most { count * pages ≤ 16384 }
        ensures { IfOk result (λ strips. strips.items ≡ replicate count (zeros (pages * page))) }
    {
        let mut strips = Vec::with_capacity(alloc, count as usize)?;
        for i in 0..count {
            let _ = i;
            strips.push(Strip::blank(alloc, pages)?)?;
        }
        Ok(strips)
    }

    /// One strip of so many pages, all zero.
    pub fn blank(alloc: Global, pages: u32) -> Result<Strip, AllocError>
        requires { pages ≤ 16384 }
        ensures { IfOk result (λ strip. strip ≡ zeros (pages * page)) }
    {
        let extent = Extent::reserve(alloc, pages)?;
        Ok(Strip { extent })
    }

    /// How many pages it has, at most 16,384.
    #[inline(always)]
    pub fn pages(&self) -> u32
        ensures length { length self.now ≡ result * page }
        ensures most { result ≤ 16384 }
    {
        self.extent.pages()
    }

    /// The room that it is.
    pub(crate) fn into_extent(self) -> Extent
        ensures strip { strip_of result ≡ self }
        ensures within { length result.bytes ≤ result.pages * page }
        ensures most { result.pages ≤ 16384 }
    {
        let Strip { extent } = self;
        extent
    }
}
