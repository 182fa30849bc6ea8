//! Lists whose room is taken once.
ghost use Rattle.std.specs.Prelude.{◌≡◌, ℕ, ◌+◌, ◌^◌, ◌<◌, ◌≤◌, [], ◌∷◌, ◌++◌, length, take, replicate, slice_get, slice_set, Some, IfOk};

use std::alloc::{AllocError, Global};
use std::marker::Model;

/// Items in order, with room for a fixed number of them. Contracts see the list of its items.
///
/// The room is taken when the list is made, and no part of it is touched before an item stands there.
pub struct Reserved<T: Drop, const ROOM: usize> {
    items: Vec<T>,
}

impl<T: Drop, const ROOM: usize> Drop for Reserved<T, ROOM> {
    fn drop(self) {
        let Reserved { items: _ } = self;
    }
}

impl<T: Drop, const ROOM: usize> Model for Reserved<T, ROOM> {
    ghost use Rattle.std.specs.Prelude.{◌^◌, ◌<◌, ◌≤◌, List, length, vec_capacity};

    ghost Value = { List T };

    ghost view = { λ list. list.items.items };

    ghost invariant = { λ list. (length list.items.items ≤ ROOM) × (ROOM ≤ vec_capacity list.items) × (ROOM < 2 ^ 32) };
}

impl<T: Clone + Copy + Drop, const ROOM: usize> Reserved<T, ROOM> {
    /// An empty list.
    pub fn new(alloc: Global) -> Result<Reserved<T, ROOM>, AllocError>
        requires { ROOM < 2 ^ 32 }
        ensures { IfOk result (λ list. list ≡ []) }
    {
        let items = Vec::with_capacity(alloc, ROOM)?;
        Ok(Reserved { items })
    }

    /// How many items there are.
    #[inline(always)]
    pub fn count(&self) -> u32
        ensures count { result ≡ length self.now }
        ensures within { result ≤ ROOM }
    {
        self.items.len() as u32
    }

    /// Adds an item at the end.
    #[inline(always)]
    pub fn push(&mut self, item: T)
        requires { length self.old < ROOM }
        ensures { self.new ≡ self.old ++ item ∷ [] }
    {
        self.items.push_reserved(item);
    }

    /// Adds the same item at the end so many times.
    pub fn push_copies(&mut self, item: T, count: u32)
        requires { length self.old + count ≤ ROOM }
        ensures { self.new ≡ self.old ++ replicate count item }
    {
        for i in 0..count {
            let _ = i;
            self.push(item);
        }
    }

    /// The item at an index.
    #[inline(always)]
    pub fn at(&self, index: u32) -> T
        requires { index < length self.now }
        ensures { slice_get self.now index ≡ Some result }
    {
        self.items[index as usize]
    }

    /// Puts an item in the place of the one at an index.
    #[inline(always)]
    pub fn set(&mut self, index: u32, item: T)
        requires { index < length self.old }
        ensures { self.new ≡ slice_set self.old index item }
    {
        self.items[index as usize] = item;
    }

    /// Takes all items out.
    #[inline(always)]
    pub fn clear(&mut self)
        ensures { self.new ≡ [] }
    {
        self.items.clear();
    }
}
