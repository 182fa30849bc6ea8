//! Stacks whose room is taken once.
ghost use Rattle.std.specs.Prelude.{◌≡◌, ℕ, ◌+◌, ◌-◌, ◌^◌, ◌<◌, ◌≤◌, [], ◌∷◌, ◌++◌, length, take, drop, reverse, replicate, slice_get, slice_set, Some, IfOk};
ghost use Rattle.wasm_store.specs.Stacks.{cut, kept};

use std::alloc::{AllocError, Global};
use std::marker::Model;

/// Items one upon another, with room for a fixed number of them. Contracts see the list of its items, the top one first.
///
/// The room is taken when the stack is made, and no part of it is touched before an item lies there.
pub struct Stack<T: Drop, const ROOM: usize> {
    items: Vec<T>,
}

impl<T: Drop, const ROOM: usize> Drop for Stack<T, ROOM> {
    fn drop(self) {
        let Stack { items: _ } = self;
    }
}

impl<T: Drop, const ROOM: usize> Model for Stack<T, ROOM> {
    ghost use Rattle.std.specs.Prelude.{◌^◌, ◌<◌, ◌≤◌, List, length, reverse, vec_capacity};

    ghost Value = { List T };

    ghost view = { λ stack. reverse stack.items.items };

    ghost invariant = { λ stack. (length stack.items.items ≤ ROOM) × (ROOM ≤ vec_capacity stack.items) × (ROOM < 2 ^ 32) };
}

impl<T: Clone + Copy + Drop, const ROOM: usize> Stack<T, ROOM> {
    /// An empty stack.
    pub fn new(alloc: Global) -> Result<Stack<T, ROOM>, AllocError>
        requires { ROOM < 2 ^ 32 }
        ensures { IfOk result (λ stack. stack ≡ []) }
    {
        let items = Vec::with_capacity(alloc, ROOM)?;
        Ok(Stack { items })
    }

    /// How many items there are.
    #[inline(always)]
    pub fn count(&self) -> u32
        ensures count { result ≡ length self.now }
        ensures within { result ≤ ROOM }
    {
        self.items.len() as u32
    }

    /// Lays an item on top.
    #[inline(always)]
    #[tactic(auto, using(crate::proofs::StackLemmas::reverse_push))]
    pub fn push(&mut self, item: T)
        requires { length self.old < ROOM }
        ensures { self.new ≡ item ∷ self.old }
    {
        self.items.push_reserved(item);
    }

    /// Takes the top item off.
    #[inline(always)]
    #[tactic(auto, using(crate::proofs::StackLemmas::reverse_push))]
    pub fn pop(&mut self) -> T
        requires { 0 < length self.old }
        ensures { self.old ≡ result ∷ self.new }
    {
        match self.items.pop() {
            Some(item) => item,
            None => unreachable!(),
        }
    }

    /// The item that so many others lie on.
    #[inline(always)]
    pub fn under(&self, above: u32) -> T
        requires { above < length self.now }
        ensures { slice_get self.now above ≡ Some result }
    {
        self.items[self.items.len() - 1 - above as usize]
    }

    /// The item that lies on so many others.
    #[inline(always)]
    pub fn at(&self, height: u32) -> T
        requires { height < length self.now }
        ensures { slice_get (reverse self.now) height ≡ Some result }
    {
        self.items[height as usize]
    }

    /// Puts an item in the place of the one that lies on so many others.
    #[inline(always)]
    pub fn set(&mut self, height: u32, item: T)
        requires { height < length self.old }
        ensures { self.new ≡ reverse (slice_set (reverse self.old) height item) }
    {
        self.items[height as usize] = item;
    }

    /// Takes so many items off the top.
    #[inline(always)]
    pub fn take_off(&mut self, count: u32)
        requires { count ≤ length self.old }
        ensures { self.new ≡ drop count self.old }
    {
        self.items.truncate(self.items.len() - count as usize);
    }

    /// Leaves the lowest items, as many as `height`, and the top one on them if `keep` says so.
    #[inline(always)]
    #[tactic(auto, using(crate::proofs::StackLemmas::cut_top))]
    pub fn cut(&mut self, keep: bool, height: u32)
        requires { height + kept keep ≤ length self.old }
        ensures { self.new ≡ cut (kept keep) height self.old }
    {
        let size = self.count();
        if keep {
            let top = self.pop();
            let above = size - 1 - height;
            self.take_off(above);
            self.push(top);
        } else {
            self.take_off(size - height);
        }
    }

    /// Lays the same item on top so many times.
    pub fn push_copies(&mut self, item: T, count: u32)
        requires { length self.old + count ≤ ROOM }
        ensures { self.new ≡ replicate count item ++ self.old }
    {
        for i in 0..count {
            let _ = i;
            self.push(item);
        }
    }

    /// Takes all items off.
    #[inline(always)]
    pub fn clear(&mut self)
        ensures { self.new ≡ [] }
    {
        self.items.clear();
    }
}
