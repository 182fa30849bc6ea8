//! The calls that are live, and where the code goes on.
ghost use Rattle.std.specs.Prelude.{◌≡◌, ℕ, ◌+◌, ◌<◌, ◌≤◌, [], ◌∷◌, length, drop, slice_get, Some, IfOk};
ghost use Rattle.wasm_store.specs.Calls.{Calls};

use crate::stacks::Stack;
use std::alloc::{AllocError, Global};
use std::marker::Model;

/// What a call leaves behind and goes back to.
#[derive(Clone, Copy)]
pub struct Frame {
    /// The body that the call came from.
    pub function: u32,
    /// The place of the operator that it goes on with there.
    pub place: u32,
    /// How many cells lie under its first local.
    pub base: u32,
    /// How many labels were open before it.
    pub opened: u32,
    /// How many cells were counted before it.
    pub below: u32,
}

const NO_FRAME: Frame = Frame {
    function: 0,
    place: 0,
    base: 0,
    opened: 0,
    below: 0,
};

/// What runs, and the frames of the live calls. The frame of the call that runs is a field of its own, since every operator reads it.
pub struct CallStack {
    function: u32,
    place: u32,
    used: u32,
    live: Frame,
    callers: Stack<Frame, 4096>,
}

impl Drop for CallStack {
    fn drop(self) {
        let CallStack {
            function: _,
            place: _,
            used: _,
            live: _,
            callers: _,
        } = self;
    }
}

impl Model for CallStack {
    ghost use Rattle.wasm_store.specs.Calls.{Calls, frames_of};

    ghost Value = { Calls };

    ghost view = { λ calls. record { function = calls.function; place = calls.place; used = calls.used; frames = frames_of calls.live calls.callers } };
}

impl CallStack {
    /// No call, at place 0 of body 0.
    pub fn new(alloc: Global) -> Result<CallStack, AllocError>
        ensures { IfOk result (λ calls. calls ≡ record { function = 0; place = 0; used = 0; frames = [] }) }
    {
        let callers = Stack::new(alloc)?;
        Ok(CallStack {
            function: 0,
            place: 0,
            used: 0,
            live: NO_FRAME,
            callers,
        })
    }

    #[inline(always)]
    pub fn function(&self) -> u32
        ensures { result ≡ self.now.function }
    {
        self.function
    }

    #[inline(always)]
    pub fn place(&self) -> u32
        ensures { result ≡ self.now.place }
    {
        self.place
    }

    #[inline(always)]
    pub fn used(&self) -> u32
        ensures { result ≡ self.now.used }
    {
        self.used
    }

    /// How many calls are live.
    #[inline(always)]
    pub fn depth(&self) -> u32
        ensures count { result ≡ length self.now.frames }
        ensures within { result ≤ 4096 }
    {
        let _live = self.live;
        self.callers.count()
    }

    /// The frame of the call that runs.
    #[inline(always)]
    pub fn frame(&self) -> Frame
        requires { 0 < length self.now.frames }
        ensures { slice_get self.now.frames 0 ≡ Some result }
    {
        self.live
    }

    /// Goes on at a place of a body.
    #[inline(always)]
    pub fn stand_at(&mut self, function: u32, place: u32)
        ensures { self.new ≡ record self.old { function = function; place = place } }
    {
        self.function = function;
        self.place = place;
    }

    /// Goes on at a place of the same body.
    #[inline(always)]
    pub fn go_to(&mut self, place: u32)
        ensures { self.new ≡ record self.old { place = place } }
    {
        self.place = place;
    }

    /// Begins a call of a body.
    pub fn enter(&mut self, function: u32, base: u32, opened: u32, used: u32)
        requires { length self.old.frames < 4096 }
        ensures { self.new ≡ record { function = function; place = 0; used = used; frames = record { function = self.old.function; place = self.old.place; base = base; opened = opened; below = self.old.used } ∷ self.old.frames } }
    {
        let live = self.live;
        self.callers.push(live);
        self.live = Frame {
            function: self.function,
            place: self.place,
            base,
            opened,
            below: self.used,
        };
        self.function = function;
        self.place = 0;
        self.used = used;
    }

    /// Ends the call that runs, and answers its frame.
    pub fn leave(&mut self) -> Frame
        requires { 0 < length self.old.frames }
        ensures frame { slice_get self.old.frames 0 ≡ Some result }
        ensures back { self.new ≡ record { function = result.function; place = result.place; used = result.below; frames = drop 1 self.old.frames } }
    {
        let frame = self.live;
        self.live = self.callers.pop();
        self.function = frame.function;
        self.place = frame.place;
        self.used = frame.below;
        frame
    }

    /// Ends all calls.
    pub fn clear(&mut self)
        ensures { self.new ≡ record { function = 0; place = 0; used = 0; frames = [] } }
    {
        self.callers.clear();
        self.function = 0;
        self.place = 0;
        self.used = 0;
    }
}
