//! The stacks of a body's walk: the operands' types, and the open blocks (WebAssembly Core 1.0, appendix A.3).
ghost use Rattle.std.specs.Prelude.{◌≡◌, ◌≤◌, ◌<◌, ◌+◌, ◌^◌, [], length, OnOk};
ghost use Rattle.wasm_meaning.specs.TypingOperands.{pull as pull_walk, lay as lay_walk, cut as cut_walk, start as start_walk};
ghost use Rattle.wasm_meaning.specs.Typing.{next as next_walk};
ghost use Rattle.wasm_typing.specs.Open.{height};
ghost use Rattle.wasm_typing.specs.Outcome.{Tells, Follows};

use crate::faults::BodyFault;
use crate::frames::Frame;
use crate::shapes::{exact, fits};
use std::alloc::{AllocFailed, Global};
use std::marker::Model;
use wasm_meaning::{Rule, Violation};
use wasm_ops::ValType;

/// What is known before an operator.
///
/// Contracts see it as `Open`: the walk of the block at hand, and the blocks around it.
pub(crate) struct Walker {
    /// The types of all operands, the last one at the end. None is an operand of any type.
    pub(crate) operands: Vec<Option<ValType>>,

    /// The open blocks, the inmost at the end.
    pub(crate) frames: Vec<Frame>,

    /// How many operands lie under the block at hand.
    pub(crate) base: usize,

    /// The operator is never reached.
    pub(crate) loose: bool,

    /// The place of the operator.
    pub(crate) place: u32,

    /// The most operands so far.
    pub(crate) most: u32,

    /// The most open blocks so far.
    pub(crate) deepest: u32,
}

impl Drop for Walker {
    fn drop(self) {
        let Walker {
            operands: _,
            frames: _,
            base: _,
            loose: _,
            place: _,
            most: _,
            deepest: _,
        } = self;
    }
}

impl Model for Walker {
    ghost use Rattle.std.specs.Prelude.{◌≤◌, length, reverse};
    ghost use Rattle.wasm_typing.specs.Open.{Open, seen, AreStacked};

    ghost Value = { Open };

    ghost view = { λ w. seen w.operands.items w.frames.items w.base w.loose w.place w.most w.deepest };

    ghost invariant = { λ w. record {
      within : w.base ≤ length w.operands.items;
      stacked : AreStacked w.base (reverse w.frames.items);
      few : length w.frames.items ≤ w.place;
    } };
}

impl Walker {
    /// Before the first operator of a body.
    pub(crate) fn new(alloc: Global) -> Walker
        ensures now { result.now ≡ start_walk }
        ensures around { result.blocks.around ≡ [] }
        ensures deepest { result.blocks.deepest ≡ 0 }
    {
        Walker {
            operands: Vec::new(alloc),
            frames: Vec::new(alloc),
            base: 0,
            loose: false,
            place: 0,
            most: 0,
            deepest: 0,
        }
    }

    /// That a rule is broken by the operator at hand.
    pub(crate) fn breach(&self, rule: Rule) -> Violation
        ensures rule { result.rule ≡ rule }
        ensures place { result.place ≡ self.now.now.place }
    {
        Violation {
            rule,
            place: self.place,
        }
    }

    /// Takes the last operand of the block, where one of this type is due, and tells its type.
    pub(crate) fn pull(&mut self, due: Option<ValType>) -> Result<Option<ValType>, Violation>
        ensures pulled { Tells (λ have. (have, self.new.now)) result (pull_walk due self.old.now) }
        ensures blocks { self.new.blocks ≡ self.old.blocks }
        ensures place { self.new.now.place ≡ self.old.now.place }
        ensures height { height self.new.now ≤ height self.old.now }
    {
        if self.operands.len() == self.base {
            return if self.loose {
                Ok(due)
            } else {
                Err(self.breach(Rule::StackHeight))
            };
        }
        let Some(have) = self.operands.pop() else {
            unreachable!()
        };
        if fits(due, have) {
            Ok(exact(due, have))
        } else {
            Err(self.breach(Rule::OperandType))
        }
    }

    /// Lays an operand.
    pub(crate) fn lay(
        &mut self,
        operand: Option<ValType>,
    ) -> Result<(), AllocFailed<Option<ValType>>>
        ensures laid { OnOk result (self.new.now ≡ lay_walk operand self.old.now) }
        ensures blocks { self.new.blocks ≡ self.old.blocks }
        ensures place { self.new.now.place ≡ self.old.now.place }
        ensures height { height self.new.now ≤ height self.old.now + 1 }
    {
        self.operands.push(operand)
    }

    /// Says that what follows in the block is never reached.
    pub(crate) fn cut(&mut self)
        ensures cut { self.new.now ≡ cut_walk self.old.now }
        ensures blocks { self.new.blocks ≡ self.old.blocks }
        ensures height { height self.new.now ≤ height self.old.now }
    {
        self.operands.truncate(self.base);
        self.loose = true;
    }

    /// Goes to the next operator.
    pub(crate) fn next(&mut self)
        requires room { self.old.now.place + 1 < 2 ^ 32 }
        requires few { height self.old.now ≤ self.old.now.place + 1 }
        ensures next { self.new.now ≡ next_walk self.old.now }
        ensures blocks { self.new.blocks ≡ self.old.blocks }
    {
        self.place += 1;
        self.most = self.most.max(self.operands.len() as u32);
    }
}
