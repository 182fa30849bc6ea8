//! Blocks, loops and ifs (WebAssembly Core 1.0, sections 3.3.5.2 to 3.3.5.5).
ghost use Rattle.std.specs.Prelude.{◌≡◌, ◌+◌, ◌<◌, ◌≤◌, ◌^◌, [], OnOk};
ghost use Rattle.wasm_meaning.specs.Typing.{lacks_else, emptied, ended as ended_walk};
ghost use Rattle.wasm_typing.specs.Open.{height};
ghost use Rattle.wasm_typing.specs.Outcome.{Tells, Follows};
ghost use Rattle.wasm_typing.specs.Scopes.{context, context_at};
ghost use Rattle.wasm_typing.specs.Steps.{inmost_of, left as left_walk, goes_on, opened, open_if as open_if_walk, close as close_walk, turn_over as turn_walk, pass as pass_walk, step as step_walk};

use crate::faults::BodyFault;
use crate::frames::Frame;
use crate::scopes::Scope;
use crate::stages::Stage;
use crate::walker::Walker;
use wasm_meaning::{BlockKind, Rule, Violation};
use wasm_ops::{Op, ValType};

/// Whether an `else` is missing at the end of a block.
fn lacks_else(kind: BlockKind, value: Option<ValType>) -> bool
    ensures { result ≡ lacks_else kind value }
{
    match (kind, value) {
        (BlockKind::ThenBranch, Some(_)) => true,
        _ => false,
    }
}

impl Walker {
    /// The kind and the result of the inmost block.
    fn inmost(&self) -> Option<(BlockKind, Option<ValType>)>
        ensures { result ≡ inmost_of self.now.blocks.around }
    {
        let frame = self.frames.last()?;
        Some((frame.kind, frame.result))
    }

    /// That a block leaves its result, and takes it.
    fn ended(&mut self, kind: BlockKind, value: Option<ValType>) -> Result<(), Violation>
        ensures ended { Tells (λ u. self.new.now) result (ended_walk kind value self.old.now) }
        ensures emptied { OnOk result (self.new.now.types ≡ []) }
        ensures blocks { self.new.blocks ≡ self.old.blocks }
        ensures place { self.new.now.place ≡ self.old.now.place }
        ensures height { height self.new.now ≤ height self.old.now }
    {
        if lacks_else(kind, value) {
            return Err(self.breach(Rule::IfWithoutElse));
        }
        self.take_result(value)?;
        self.emptied()
    }

    // That no operand of the block is left over.
    fn emptied(&self) -> Result<(), Violation>
        ensures told { Tells (λ u. self.now.now) result (emptied self.now.now) }
        ensures emptied { OnOk result (self.now.now.types ≡ []) }
    {
        if self.operands.len() == self.base {
            Ok(())
        } else {
            Err(self.breach(Rule::StackHeight))
        }
    }

    // Opens a block, whose list is empty.
    fn open(&mut self, kind: BlockKind, value: Option<ValType>) -> Result<Stage, BodyFault>
        requires room { self.old.now.place + 1 < 2 ^ 32 }
        requires few { height self.old.now ≤ self.old.now.place }
        ensures place { self.new.now.place ≤ self.old.now.place + 1 }
        ensures height { OnOk result (height self.new.now ≤ self.new.now.place) }
        ensures walked { Follows (λ stage. (stage, self.new)) result (goes_on (opened kind value self.old)) }
    {
        self.frames.push(Frame {
            kind,
            result: value,
            base: self.base,
            loose: self.loose,
        })?;
        self.base = self.operands.len();
        self.loose = false;
        self.place += 1;
        self.deepest = self.deepest.max(self.frames.len() as u32);
        Ok(Stage::Inside)
    }

    fn open_if(&mut self, value: Option<ValType>) -> Result<Stage, BodyFault>
        requires room { self.old.now.place + 1 < 2 ^ 32 }
        requires few { height self.old.now ≤ self.old.now.place }
        ensures place { self.new.now.place ≤ self.old.now.place + 1 }
        ensures height { OnOk result (height self.new.now ≤ self.new.now.place) }
        ensures walked { Follows (λ stage. (stage, self.new)) result (open_if_walk value self.old) }
    {
        self.take_off(Some(ValType::I32))?;
        self.open(BlockKind::ThenBranch, value)
    }

    // Goes back to the block around the one at hand.
    fn leave(&mut self)
        requires emptied { self.old.now.types ≡ [] }
        ensures left { self.new ≡ left_walk self.old }
        ensures place { self.new.now.place ≡ self.old.now.place }
        ensures height { height self.new.now ≤ height self.old.now }
    {
        if let Some(frame) = self.frames.pop() {
            self.base = frame.base;
            self.loose = frame.loose;
        }
    }

    fn turn_over(&mut self) -> Result<Stage, BodyFault>
        requires room { self.old.now.place + 1 < 2 ^ 32 }
        requires few { height self.old.now ≤ self.old.now.place }
        ensures place { self.new.now.place ≤ self.old.now.place + 1 }
        ensures height { OnOk result (height self.new.now ≤ self.new.now.place) }
        ensures walked { Follows (λ stage. (stage, self.new)) result (turn_walk self.old) }
    {
        let Some((_, value)) = self.inmost() else {
            return Ok(Stage::Over);
        };
        self.ended(BlockKind::ElseBranch, value)?;
        self.leave();
        self.open(BlockKind::ElseBranch, value)
    }

    fn close(&mut self, scope: &Scope<'_>) -> Result<Stage, BodyFault>
        requires room { self.old.now.place + 1 < 2 ^ 32 }
        requires few { height self.old.now ≤ self.old.now.place }
        ensures place { self.new.now.place ≤ self.old.now.place + 1 }
        ensures height { OnOk result (height self.new.now ≤ self.new.now.place) }
        ensures walked { Follows (λ stage. (stage, self.new)) result (close_walk (context scope.now) self.old) }
    {
        let Some((kind, value)) = self.inmost() else {
            self.ended(BlockKind::BlockBody, scope.result)?;
            return Ok(Stage::Over);
        };
        self.ended(kind, value)?;
        self.leave();
        self.lay_result(value)?;
        self.next();
        Ok(Stage::Inside)
    }

    fn pass(&mut self, scope: &Scope<'_>, op: Op) -> Result<Stage, BodyFault>
        requires room { self.old.now.place + 1 < 2 ^ 32 }
        requires few { height self.old.now ≤ self.old.now.place }
        ensures place { self.new.now.place ≤ self.old.now.place + 1 }
        ensures height { OnOk result (height self.new.now ≤ self.new.now.place) }
        ensures walked { Follows (λ stage. (stage, self.new)) result (pass_walk (context scope.now) op self.old) }
    {
        self.plain(scope, op)?;
        self.next();
        Ok(Stage::Inside)
    }

    /// One operator.
    pub(crate) fn step(&mut self, scope: &Scope<'_>, op: Op) -> Result<Stage, BodyFault>
        requires room { self.old.now.place + 1 < 2 ^ 32 }
        requires few { height self.old.now ≤ self.old.now.place }
        ensures place { self.new.now.place ≤ self.old.now.place + 1 }
        ensures height { OnOk result (height self.new.now ≤ self.new.now.place) }
        ensures walked { Follows (λ stage. (stage, self.new)) result (step_walk (context scope.now) op self.old) }
    {
        match op {
            Op::Block { result, .. } => self.open(BlockKind::BlockBody, result),
            Op::Loop { result, .. } => self.open(BlockKind::LoopBody, result),
            Op::If { result, .. } => self.open_if(result),
            Op::Else { .. } => self.turn_over(),
            Op::End => self.close(scope),
            other => self.pass(scope, other),
        }
    }
}
