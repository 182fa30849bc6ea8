//! The flat form of a body, while its items are read.
ghost use Rattle.std.specs.Prelude.{◌≡◌, ◌^◌, ◌<◌, [], length, IfOk, OnOk};
ghost use Rattle.wasm_code.specs.Laying.{ArePlaced, IsPlaced, kinds_of, filled, first_stage, opening, else_standing, standing_of, with_item};

use crate::blocks::{OpenBlock, Stage, Standing};
use crate::items::{Item, Opener};
use std::alloc::{AllocError, Global};
use std::marker::Model;
use wasm_ops::{Op, ValType};

/// The operators of the items so far, with 0 for a place that is not known yet, and the open blocks.
///
/// Contracts see it as `Laid`: the inmost block is the first one.
#[derive(Drop)]
pub(crate) struct Laying {
    ops: Vec<Op>,
    blocks: Vec<OpenBlock>,
}

impl Model for Laying {
    ghost use Rattle.std.specs.Prelude.{length, reverse};
    ghost use Rattle.wasm_code.specs.Laying.{Laid, ArePlaced};

    ghost Value = { Laid };

    ghost view = { λ laying. record { ops = laying.ops.items; blocks = reverse laying.blocks.items } };

    ghost invariant = { λ laying. ArePlaced (length laying.ops.items) (reverse laying.blocks.items) };
}

impl Laying {
    /// No operator, and no open block.
    pub(crate) fn new(alloc: Global) -> Laying
        ensures ops { result.ops ≡ [] }
        ensures blocks { result.blocks ≡ [] }
    {
        Laying {
            ops: Vec::new(alloc),
            blocks: Vec::new(alloc),
        }
    }

    /// How many blocks are open.
    pub(crate) fn depth(&self) -> usize
        ensures { result ≡ length self.now.blocks }
    {
        self.blocks.len()
    }

    /// The operators.
    pub(crate) fn into_ops(self) -> Vec<Op>
        ensures { result.items ≡ self.ops }
    {
        self.ops
    }

    /// Lays out one more item, and says where it stands.
    pub(crate) fn take(&mut self, item: &Item) -> Result<Standing, AllocError>
        requires few { length self.old.ops < 2 ^ 32 }
        ensures stands { IfOk result (λ standing. standing ≡ standing_of item.now (kinds_of self.old.blocks)) }
        ensures laid { OnOk result (self.new ≡ with_item item.now self.old) }
    {
        match item {
            Item::Operator(op) => self.operator(op),
            Item::Opens(opener, result) => self.open(*opener, *result),
            Item::Else => self.divide(),
            Item::End => self.close(),
        }
    }

    fn operator(&mut self, op: &Op) -> Result<Standing, AllocError>
        requires few { length self.old.ops < 2 ^ 32 }
        ensures stands { IfOk result (λ standing. standing ≡ Standing.Inside) }
        ensures laid { OnOk result (self.new ≡ with_item (Item.Operator op.now) self.old) }
    {
        self.ops.push(*op)?;
        Ok(Standing::Inside)
    }

    fn open(&mut self, opener: Opener, value: Option<ValType>) -> Result<Standing, AllocError>
        requires few { length self.old.ops < 2 ^ 32 }
        ensures stands { IfOk result (λ standing. standing ≡ Standing.Inside) }
        ensures laid { OnOk result (self.new ≡ with_item (Item.Opens opener value) self.old) }
    {
        let block = OpenBlock {
            stage: stage_of(opener),
            result: value,
            at: self.ops.len() as u32,
        };
        self.ops.push(opening_of(opener, value))?;
        self.blocks.push(block)?;
        Ok(Standing::Inside)
    }

    fn divide(&mut self) -> Result<Standing, AllocError>
        requires few { length self.old.ops < 2 ^ 32 }
        ensures stands { IfOk result (λ standing. standing ≡ standing_of Item.Else (kinds_of self.old.blocks)) }
        ensures laid { OnOk result (self.new ≡ with_item Item.Else self.old) }
    {
        let Some(block) = self.blocks.pop() else {
            return Ok(Standing::Misplaced);
        };
        let divided = OpenBlock {
            stage: Stage::Else(self.ops.len() as u32),
            result: block.result,
            at: block.at,
        };
        self.ops.push(Op::Else { end: 0 })?;
        self.blocks.push(divided)?;
        Ok(else_standing(block.stage))
    }

    fn close(&mut self) -> Result<Standing, AllocError>
        requires few { length self.old.ops < 2 ^ 32 }
        ensures stands { IfOk result (λ standing. standing ≡ standing_of Item.End (kinds_of self.old.blocks)) }
        ensures laid { OnOk result (self.new ≡ with_item Item.End self.old) }
    {
        let end = self.ops.len() as u32;
        let Some(block) = self.blocks.pop() else {
            self.ops.push(Op::End)?;
            return Ok(Standing::Last);
        };
        fill(&mut self.ops, &block, end);
        self.ops.push(Op::End)?;
        Ok(Standing::Inside)
    }
}

fn stage_of(opener: Opener) -> Stage
    ensures { result ≡ first_stage opener }
{
    match opener {
        Opener::Block => Stage::Block,
        Opener::Loop => Stage::Loop,
        Opener::If => Stage::Then,
    }
}

fn opening_of(opener: Opener, value: Option<ValType>) -> Op
    ensures { result ≡ opening opener value }
{
    match opener {
        Opener::Block => Op::Block {
            result: value,
            end: 0,
        },
        Opener::Loop => Op::Loop {
            result: value,
            end: 0,
        },
        Opener::If => Op::If {
            result: value,
            other: None,
            end: 0,
        },
    }
}

// Where an `else` stands that comes in this part of a block.
fn else_standing(stage: Stage) -> Standing
    ensures { result ≡ else_standing stage }
{
    match stage {
        Stage::Then => Standing::Inside,
        Stage::Block | Stage::Loop | Stage::Else(_) => Standing::Misplaced,
    }
}

// Writes where a block ends into the operators that know it.
fn fill(ops: &mut [Op], block: &OpenBlock, end: u32)
    requires placed { IsPlaced (length ops.old) block.now }
    ensures { ops.new ≡ filled block.now.stage block.now.result block.now.at end ops.old }
{
    let result = block.result;
    let at = block.at as usize;
    match block.stage {
        Stage::Block => ops[at] = Op::Block { result, end },
        Stage::Loop => ops[at] = Op::Loop { result, end },
        Stage::Then => {
            ops[at] = Op::If {
                result,
                other: None,
                end,
            };
        }
        Stage::Else(divide) => {
            ops[at] = Op::If {
                result,
                other: Some(divide),
                end,
            };
            ops[divide as usize] = Op::Else { end };
        }
    }
}
