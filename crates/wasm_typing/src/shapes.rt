//! What operators take from the operand list, and lay on it (WebAssembly Core 1.0, section 3.3).
ghost use Rattle.std.specs.Prelude.{◌≡◌, ◌≤◌, ◌+◌, reverse};
ghost use Rattle.wasm_meaning.specs.TypingOperands.{same_type, fits, exact, take_off as take_off_walk, take_result as take_result_walk, take_all as take_all_walk, lay_result as lay_result_walk, gives as gives_walk, unary as unary_walk, binary as binary_walk, branch as branch_walk, keep_result as keep_result_walk, branch_if as branch_if_walk, select as select_walk};
ghost use Rattle.wasm_typing.specs.Open.{height};
ghost use Rattle.wasm_typing.specs.Outcome.{Tells, Follows};

use crate::faults::BodyFault;
use crate::walker::Walker;
use wasm_meaning::Violation;
use wasm_ops::ValType;

/// Whether an operand of the second type serves where one of the first is due.
pub(crate) fn fits(due: Option<ValType>, have: Option<ValType>) -> bool
    ensures { result ≡ fits due have }
{
    match (due, have) {
        (Some(due), Some(have)) => same_type(due, have),
        _ => true,
    }
}

/// The type of an operand that is of both types.
pub(crate) fn exact(due: Option<ValType>, have: Option<ValType>) -> Option<ValType>
    ensures { result ≡ exact due have }
{
    due.or(have)
}

/// Whether two types are the same.
pub fn same_type(one: ValType, other: ValType) -> bool
    ensures { result ≡ same_type one other }
{
    one == other
}

impl Walker {
    /// Takes an operand of this type, or of any.
    pub(crate) fn take_off(&mut self, due: Option<ValType>) -> Result<(), Violation>
        ensures taken { Tells (λ u. self.new.now) result (take_off_walk due self.old.now) }
        ensures blocks { self.new.blocks ≡ self.old.blocks }
        ensures place { self.new.now.place ≡ self.old.now.place }
        ensures height { height self.new.now ≤ height self.old.now }
    {
        self.pull(due)?;
        Ok(())
    }

    /// Takes a result, if there is one.
    pub(crate) fn take_result(&mut self, due: Option<ValType>) -> Result<(), Violation>
        ensures taken { Tells (λ u. self.new.now) result (take_result_walk due self.old.now) }
        ensures blocks { self.new.blocks ≡ self.old.blocks }
        ensures place { self.new.now.place ≡ self.old.now.place }
        ensures height { height self.new.now ≤ height self.old.now }
    {
        match due {
            Some(_) => self.take_off(due),
            None => Ok(()),
        }
    }

    /// Takes operands of all these types, the last of which is on top.
    pub(crate) fn take_all(&mut self, types: &[ValType]) -> Result<(), Violation>
        ensures taken { Tells (λ u. self.new.now) result (take_all_walk (reverse types.now) self.old.now) }
        ensures blocks { self.new.blocks ≡ self.old.blocks }
        ensures place { self.new.now.place ≡ self.old.now.place }
        ensures height { height self.new.now ≤ height self.old.now }
    {
        let mut left = types.len();
        while left > 0 {
            left -= 1;
            self.take_off(Some(types[left]))?;
        }
        Ok(())
    }

    /// Lays a result, if there is one.
    pub(crate) fn lay_result(&mut self, given: Option<ValType>) -> Result<(), BodyFault>
        ensures laid { Follows (λ u. self.new.now) result (Ok (lay_result_walk given self.old.now)) }
        ensures blocks { self.new.blocks ≡ self.old.blocks }
        ensures place { self.new.now.place ≡ self.old.now.place }
        ensures height { height self.new.now ≤ height self.old.now + 1 }
    {
        match given {
            Some(_) => Ok(self.lay(given)?),
            None => Ok(()),
        }
    }

    /// An operator that takes nothing.
    pub(crate) fn gives(&mut self, to: ValType) -> Result<(), BodyFault>
        ensures walked { Follows (λ u. self.new.now) result (gives_walk to self.old.now) }
        ensures blocks { self.new.blocks ≡ self.old.blocks }
        ensures place { self.new.now.place ≡ self.old.now.place }
        ensures height { height self.new.now ≤ height self.old.now + 1 }
    {
        Ok(self.lay(Some(to))?)
    }

    /// An operator of one operand.
    pub(crate) fn unary(&mut self, from: ValType, to: ValType) -> Result<(), BodyFault>
        ensures walked { Follows (λ u. self.new.now) result (unary_walk from to self.old.now) }
        ensures blocks { self.new.blocks ≡ self.old.blocks }
        ensures place { self.new.now.place ≡ self.old.now.place }
        ensures height { height self.new.now ≤ height self.old.now + 1 }
    {
        self.take_off(Some(from))?;
        self.gives(to)
    }

    /// An operator of two operands of one type.
    pub(crate) fn binary(&mut self, from: ValType, to: ValType) -> Result<(), BodyFault>
        ensures walked { Follows (λ u. self.new.now) result (binary_walk from to self.old.now) }
        ensures blocks { self.new.blocks ≡ self.old.blocks }
        ensures place { self.new.now.place ≡ self.old.now.place }
        ensures height { height self.new.now ≤ height self.old.now + 1 }
    {
        self.take_off(Some(from))?;
        self.unary(from, to)
    }

    /// A branch that is always taken.
    pub(crate) fn branch(&mut self, due: Option<ValType>) -> Result<(), BodyFault>
        ensures walked { Follows (λ u. self.new.now) result (branch_walk due self.old.now) }
        ensures blocks { self.new.blocks ≡ self.old.blocks }
        ensures place { self.new.now.place ≡ self.old.now.place }
        ensures height { height self.new.now ≤ height self.old.now + 1 }
    {
        self.take_result(due)?;
        self.cut();
        Ok(())
    }

    /// An operator that leaves the operand that it takes.
    pub(crate) fn keep_result(&mut self, due: Option<ValType>) -> Result<(), BodyFault>
        ensures walked { Follows (λ u. self.new.now) result (keep_result_walk due self.old.now) }
        ensures blocks { self.new.blocks ≡ self.old.blocks }
        ensures place { self.new.now.place ≡ self.old.now.place }
        ensures height { height self.new.now ≤ height self.old.now + 1 }
    {
        self.take_result(due)?;
        self.lay_result(due)
    }

    /// A branch that is taken where an `i32` is not 0.
    pub(crate) fn branch_if(&mut self, due: Option<ValType>) -> Result<(), BodyFault>
        ensures walked { Follows (λ u. self.new.now) result (branch_if_walk due self.old.now) }
        ensures blocks { self.new.blocks ≡ self.old.blocks }
        ensures place { self.new.now.place ≡ self.old.now.place }
        ensures height { height self.new.now ≤ height self.old.now + 1 }
    {
        self.take_off(Some(ValType::I32))?;
        self.keep_result(due)
    }

    /// `select`, which keeps one of two operands of one type.
    pub(crate) fn select(&mut self) -> Result<(), BodyFault>
        ensures walked { Follows (λ u. self.new.now) result (select_walk self.old.now) }
        ensures blocks { self.new.blocks ≡ self.old.blocks }
        ensures place { self.new.now.place ≡ self.old.now.place }
        ensures height { height self.new.now ≤ height self.old.now + 1 }
    {
        self.take_off(Some(ValType::I32))?;
        let second = self.pull(None)?;
        let first = self.pull(second)?;
        Ok(self.lay(first)?)
    }
}
