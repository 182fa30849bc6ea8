//! Valid modules.
ghost use Rattle.std.specs.Prelude.{◌≡◌, ◌<◌, Ok, IfOk, length, option_copied};
ghost use Rattle.wasm_meaning.specs.Validity.{IsValid, outside_walk as outside_due, module_walk as module_due, body_height, body_nest};
ghost use Rattle.wasm_meaning.specs.ValiditySpaces.{body_type, function_type};
ghost use Rattle.wasm_meaning.specs.declared.violations.Broken.{Broken as BrokenValue};
ghost use Rattle.wasm_ops.specs.Limits.{imported_functions};
ghost use Rattle.wasm_ops.specs.WellFormed.{IsWellFormed};
ghost use Rattle.wasm_validate.specs.Measured.{AreMeasured};
ghost use Rattle.wasm_validate.specs.Outcome.{Gives, IsAnswered, TellsBroken};

use crate::bodies::bodies_walk;
use crate::exports::exports_walk;
use crate::faults::ValidFault;
use crate::lists::{
    elements_walk, functions_walk, globals_walk, imports_walk, memories_walk, segments_walk,
    start_walk, tables_walk,
};
use std::alloc::Global;
use std::marker::Model;
use wasm_ops::{FuncType, Module};
use wasm_typing::{Indexed, Measure};

/// A module that is valid. Contracts see it as the module.
///
/// It knows the index spaces of the module, and how much room each body needs beside its locals.
pub struct Valid {
    indexed: Indexed,
    measures: Vec<Measure>,
}

impl Drop for Valid {
    fn drop(self) {
        let Valid {
            indexed: _,
            measures: _,
        } = self;
    }
}

impl Model for Valid {
    ghost use Rattle.wasm_ops.specs.declared.modules.Module.{Module};
    ghost use Rattle.wasm_validate.specs.Measured.{IsMeasured};

    ghost Value = { Module };

    ghost view = { λ v. v.indexed };

    ghost invariant = { λ v. IsMeasured v.indexed v.measures.items };
}

impl Valid {
    /// The module.
    pub fn module(&self) -> &Module
        ensures same { result.now ≡ self.now }
        ensures valid { IsValid self.now }
    {
        self.indexed.module()
    }

    /// The greatest number of operands before or behind any operator of the body with this number.
    ///
    /// Bodies count from 0, without the imported functions. A block's operands stand on those around it.
    pub fn height(&self, body: u32) -> u32
        requires known { body < length self.now.bodies }
        ensures { result ≡ body_height self.now body }
    {
        self.measures[body as usize].height
    }

    /// The greatest number of blocks that are open at once in the body with this number, without the body itself.
    pub fn nest(&self, body: u32) -> u32
        requires known { body < length self.now.bodies }
        ensures { result ≡ body_nest self.now body }
    {
        self.measures[body as usize].nest
    }

    /// How many functions are imported, before those that have a body.
    pub fn imported(&self) -> u32
        ensures { result ≡ imported_functions self.now.imports }
    {
        self.indexed.imported()
    }

    /// The type of the function with this index, where imported ones come first.
    pub fn function_type(&self, index: u32) -> Option<&FuncType>
        ensures { option_copied result ≡ function_type self.now index }
    {
        self.indexed.function_type(index as usize)
    }

    /// The type of the function that has the body with this number.
    pub fn body_type(&self, body: u32) -> Option<&FuncType>
        ensures { option_copied result ≡ body_type self.now body }
    {
        self.indexed.body_type(body)
    }
}

// All but the bodies.
#[tactic(auto, unfolding(wasm_meaning::specs::Validity::outside_walk))]
fn outside_walk(alloc: Global, whole: &Indexed) -> Result<(), ValidFault>
    requires formed { IsWellFormed whole.now }
    ensures { Gives (λ u. u) result (outside_due whole.now) }
{
    imports_walk(whole.module())?;
    functions_walk(whole.module())?;
    tables_walk(whole.module())?;
    memories_walk(whole.module())?;
    globals_walk(whole.module())?;
    exports_walk(alloc, whole)?;
    start_walk(whole)?;
    elements_walk(whole)?;
    segments_walk(whole)?;
    Ok(())
}

#[tactic(auto, unfolding(wasm_meaning::specs::Validity::module_walk))]
fn module_walk(alloc: Global, whole: &Indexed) -> Result<Vec<Measure>, ValidFault>
    requires formed { IsWellFormed whole.now }
    ensures walked { Gives (λ measures. tt) result (module_due whole.now) }
    ensures measured { IfOk result (λ measures. AreMeasured whole.now (length whole.now.bodies) measures.items) }
{
    outside_walk(alloc, whole)?;
    bodies_walk(alloc, whole)
}

/// The module, if it is valid (WebAssembly Core 1.0, chapter 3).
///
/// The rules are looked at in this order: imports, functions, tables, memories, globals, exports, the start function, element segments, data segments, and the bodies, each list from its first item on. The first one that is broken is answered.
/// The module is one that was read. Its checking takes time in proportion to its bytes (and to the logarithm of the number of its exports), and memory for the index spaces, for the names of the exports, and for the two stacks of a body.
pub fn validate(alloc: Global, module: Module) -> Result<Valid, ValidFault>
    requires formed { IsWellFormed «module» }
    ensures walked { Gives (λ valid. tt) result (module_due «module») }
    ensures same { IfOk result (λ valid. valid ≡ «module») }

    // No other answer is possible, but for want of memory.
    ensures only { module_due «module» ≡ Ok tt → IsAnswered result }
    ensures only_broken { (broken : BrokenValue) → module_due «module» ≡ Err broken → TellsBroken result broken }
{
    let indexed = Indexed::new(alloc, module)?;
    let measures = module_walk(alloc, &indexed)?;
    Ok(Valid { indexed, measures })
}
