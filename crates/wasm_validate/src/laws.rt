//! Laws of the definitions. Each function does nothing: its contract is the law.
ghost use Rattle.std.specs.Prelude.{◌≡◌, ◌⊎◌, Ok, Err};
ghost use Rattle.wasm_ops.specs.declared.modules.Module.{Module as ModuleValue};
ghost use Rattle.wasm_ops.specs.Sequence.{Sequence};
ghost use Rattle.wasm_meaning.specs.declared.violations.Broken.{Broken as BrokenValue};
ghost use Rattle.wasm_meaning.specs.Validity.{module_walk};
ghost use Rattle.wasm_meaning.specs.TypingOperands.{Walk};
ghost use Rattle.wasm_meaning.specs.Typing.{Context, typed_body};
ghost use Rattle.wasm_validate.specs.Results.{LeavesResult};

/// A module breaks no rule, or one first: one of the two, and one rule. A body that is typed is so from an empty operand list to its function's result.
pub fn valid_or_broken()
    ensures one_holds { (m : ModuleValue) → (module_walk m ≡ Ok tt) ⊎ ((broken : BrokenValue) × (module_walk m ≡ Err broken)) }
    ensures never_both { (m : ModuleValue) (broken : BrokenValue) → module_walk m ≡ Ok tt → module_walk m ≡ Err broken → ⊥ }
    ensures one_broken { (m : ModuleValue) (broken other : BrokenValue) → module_walk m ≡ Err broken → module_walk m ≡ Err other → broken ≡ other }
    ensures to_result { (cx : Context) (body : Sequence) (done : Walk) → typed_body cx body ≡ Ok done → LeavesResult cx body }
{}
