//! Laws of the definitions. Each function does nothing: its contract is the law.
ghost use Rattle.std.specs.Prelude.{◌≡◌, ℕ, ◌<◌, List, [], ◌∷◌, Some, length};
ghost use Rattle.std.specs.List.{AllByRecursion};
ghost use Rattle.wasm_ops.specs.declared.operators.Op.{Op};
ghost use Rattle.wasm_ops.specs.declared.numbers.Sign.{Sign as SignValue};
ghost use Rattle.wasm_ops.specs.Input.{Input, IsDecided};
ghost use Rattle.wasm_ops.specs.NameInput.{ReadsPair, RefusesName};
ghost use Rattle.wasm_ops.specs.Nested.{IsBodyOf, AtEnd, UpTo, ahead_of};
ghost use Rattle.wasm_ops.specs.NumberInput.{ReadsNumber, RefusesNumber};
ghost use Rattle.wasm_ops.specs.Operations.{operation_of, all_rows};
ghost use Rattle.wasm_ops.specs.Sequence.{Sequence, size, flat};

/// Whatever lies ahead of a cursor begins with a number, or is refused as one with a fault: one of the two, with one number and one place behind it, or one fault. So do names.
pub fn spelt_or_refused()
    ensures numbers { (sign : SignValue) (bits : ℕ) (before : Input) → 0 < bits → IsDecided ℕ (ReadsNumber sign bits before) (RefusesNumber sign bits before) }
    ensures names { (before : Input) → IsDecided (ℕ × ℕ) (ReadsPair before) (RefusesName before) }
{}

/// Operators are those of at most one sequence, and the form in which they are walked gives it back. Each operator of the flat form has a place in it.
pub fn one_sequence()
    ensures one { (ops : List Op) (s other : Sequence) → IsBodyOf s ops → IsBodyOf other ops → s ≡ other }
    ensures ahead { (ops : List Op) (s : Sequence) → IsBodyOf s ops → ahead_of ops ≡ Some (UpTo AtEnd s ∷ []) }
    ensures size { (s : Sequence) (at : ℕ) → length (flat at s) ≡ size s }
{}

/// Each row of the table of integer operators is what the operator with its byte does.
pub fn no_row_hides()
    ensures { AllByRecursion (λ row. operation_of row.0 ≡ Some row.1) all_rows }
{}
