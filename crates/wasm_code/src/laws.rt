//! Laws of the definitions. Each function does nothing: its contract is the law.
ghost use Rattle.std.specs.Prelude.{◌≡◌, ◌⊎◌, ◌<◌, ◌≤◌, ◌^◌, ℕ, List, ◌++◌, length, Ok, Err, MatchResult};
ghost use Rattle.std.specs.List.{AllByRecursion};
ghost use Rattle.wasm_ops.specs.declared.faults.Fault.{Fault};
ghost use Rattle.wasm_ops.specs.declared.modules.Body.{Body};
ghost use Rattle.wasm_ops.specs.Bytes.{AreBytes};
ghost use Rattle.wasm_ops.specs.WellFormed.{IsWellFormedBody};
ghost use Rattle.wasm_code.specs.Forms.{form_of, control_rows, variable_rows, load_rows, store_rows};
ghost use Rattle.wasm_code.specs.Bodies.{SpellsBody, RefusesBody, body_from};

/// Whatever the bytes are, they spell a body or are refused as one: one of the two, with one body or with one number and place. The place is at most the number of bytes. A body that bytes spell is well formed.
pub fn body_or_refusal()
    ensures one_holds { (bytes : List ℕ) → ((body : Body) × SpellsBody bytes body) ⊎ ((fault : Fault) × RefusesBody bytes fault) }
    ensures never_both { (bytes : List ℕ) (body : Body) (fault : Fault) → SpellsBody bytes body → RefusesBody bytes fault → ⊥ }
    ensures one_body { (bytes : List ℕ) (body other : Body) → SpellsBody bytes body → SpellsBody bytes other → body ≡ other }
    ensures one_fault { (bytes : List ℕ) (fault other : Fault) → RefusesBody bytes fault → RefusesBody bytes other → fault ≡ other }
    ensures formed { (bytes : List ℕ) (body : Body) → AreBytes bytes → length bytes < 2 ^ 32 → SpellsBody bytes body → IsWellFormedBody body }
    ensures placed { (bytes : List ℕ) (fault : Fault) → RefusesBody bytes fault → fault.place ≤ length bytes }
{}

/// What `body_from` answers is the body that the bytes spell, or the fault that they are refused with.
pub fn body_as_function()
    ensures told { (bytes : List ℕ) → MatchResult (body_from bytes) (SpellsBody bytes) (RefusesBody bytes) }
    ensures only { (bytes : List ℕ) (body : Body) → SpellsBody bytes body → body_from bytes ≡ Ok body }
    ensures only_refused { (bytes : List ℕ) (fault : Fault) → RefusesBody bytes fault → body_from bytes ≡ Err fault }
{}

/// Each row of the tables of operators is what its byte begins, so no row stands behind one that hides it.
pub fn no_row_hides()
    ensures { AllByRecursion (λ row. form_of row.0 ≡ row.1) (control_rows ++ variable_rows ++ load_rows ++ store_rows) }
{}
