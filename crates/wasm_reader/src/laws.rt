//! Laws of the definitions. Each function does nothing: its contract is the law.
ghost use Rattle.std.specs.Prelude.{◌≡◌, ◌⊎◌, ℕ, List};
ghost use Rattle.wasm_ops.specs.declared.faults.Fault.{Fault};
ghost use Rattle.wasm_ops.specs.declared.modules.Module.{Module};
ghost use Rattle.wasm_ops.specs.Bytes.{AreBytes};
ghost use Rattle.wasm_ops.specs.WellFormed.{IsWellFormed};
ghost use Rattle.wasm_reader.specs.Modules.{SpellsModule, RefusesModule};
ghost use Rattle.wasm_reader.specs.Structure.{IsModule};

/// A module that bytes spell is the header and sections: those that are not custom stand in their order, each at most once, each custom one begins with a name, and each part of the module is what its section spells, or empty where there is none. Where a section says how many data segments there are, there are as many. It is well formed.
pub fn header_and_sections()
    ensures structure { (bytes : List ℕ) (parts : Module) → SpellsModule bytes parts → IsModule bytes parts }
    ensures formed { (bytes : List ℕ) (parts : Module) → AreBytes bytes → SpellsModule bytes parts → IsWellFormed parts }
{}

/// Whatever the bytes are, they spell a module or are refused as one: one of the two, with one module or with one number and place.
pub fn module_or_refusal()
    ensures one_holds { (bytes : List ℕ) → ((parts : Module) × SpellsModule bytes parts) ⊎ ((fault : Fault) × RefusesModule bytes fault) }
    ensures never_both { (bytes : List ℕ) (parts : Module) (fault : Fault) → SpellsModule bytes parts → RefusesModule bytes fault → ⊥ }
    ensures one_module { (bytes : List ℕ) (parts other : Module) → SpellsModule bytes parts → SpellsModule bytes other → parts ≡ other }
    ensures one_fault { (bytes : List ℕ) (fault other : Fault) → RefusesModule bytes fault → RefusesModule bytes other → fault ≡ other }
{}
