//! Laws of the definitions. The function does nothing: its contract is the law.

ghost use Rattle.std.specs.Prelude.{◌≡◌, ◌↔◌, ℕ, List, Ok, Err};
ghost use Rattle.wasm_ops.specs.declared.faults.Fault.{Fault};
ghost use Rattle.wasm_meaning.specs.LinkRules.{link_number};
ghost use Rattle.wasm_meaning.specs.Programs.{Program as ProgramValue};
ghost use Rattle.wasm_meaning.specs.declared.links.Unlinked.{Unlinked};
ghost use Rattle.wasm_meaning.specs.declared.violations.Broken.{Broken};
ghost use Rattle.wasm_reader.specs.Modules.{RefusesModule};
ghost use Rattle.module_files.specs.Accepted.{IsAccepted, IsInvalid, IsUnlinked};
ghost use Rattle.module_files.specs.FilePrograms.{program_of};

/// What the program of a file is, by what its bytes spell; and what refuses one that has none.
pub fn programs_are_spelt()
    ensures accepted { (pages : ℕ) (bytes : List ℕ) (program : ProgramValue)
        → (program_of pages bytes ≡ Ok program) ↔ IsAccepted pages bytes program }
    ensures refused { (pages : ℕ) (bytes : List ℕ) (fault : Fault) → RefusesModule bytes fault
        → program_of pages bytes ≡ Err (record { number = fault.number; place = fault.place }) }
    ensures invalid { (pages : ℕ) (bytes : List ℕ) (broken : Broken) → IsInvalid bytes broken
        → program_of pages bytes ≡ Err (record { number = broken.number; place = broken.item }) }
    ensures unlinked { (pages : ℕ) (bytes : List ℕ) (why : Unlinked) → IsUnlinked pages bytes why
        → program_of pages bytes
        ≡ Err (record { number = link_number why.rule; place = why.item }) }
{}
