//! Laws about the ending of a `check`. Each function does nothing: its contract is the law.

ghost use Rattle.std.specs.Prelude.{◌≡◌, ℕ, List, None, Some, Err, length};
ghost use Rattle.outside.specs.Library.{Files};
ghost use Rattle.wasm_ops.specs.declared.faults.Fault.{Fault};
ghost use Rattle.wasm_meaning.specs.LinkRules.{link_number};
ghost use Rattle.wasm_meaning.specs.Programs.{Program};
ghost use Rattle.wasm_meaning.specs.declared.links.Unlinked.{Unlinked};
ghost use Rattle.wasm_meaning.specs.declared.violations.Broken.{Broken};
ghost use Rattle.wasm_reader.specs.Modules.{RefusesModule};
ghost use Rattle.serve_config.specs.Configuration.{Configuration};
ghost use Rattle.serve_config.specs.Reading.{configuration};
ghost use Rattle.serve_config.specs.Refusals.{number_of};
ghost use Rattle.serve_config.specs.Routing.{all_routes};
ghost use Rattle.serve_config.specs.declared.refusals.Refusal.{Refusal};
ghost use Rattle.serve_config.specs.declared.tenants.Route.{Route};
ghost use Rattle.module_files.specs.Accepted.{IsInvalid, IsUnlinked};
ghost use Rattle.commands.specs.CheckPlans.{counted};
ghost use Rattle.commands.specs.CommandLine.{AsksCheck, command_of};
ghost use Rattle.commands.specs.Commands.{ending};
ghost use Rattle.commands.specs.Endings.{config_fault, module_fault, not_read, status_of};
ghost use Rattle.commands.specs.Promises.{AnswersCheck, AreServed, ComesBehind, HoldsConfig};
ghost use Rattle.commands.specs.declared.status.Status.TheVariants.{Ok as IsDone};

/// How a `check` ends over files, by what the configuration's file is and what the modules' files
/// spell.
pub fn check_endings()
    // The configuration's file is missing, or refused by its first fault. What the modules' files
    // are does not matter.
    ensures config_missing { (words : List (List ℕ)) (files : Files) (name : List ℕ)
        → command_of words ≡ Some (AsksCheck name) → files name ≡ None
        → ending words files ≡ not_read name }
    ensures config_refused { (words : List (List ℕ)) (files : Files)
        (name file : List ℕ) (refusal : Refusal)
        → command_of words ≡ Some (AsksCheck name) → files name ≡ Some file
        → configuration file ≡ Err refusal
        → ending words files ≡ config_fault (number_of refusal) }

    // It is a configuration, the modules of the routes before one are served, and that one's file is
    // missing; it is refused as a module by its first fault; it spells a module that breaks a rule;
    // it spells a valid one that is not linked with the route's pages.
    ensures module_missing { (words : List (List ℕ)) (files : Files)
        (name : List ℕ) (c : Configuration) (before : List Route) (r : Route)
        → command_of words ≡ Some (AsksCheck name) → HoldsConfig name files c
        → ComesBehind files c before r → files r.«module» ≡ None
        → ending words files ≡ not_read r.«module» }
    ensures module_refused { (words : List (List ℕ)) (files : Files)
        (name : List ℕ) (c : Configuration) (before : List Route) (r : Route)
        (file : List ℕ) (fault : Fault)
        → command_of words ≡ Some (AsksCheck name) → HoldsConfig name files c
        → ComesBehind files c before r → files r.«module» ≡ Some file → RefusesModule file fault
        → ending words files ≡ module_fault (length before) fault.number fault.place }
    ensures module_invalid { (words : List (List ℕ)) (files : Files)
        (name : List ℕ) (c : Configuration) (before : List Route) (r : Route)
        (file : List ℕ) (broken : Broken)
        → command_of words ≡ Some (AsksCheck name) → HoldsConfig name files c
        → ComesBehind files c before r → files r.«module» ≡ Some file → IsInvalid file broken
        → ending words files ≡ module_fault (length before) broken.number broken.item }
    ensures module_unlinked { (words : List (List ℕ)) (files : Files)
        (name : List ℕ) (c : Configuration) (before : List Route) (r : Route)
        (file : List ℕ) (why : Unlinked)
        → command_of words ≡ Some (AsksCheck name) → HoldsConfig name files c
        → ComesBehind files c before r → files r.«module» ≡ Some file
        → IsUnlinked r.pages file why
        → ending words files ≡ module_fault (length before) (link_number why.rule) why.item }

    // All of its routes are served.
    ensures complete { (words : List (List ℕ)) (files : Files)
        (name : List ℕ) (c : Configuration) (programs : List Program)
        → command_of words ≡ Some (AsksCheck name) → HoldsConfig name files c
        → AreServed files (all_routes c.tenants) programs
        → ending words files ≡ counted c }

    // And where it ends with status 0, all of them are.
    ensures answered { (words : List (List ℕ)) (files : Files) (name : List ℕ)
        → command_of words ≡ Some (AsksCheck name) → status_of (ending words files) ≡ IsDone
        → AnswersCheck name files (ending words files) }
{}
