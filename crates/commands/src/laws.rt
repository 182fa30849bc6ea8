//! Laws of the definitions. Each function does nothing: its contract is the law.

ghost use Rattle.std.specs.Prelude.{◌≡◌, ◌<◌, ◌≤◌, ℕ, List, None, Some, length};
ghost use Rattle.outside.specs.Library.{Files};
ghost use Rattle.wasm_ops.specs.Bytes.{AreBytes};
ghost use Rattle.wasm_ops.specs.declared.faults.Fault.{Fault};
ghost use Rattle.wasm_meaning.specs.LinkRules.{link_number};
ghost use Rattle.wasm_meaning.specs.Programs.{Program};
ghost use Rattle.wasm_meaning.specs.Requests.{Request, Verdict, verdict};
ghost use Rattle.wasm_meaning.specs.declared.links.Unlinked.{Unlinked};
ghost use Rattle.wasm_meaning.specs.declared.violations.Broken.{Broken};
ghost use Rattle.wasm_reader.specs.Modules.{RefusesModule};
ghost use Rattle.module_files.specs.Accepted.{IsAccepted, IsInvalid, IsUnlinked};
ghost use Rattle.commands.specs.ModuleChecks.{given_pages};
ghost use Rattle.commands.specs.CommandLine.{AsksHelp, AsksInvoke, AsksVersion, InvokeWords, command_of};
ghost use Rattle.commands.specs.Commands.{body_limit, ending};
ghost use Rattle.commands.specs.Endings.{module_fault, not_read, recording_fault, shown, status_of, usage};
ghost use Rattle.commands.specs.Promises.{AnswersInvoke, HoldsBoth};
ghost use Rattle.commands.specs.Texts.{help_text, version_text};
ghost use Rattle.commands.specs.declared.status.Status.TheVariants.{Ok as IsDone};

/// How the words end that ask for no command, or for a text.
pub fn shown_endings()
    ensures usage { (words : List (List ℕ)) (files : Files)
        → command_of words ≡ None → ending words files ≡ usage }
    ensures help { (words : List (List ℕ)) (files : Files)
        → command_of words ≡ Some AsksHelp → ending words files ≡ shown help_text }
    ensures version { (words : List (List ℕ)) (files : Files)
        → command_of words ≡ Some AsksVersion → ending words files ≡ shown version_text }
{}

/// How an `invoke` ends over files, by what their bytes spell.
pub fn invoke_endings()
    // The module's file is missing; it is refused by its first fault; it spells a module that
    // breaks a rule; it spells a valid one that is not linked. What the body's file is does not matter.
    ensures module_missing { (words : List (List ℕ)) (files : Files) (i : InvokeWords)
        → command_of words ≡ Some (AsksInvoke i) → files i.module_name ≡ None
        → ending words files ≡ not_read i.module_name }
    ensures module_refused { (words : List (List ℕ)) (files : Files)
        (i : InvokeWords) (file : List ℕ) (fault : Fault)
        → command_of words ≡ Some (AsksInvoke i) → files i.module_name ≡ Some file
        → RefusesModule file fault
        → ending words files ≡ module_fault 0 fault.number fault.place }
    ensures module_invalid { (words : List (List ℕ)) (files : Files)
        (i : InvokeWords) (file : List ℕ) (broken : Broken)
        → command_of words ≡ Some (AsksInvoke i) → files i.module_name ≡ Some file
        → IsInvalid file broken
        → ending words files ≡ module_fault 0 broken.number broken.item }
    ensures module_unlinked { (words : List (List ℕ)) (files : Files)
        (i : InvokeWords) (file : List ℕ) (why : Unlinked)
        → command_of words ≡ Some (AsksInvoke i) → files i.module_name ≡ Some file
        → IsUnlinked given_pages file why
        → ending words files ≡ module_fault 0 (link_number why.rule) why.item }

    // It spells one that is valid and linked, and the body's file is missing, or too long, or neither.
    ensures body_missing { (words : List (List ℕ)) (files : Files)
        (i : InvokeWords) (file : List ℕ) (program : Program)
        → command_of words ≡ Some (AsksInvoke i) → files i.module_name ≡ Some file
        → IsAccepted given_pages file program → files i.body_name ≡ None
        → ending words files ≡ not_read i.body_name }
    ensures body_too_long { (words : List (List ℕ)) (files : Files)
        (i : InvokeWords) (file body : List ℕ) (program : Program)
        → command_of words ≡ Some (AsksInvoke i) → HoldsBoth i files file body
        → IsAccepted given_pages file program
        → body_limit < length body → ending words files ≡ recording_fault 76 }
    ensures complete { (words : List (List ℕ)) (files : Files)
        (i : InvokeWords) (file body : List ℕ) (program : Program)
        → command_of words ≡ Some (AsksInvoke i) → HoldsBoth i files file body
        → IsAccepted given_pages file program
        → length body ≤ body_limit → AnswersInvoke i files (ending words files) }

    // And where it ends with status 0, it is answered by the verdict.
    ensures answered { (words : List (List ℕ)) (files : Files) (i : InvokeWords)
        → command_of words ≡ Some (AsksInvoke i) → status_of (ending words files) ≡ IsDone
        → AnswersInvoke i files (ending words files) }
{}

/// A request to the program of a file that is accepted has a verdict, whatever its body and budget,
/// and the pages that it is linked with.
pub fn requests_have_verdicts()
    ensures { (pages : ℕ) (file : List ℕ) (program : Program)
        → AreBytes file → IsAccepted pages file program
        → (request : Request) → request.program ≡ program
        → (v : Verdict) × (verdict request ≡ Some v) }
{}
