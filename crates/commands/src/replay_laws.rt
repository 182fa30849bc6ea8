//! Laws about the ending of a `replay`. Each function does nothing: its contract is the law.

ghost use Rattle.std.specs.Prelude.{◌≡◌, ◌^◌, ◌<◌, ℕ, List, None, Some, Ok, Err, length, true, false};
ghost use Rattle.outside.specs.Library.{Files};
ghost use Rattle.wasm_meaning.specs.Programs.{Program};
ghost use Rattle.recorded_arrivals.specs.Limits.{has_too_many, too_many_requests};
ghost use Rattle.recording_format.specs.Recorded.{AreBytes, IsRefused, Recorded};
ghost use Rattle.recording_format.specs.Refusals.{number_of as recording_number};
ghost use Rattle.recording_format.specs.declared.records.Record.{Record};
ghost use Rattle.recording_format.specs.declared.refusals.Refusal.{Refusal as RecordingRefusal};
ghost use Rattle.serve_config.specs.Configuration.{Configuration};
ghost use Rattle.serve_config.specs.Routing.{all_routes};
ghost use Rattle.commands.specs.CheckPlans.{check_plan};
ghost use Rattle.commands.specs.CommandLine.{AsksReplay, ReplayWords, command_of};
ghost use Rattle.commands.specs.Commands.{ending};
ghost use Rattle.commands.specs.Endings.{not_read, recording_fault, status_of};
ghost use Rattle.commands.specs.Plans.{over};
ghost use Rattle.commands.specs.Promises.{AreServed, HoldsConfig};
ghost use Rattle.commands.specs.Recordings.{recording_of};
ghost use Rattle.commands.specs.ReplayPlans.{replayed};
ghost use Rattle.commands.specs.Replays.{AnswersReplay, HoldsRecording, Ready};
ghost use Rattle.commands.specs.declared.status.Status.TheVariants.{Ok as IsDone};

/// How a `replay` ends over files.
pub fn replay_endings()
    // The configuration or one of its modules is not accepted, and it ends as a `check` of it does.
    ensures not_ready { (words : List (List ℕ)) (files : Files) (r : ReplayWords)
        → command_of words ≡ Some (AsksReplay r)
        → (status_of (over files (check_plan r.config_name)) ≡ IsDone → ⊥)
        → ending words files ≡ over files (check_plan r.config_name) }

    // They are accepted, and the recording's file is missing, or refused by its first fault.
    ensures recording_missing { (words : List (List ℕ)) (files : Files) (r : ReplayWords)
        (c : Configuration) (programs : List Program)
        → command_of words ≡ Some (AsksReplay r) → Ready r files c programs
        → files r.recording_name ≡ None → ending words files ≡ not_read r.recording_name }
    ensures recording_refused { (words : List (List ℕ)) (files : Files) (r : ReplayWords)
        (c : Configuration) (programs : List Program) (file : List ℕ) (why : RecordingRefusal)
        → command_of words ≡ Some (AsksReplay r) → Ready r files c programs
        → files r.recording_name ≡ Some file → recording_of (length c.tenants) file ≡ Err why
        → ending words files ≡ recording_fault (recording_number why) }

    // It is a recording of too many items, or not.
    ensures too_many { (words : List (List ℕ)) (files : Files) (r : ReplayWords)
        (c : Configuration) (programs : List Program) (file : List ℕ) (records : List Record)
        → command_of words ≡ Some (AsksReplay r) → Ready r files c programs
        → files r.recording_name ≡ Some file → recording_of (length c.tenants) file ≡ Ok records
        → has_too_many records ≡ true → ending words files ≡ recording_fault too_many_requests }
    ensures complete { (words : List (List ℕ)) (files : Files) (r : ReplayWords)
        (c : Configuration) (programs : List Program) (file : List ℕ) (records : List Record)
        → command_of words ≡ Some (AsksReplay r) → Ready r files c programs
        → files r.recording_name ≡ Some file → recording_of (length c.tenants) file ≡ Ok records
        → has_too_many records ≡ false → AnswersReplay r files (ending words files) }

    // And where it ends with status 0, it is answered by the replay's text and summary.
    ensures answered { (words : List (List ℕ)) (files : Files) (r : ReplayWords)
        → command_of words ≡ Some (AsksReplay r) → status_of (ending words files) ≡ IsDone
        → AnswersReplay r files (ending words files) }
{}

/// What the bytes of a recording's file are, as a function, is what they spell or are refused for.
pub fn recordings_are_read()
    ensures recorded { (tenants : ℕ) (bytes : List ℕ) (records : List Record) → tenants < 2 ^ 32
        → Recorded tenants bytes records → recording_of tenants bytes ≡ Ok records }
    ensures refused { (tenants : ℕ) (bytes : List ℕ) (why : RecordingRefusal) → tenants < 2 ^ 32
        → IsRefused tenants bytes why → recording_of tenants bytes ≡ Err why }
    ensures read { (tenants : ℕ) (bytes : List ℕ) (records : List Record) → AreBytes bytes
        → recording_of tenants bytes ≡ Ok records → Recorded tenants bytes records }
{}
