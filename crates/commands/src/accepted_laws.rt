//! Laws about files that are accepted. Each function does nothing: its contract is the law.

ghost use Rattle.std.specs.Prelude.{◌≡◌, ◌<◌, ◌^◌, ℕ, List, Some, length};
ghost use Rattle.outside.specs.Library.{Files};
ghost use Rattle.wasm_meaning.specs.Programs.{Program};
ghost use Rattle.recorded_runner.specs.Alone.{alone};
ghost use Rattle.recorded_runner.specs.Readings.{replies_in, replies_to};
ghost use Rattle.recorded_runner.specs.ReplayText.{replay_text};
ghost use Rattle.recorded_runner.specs.Summaries.{summary_of};
ghost use Rattle.recording_format.specs.Recorded.{AreBytes};
ghost use Rattle.recording_format.specs.declared.records.Record.{Record};
ghost use Rattle.serve_config.specs.Configuration.{Configuration};
ghost use Rattle.commands.specs.AcceptedFiles.{AreAccepted};
ghost use Rattle.commands.specs.CommandLine.{AsksReplay, ReplayWords, command_of};
ghost use Rattle.commands.specs.Commands.{ending};
ghost use Rattle.commands.specs.Endings.{Done, status_of, text_of};
ghost use Rattle.commands.specs.ReplayPlans.{summary_line};
ghost use Rattle.commands.specs.declared.status.Status.TheVariants.{Ok as IsDone};

use crate::replay_laws::{recordings_are_read, replay_endings};
use recorded_runner::laws::tenants_are_isolated;
use serve_config::laws::configurations_fit;

/// A `replay` of files that are accepted, each by its grammar, ends with status 0, and where it ends
/// so they are: the configuration's file is one, the file of each route spells a module that is valid
/// and linked, and the recording's file spells records of no more than 4,096 items.
pub fn accepted_files_are_replayed()
    ensures done { (words : List (List ℕ)) (files : Files) (r : ReplayWords)
        (c : Configuration) (programs : List Program) (records : List Record)
        → command_of words ≡ Some (AsksReplay r) → AreAccepted r files c programs records
        → status_of (ending words files) ≡ IsDone }

    // And the text and the note are those of the replay of just what they spell.
    ensures ends { (words : List (List ℕ)) (files : Files) (r : ReplayWords)
        (c : Configuration) (programs : List Program) (records : List Record)
        → command_of words ≡ Some (AsksReplay r) → AreAccepted r files c programs records
        → ending words files ≡ Done (replay_text c programs records)
        (summary_line (summary_of c programs records)) }

    // Of the recording's file it is asked that it holds bytes, as each file does.
    ensures only { (words : List (List ℕ)) (files : Files) (r : ReplayWords)
        → command_of words ≡ Some (AsksReplay r)
        → ((file : List ℕ) → files r.recording_name ≡ Some file → AreBytes file)
        → status_of (ending words files) ≡ IsDone
        → (c : Configuration) × (programs : List Program) × (records : List Record)
        × AreAccepted r files c programs records }
{
    configurations_fit();
    recordings_are_read();
    replay_endings();
}

/// A second `replay`, of a tenant's connections alone, writes just what the first one wrote to them:
/// the configuration and the modules are the same, and the second recording is the first without the
/// connections of all others.
pub fn neighbours_change_nothing()
    ensures { (words others : List (List ℕ)) (files held : Files) (r s : ReplayWords)
        (c : Configuration) (programs : List Program) (records : List Record) (tenant : ℕ)
        → command_of words ≡ Some (AsksReplay r) → AreAccepted r files c programs records
        → command_of others ≡ Some (AsksReplay s)
        → AreAccepted s held c programs (alone tenant records)
        → length (text_of (ending words files)) < 2 ^ 32
        → replies_to tenant records (text_of (ending words files))
        ≡ replies_in (alone tenant records) (text_of (ending others held)) }
{
    accepted_files_are_replayed();
    tenants_are_isolated();
}
