//! Laws about the ending of a `soak`. Each function does nothing: its contract is the law.

ghost use Rattle.std.specs.Prelude.{◌≡◌, ℕ, List, Some, Ok, true, false};
ghost use Rattle.outside.specs.Library.{Files};
ghost use Rattle.generated_load.specs.Configuration.{soak_configuration};
ghost use Rattle.generated_load.specs.Modules.{soak_files};
ghost use Rattle.generated_load.specs.Recording.{soak_records};
ghost use Rattle.recorded_arrivals.specs.Limits.{has_too_many, too_many_requests};
ghost use Rattle.recorded_runner.specs.Summaries.{summary_of};
ghost use Rattle.serve_config.specs.Loading.{loaded};
ghost use Rattle.serve_config.specs.Routing.{all_routes};
ghost use Rattle.commands.specs.CommandLine.{AsksSoak, SoakWords, command_of};
ghost use Rattle.commands.specs.Commands.{ending};
ghost use Rattle.commands.specs.Endings.{recording_fault, shown, status_of};
ghost use Rattle.commands.specs.ReplayPlans.{summary_line};
ghost use Rattle.commands.specs.SoakPlans.{soak_loaded};
ghost use Rattle.commands.specs.declared.status.Status.TheVariants.{Ok as IsDone};

use generated_load::laws::{load_has_its_requests, load_is_whole};

/// How a `soak` ends, whatever the files: it reads none.
pub fn soak_endings()
    // All modules of the load are loaded.
    ensures loads { loaded soak_files 0 (all_routes soak_configuration.tenants) ≡ Ok soak_loaded }

    // Where the load has no more items than a recording may have, the text is the line of the summary
    // of its replay, and there is no note.
    ensures complete { (words : List (List ℕ)) (files : Files) (s : SoakWords)
        → command_of words ≡ Some (AsksSoak s) → has_too_many (soak_records s.start s.count) ≡ false
        → ending words files ≡ shown (summary_line
        (summary_of soak_configuration soak_loaded (soak_records s.start s.count))) }
    ensures too_many { (words : List (List ℕ)) (files : Files) (s : SoakWords)
        → command_of words ≡ Some (AsksSoak s) → has_too_many (soak_records s.start s.count) ≡ true
        → ending words files ≡ recording_fault too_many_requests }

    // A load never has more, so each `soak` ends so: none is refused for the number of its items.
    ensures always { (words : List (List ℕ)) (files : Files) (s : SoakWords)
        → command_of words ≡ Some (AsksSoak s)
        → ending words files ≡ shown (summary_line
        (summary_of soak_configuration soak_loaded (soak_records s.start s.count))) }

    // And so it is where it ends with status 0.
    ensures answered { (words : List (List ℕ)) (files : Files) (s : SoakWords)
        → command_of words ≡ Some (AsksSoak s) → status_of (ending words files) ≡ IsDone
        → ending words files ≡ shown (summary_line
        (summary_of soak_configuration soak_loaded (soak_records s.start s.count))) }
{
    load_is_whole();
    load_has_its_requests();
}
