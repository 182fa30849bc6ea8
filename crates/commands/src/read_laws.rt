//! Laws about the reads of a command. Each function does nothing: its contract is the law.

ghost use Rattle.std.specs.Prelude.{◌≡◌, ℕ, List, [], Some};
ghost use Rattle.outside.specs.Library.{Files};
ghost use Rattle.outside.specs.Shelf.{Contents, ShelfGave};
ghost use Rattle.commands.specs.Commands.{plan_for};
ghost use Rattle.commands.specs.Endings.{Ended, status_of};
ghost use Rattle.commands.specs.Plans.{IsUnread, Plan, Walks};
ghost use Rattle.commands.specs.declared.status.Status.TheVariants.{ReadFault as IsReadFault};

use outside::Library;

/// How the reads of a command come to a read fault, over a library that tells its files: by the
/// last of them. That call failed; or no file has the name, and it left the count of faults as it
/// was.
pub fn read_faults_are_told<L: Library>()
    ensures { (words : List (List ℕ)) (files : Files) (old new : L) (e : Ended)
        → (L.state old).held ≡ Some files → Walks L.gave (plan_for words) old new e
        → status_of e ≡ IsReadFault → IsUnread L.state L.gave files new e }
{}

/// Over files in memory none of whose calls fail no command counts a fault of theirs, whatever it
/// reads, so also where the name of a file is not held.
pub fn shelves_count_no_fault()
    ensures { (plan : Plan) (old new : Contents) (e : Ended)
        → old.failing ≡ [] → Walks ShelfGave plan old new e → new.faults ≡ old.faults }
{}
