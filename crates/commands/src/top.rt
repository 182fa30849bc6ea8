//! The top call: a whole command, from its words to what is written.

ghost use Rattle.std.specs.Prelude.{◌≡◌, ◌≢◌, ◌≤◌, ◌⊎◌, map, string_bytes, None, Some, IfSome, IsSomeAnd};
ghost use Rattle.outside.specs.Faults.{Rose};
ghost use Rattle.commands.specs.CommandLine.{AsksReplay, ReplayWords, command_of};
ghost use Rattle.commands.specs.Commands.{ending, plan_for};
ghost use Rattle.commands.specs.Endings.{Due, Ended, IsBrief, out_of_memory, status_of};
ghost use Rattle.commands.specs.Delivery.{Leaves, Took};
ghost use Rattle.commands.specs.Handing.{HandsOver};
ghost use Rattle.commands.specs.Plans.{Comes, ReadsBytes, Walks};
ghost use Rattle.commands.specs.Promises.{Refused, WriteRose, Yields};
ghost use Rattle.commands.specs.Replays.{WritesApart, WritesReplay};

use crate::delivery::deliver;
use crate::planning::plan;
use crate::status::Status;
use outside::{Gate, Library, Sink};
use recorded_runner::laws::tenants_are_isolated;
use std::alloc::Global;
use std::thread::Threads;

/// The note of a run for which there was no memory. It is written as it stands, since there is
/// no memory to make one.
pub const OUT_OF_MEMORY: &[u8] = b"memory\n";

/// Carries out the command that the words ask for, over the files of `lib`: what it has to say goes
/// to `out`, and then one line to `notes`. It always returns.
///
/// The order is: the words; each file read and then checked; the run; the writing. `rt` and `gate`
/// are handed to `replay` and `soak`: each turn of theirs passes the gate.
///
/// What the ending of each command is, and when, the laws say: `laws::shown_endings` and
/// `laws::invoke_endings`, `check_laws::check_endings`, `replay_laws::replay_endings` and
/// `soak_laws::soak_endings`; what a file that cannot be read leaves, `read_laws`.
pub fn run<R: Threads + Sync, L: Library, S: Sink, N: Sink, G: Gate>(
    rt: &R,
    alloc: Global,
    words: &[String],
    lib: &mut L,
    out: &mut S,
    notes: &mut N,
    gate: &G,
) -> Status
    // There is one ending, by the plan of the words and the reads that were made in this call,
    // and the status and the outputs are its.
    ensures ended { (e : Ended)
        × (Walks L.gave (plan_for (map string_bytes words.now)) lib.old lib.new e
        ⊎ (e ≡ out_of_memory))
        × Leaves e result
        (S.state out.old) (S.state out.new) (N.state notes.old) (N.state notes.new) }

    // So each output was called: with its bytes in order, in pieces of 65,536 bytes and a last
    // shorter one, where no bytes are no call; and not again behind a call that failed.
    ensures pieces { (e : Ended)
        × (Walks L.gave (plan_for (map string_bytes words.now)) lib.old lib.new e
        ⊎ (e ≡ out_of_memory))
        × HandsOver S.took N.took e result out.old out.new notes.old notes.new }

    // Over a library that tells its files: the status of the ending over them comes, unless there
    // was no memory, or a read or a write failed and was counted; and at status 0 the outputs took
    // just what this ending has for them.
    ensures exactly { IfSome (L.state lib.old).held (λ files.
        Yields (status_of (ending (map string_bytes words.now) files)) result
        (L.state lib.old) (L.state lib.new)
        (S.state out.old) (S.state out.new) (N.state notes.old) (N.state notes.new)) }
    ensures done { result ≡ Status.Ok → IfSome (L.state lib.old).held (λ files.
        Took (ending (map string_bytes words.now) files)
        (S.state out.old) (S.state out.new) (N.state notes.old) (N.state notes.new)) }

    // And the files that were read, which are those of the plan, are bytes.
    ensures bytes { result ≡ Status.Ok → IfSome (L.state lib.old).held (λ files.
        ReadsBytes files (plan_for (map string_bytes words.now))) }

    // Over any library: what a status says.
    ensures refused { result ≢ Status.Ok → result ≢ Status.WriteFault
        → Refused (S.state out.old) (S.state out.new) (N.state notes.old) (N.state notes.new) }
    ensures usage { result ≡ Status.Usage → command_of (map string_bytes words.now) ≡ None }
    ensures usage_else { command_of (map string_bytes words.now) ≡ None
        → (result ≡ Status.Usage) ⊎ (result ≡ Status.NoMemory) ⊎ (result ≡ Status.WriteFault) }
    ensures read_fault { result ≡ Status.ReadFault
        → Rose (L.state lib.old).faults (L.state lib.new).faults
        ⊎ IsSomeAnd (L.state lib.old).held (λ files.
        status_of (ending (map string_bytes words.now) files) ≡ Status.ReadFault) }
    ensures write_fault { result ≡ Status.WriteFault
        → WriteRose (S.state out.old) (S.state out.new) (N.state notes.old) (N.state notes.new) }
    ensures no_server { (result ≢ Status.NoThread) × (result ≢ Status.DoorFault) }

    // The replay theorem: a `replay` that ends with status 0 over a library that tells its files has
    // written just the text of the one-thread definition of the configuration, the programs and the
    // recording that the files spell, and the line of its summary.
    ensures replay { result ≡ Status.Ok → (r : ReplayWords)
        → command_of (map string_bytes words.now) ≡ Some (AsksReplay r)
        → IfSome (L.state lib.old).held (λ files. WritesReplay r files
        (S.state out.old) (S.state out.new) (N.state notes.old) (N.state notes.new)) }

    // And no tenant's replies in it depend on what the others ask: they are those that a replay of
    // the recording without the connections of all others has.
    ensures isolated { result ≡ Status.Ok → (r : ReplayWords)
        → command_of (map string_bytes words.now) ≡ Some (AsksReplay r)
        → IfSome (L.state lib.old).held (λ files. WritesApart r files
        (S.state out.old) (S.state out.new)) }

    ensures same_files { (L.state lib.new).held ≡ (L.state lib.old).held }
    ensures later { (L.state lib.old).faults ≤ (L.state lib.new).faults }
{
    tenants_are_isolated();
    carry_out(rt, alloc, words, lib, out, notes, gate)
}

/// Plans the ending, and then writes what is due.
fn carry_out<R: Threads + Sync, L: Library, S: Sink, N: Sink, G: Gate>(
    rt: &R,
    alloc: Global,
    words: &[String],
    lib: &mut L,
    out: &mut S,
    notes: &mut N,
    gate: &G,
) -> Status
    ensures ended { (e : Ended)
        × (Walks L.gave (plan_for (map string_bytes words.now)) lib.old lib.new e
        ⊎ (e ≡ out_of_memory))
        × Leaves e result
        (S.state out.old) (S.state out.new) (N.state notes.old) (N.state notes.new)
        × HandsOver S.took N.took e result out.old out.new notes.old notes.new }
    ensures brief { result ≡ Status.Ok → (r : ReplayWords)
        → command_of (map string_bytes words.now) ≡ Some (AsksReplay r)
        → (planned : Due) × (planned.status ≡ Status.Ok) × IsBrief planned
        × Comes L.gave (plan_for (map string_bytes words.now)) lib.old lib.new planned }
    ensures same_files { (L.state lib.new).held ≡ (L.state lib.old).held }
    ensures later { (L.state lib.old).faults ≤ (L.state lib.new).faults }
{
    match plan(rt, alloc, words, lib, gate) {
        Ok(ending) => match deliver(ending.text(), ending.note().as_bytes(), out, notes) {
            Ok(()) => ending.status(),
            Err(_) => Status::WriteFault,
        },
        Err(_) => out_of_memory(out, notes),
    }
}

/// Refuses a command for want of memory.
pub fn out_of_memory<S: Sink, N: Sink>(out: &mut S, notes: &mut N) -> Status
    ensures leaves { Leaves out_of_memory result
        (S.state out.old) (S.state out.new) (N.state notes.old) (N.state notes.new) }
    ensures pieces { HandsOver S.took N.took out_of_memory result
        out.old out.new notes.old notes.new }
{
    match deliver(&[], OUT_OF_MEMORY, out, notes) {
        Ok(()) => Status::NoMemory,
        Err(_) => Status::WriteFault,
    }
}
