//! The server as a command: from the words to the status of the process.

ghost use Rattle.std.specs.Prelude.{◌≡◌, ◌≢◌, ◌≤◌, ◌⊎◌, ℕ, map, string_bytes, IfOk, IfSome, IsSomeAnd, None, Some};
ghost use Rattle.std.specs.Option.{option_map};
ghost use Rattle.outside.specs.Faults.{Rose};
ghost use Rattle.commands.specs.Endings.{Ended, due, out_of_memory, status_of};
ghost use Rattle.commands.specs.ServePromises.{AllEnded, AllServed, EndsServing, IsConfigured, NoneRose, Noted, ServeYields, Serves, served_end};
ghost use Rattle.commands.specs.ServeWords.{serve_asked, serve_ending};
ghost use Rattle.serve_config.specs.Configuration.{Configuration};

use crate::checking::{Configured, prepare};
use crate::delivery::write_pieces;
use crate::ending::Ending;
use crate::status::Status;
use crate::top::OUT_OF_MEMORY;
use outside::{Gate, Library, Sink};
use outside_links::{Clock, Door, Spawner};
use serve_sessions::{Served, serve};
use std::alloc::{AllocError, Global};
use std::sync::{Arc, Wait};

/// Serves the tenants of the configuration that the words name, until no port has more
/// connections, and then writes one line to `notes` where something kept it from that.
///
/// The order is: the words, which are `serve CONFIG`; the configuration and the modules of its
/// routes, each read and then checked as by `check`; the server. No clause says that it returns: a
/// server waits for its clients as long as these take. `gate` is passed before each turn.
pub fn serve_words<
    R: Wait + Copy + Send + Sync + 'static,
    L: Library,
    D: Door,
    C: Clock + Drop,
    P: Spawner,
    N: Sink,
    G: Gate + Drop,
>(
    rt: &R,
    alloc: Global,
    words: &[String],
    lib: &mut L,
    door: &mut D,
    clock: Arc<C>,
    threads: &mut P,
    notes: &mut N,
    gate: Arc<G>,
) -> Status
    // There is one ending, by the reads that were made in this call or by the server that began
    // behind them, and the status and the notes are its.
    ensures ended { (e : Ended)
        × (EndsServing L.gave (serve_asked (map string_bytes words.now)) lib.old lib.new
        (P.count threads.old) (P.count threads.new) (D.state door.old) (D.state door.new) e
        ⊎ (e ≡ out_of_memory))
        × Noted e result (N.state notes.old) (N.state notes.new) }

    // Status 0 comes only where as many ports came back ended as there are clerks for all tenants
    // of the configuration that was read.
    ensures all_ended { result ≡ Status.Ok → (c : Configuration)
        × IsConfigured L.gave (serve_asked (map string_bytes words.now)) lib.old lib.new c
        × AllEnded c (D.state door.old) (D.state door.new) }

    // Over a library that tells its files that is the configuration in the file that the words
    // name; and whatever status comes is the one that the files come to, with its exceptions.
    ensures all_served { result ≡ Status.Ok → IfSome (L.state lib.old).held (λ files.
        AllServed (serve_asked (map string_bytes words.now)) files
        (D.state door.old) (D.state door.new)) }
    ensures exactly { IfSome (L.state lib.old).held (λ files.
        ServeYields (status_of (serve_ending (map string_bytes words.now) files)) result
        (L.state lib.old) (L.state lib.new) (N.state notes.old) (N.state notes.new)) }

    // So where words and files are accepted and no count of faults rose, the server has closed, or
    // there was no memory.
    ensures complete { IfSome (L.state lib.old).held (λ files.
        status_of (serve_ending (map string_bytes words.now) files) ≡ Status.Ok
        → NoneRose (L.state lib.old) (L.state lib.new) (N.state notes.old) (N.state notes.new)
        (P.count threads.old) (P.count threads.new) (D.state door.old) (D.state door.new)
        → (result ≡ Status.Ok) ⊎ (result ≡ Status.NoMemory)) }

    // Over any library: what a status says.
    ensures usage { result ≡ Status.Usage → serve_asked (map string_bytes words.now) ≡ None }
    ensures usage_else { serve_asked (map string_bytes words.now) ≡ None
        → (result ≡ Status.Usage) ⊎ (result ≡ Status.NoMemory) ⊎ (result ≡ Status.WriteFault) }
    ensures read_fault { result ≡ Status.ReadFault
        → Rose (L.state lib.old).faults (L.state lib.new).faults
        ⊎ IsSomeAnd (L.state lib.old).held (λ files.
        status_of (serve_ending (map string_bytes words.now) files) ≡ Status.ReadFault) }
    ensures write_fault { result ≡ Status.WriteFault
        → Rose (N.state notes.old).faults (N.state notes.new).faults }
    ensures no_thread { result ≡ Status.NoThread
        → Rose (P.count threads.old) (P.count threads.new) }
    ensures door_fault { result ≡ Status.DoorFault
        → Rose (D.state door.old).faults (D.state door.new).faults }
    ensures no_recording { (number : ℕ) → result ≢ Status.RecordingFault number }

    ensures same_files { (L.state lib.new).held ≡ (L.state lib.old).held }
    ensures later { (L.state lib.old).faults ≤ (L.state lib.new).faults }
{
    carry_out(rt, alloc, words, lib, door, clock, threads, notes, gate)
}

/// Comes to the ending, and then writes its note.
fn carry_out<
    R: Wait + Copy + Send + Sync + 'static,
    L: Library,
    D: Door,
    C: Clock + Drop,
    P: Spawner,
    N: Sink,
    G: Gate + Drop,
>(
    rt: &R,
    alloc: Global,
    words: &[String],
    lib: &mut L,
    door: &mut D,
    clock: Arc<C>,
    threads: &mut P,
    notes: &mut N,
    gate: Arc<G>,
) -> Status
    ensures ended { (e : Ended)
        × (EndsServing L.gave (serve_asked (map string_bytes words.now)) lib.old lib.new
        (P.count threads.old) (P.count threads.new) (D.state door.old) (D.state door.new) e
        ⊎ (e ≡ out_of_memory))
        × Noted e result (N.state notes.old) (N.state notes.new) }
    ensures same_files { (L.state lib.new).held ≡ (L.state lib.old).held }
    ensures later { (L.state lib.old).faults ≤ (L.state lib.new).faults }
{
    match serve_files(rt, alloc, words, lib, door, clock, threads, gate) {
        Ok(ending) => match write_pieces(ending.note().as_bytes(), notes) {
            Ok(()) => ending.status(),
            Err(_) => Status::WriteFault,
        },
        Err(_) => match write_pieces(OUT_OF_MEMORY, notes) {
            Ok(()) => Status::NoMemory,
            Err(_) => Status::WriteFault,
        },
    }
}

/// The ending of these words. Nothing is written to the notes yet.
fn serve_files<
    R: Wait + Copy + Send + Sync + 'static,
    L: Library,
    D: Door,
    C: Clock + Drop,
    P: Spawner,
    G: Gate + Drop,
>(
    rt: &R,
    alloc: Global,
    words: &[String],
    lib: &mut L,
    door: &mut D,
    clock: Arc<C>,
    threads: &mut P,
    gate: Arc<G>,
) -> Result<Ending, AllocError>
    ensures serves { IfOk result (Serves L.gave (serve_asked (map string_bytes words.now))
        lib.old lib.new (P.count threads.old) (P.count threads.new)
        (D.state door.old) (D.state door.new)) }
    ensures same { (L.state lib.new).held ≡ (L.state lib.old).held }
    ensures later { (L.state lib.old).faults ≤ (L.state lib.new).faults }
{
    match served_name(words) {
        None => Ending::usage(alloc),
        Some(name) => match prepare(alloc, name, lib) {
            Ok(ready) => {
                let Configured { config, programs } = ready;
                let served = serve(rt, alloc, config, programs, door, clock, threads, gate);
                served_ending(alloc, served)
            }
            Err(why) => why.into_ending(),
        },
    }
}

/// The name of the configuration, if the words are `serve` and a name.
fn served_name(words: &[String]) -> Option<&str>
    ensures { option_map (λ (name : _). name.now) result
        ≡ serve_asked (map string_bytes words.now) }
{
    match words {
        [word, name] => {
            if word.as_str() == "serve" {
                Some(name.as_str())
            } else {
                None
            }
        }
        _ => None,
    }
}

/// The ending that a server's answer is told as.
fn served_ending(alloc: Global, served: Served) -> Result<Ending, AllocError>
    ensures { IfOk result (λ e. (served ≢ Served.NoMemory) × (e ≡ due (served_end served))) }
{
    match served {
        Served::Closed => Ok(Ending::closed(alloc)),
        Served::NoThread => Ending::no_thread(alloc),
        Served::DoorFault => Ending::door_fault(alloc),
        Served::NoMemory => Err(AllocError),
    }
}
