//! From the words to the ending: reads each file in its order, checks it, and runs.

ghost use Rattle.std.specs.Prelude.{◌≡◌, ◌^◌, ◌≤◌, map, IfOk, Some, string_bytes};
ghost use Rattle.commands.specs.ModuleChecks.{given_pages};
ghost use Rattle.commands.specs.CommandLine.{AsksReplay, ReplayWords, command_of, invoke_view};
ghost use Rattle.commands.specs.Commands.{body_end, body_plan, check_body, check_invoked, invoke_plan, plan_for};
ghost use Rattle.commands.specs.Endings.{IsBrief, due};
ghost use Rattle.commands.specs.Plans.{Comes, go_on};

use crate::checking::check;
use crate::command::{Command, Invoke};
use crate::ending::Ending;
use crate::execution::execute;
use crate::replaying::replay_files;
use crate::soaking::soak;
use crate::texts::{HELP, VERSION};
use module_files::{Unmade, program_of};
use outside::{Fetch, Gate, Library};
use std::alloc::{AllocError, Global};
use std::thread::Threads;
use wasm_instance::Program;
use wasm_reader::MOST_BYTES;

/// The most bytes of a request body.
const BODY_LIMIT: u64 = 1 << 20;

/// The pages of 64 KiB that a program is given: 16 MiB.
const GIVEN_PAGES: u32 = 256;

/// The refusal of a body that is too long.
const TOO_LONG: u8 = 76;

/// The ending of a command line, by its plan and the reads that are made here. Nothing is written
/// yet.
pub fn plan<R: Threads + Sync, L: Library, G: Gate>(
    rt: &R,
    alloc: Global,
    words: &[String],
    lib: &mut L,
    gate: &G,
) -> Result<Ending, AllocError>
    ensures comes { IfOk result
        (Comes L.gave (plan_for (map string_bytes words.now)) lib.old lib.new) }
    ensures brief { (r : ReplayWords) → command_of (map string_bytes words.now) ≡ Some (AsksReplay r)
        → IfOk result IsBrief }
    ensures same { (L.state lib.new).held ≡ (L.state lib.old).held }
    ensures later { (L.state lib.old).faults ≤ (L.state lib.new).faults }
{
    match Command::parse(words) {
        None => Ending::usage(alloc),
        Some(Command::Help) => Ending::shown(alloc, HELP),
        Some(Command::Version) => Ending::shown(alloc, VERSION),
        Some(Command::Invoke(invoke)) => from_module(alloc, invoke, lib),
        Some(Command::Check(name)) => check(alloc, name, lib),
        Some(Command::Soak(words)) => soak(rt, alloc, words, gate),
        Some(Command::Replay(words)) => replay_files(rt, alloc, words, lib, gate),
    }
}

/// The ending of an `invoke` from the reading of its module on.
fn from_module<L: Library>(
    alloc: Global,
    invoke: Invoke<'_>,
    lib: &mut L,
) -> Result<Ending, AllocError>
    requires budget { invoke.budget ≤ 2 ^ 40 }
    ensures comes { IfOk result
        (Comes L.gave (invoke_plan (invoke_view invoke.entry)) lib.old lib.new) }
    ensures same { (L.state lib.new).held ≡ (L.state lib.old).held }
    ensures later { (L.state lib.old).faults ≤ (L.state lib.new).faults }
{
    // One byte more is read of a longer file, by which its reader sees that it is too long.
    match lib.read(alloc, invoke.module_name, MOST_BYTES) {
        Ok(bytes) => from_bytes(alloc, bytes.as_slice(), invoke, lib),
        Err(Fetch::Missing) => Ending::not_read(alloc, invoke.module_name),
        Err(Fetch::Failed) => Ending::not_read(alloc, invoke.module_name),
        Err(Fetch::NoMemory) => Err(AllocError),
    }
}

/// The ending of an `invoke` once the bytes of its module are there.
fn from_bytes<L: Library>(
    alloc: Global,
    bytes: &[u8],
    invoke: Invoke<'_>,
    lib: &mut L,
) -> Result<Ending, AllocError>
    requires budget { invoke.budget ≤ 2 ^ 40 }
    ensures comes { IfOk result (Comes L.gave
        (go_on (body_plan (invoke_view invoke.entry)) (check_invoked bytes.now)) lib.old lib.new) }
    ensures same { (L.state lib.new).held ≡ (L.state lib.old).held }
    ensures later { (L.state lib.old).faults ≤ (L.state lib.new).faults }
{
    match program_of(alloc, bytes, GIVEN_PAGES) {
        Ok(program) => from_body(alloc, program, invoke, lib),
        Err(Unmade::Unfit { number, place }) => Ending::module_fault(alloc, 0, number, place),
        Err(Unmade::NoMemory) => Err(AllocError),
    }
}

/// The ending of an `invoke` from the reading of its body on.
fn from_body<L: Library>(
    alloc: Global,
    program: Program,
    invoke: Invoke<'_>,
    lib: &mut L,
) -> Result<Ending, AllocError>
    requires budget { invoke.budget ≤ 2 ^ 40 }
    requires pages { program.pages ≡ given_pages }
    ensures comes { IfOk result
        (Comes L.gave (body_plan (invoke_view invoke.entry) program) lib.old lib.new) }
    ensures same { (L.state lib.new).held ≡ (L.state lib.old).held }
    ensures later { (L.state lib.old).faults ≤ (L.state lib.new).faults }
{
    match lib.read(alloc, invoke.body_name, BODY_LIMIT) {
        Ok(body) => from_run(alloc, program, body, invoke.budget),
        Err(Fetch::Missing) => {
            drop(program);
            Ending::not_read(alloc, invoke.body_name)
        }
        Err(Fetch::Failed) => {
            drop(program);
            Ending::not_read(alloc, invoke.body_name)
        }
        Err(Fetch::NoMemory) => {
            drop(program);
            Err(AllocError)
        }
    }
}

/// The ending once both files are read.
fn from_run(
    alloc: Global,
    program: Program,
    body: Vec<u8>,
    budget: u64,
) -> Result<Ending, AllocError>
    requires budget { budget ≤ 2 ^ 40 }
    requires pages { program.pages ≡ given_pages }
    ensures { IfOk result (λ e. e ≡ due (body_end program budget (check_body body.items))) }
{
    if body.len() as u64 > BODY_LIMIT {
        drop(program);
        return Ending::recording_fault(alloc, TOO_LONG);
    }
    let answer = execute(alloc, program, body, budget)?;
    let ending = Ending::answered(alloc, &answer);
    drop(answer);
    ending
}
