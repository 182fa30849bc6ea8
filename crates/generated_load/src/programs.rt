//! The programs of the load.
ghost use Rattle.std.specs.Prelude.{◌≡◌, [], Ok, IfOk, IsOk, OnOk};
ghost use Rattle.std.specs.Arc.{arc_value};
ghost use Rattle.serve_config.specs.Routing.{all_routes};
ghost use Rattle.module_files.specs.FilePrograms.{program_of as program_due};
ghost use Rattle.serve_config.specs.Loading.{loaded};
ghost use Rattle.serve_config.specs.Loaded.{programs_in};
ghost use Rattle.generated_load.specs.Configuration.{soak_configuration};
ghost use Rattle.generated_load.specs.Modules.{nil_module, trap_module, loop_module, echo_module, soak_files};

use crate::modules::{ECHO, LOOP, NIL, TRAP};
use module_files::Unmade;
use std::alloc::{AllocError, Global};
use std::sync::Arc;
use wasm_instance::Program;

/// The program of bytes that are known to be one's.
fn program_of(alloc: Global, bytes: &[u8], pages: u32) -> Result<Arc<Program>, AllocError>
    requires { IsOk (program_due pages bytes.now) }
    ensures { IfOk result (λ shared. program_due pages bytes.now ≡ Ok (arc_value shared)) }
{
    match module_files::program_of(alloc, bytes, pages) {
        Ok(program) => Ok(Arc::new(alloc, program)?),
        Err(Unmade::Unfit { .. }) => unreachable!(),
        Err(Unmade::NoMemory) => Err(AllocError),
    }
}

fn nil(alloc: Global) -> Result<Arc<Program>, AllocError>
    ensures { IfOk result (λ shared. program_due 1 nil_module ≡ Ok (arc_value shared)) }
{
    program_of(alloc, &NIL, 1)
}

fn trap(alloc: Global) -> Result<Arc<Program>, AllocError>
    ensures { IfOk result (λ shared. program_due 1 trap_module ≡ Ok (arc_value shared)) }
{
    program_of(alloc, &TRAP, 1)
}

fn endless(alloc: Global) -> Result<Arc<Program>, AllocError>
    ensures { IfOk result (λ shared. program_due 1 loop_module ≡ Ok (arc_value shared)) }
{
    program_of(alloc, &LOOP, 1)
}

fn echo(alloc: Global) -> Result<Arc<Program>, AllocError>
    ensures { IfOk result (λ shared. program_due 2 echo_module ≡ Ok (arc_value shared)) }
{
    program_of(alloc, &ECHO, 2)
}

/// Adds the programs of the load, in the order of its routes.
fn add_all(alloc: Global, programs: &mut Vec<Arc<Program>>) -> Result<(), AllocError>
    requires { programs.old.items ≡ [] }
    ensures { OnOk result (loaded soak_files 0 (all_routes soak_configuration.tenants) ≡ Ok (programs_in programs.new.items)) }
{
    programs.push(nil(alloc)?)?;
    programs.push(trap(alloc)?)?;
    programs.push(endless(alloc)?)?;
    programs.push(echo(alloc)?)?;
    Ok(())
}

/// The programs of the load's configuration, in the order of its routes. Each is read from bytes that stand in the program, validated, and linked with its route's pages, as the modules of files are.
///
/// Only want of memory keeps them from being made.
pub fn soak_programs(alloc: Global) -> Result<Vec<Arc<Program>>, AllocError>
    ensures { IfOk result (λ shared. loaded soak_files 0 (all_routes soak_configuration.tenants) ≡ Ok (programs_in shared.items)) }
{
    let mut programs = Vec::new(alloc);
    match add_all(alloc, &mut programs) {
        Ok(()) => Ok(programs),
        Err(fault) => {
            drop(programs);
            Err(fault)
        }
    }
}
