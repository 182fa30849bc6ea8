//! Loading the programs of all routes.
ghost use Rattle.std.specs.Prelude.{◌≡◌, ◌≤◌, IfErr};
ghost use Rattle.std.specs.Arc.{arc_value};
ghost use Rattle.serve_config.specs.Routing.{all_routes};
ghost use Rattle.module_files.specs.FilePrograms.{program_of as program_due};
ghost use Rattle.serve_config.specs.Loading.{fit, Loads, LoadsAll};
ghost use Rattle.serve_config.specs.Loaded.{IsLoaded, IsOf, IsAmong, programs_in};

use crate::configs::Config;
use crate::load_faults::LoadFault;
use crate::tenants::Route;
use module_files::{Unmade, program_of};
use outside::{Fetch, Library};
use std::alloc::Global;
use std::sync::Arc;
use wasm_instance::Program;
use wasm_reader::MOST_BYTES;

/// The program of a route's file, once its bytes are there.
fn made(alloc: Global, bytes: &[u8], number: u32, pages: u32) -> Result<Arc<Program>, LoadFault>
    ensures made { IsLoaded arc_value result (λ one. one ≡ fit number (program_due pages bytes.now)) }
    ensures its { IfErr result (IsOf number) }
{
    match program_of(alloc, bytes, pages) {
        Ok(program) => Ok(Arc::new(alloc, program)?),
        Err(
            Unmade::Unfit {
                number: refusal,
                place,
            },
        ) => Err(LoadFault::Module {
            route: number,
            number: refusal,
            place,
        }),
        Err(Unmade::NoMemory) => Err(LoadFault::NoMemory),
    }
}

/// The program of the route with this number.
fn load<L: Library>(
    alloc: Global,
    number: u32,
    route: &Route,
    lib: &mut L,
) -> Result<Arc<Program>, LoadFault>
    ensures loaded { IsLoaded arc_value result (Loads L.gave number route.now lib.old lib.new) }
    ensures its { IfErr result (IsOf number) }
    ensures same { (L.state lib.new).held ≡ (L.state lib.old).held }
    ensures later { (L.state lib.old).faults ≤ (L.state lib.new).faults }
{
    // One byte more is read of a longer file, by which its reader sees that it is too long.
    match lib.read(alloc, route.module.as_str(), MOST_BYTES) {
        Ok(bytes) => made(alloc, bytes.as_slice(), number, route.pages),
        Err(Fetch::Missing) => Err(LoadFault::Read { route: number }),
        Err(Fetch::Failed) => Err(LoadFault::Read { route: number }),
        Err(Fetch::NoMemory) => Err(LoadFault::NoMemory),
    }
}

/// The programs of a configuration's routes, in the order of their numbers. For each route its file is read, of at most 4 MiB, and then its module is read, validated and linked with the route's pages, before the next file is read.
///
/// The first that fails is told: `Read` where a file cannot be read or is none, and `Module` where it is no program, with the number and the place of the first refusal.
/// A file that several routes name is read for each.
pub fn load_programs<L: Library>(
    alloc: Global,
    config: &Config,
    lib: &mut L,
) -> Result<Vec<Arc<Program>>, LoadFault>
    // The reads that bring this about were made in this call, these and no others, in this order.
    ensures loaded { IsLoaded (λ shared. programs_in shared.items) result
        (LoadsAll L.gave 0 (all_routes config.now.tenants) lib.old lib.new) }
    ensures known { IfErr result (IsAmong (all_routes config.now.tenants)) }
    ensures same { (L.state lib.new).held ≡ (L.state lib.old).held }
    ensures later { (L.state lib.old).faults ≤ (L.state lib.new).faults }
{
    let mut programs = Vec::new(alloc);
    for number in 0..config.route_count() {
        let route = config.route(number);
        let program = match load(alloc, number, route, lib) {
            Ok(program) => program,
            Err(fault) => return Err(fault),
        };
        programs.push(program)?;
    }
    Ok(programs)
}
