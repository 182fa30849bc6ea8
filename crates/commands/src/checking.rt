//! A configuration with its modules: it is read and checked, and then each route's module is.

ghost use Rattle.std.specs.Prelude.{◌≡◌, ◌≤◌, IfErr, IfOk, length};
ghost use Rattle.serve_config.specs.Routing.{all_routes};
ghost use Rattle.commands.specs.CheckPlans.{check_config, check_plan, config_plan, routes_plan};
ghost use Rattle.commands.specs.Plans.{Comes, go_on};
ghost use Rattle.commands.specs.Readying.{EndsBrief, Readies, ReadiesPrograms};
ghost use Rattle.commands.specs.declared.checking.Unready.TheVariants.{NoMemory as IsNoMemory, Refused as IsRefused};

use crate::ending::Ending;
use outside::{Fetch, Library};
use serve_config::{Config, ConfigFault, LoadFault, load_programs, read_config};
use std::alloc::{AllocError, Global};
use std::sync::Arc;
use wasm_instance::Program;

/// The most bytes of a configuration's file.
const CONFIG_LIMIT: u64 = 1 << 20;

/// A configuration, and the program of each of its routes, in the order of their numbers.
#[derive(Drop)]
pub struct Configured {
    /// The configuration.
    pub config: Config,
    /// The programs, each linked with its route's pages.
    pub programs: Vec<Arc<Program>>,
}

/// Why there is no configuration with its programs.
#[derive(Drop)]
pub enum Unready {
    /// A file could not be read or is refused, and the command ends so.
    Refused(Ending),
    /// Memory ran out.
    NoMemory,
}

impl Unready {
    /// The ending of the command.
    pub fn into_ending(self) -> Result<Ending, AllocError>
        ensures { IfOk result (λ e. self ≡ IsRefused e) }
    {
        match self {
            Unready::Refused(ending) => Ok(ending),
            Unready::NoMemory => Err(AllocError),
        }
    }
}

impl From<AllocError> for Unready {
    ghost from_gives = { λ _ result. result ≡ IsNoMemory };

    fn from(_: AllocError) -> Self {
        Unready::NoMemory
    }
}

/// The ending of a `check`, by the reads that are made here.
pub fn check<L: Library>(alloc: Global, name: &str, lib: &mut L) -> Result<Ending, AllocError>
    ensures comes { IfOk result (Comes L.gave (check_plan name.now) lib.old lib.new) }
    ensures same { (L.state lib.new).held ≡ (L.state lib.old).held }
    ensures later { (L.state lib.old).faults ≤ (L.state lib.new).faults }
{
    match prepare(alloc, name, lib) {
        Ok(ready) => {
            let ending = Ending::counted(alloc, &ready.config);
            drop(ready);
            ending
        }
        Err(why) => why.into_ending(),
    }
}

/// The configuration in the file of this name, and the programs of its routes.
#[tactic(auto, using(crate::proofs::Brief::brief_refusal))]
pub fn prepare<L: Library>(alloc: Global, name: &str, lib: &mut L) -> Result<Configured, Unready>
    ensures readies { Readies L.gave (config_plan name.now) result lib.old lib.new }
    ensures brief { IfErr result EndsBrief }
    ensures same { (L.state lib.new).held ≡ (L.state lib.old).held }
    ensures later { (L.state lib.old).faults ≤ (L.state lib.new).faults }
{
    // One byte more is read of a longer file, by which its reader sees that it is too long.
    match lib.read(alloc, name, CONFIG_LIMIT) {
        Ok(bytes) => from_bytes(alloc, bytes.as_slice(), lib),
        Err(Fetch::Missing) => Err(Unready::Refused(Ending::not_read(alloc, name)?)),
        Err(Fetch::Failed) => Err(Unready::Refused(Ending::not_read(alloc, name)?)),
        Err(Fetch::NoMemory) => Err(Unready::NoMemory),
    }
}

/// The configuration that the bytes are, and the programs of its routes.
#[tactic(auto, using(crate::proofs::Brief::brief_refusal))]
fn from_bytes<L: Library>(alloc: Global, bytes: &[u8], lib: &mut L) -> Result<Configured, Unready>
    ensures readies { Readies L.gave (λ next. go_on (routes_plan next) (check_config bytes.now))
        result lib.old lib.new }
    ensures brief { IfErr result EndsBrief }
    ensures same { (L.state lib.new).held ≡ (L.state lib.old).held }
    ensures later { (L.state lib.old).faults ≤ (L.state lib.new).faults }
{
    match read_config(alloc, bytes) {
        Ok(config) => with_programs(alloc, config, lib),
        Err(ConfigFault::Refused(number)) => {
            Err(Unready::Refused(Ending::config_fault(alloc, number)?))
        }
        Err(ConfigFault::NoMemory) => Err(Unready::NoMemory),
    }
}

/// The configuration, and the programs of its routes.
fn with_programs<L: Library>(
    alloc: Global,
    config: Config,
    lib: &mut L,
) -> Result<Configured, Unready>
    ensures readies { Readies L.gave (λ next. routes_plan next config) result lib.old lib.new }
    ensures brief { IfErr result EndsBrief }
    ensures same { (L.state lib.new).held ≡ (L.state lib.old).held }
    ensures later { (L.state lib.old).faults ≤ (L.state lib.new).faults }
{
    match programs_of(alloc, &config, lib) {
        Ok(programs) => Ok(Configured { config, programs }),
        Err(why) => {
            drop(config);
            Err(why)
        }
    }
}

/// The programs of the configuration's routes.
#[tactic(auto, using(crate::proofs::Brief::brief_refusal))]
fn programs_of<L: Library>(
    alloc: Global,
    config: &Config,
    lib: &mut L,
) -> Result<Vec<Arc<Program>>, Unready>
    ensures readies { ReadiesPrograms L.gave config.now result lib.old lib.new }
    ensures brief { IfErr result EndsBrief }
    ensures same { (L.state lib.new).held ≡ (L.state lib.old).held }
    ensures later { (L.state lib.old).faults ≤ (L.state lib.new).faults }
{
    match load_programs(alloc, config, lib) {
        Ok(programs) => Ok(programs),
        Err(LoadFault::Read { route }) => {
            let name = config.route(route).module.as_str();
            Err(Unready::Refused(Ending::not_read(alloc, name)?))
        }
        Err(
            LoadFault::Module {
                route,
                number,
                place,
            },
        ) => {
            let ending = Ending::module_fault(alloc, route, number, place)?;
            Err(Unready::Refused(ending))
        }
        Err(LoadFault::NoMemory) => Err(Unready::NoMemory),
    }
}
