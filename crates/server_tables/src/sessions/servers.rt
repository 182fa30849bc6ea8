// The server of a group's first line.
ghost use Rattle.std.specs.Prelude.{◌≡◌, IfOk, length};
ghost use Rattle.serve_config.specs.Routing.{all_routes};
ghost use Rattle.shop_desks.specs.Shops.{IsFirstVisit, IsVisitOf};

use crate::calls::words::NoRow;
use crate::spelling::bytes_of;
use link_sessions::Server;
use outside::{Shelf, Text};
use serve_config::{Config, load_programs, read_config};
use shop_desks::Visit;
use std::alloc::Global;
use std::sync::{Arc, Wait};
use wasm_instance::Program;

/// The module that a word spells, with its name.
fn module_of(alloc: Global, word: &str) -> Result<(Text, Vec<u8>), NoRow> {
    let Some((name, spelling)) = word.split_once(':') else {
        return Err(NoRow);
    };
    let name = Text::new(String::from_str(alloc, name)?);
    match bytes_of(alloc, spelling) {
        Some(bytes) => Ok((name, bytes)),
        None => Err(NoRow),
    }
}

/// The modules of a line, as files.
fn shelf_of(alloc: Global, words: &str) -> Result<Shelf, NoRow> {
    let mut files = Vec::new(alloc);
    for word in words.split(' ') {
        files.push(module_of(alloc, word)?)?;
    }
    Ok(Shelf::new(files, Vec::new(alloc)))
}

/// The configuration that a word spells.
fn config_of(alloc: Global, word: &str) -> Result<Config, NoRow> {
    let Some(bytes) = bytes_of(alloc, word) else {
        return Err(NoRow);
    };
    match read_config(alloc, &bytes) {
        Ok(config) => Ok(config),
        Err(_) => Err(NoRow),
    }
}

/// The program of each route.
fn programs_of(alloc: Global, config: &Config, words: &str) -> Result<Vec<Arc<Program>>, NoRow>
    ensures { IfOk result (λ programs. length programs.items ≡ length (all_routes config.now.tenants)) }
{
    let mut shelf = shelf_of(alloc, words)?;
    match load_programs(alloc, config, &mut shelf) {
        Ok(programs) if programs.len() == config.route_count() as usize => Ok(programs),
        _ => Err(NoRow),
    }
}

/// The server of a line, and the first visit of its shop.
pub(crate) fn server_of<R: Wait>(
    rt: &R,
    alloc: Global,
    line: &str,
) -> Result<(Server, Visit), NoRow>
    ensures visit { IfOk result (λ made. IsFirstVisit made.0.shop made.1) }
    ensures own { IfOk result (λ made. IsVisitOf made.0.shop made.1) }
{
    let (config, modules) = line.split_once(' ').unwrap_or((line, ""));
    let config = config_of(alloc, config)?;
    let programs = programs_of(alloc, &config, modules)?;
    match Server::new(rt, alloc, config, programs) {
        Ok(made) => Ok(made),
        Err(_) => Err(NoRow),
    }
}
