//! What `read_config` and `Routes::find` answer to each case.
//!
//! A line of the file is `read HEX NAME`, which asks for the configuration of these bytes (`-` for none), `size COUNT HEX NAME`, which asks for that of these bytes with blanks behind them up to so many bytes, or `find TENANT HEX`, which asks for the tenant's route of a path in the last configuration that was answered.
//! A configuration is printed as the values of its keys in order, with the word `tenant` before each tenant and `route` before each route, and with names, paths, files and content types in hexadecimal. A refusal is printed by its number, and a route by its number through all tenants.

use crate::spelling::bytes_of;
use run_queues::Policy;
use serve_config::{Config, ConfigFault, Route, Routes, Tenant, read_config};
use std::io;

/// A case of the file.
#[derive(Drop)]
enum Case<'a> {
    /// The configuration of bytes, with blanks behind them up to a size.
    Read { spelling: &'a str, size: usize },

    /// The route of a tenant's path.
    Find { tenant: u32, spelling: &'a str },
}

/// The case of a line, if it has one.
fn case_of(line: &str) -> Option<Case<'_>> {
    let (word, rest) = line.split_once(' ')?;
    let (first, rest) = rest.split_once(' ')?;
    match word {
        "read" => Some(Case::Read {
            spelling: first,
            size: 0,
        }),
        "size" => {
            let (spelling, _) = rest.split_once(' ')?;
            Some(Case::Read {
                spelling,
                size: first.parse().ok()?,
            })
        }
        "find" => Some(Case::Find {
            tenant: first.parse().ok()?,
            spelling: rest,
        }),
        _ => None,
    }
}

/// Prints a text in hexadecimal, behind a blank.
fn print_text(rt: &(impl Print + AllocGlobal), text: &str) -> io::Result<()> {
    let spelling = hex::encode(rt.alloc(), text.as_bytes())?;
    print!(rt; " {spelling}")
}

fn print_route(rt: &(impl Print + AllocGlobal), route: &Route) -> io::Result<()> {
    print!(rt; " route")?;
    print_text(rt, route.path.as_str())?;
    print_text(rt, route.module.as_str())?;
    let (budget, pages) = (route.budget, route.pages);
    let (estimate, deadline) = (route.estimate, route.deadline);
    print!(rt; " {budget} {pages} {estimate} {deadline}")?;
    print_text(rt, route.content_type.as_str())
}

fn print_tenant(rt: &(impl Print + AllocGlobal), tenant: &Tenant) -> io::Result<()> {
    print!(rt; " tenant")?;
    print_text(rt, tenant.name.as_str())?;
    let (port, capacity, rate) = (tenant.port, tenant.capacity, tenant.rate);
    print!(rt; " {port} {capacity} {rate}")?;
    for route in tenant.routes.as_slice() {
        print_route(rt, route)?;
    }
    Ok(())
}

/// The text that stands for a policy.
fn policy_text(policy: Policy) -> &'static str {
    match policy {
        Policy::RoundRobin => "rr",
        Policy::EarliestDeadline => "edf",
    }
}

fn print_config(rt: &(impl Print + AllocGlobal), config: &Config) -> io::Result<()> {
    let (workers, quantum) = (config.workers, config.quantum);
    let policy = policy_text(config.policy);
    let (berths, clerks) = (config.berths, config.clerks);
    print!(rt; "{workers} {quantum} {policy} {berths} {clerks}")?;
    for tenant in config.tenants() {
        print_tenant(rt, tenant)?;
    }
    println!(rt; "")
}

/// Prints the configuration of bytes, and keeps its routes.
fn print_reading(
    rt: &(impl Print + AllocGlobal),
    bytes: &[u8],
    routes: &mut Option<Routes>,
) -> io::Result<()> {
    match read_config(rt.alloc(), bytes) {
        Ok(config) => {
            print_config(rt, &config)?;
            *routes = Some(Routes::new(rt.alloc(), &config)?);
            Ok(())
        }
        Err(ConfigFault::Refused(number)) => println!(rt; "refused {number}"),
        Err(ConfigFault::NoMemory) => println!(rt; "no memory"),
    }
}

/// Prints the route of a path.
fn print_route_number(rt: &impl Print, routes: &Routes, tenant: u32, path: &str) -> io::Result<()> {
    if routes.tenants() <= tenant as usize {
        return println!(rt; "no tenant");
    }
    match routes.find(tenant, path) {
        Some(number) => println!(rt; "route {number}"),
        None => println!(rt; "none"),
    }
}

/// Prints the line of a case.
fn print_case(
    rt: &(impl Print + AllocGlobal),
    line: &str,
    routes: &mut Option<Routes>,
) -> io::Result<()> {
    match case_of(line) {
        Some(Case::Read { spelling, size }) => {
            let Some(mut bytes) = bytes_of(rt.alloc(), spelling) else {
                return println!(rt; "no bytes: {line}");
            };
            if bytes.len() < size {
                bytes.resize(size, b' ')?;
            }
            print_reading(rt, &bytes, routes)
        }
        Some(Case::Find { tenant, spelling }) => {
            let Some(bytes) = bytes_of(rt.alloc(), spelling) else {
                return println!(rt; "no bytes: {line}");
            };
            match (routes, str::from_utf8(&bytes)) {
                (Some(routes), Ok(path)) => print_route_number(rt, routes, tenant, path),
                _ => println!(rt; "no routes: {line}"),
            }
        }
        None => println!(rt; "no case: {line}"),
    }
}

/// Prints the line of each case.
pub fn print_all(rt: &(impl Print + AllocGlobal), cases: &str) -> io::Result<()> {
    let mut routes = None;
    for line in cases.lines() {
        print_case(rt, line, &mut routes)?;
    }
    Ok(())
}
