//! What a program keeps of its functions.
ghost use Rattle.std.specs.Prelude.{◌≡◌, ◌++◌, Some, map, slice_get, option_map, option_to_list, IfOk, OnOk};
ghost use Rattle.wasm_meaning.specs.Programs.{hosts, defined};
ghost use Rattle.wasm_meaning.specs.Validity.{IsValid};
ghost use Rattle.wasm_meaning.specs.ValiditySpaces.{body_type};
ghost use Rattle.wasm_instance.specs.Callees.{shape_of};

use crate::callees::Shape;
use crate::rules::host_in;
use std::alloc::{AllocError, AllocFailed, Global};
use wasm_ops::{Body, FuncType, HostName, Module};
use wasm_validate::Valid;

fn push_some(all: &mut Vec<HostName>, host: Option<HostName>) -> Result<(), AllocFailed<HostName>>
    ensures { OnOk result (all.new.items ≡ all.old.items ++ option_to_list host) }
{
    match host {
        Some(host) => all.push(host),
        None => Ok(()),
    }
}

/// The functions of the host that a module imports.
pub(crate) fn hosts_of(alloc: Global, module: &Module) -> Result<Vec<HostName>, AllocError>
    ensures { IfOk result (λ all. all.items ≡ hosts «module».now) }
{
    let mut all = Vec::new(alloc);
    for import in module.imports.as_slice() {
        push_some(
            &mut all,
            host_in(import.module.as_str(), import.name.as_str()),
        )?;
    }
    Ok(all)
}

// The room that a call of this body takes, which has this number and is of this type.
fn measured(valid: &Valid, number: u32, function: &FuncType, body: &Body) -> Shape
    requires valid { IsValid valid.now }
    requires typed { body_type valid.now number ≡ Some function.now }
    requires there { slice_get valid.now.bodies number ≡ Some body.now }
    ensures { option_map shape_of (slice_get (defined valid.now) number) ≡ Some result }
{
    let params = function.params.as_slice().len() as u32;
    let locals = body.locals.as_slice().len() as u32;
    let operands = valid.height(number);
    let blocks = valid.nest(number);
    Shape {
        cells: params as u64 + locals as u64 + operands as u64 + blocks as u64,
        params,
        locals,
        result: function.result.is_some(),
    }
}

// Likewise, of the body's own type.
fn shape_at(valid: &Valid, number: u32, body: &Body) -> Shape
    requires valid { IsValid valid.now }
    requires there { slice_get valid.now.bodies number ≡ Some body.now }
    ensures { option_map shape_of (slice_get (defined valid.now) number) ≡ Some result }
{
    match valid.body_type(number) {
        Some(function) => measured(valid, number, function, body),
        None => unreachable!(),
    }
}

/// The room that a call of each body takes.
pub(crate) fn shapes_of(alloc: Global, valid: &Valid) -> Result<Vec<Shape>, AllocError>
    ensures { IfOk result (λ all. all.items ≡ map shape_of (defined valid.now)) }
{
    let mut all = Vec::new(alloc);
    let mut number = 0;
    for body in valid.module().bodies.as_slice() {
        all.push(shape_at(valid, number, body))?;
        number += 1;
    }
    Ok(all)
}
