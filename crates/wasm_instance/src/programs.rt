//! Programs.
ghost use Rattle.std.specs.Prelude.{◌≡◌, ◌<◌, None, Some, length, map, is_some, option_copied, option_map, slice_get, true};
ghost use Rattle.std.specs.Bool.{Decides};
ghost use Rattle.wasm_meaning.specs.Linking.{link_refusal};
ghost use Rattle.wasm_meaning.specs.Programs.{IsProgram, body_number as body_number_due, defined, entry_body as entry_body_due, greatest as greatest_due, hosts as hosts_due, most, start_body as start_body_due};
ghost use Rattle.wasm_instance.specs.Callees.{called, is_of_type, shape_of};
ghost use Rattle.wasm_states.specs.Codes.{operator_at, target_at};

use crate::callees::{Callee, Shape};
use crate::parts::Part;
use crate::refusals::start_export;
use std::marker::Model;
use wasm_ops::{FuncType, HostName, Limits, Module, Op};
use wasm_validate::Valid;

// The number of the body of a function that is not imported.
fn body_number(valid: &Valid, index: u32) -> Option<u32>
    ensures { result ≡ body_number_due valid.now index }
{
    if index < valid.imported() {
        None
    } else {
        Some(index - valid.imported())
    }
}

fn start_body(valid: &Valid) -> Option<u32>
    ensures { result ≡ start_body_due valid.now }
{
    body_number(valid, valid.module().start?)
}

fn entry_body(valid: &Valid) -> Option<u32>
    ensures { result ≡ entry_body_due valid.now }
{
    let export = start_export(valid.module().exports.as_slice())?;
    body_number(valid, export.index)
}

// The type with this index.
fn type_at(module: &Module, index: u32) -> Option<&FuncType>
    ensures { option_copied result ≡ slice_get «module».now.types index }
{
    module.types.as_slice().get(index as usize)
}

// The most pages of the first of these memories.
fn greatest(pages: u32, memories: &[Limits]) -> u32
    ensures { result ≡ greatest_due pages memories.now }
{
    match memories {
        [] => 0,
        [first, ..] => match first.most {
            Some(most) => pages.min(most),
            None => pages,
        },
    }
}

/// A valid module that is linked to the host, and the pages that it is given. Contracts see it as these two.
///
/// It has at one place what a call of a function needs. Functions are numbered as in the module, where the imported ones come first; bodies count from 0, without the imported functions.
pub struct Program {
    valid: Valid,
    pages: u32,
    most: u32,
    hosts: Vec<HostName>,
    shapes: Vec<Shape>,
    start: Option<u32>,
    entry: Option<u32>,
}

impl Drop for Program {
    fn drop(self) {
        let Program {
            valid: _,
            pages: _,
            most: _,
            hosts: _,
            shapes: _,
            start: _,
            entry: _,
        } = self;
    }
}

impl Model for Program {
    ghost use Rattle.wasm_meaning.specs.Programs.{Program as ProgramValue};
    ghost use Rattle.wasm_instance.specs.Tabled.{IsTabled};

    ghost Value = { ProgramValue };

    ghost view = { λ p. record { linked = p.valid; pages = p.pages } };

    ghost invariant = { λ p. IsTabled (record { linked = p.valid; pages = p.pages }) p.hosts.items p.shapes.items p.start p.entry p.most };
}

impl Program {
    /// The program of a module that is linked, with what is kept of its functions.
    pub(crate) fn linked(
        valid: Valid,
        pages: u32,
        hosts: Vec<HostName>,
        shapes: Vec<Shape>,
    ) -> Program
        requires links { link_refusal valid pages ≡ None }
        requires hosts { hosts.items ≡ hosts_due valid }
        requires shapes { shapes.items ≡ map shape_of (defined valid) }
        ensures { result ≡ record { linked = valid; pages = pages } }
    {
        let most = greatest(pages, valid.module().memories.as_slice());
        let start = start_body(&valid);
        let entry = entry_body(&valid);
        Program {
            valid,
            pages,
            most,
            hosts,
            shapes,
            start,
            entry,
        }
    }

    /// The valid module that was linked.
    #[inline(always)]
    pub fn valid(&self) -> &Valid
        ensures linked { result.now ≡ self.now.linked }
        ensures program { IsProgram self.now }
    {
        &self.valid
    }

    /// The module.
    #[inline(always)]
    pub fn module(&self) -> &Module
        ensures { result.now ≡ self.now.linked }
    {
        self.valid.module()
    }

    /// The pages that it was given, in pages of 64 KiB.
    #[inline(always)]
    pub fn pages(&self) -> u32
        ensures { result ≡ self.now.pages }
    {
        self.pages
    }

    /// How many pages its memory may have: the lesser of the pages that it was given and the memory's own greatest size, and 0 without a memory.
    #[inline(always)]
    pub fn most(&self) -> u32
        ensures { result ≡ most self.now }
    {
        self.most
    }

    /// The function with this index, if there is one.
    #[inline(always)]
    pub fn callee(&self, index: u32) -> Option<Callee>
        ensures { result ≡ called self.now index }
    {
        if let Some(host) = self.hosts.get(index as usize) {
            return Some(Callee::Host(*host));
        }
        let body = index as usize - self.hosts.len();
        let shape = self.shapes.get(body)?;
        Some(Callee::Defined {
            body: body as u32,
            shape: *shape,
        })
    }

    /// Whether there is a function with this index, and it has the type with this index.
    #[inline]
    pub fn is_of_type(&self, index: u32, type_index: u32) -> bool
        ensures { result ≡ is_of_type self.now index type_index }
    {
        let Some(wanted) = type_at(self.valid.module(), type_index) else {
            return false;
        };
        match self.valid.function_type(index) {
            Some(function) => wanted.same(function),
            None => false,
        }
    }

    /// The room that a call of the body with this number takes.
    #[inline(always)]
    pub fn shape(&self, body: u32) -> Shape
        requires known { body < length (defined self.now.linked) }
        ensures { option_map shape_of (slice_get (defined self.now.linked) body) ≡ Some result }
    {
        self.shapes[body as usize]
    }

    /// The operator at a place of the body with this number.
    #[inline(always)]
    pub fn operator(&self, body: u32, place: u32) -> Op
        requires there { is_some (operator_at self.now.linked body place) ≡ true }
        ensures { operator_at self.now.linked body place ≡ Some result }
    {
        self.valid.module().bodies.as_slice()[body as usize]
            .ops
            .as_slice()[place as usize]
    }

    /// The label at a place among the labels of all `br_table`s of the body with this number.
    #[inline(always)]
    pub fn target(&self, body: u32, place: u32) -> u32
        requires there { is_some (target_at self.now.linked body place) ≡ true }
        ensures { target_at self.now.linked body place ≡ Some result }
    {
        self.valid.module().bodies.as_slice()[body as usize]
            .targets
            .as_slice()[place as usize]
    }

    /// The number of the start function's body, if the module has one.
    pub fn start(&self) -> Option<u32>
        ensures { result ≡ start_body_due self.now.linked }
    {
        self.start
    }

    /// The number of the body of `_start`.
    pub fn entry(&self) -> Option<u32>
        ensures { result ≡ entry_body_due self.now.linked }
    {
        self.entry
    }

    /// Whether the two programs are equal in all that their runs depend on: the modules, and the pages that they were given. No memory is taken.
    pub fn same(&self, other: &Program) -> bool
        ensures { Decides result (self.now ≡ other.now) }
    {
        if self.pages != other.pages {
            return false;
        }
        self.module().same(other.module())
    }
}
