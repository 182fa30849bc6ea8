//! A module with its index spaces, in which imported items come first (WebAssembly Core 1.0, section 2.5.1).
ghost use Rattle.std.specs.Prelude.{◌≡◌, ◌+◌, ◌≤◌, ◌<◌, ◌^◌, ◌++◌, length, map, is_some, slice_get, option_copied, option_to_list, IfOk, OnOk};
ghost use Rattle.std.specs.List.{list_any};
ghost use Rattle.wasm_ops.specs.Limits.{imported_functions};
ghost use Rattle.wasm_meaning.specs.Typing.{has_any};
ghost use Rattle.wasm_meaning.specs.ValiditySpaces.{as_function, as_table, as_memory, as_global, imported, functions, tables, memories, globals, function_type, body_type, defined_global};

use std::alloc::{AllocError, AllocFailed, Global};
use std::marker::Model;
use wasm_meaning::GlobalType;
use wasm_ops::{FuncType, GlobalDef, Import, ImportItem, Limits, Module};

/// A module whose index spaces are known. Contracts see it as the module.
pub struct Indexed {
    module: Module,

    /// The index of each function's type.
    functions: Vec<u32>,

    /// How many functions are imported.
    imported: u32,

    /// How many tables there are.
    tables: usize,

    /// How many memories there are.
    memories: usize,

    /// The type of each global.
    globals: Vec<GlobalType>,
}

impl Drop for Indexed {
    fn drop(self) {
        let Indexed {
            module: _,
            functions: _,
            imported: _,
            tables: _,
            memories: _,
            globals: _,
        } = self;
    }
}

impl Model for Indexed {
    ghost use Rattle.wasm_ops.specs.declared.modules.Module.{Module};
    ghost use Rattle.wasm_typing.specs.Indexes.{IsIndexed};

    ghost Value = { Module };

    ghost view = { λ i. i.«module» };

    ghost invariant = { λ i. IsIndexed i.«module» i.functions.items i.imported i.tables i.memories i.globals.items };
}

/// What an import asks for, if it is a function.
pub fn as_function(item: &ImportItem) -> Option<u32>
    ensures { result ≡ as_function item.now }
{
    match item {
        ImportItem::Function(index) => Some(*index),
        ImportItem::Table(_) | ImportItem::Memory(_) | ImportItem::Global { .. } => None,
    }
}

/// Its size, if it is a table.
pub fn as_table(item: &ImportItem) -> Option<Limits>
    ensures { result ≡ as_table item.now }
{
    match item {
        ImportItem::Table(limits) => Some(*limits),
        ImportItem::Function(_) | ImportItem::Memory(_) | ImportItem::Global { .. } => None,
    }
}

/// Its size, if it is a memory.
pub fn as_memory(item: &ImportItem) -> Option<Limits>
    ensures { result ≡ as_memory item.now }
{
    match item {
        ImportItem::Memory(limits) => Some(*limits),
        ImportItem::Function(_) | ImportItem::Table(_) | ImportItem::Global { .. } => None,
    }
}

/// The type, if it is a global.
pub fn as_global(item: &ImportItem) -> Option<GlobalType>
    ensures { result ≡ as_global item.now }
{
    match item {
        ImportItem::Global { value, mutable } => Some(GlobalType {
            value: *value,
            mutable: *mutable,
        }),
        ImportItem::Function(_) | ImportItem::Table(_) | ImportItem::Memory(_) => None,
    }
}

fn push_some<T>(all: &mut Vec<T>, item: Option<T>) -> Result<(), AllocFailed<T>>
    ensures { OnOk result (all.new.items ≡ all.old.items ++ option_to_list item) }
{
    match item {
        Some(item) => all.push(item),
        None => Ok(()),
    }
}

fn imported_functions(alloc: Global, imports: &[Import]) -> Result<Vec<u32>, AllocError>
    ensures { IfOk result (λ all. all.items ≡ imported as_function imports.now) }
{
    let mut all = Vec::new(alloc);
    for import in imports {
        push_some(&mut all, as_function(&import.item))?;
    }
    Ok(all)
}

fn imported_globals(alloc: Global, imports: &[Import]) -> Result<Vec<GlobalType>, AllocError>
    ensures { IfOk result (λ all. all.items ≡ imported as_global imports.now) }
{
    let mut all = Vec::new(alloc);
    for import in imports {
        push_some(&mut all, as_global(&import.item))?;
    }
    Ok(all)
}

// As many as there are in front of the index space.
fn functions_found(imports: &[Import]) -> usize
    ensures count { result ≡ length (imported as_function imports.now) }
    ensures few { result ≤ length imports.now }
{
    imports
        .iter()
        .filter_map(|import| as_function(&import.item))
        .count()
}

// The same, as the limit on functions counts them.
#[tactic(auto, using(wasm_meaning::proofs::ModuleFacts::imported_count))]
fn count_functions(imports: &[Import]) -> usize
    ensures count { result ≡ imported_functions imports.now }
    ensures few { result ≤ length imports.now }
{
    functions_found(imports)
}

fn count_tables(imports: &[Import]) -> usize
    ensures count { result ≡ length (imported as_table imports.now) }
    ensures few { result ≤ length imports.now }
{
    imports
        .iter()
        .filter_map(|import| as_table(&import.item))
        .count()
}

fn count_memories(imports: &[Import]) -> usize
    ensures count { result ≡ length (imported as_memory imports.now) }
    ensures few { result ≤ length imports.now }
{
    imports
        .iter()
        .filter_map(|import| as_memory(&import.item))
        .count()
}

fn push_defined(all: &mut Vec<GlobalType>, globals: &[GlobalDef]) -> Result<(), AllocError>
    ensures { OnOk result (all.new.items ≡ all.old.items ++ map defined_global globals.now) }
{
    for global in globals {
        all.push(GlobalType {
            value: global.value,
            mutable: global.mutable,
        })?;
    }
    Ok(())
}

impl Indexed {
    /// The index spaces of a module, in one pass over each list.
    pub fn new(alloc: Global, module: Module) -> Result<Indexed, AllocError>
        requires imports { length «module».imports < 2 ^ 32 }
        requires tables { length «module».tables < 2 ^ 32 }
        requires memories { length «module».memories < 2 ^ 32 }
        ensures { IfOk result (λ indexed. indexed ≡ «module») }
    {
        let mut functions = imported_functions(alloc, module.imports.as_slice())?;
        let imported = count_functions(module.imports.as_slice()) as u32;
        functions.extend_from_slice(module.functions.as_slice())?;
        let tables = count_tables(module.imports.as_slice()) + module.tables.as_slice().len();
        let memories = count_memories(module.imports.as_slice()) + module.memories.as_slice().len();
        let mut globals = imported_globals(alloc, module.imports.as_slice())?;
        push_defined(&mut globals, module.globals.as_slice())?;
        Ok(Indexed {
            module,
            functions,
            imported,
            tables,
            memories,
            globals,
        })
    }

    /// The module.
    pub fn module(&self) -> &Module
        ensures { result.now ≡ self.now }
    {
        &self.module
    }

    /// How many functions are imported.
    pub fn imported(&self) -> u32
        ensures { result ≡ imported_functions self.now.imports }
    {
        self.imported
    }

    /// How many functions there are.
    pub fn functions(&self) -> usize
        ensures { result ≡ length (functions self.now) }
    {
        self.functions.len()
    }

    /// How many tables there are.
    pub fn tables(&self) -> usize
        ensures { result ≡ length (tables self.now) }
    {
        self.tables
    }

    /// How many memories there are.
    pub fn memories(&self) -> usize
        ensures { result ≡ length (memories self.now) }
    {
        self.memories
    }

    /// Whether there is a table.
    pub fn has_table(&self) -> bool
        ensures { result ≡ has_any (tables self.now) }
    {
        self.tables > 0
    }

    /// Whether there is a memory.
    pub fn has_memory(&self) -> bool
        ensures { result ≡ has_any (memories self.now) }
    {
        self.memories > 0
    }

    /// How many globals there are.
    pub fn globals(&self) -> usize
        ensures { result ≡ length (globals self.now) }
    {
        self.globals.len()
    }

    /// The global with this index.
    pub fn global(&self, index: u32) -> Option<GlobalType>
        ensures { result ≡ slice_get (globals self.now) index }
    {
        self.globals.get(index as usize).copied()
    }

    /// The type with this index.
    pub fn type_at(&self, index: u32) -> Option<&FuncType>
        ensures { option_copied result ≡ slice_get self.now.types index }
    {
        self.module.types.as_slice().get(index as usize)
    }

    /// The type of the function with this index.
    pub fn function_type(&self, index: usize) -> Option<&FuncType>
        ensures { option_copied result ≡ function_type self.now index }
    {
        let type_index = self.functions.get(index).copied()?;
        self.type_at(type_index)
    }

    /// The type of the function that has the body with this number.
    pub fn body_type(&self, number: u32) -> Option<&FuncType>
        ensures { option_copied result ≡ body_type self.now number }
    {
        self.function_type(self.imported as usize + number as usize)
    }
}
