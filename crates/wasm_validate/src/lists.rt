//! The lists of a module, but for exports and bodies: the first item of each that breaks a rule (WebAssembly Core 1.0, section 3.4).
ghost use Rattle.std.specs.Prelude.{◌≡◌, ◌<◌, ◌^◌, length};
ghost use Rattle.wasm_meaning.specs.Validity.{has_table, has_memory, imports_walk as imports_due, functions_walk as functions_due, tables_walk as tables_due, memories_walk as memories_due, globals_walk as globals_due, start_walk as start_due, elements_walk as elements_due, segments_walk as segments_due};
ghost use Rattle.wasm_ops.specs.WellFormed.{IsWellFormed};
ghost use Rattle.wasm_typing.specs.Outcome.{Tells};

use crate::rules::{
    element_rule, function_rule, global_rule, import_rule, memory_rule, outside, segment_rule,
    start_rule, table_rule,
};
use wasm_meaning::Broken;
use wasm_ops::{Import, Module};
use wasm_typing::{Indexed, as_memory, as_table};

#[tactic(auto, unfolding(wasm_meaning::specs::Validity::imports_walk))]
pub(crate) fn imports_walk(whole: &Module) -> Result<(), Broken>
    requires formed { IsWellFormed whole.now }
    ensures { Tells (λ u. u) result (imports_due whole.now) }
{
    let types = whole.types.as_slice().len();
    let mut table = false;
    let mut memory = false;
    let mut item = 0;
    for import in whole.imports.as_slice() {
        if let Some(rule) = import_rule(types, table, memory, &import.item) {
            return Err(outside(rule, item));
        }
        table |= as_table(&import.item).is_some();
        memory |= as_memory(&import.item).is_some();
        item += 1;
    }
    Ok(())
}

#[tactic(auto, unfolding(wasm_meaning::specs::Validity::functions_walk))]
pub(crate) fn functions_walk(whole: &Module) -> Result<(), Broken>
    requires formed { IsWellFormed whole.now }
    ensures { Tells (λ u. u) result (functions_due whole.now) }
{
    let types = whole.types.as_slice().len();
    let mut item = 0;
    for index in whole.functions.as_slice() {
        if let Some(rule) = function_rule(types, *index) {
            return Err(outside(rule, item));
        }
        item += 1;
    }
    Ok(())
}

/// Whether a table is imported.
fn has_table(imports: &[Import]) -> bool
    ensures { result ≡ has_table imports.now }
{
    imports
        .iter()
        .any(|import| as_table(&import.item).is_some())
}

/// Whether a memory is imported.
fn has_memory(imports: &[Import]) -> bool
    ensures { result ≡ has_memory imports.now }
{
    imports
        .iter()
        .any(|import| as_memory(&import.item).is_some())
}

#[tactic(auto, unfolding(wasm_meaning::specs::Validity::tables_walk))]
pub(crate) fn tables_walk(whole: &Module) -> Result<(), Broken>
    requires formed { IsWellFormed whole.now }
    ensures { Tells (λ u. u) result (tables_due whole.now) }
{
    let imported = has_table(whole.imports.as_slice());
    let mut item = 0;
    for limits in whole.tables.as_slice() {
        if let Some(rule) = table_rule(imported || item > 0, *limits) {
            return Err(outside(rule, item));
        }
        item += 1;
    }
    Ok(())
}

#[tactic(auto, unfolding(wasm_meaning::specs::Validity::memories_walk))]
pub(crate) fn memories_walk(whole: &Module) -> Result<(), Broken>
    requires formed { IsWellFormed whole.now }
    ensures { Tells (λ u. u) result (memories_due whole.now) }
{
    let imported = has_memory(whole.imports.as_slice());
    let mut item = 0;
    for limits in whole.memories.as_slice() {
        if let Some(rule) = memory_rule(imported || item > 0, *limits) {
            return Err(outside(rule, item));
        }
        item += 1;
    }
    Ok(())
}

#[tactic(auto, unfolding(wasm_meaning::specs::Validity::globals_walk))]
pub(crate) fn globals_walk(whole: &Module) -> Result<(), Broken>
    requires formed { IsWellFormed whole.now }
    ensures { Tells (λ u. u) result (globals_due whole.now) }
{
    let mut item = 0;
    for global in whole.globals.as_slice() {
        if let Some(rule) = global_rule(global) {
            return Err(outside(rule, item));
        }
        item += 1;
    }
    Ok(())
}

#[tactic(auto, unfolding(wasm_meaning::specs::Validity::start_walk))]
pub(crate) fn start_walk(whole: &Indexed) -> Result<(), Broken>
    ensures { Tells (λ u. u) result (start_due whole.now) }
{
    match start_rule(whole, whole.module().start) {
        Some(rule) => Err(outside(rule, 0)),
        None => Ok(()),
    }
}

#[tactic(auto, unfolding(wasm_meaning::specs::Validity::elements_walk))]
pub(crate) fn elements_walk(whole: &Indexed) -> Result<(), Broken>
    requires formed { IsWellFormed whole.now }
    ensures { Tells (λ u. u) result (elements_due whole.now) }
{
    let tables = whole.tables();
    let functions = whole.functions();
    let mut item = 0;
    for element in whole.module().elements.as_slice() {
        if let Some(rule) = element_rule(tables, functions, element) {
            return Err(outside(rule, item));
        }
        item += 1;
    }
    Ok(())
}

#[tactic(auto, unfolding(wasm_meaning::specs::Validity::segments_walk))]
pub(crate) fn segments_walk(whole: &Indexed) -> Result<(), Broken>
    requires formed { IsWellFormed whole.now }
    ensures { Tells (λ u. u) result (segments_due whole.now) }
{
    let memories = whole.memories();
    let mut item = 0;
    for segment in whole.module().segments.as_slice() {
        if let Some(rule) = segment_rule(memories, segment) {
            return Err(outside(rule, item));
        }
        item += 1;
    }
    Ok(())
}
