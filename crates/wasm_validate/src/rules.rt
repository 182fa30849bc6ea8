//! The rule that an item of a list breaks, if it breaks one (WebAssembly Core 1.0, sections 3.2 and 3.4).
ghost use Rattle.std.specs.Prelude.{◌≡◌, option_copied, length};
ghost use Rattle.wasm_meaning.specs.ValidityRules.{rule_number};
ghost use Rattle.wasm_meaning.specs.Validity.{is_unknown, are_known, is_above, exceeds, function_rule as function_due, table_rule as table_due, memory_rule as memory_due, import_rule as import_due, global_rule as global_due, count_of as count_due, export_rule as export_due, is_bare as is_bare_due, entered_rule as entered_due, start_rule as start_due, element_rule as element_due, segment_rule as segment_due};

use wasm_meaning::{Broken, Rule};
use wasm_ops::{
    ByteSegment, ElementSegment, Export, FuncType, GlobalDef, ImportItem, Limits, ValType,
};
use wasm_typing::{Indexed, same_type};

/// The most pages of a memory: 4 GiB in pages of 64 KiB.
const MOST_PAGES: u32 = 65536;

/// That an item of a list breaks a rule.
pub(crate) fn outside(rule: Rule, item: u32) -> Broken
    ensures number { result.number ≡ rule_number rule }
    ensures function { result.function ≡ None }
    ensures item { result.item ≡ item }
{
    Broken {
        number: rule.number(),
        function: None,
        item,
    }
}

fn is_unknown(count: usize, index: u32) -> bool
    ensures { result ≡ is_unknown count index }
{
    count <= index as usize
}

fn are_known(count: usize, indices: &[u32]) -> bool
    ensures { result ≡ are_known count indices.now }
{
    indices.iter().all(|index| (*index as usize) < count)
}

fn is_above(size: u32, most: Option<u32>) -> bool
    ensures { result ≡ is_above size most }
{
    match most {
        Some(most) => most < size,
        None => false,
    }
}

fn exceeds(most: Option<u32>, limit: u32) -> bool
    ensures { result ≡ exceeds most limit }
{
    match most {
        Some(most) => limit < most,
        None => false,
    }
}

/// Of a function: the index of its type.
pub(crate) fn function_rule(types: usize, index: u32) -> Option<Rule>
    ensures { result ≡ function_due types index }
{
    if is_unknown(types, index) {
        return Some(Rule::UnknownIndex);
    }
    None
}

/// Of a table, where there is another one before it or not.
pub(crate) fn table_rule(another: bool, limits: Limits) -> Option<Rule>
    ensures { result ≡ table_due another limits }
{
    if another {
        return Some(Rule::TwoTables);
    }
    if is_above(limits.least, limits.most) {
        return Some(Rule::MemoryLimits);
    }
    None
}

/// Of a memory, likewise.
pub(crate) fn memory_rule(another: bool, limits: Limits) -> Option<Rule>
    ensures { result ≡ memory_due another limits }
{
    if another {
        return Some(Rule::TwoMemories);
    }
    if limits.least > MOST_PAGES {
        return Some(Rule::MemoryLimits);
    }
    if exceeds(limits.most, MOST_PAGES) {
        return Some(Rule::MemoryLimits);
    }
    if is_above(limits.least, limits.most) {
        return Some(Rule::MemoryLimits);
    }
    None
}

/// Of an import, where a table and a memory were imported before it or not.
pub(crate) fn import_rule(
    types: usize,
    table: bool,
    memory: bool,
    item: &ImportItem,
) -> Option<Rule>
    ensures { result ≡ import_due types table memory item.now }
{
    match item {
        ImportItem::Function(index) => function_rule(types, *index),
        ImportItem::Table(limits) => table_rule(table, *limits),
        ImportItem::Memory(limits) => memory_rule(memory, *limits),
        ImportItem::Global { .. } => None,
    }
}

/// Of a global: the type of its first value.
pub(crate) fn global_rule(global: &GlobalDef) -> Option<Rule>
    ensures { result ≡ global_due global.now }
{
    if !same_type(global.value, global.first.value) {
        return Some(Rule::ConstantType);
    }
    None
}

/// How many items an export of this kind may name.
fn count_of(whole: &Indexed, kind: u8) -> usize
    ensures { result ≡ count_due whole.now kind }
{
    match kind {
        0 => whole.functions(),
        1 => whole.tables(),
        2 => whole.memories(),
        3 => whole.globals(),
        _ => 0,
    }
}

/// Of an export, whose name was used before it or not.
pub(crate) fn export_rule(whole: &Indexed, used: bool, export: &Export) -> Option<Rule>
    ensures { result ≡ export_due whole.now used export.now }
{
    if is_unknown(count_of(whole, export.kind), export.index) {
        return Some(Rule::UnknownIndex);
    }
    if used {
        return Some(Rule::DoubleExport);
    }
    None
}

/// Whether a function takes and gives nothing.
fn is_bare(function: &FuncType) -> bool
    ensures { result ≡ is_bare_due function.now }
{
    function.params.as_slice().is_empty() && function.result.is_none()
}

/// Of a function that is entered at the start.
fn entered_rule(found: Option<&FuncType>) -> Option<Rule>
    ensures { result ≡ entered_due (option_copied found.entry) }
{
    match found {
        Some(function) if is_bare(function) => None,
        Some(_) => Some(Rule::StartType),
        None => Some(Rule::UnknownIndex),
    }
}

/// Of the start function.
pub(crate) fn start_rule(whole: &Indexed, start: Option<u32>) -> Option<Rule>
    ensures { result ≡ start_due whole.now start }
{
    match start {
        Some(index) => entered_rule(whole.function_type(index as usize)),
        None => None,
    }
}

/// Of an element segment.
pub(crate) fn element_rule(
    tables: usize,
    functions: usize,
    element: &ElementSegment,
) -> Option<Rule>
    ensures { result ≡ element_due tables functions element.now }
{
    if is_unknown(tables, element.table) {
        return Some(Rule::UnknownIndex);
    }
    if !same_type(ValType::I32, element.offset.value) {
        return Some(Rule::ConstantType);
    }
    if !are_known(functions, element.functions.as_slice()) {
        return Some(Rule::UnknownIndex);
    }
    None
}

/// Of a data segment.
pub(crate) fn segment_rule(memories: usize, segment: &ByteSegment) -> Option<Rule>
    ensures { result ≡ segment_due memories segment.now }
{
    if is_unknown(memories, segment.memory) {
        return Some(Rule::UnknownIndex);
    }
    if !same_type(ValType::I32, segment.offset.value) {
        return Some(Rule::ConstantType);
    }
    None
}
