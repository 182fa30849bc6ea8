//! What the vectors of a module are made of, but for imports and bodies (WebAssembly Core 1.0, sections 5.3, 5.5.4, 5.5.6 to 5.5.10, 5.5.12 and 5.5.14).
ghost use Rattle.std.specs.Prelude.{◌≡◌};
ghost use Rattle.wasm_ops.specs.declared.faults.Refusal.TheVariants.{BadKind, CountsDiffer};
ghost use Rattle.wasm_code.specs.Faults.{Gives, Tells};
ghost use Rattle.wasm_reader.specs.Contents.{as_counted, as_kind, is_counted, element as element_syntax, export as export_syntax, global as global_syntax, segment as segment_syntax};
ghost use Rattle.wasm_reader.specs.Parts.{function_type as function_type_syntax, memory as memory_syntax, name as name_syntax, result_type as result_type_syntax, table as table_syntax, value_type as value_type_syntax};
ghost use Rattle.wasm_reader.specs.Syntax.{byte, checked, number, or_fault};

use crate::ReadFault;
use crate::parts::{constant, count, memory, mutability, table, tag};
use crate::vectors::{ItemKind, vector, vector_within};
use std::alloc::Global;
use wasm_code::value_type;
use wasm_ops::{
    ByteSegment, Cursor, ElementSegment, Export, Fault, FuncType, GlobalDef, Items, Limits, Name,
    Refusal, ValType,
};

// The most parameters of a function type.
const MOST_PARAMETERS: u32 = 1_000;

// The most results of a function type.
const MOST_RESULTS: u32 = 1;

// The greatest kind of an export: a global.
const MOST_KIND: u8 = 3;

/// Indices, of whatever they count.
#[derive(Clone, Copy)]
pub(crate) struct Indices;

impl ItemKind for Indices {
    type Item = u32;

    ghost syntax = { λ _. number };

    ghost after = { λ kind _. kind };

    fn next(&mut self, _alloc: Global, cursor: &mut Cursor<'_>) -> Result<u32, ReadFault> {
        Ok(cursor.u32_leb()?)
    }
}

/// Value types.
#[derive(Clone, Copy)]
pub(crate) struct ValueTypes;

impl ItemKind for ValueTypes {
    type Item = ValType;

    ghost syntax = { λ _. value_type_syntax };

    ghost after = { λ kind _. kind };

    fn next(&mut self, _alloc: Global, cursor: &mut Cursor<'_>) -> Result<ValType, ReadFault> {
        Ok(value_type(cursor)?)
    }
}

/// Function types.
#[derive(Clone, Copy)]
pub(crate) struct FunctionTypes;

impl ItemKind for FunctionTypes {
    type Item = FuncType;

    ghost syntax = { λ _. function_type_syntax };

    ghost after = { λ kind _. kind };

    fn next(&mut self, alloc: Global, cursor: &mut Cursor<'_>) -> Result<FuncType, ReadFault> {
        tag(0x60, cursor)?;
        let params = vector_within(alloc, 0, MOST_PARAMETERS, ValueTypes, cursor)?;
        let results = count(0, MOST_RESULTS, cursor)?;
        let result = result_type(results, cursor)?;
        Ok(FuncType {
            params: Items::new(params),
            result,
        })
    }
}

// The type of the result, where there is one.
fn result_type(count: u32, cursor: &mut Cursor<'_>) -> Result<Option<ValType>, Fault>
    ensures { Tells (λ result. (result, cursor.new)) result ((result_type_syntax count).read cursor.old) }
{
    if count == 0 {
        return Ok(None);
    }
    Ok(Some(value_type(cursor)?))
}

/// Tables, by their limits.
#[derive(Clone, Copy)]
pub(crate) struct Tables;

impl ItemKind for Tables {
    type Item = Limits;

    ghost syntax = { λ _. table_syntax };

    ghost after = { λ kind _. kind };

    fn next(&mut self, _alloc: Global, cursor: &mut Cursor<'_>) -> Result<Limits, ReadFault> {
        Ok(table(cursor)?)
    }
}

/// Memories, by their limits.
#[derive(Clone, Copy)]
pub(crate) struct Memories;

impl ItemKind for Memories {
    type Item = Limits;

    ghost syntax = { λ _. memory_syntax };

    ghost after = { λ kind _. kind };

    fn next(&mut self, _alloc: Global, cursor: &mut Cursor<'_>) -> Result<Limits, ReadFault> {
        Ok(memory(cursor)?)
    }
}

/// Globals.
#[derive(Clone, Copy)]
pub(crate) struct Globals;

impl ItemKind for Globals {
    type Item = GlobalDef;

    ghost syntax = { λ _. global_syntax };

    ghost after = { λ kind _. kind };

    fn next(&mut self, _alloc: Global, cursor: &mut Cursor<'_>) -> Result<GlobalDef, ReadFault> {
        let value = value_type(cursor)?;
        let mutable = mutability(cursor)?;
        let first = constant(cursor)?;
        Ok(GlobalDef {
            value,
            mutable,
            first,
        })
    }
}

/// Exports.
#[derive(Clone, Copy)]
pub(crate) struct Exports;

impl ItemKind for Exports {
    type Item = Export;

    ghost syntax = { λ _. export_syntax };

    ghost after = { λ kind _. kind };

    fn next(&mut self, alloc: Global, cursor: &mut Cursor<'_>) -> Result<Export, ReadFault> {
        let name = owned_name(alloc, cursor)?;
        let kind = export_kind(cursor)?;
        let index = cursor.u32_leb()?;
        Ok(Export { name, kind, index })
    }
}

// The kind of an export. Refused: `BadKind` at a byte above 3.
fn export_kind(cursor: &mut Cursor<'_>) -> Result<u8, Fault>
    ensures { Tells (λ kind. (kind, cursor.new)) result ((checked as_kind (or_fault BadKind) byte).read cursor.old) }
{
    let at = cursor.at();
    let kind = cursor.byte()?;
    if MOST_KIND < kind {
        return Err(Refusal::BadKind.at(at));
    }
    Ok(kind)
}

/// A name of its own text.
pub(crate) fn owned_name(alloc: Global, cursor: &mut Cursor<'_>) -> Result<Name, ReadFault>
    ensures { Gives (λ name. (name, cursor.new)) result (name_syntax.read cursor.old) }
{
    let text = cursor.text()?;
    Ok(Name::new(String::from_str(alloc, text)?))
}

/// Element segments.
#[derive(Clone, Copy)]
pub(crate) struct ElementSegments;

impl ItemKind for ElementSegments {
    type Item = ElementSegment;

    ghost syntax = { λ _. element_syntax };

    ghost after = { λ kind _. kind };

    fn next(
        &mut self,
        alloc: Global,
        cursor: &mut Cursor<'_>,
    ) -> Result<ElementSegment, ReadFault> {
        let table = cursor.u32_leb()?;
        let offset = constant(cursor)?;
        let functions = vector(alloc, Indices, cursor)?;
        Ok(ElementSegment {
            table,
            offset,
            functions: Items::new(functions),
        })
    }
}

/// Data segments.
#[derive(Clone, Copy)]
pub(crate) struct DataSegments;

impl ItemKind for DataSegments {
    type Item = ByteSegment;

    ghost syntax = { λ _. segment_syntax };

    ghost after = { λ kind _. kind };

    fn next(&mut self, alloc: Global, cursor: &mut Cursor<'_>) -> Result<ByteSegment, ReadFault> {
        let memory = cursor.u32_leb()?;
        let offset = constant(cursor)?;
        let count = cursor.u32_leb()?;
        let bytes = cursor.take(count)?;
        Ok(ByteSegment {
            memory,
            offset,
            bytes: Items::new(Vec::from_slice(alloc, bytes)?),
        })
    }
}

/// How many data segments there are. Refused: `CountsDiffer` where there are more or fewer of them than was said.
pub(crate) fn segment_count(due: Option<u32>, cursor: &mut Cursor<'_>) -> Result<u32, Fault>
    ensures { Tells (λ count. (count, cursor.new)) result ((checked (as_counted due) (or_fault CountsDiffer) number).read cursor.old) }
{
    let at = cursor.at();
    let count = cursor.u32_leb()?;
    if is_counted(due, u64::from(count)) {
        Ok(count)
    } else {
        Err(Refusal::CountsDiffer.at(at))
    }
}

/// Whether there are as many data segments as was said, if it was.
pub(crate) fn is_counted(due: Option<u32>, count: u64) -> bool
    ensures { result ≡ is_counted due count }
{
    match due {
        None => true,
        Some(due) => count == u64::from(due),
    }
}
