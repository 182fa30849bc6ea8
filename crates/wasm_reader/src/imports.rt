//! Imports (WebAssembly Core 1.0, section 5.5.5).
ghost use Rattle.std.specs.Prelude.{◌≡◌, ◌+◌, ◌<◌, ◌^◌, true, IfOk};
ghost use Rattle.wasm_ops.specs.Limits.{imported_functions, imported_globals};
ghost use Rattle.wasm_code.specs.Faults.{Gives, Tells};
ghost use Rattle.wasm_reader.specs.Contents.{has_room, import_behind, import_item as import_item_syntax, import_kind as import_kind_syntax, imports as imports_syntax, kind_of};
ghost use Rattle.wasm_reader.specs.Imports.{functions_of, globals_of, kind_of_import, none_imported, with_import, with_kind};
ghost use Rattle.wasm_reader.specs.Syntax.{Syntax};

use crate::ReadFault;
use crate::items::owned_name;
use crate::parts::{memory, mutability, table};
use crate::vectors::{ItemKind, vector};
use std::alloc::Global;
use wasm_code::value_type;
use wasm_ops::{Cursor, Fault, Import, ImportItem, Refusal};

/// The most functions of a module, imported ones among them.
pub(crate) const MOST_FUNCTIONS: u32 = 10_000;

/// The most globals of a module, imported ones among them.
pub(crate) const MOST_GLOBALS: u32 = 1_000;

/// What an import is, as its kind byte says (section 5.5.5).
#[derive(Clone, Copy)]
pub(crate) enum ImportKind {
    /// A function (00).
    Function,

    /// A table (01).
    Table,

    /// A memory (02).
    Memory,

    /// A global (03).
    Global,
}

impl ImportKind {
    fn of(byte: u8) -> Option<ImportKind>
        ensures { result ≡ kind_of byte }
    {
        match byte {
            0 => Some(ImportKind::Function),
            1 => Some(ImportKind::Table),
            2 => Some(ImportKind::Memory),
            3 => Some(ImportKind::Global),
            _ => None,
        }
    }

    fn of_import(item: &ImportItem) -> ImportKind
        ensures { result ≡ kind_of_import item.now }
    {
        match item {
            ImportItem::Function(_) => ImportKind::Function,
            ImportItem::Table(_) => ImportKind::Table,
            ImportItem::Memory(_) => ImportKind::Memory,
            ImportItem::Global { .. } => ImportKind::Global,
        }
    }
}

/// How many functions and globals are imported, for the imports that came before. Imports are a kind of things of which a vector is made.
#[derive(Clone, Copy)]
pub(crate) struct Imported {
    /// How many of them are functions.
    pub(crate) functions: u64,

    /// How many of them are globals.
    pub(crate) globals: u64,
}

impl Imported {
    /// Those of no imports.
    pub(crate) fn none() -> Imported
        ensures { result ≡ none_imported }
    {
        Imported {
            functions: 0,
            globals: 0,
        }
    }

    // Those with one more import of this kind.
    fn with(self, kind: ImportKind) -> Imported
        requires functions { self.functions + functions_of kind < 2 ^ 64 }
        requires globals { self.globals + globals_of kind < 2 ^ 64 }
        ensures { result ≡ with_kind self kind }
    {
        match kind {
            ImportKind::Function => Imported {
                functions: self.functions + 1,
                globals: self.globals,
            },
            ImportKind::Table => self,
            ImportKind::Memory => self,
            ImportKind::Global => Imported {
                functions: self.functions,
                globals: self.globals + 1,
            },
        }
    }

    // Whether the module may have one more import of this kind.
    fn has_room(self, kind: ImportKind) -> bool
        ensures { result ≡ has_room self.functions self.globals kind }
    {
        match kind {
            ImportKind::Function => self.functions < u64::from(MOST_FUNCTIONS),
            ImportKind::Table => true,
            ImportKind::Memory => true,
            ImportKind::Global => self.globals < u64::from(MOST_GLOBALS),
        }
    }

    /// Those of a list of imports.
    pub(crate) fn of(imports: &[Import]) -> Imported
        ensures functions { result.functions ≡ imported_functions imports.now }
        ensures globals { result.globals ≡ imported_globals imports.now }
    {
        let mut imported = Imported::none();
        for import in imports {
            imported = imported.with(ImportKind::of_import(&import.item));
        }
        imported
    }
}

impl ItemKind for Imported {
    type Item = Import;

    ghost syntax = { λ imported. import_behind imported.functions imported.globals };

    ghost after = { with_import };

    fn next(&mut self, alloc: Global, cursor: &mut Cursor<'_>) -> Result<Import, ReadFault> {
        let module = owned_name(alloc, cursor)?;
        let name = owned_name(alloc, cursor)?;
        let kind = import_kind(*self, cursor)?;
        let item = import_item(kind, cursor)?;
        *self = self.with(kind);
        Ok(Import { module, name, item })
    }
}

/// The imports.
pub(crate) fn imports(alloc: Global, cursor: &mut Cursor<'_>) -> Result<Vec<Import>, ReadFault>
    ensures { Gives (λ imports. (imports.items, cursor.new)) result (imports_syntax.read cursor.old) }
{
    vector(alloc, Imported::none(), cursor)
}

// The kind of an import, which can be counted. Refused: `BadKind` at an unknown one, and `TooLarge` where no room is left for one of it.
#[tactic(auto, using(crate::proofs::ImportCounts::functions_fit, crate::proofs::ImportCounts::globals_fit))]
fn import_kind(imported: Imported, cursor: &mut Cursor<'_>) -> Result<ImportKind, Fault>
    ensures read { Tells (λ kind. (kind, cursor.new)) result ((import_kind_syntax imported.functions imported.globals).read cursor.old) }
    ensures functions { IfOk result (λ kind. imported.functions + functions_of kind < 2 ^ 64) }
    ensures globals { IfOk result (λ kind. imported.globals + globals_of kind < 2 ^ 64) }
{
    let at = cursor.at();
    let Some(kind) = ImportKind::of(cursor.byte()?) else {
        return Err(Refusal::BadKind.at(at));
    };
    if !imported.has_room(kind) {
        return Err(Refusal::TooLarge.at(at));
    }
    Ok(kind)
}

// What is imported, behind its kind.
fn import_item(kind: ImportKind, cursor: &mut Cursor<'_>) -> Result<ImportItem, Fault>
    ensures read { Tells (λ item. (item, cursor.new)) result ((import_item_syntax kind).read cursor.old) }
    ensures kind { IfOk result (λ item. kind_of_import item ≡ kind) }
{
    match kind {
        ImportKind::Function => Ok(ImportItem::Function(cursor.u32_leb()?)),
        ImportKind::Table => Ok(ImportItem::Table(table(cursor)?)),
        ImportKind::Memory => Ok(ImportItem::Memory(memory(cursor)?)),
        ImportKind::Global => {
            let value = value_type(cursor)?;
            let mutable = mutability(cursor)?;
            Ok(ImportItem::Global { value, mutable })
        }
    }
}
