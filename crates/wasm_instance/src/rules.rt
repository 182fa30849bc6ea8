//! The rule of linking that an item breaks, if it breaks one (WebAssembly Core 1.0, sections 4.5.2 and 4.5.4, and WASI preview1).
ghost use Rattle.std.specs.Prelude.{◌≡◌, ◌+◌, nat_lt, Some, length, option_copied};
ghost use Rattle.wasm_meaning.specs.Validity.{is_bare as is_bare_due};
ghost use Rattle.wasm_meaning.specs.Linking.{host_named, host_in, has_host_type as has_host_type_due, host_refusal as host_due, item_refusal as item_due, import_refusal as import_due, is_entry as is_entry_due, entry_refusal as entry_due, element_refusal as element_due, bytes_refusal as bytes_due};

use wasm_meaning::LinkRule;
use wasm_ops::{
    ByteSegment, ElementSegment, Export, FuncType, HostName, Import, ImportItem, Items, ValType,
};
use wasm_validate::Valid;

fn host_named(name: &str) -> Option<HostName>
    ensures { result ≡ host_named name.now }
{
    match name {
        "fd_read" => Some(HostName::FdRead),
        "fd_write" => Some(HostName::FdWrite),
        "proc_exit" => Some(HostName::ProcExit),
        _ => None,
    }
}

/// The function of the host that an import names.
pub(crate) fn host_in(from: &str, name: &str) -> Option<HostName>
    ensures { result ≡ host_in from.now name.now }
{
    if from == "wasi_snapshot_preview1" {
        host_named(name)
    } else {
        None
    }
}

fn has_host_type(host: HostName, function: &FuncType) -> bool
    ensures { result ≡ has_host_type_due host (Some function.now) }
{
    match host {
        HostName::FdRead | HostName::FdWrite => {
            matches!(
                function.params.as_slice(),
                [ValType::I32, ValType::I32, ValType::I32, ValType::I32]
            ) && matches!(function.result, Some(ValType::I32))
        }
        HostName::ProcExit => {
            matches!(function.params.as_slice(), [ValType::I32]) && function.result.is_none()
        }
    }
}

fn host_refusal(host: Option<HostName>, function: Option<&FuncType>) -> Option<LinkRule>
    ensures { result ≡ host_due host (option_copied function.entry) }
{
    let Some(host) = host else {
        return Some(LinkRule::UnknownImport);
    };
    match function {
        Some(function) if has_host_type(host, function) => None,
        _ => Some(LinkRule::ImportType),
    }
}

/// Of an import, beside all types of the module.
pub(crate) fn import_refusal(types: &Items<FuncType>, import: &Import) -> Option<LinkRule>
    ensures { result ≡ import_due types.now import.now }
{
    match import.item {
        ImportItem::Function(index) => host_refusal(
            host_in(import.module.as_str(), import.name.as_str()),
            types.as_slice().get(index as usize),
        ),
        ImportItem::Table(_) | ImportItem::Memory(_) | ImportItem::Global { .. } => {
            Some(LinkRule::ImportKind)
        }
    }
}

/// Whether a function takes and gives nothing.
fn is_bare(function: &FuncType) -> bool
    ensures { result ≡ is_bare_due function.now }
{
    function.params.as_slice().is_empty() && function.result.is_none()
}

fn is_entry(valid: &Valid, export: &Export) -> bool
    ensures { result ≡ is_entry_due valid.now export.now }
{
    if export.kind != 0 {
        return false;
    }
    match valid.function_type(export.index) {
        Some(function) => is_bare(function),
        None => false,
    }
}

/// Of the export that is named `_start`, if there is one.
pub(crate) fn entry_refusal(valid: &Valid, export: Option<&Export>) -> Option<LinkRule>
    ensures { result ≡ entry_due valid.now (option_copied export.entry) }
{
    match export {
        Some(export) if is_entry(valid, export) => None,
        Some(_) => Some(LinkRule::StartShape),
        None => Some(LinkRule::NoStart),
    }
}

// That so many items from an offset on end past the size.
fn ends_past(size: u64, offset: u64, count: usize) -> bool
    ensures { result ≡ nat_lt size (offset + count) }
{
    (size as u128) < offset as u128 + count as u128
}

/// Of an element segment, beside the number of elements of the table.
pub(crate) fn element_refusal(elements: u32, segment: &ElementSegment) -> Option<LinkRule>
    ensures { result ≡ element_due elements segment.now }
{
    if ends_past(
        elements as u64,
        segment.offset.bits,
        segment.functions.as_slice().len(),
    ) {
        return Some(LinkRule::SegmentRange);
    }
    None
}

/// Of a data segment, beside the number of bytes of the memory.
pub(crate) fn bytes_refusal(bytes: u64, segment: &ByteSegment) -> Option<LinkRule>
    ensures { result ≡ bytes_due bytes segment.now }
{
    if ends_past(bytes, segment.offset.bits, segment.bytes.as_slice().len()) {
        return Some(LinkRule::SegmentRange);
    }
    None
}
