//! What refuses a module first, list by list (WebAssembly Core 1.0, section 4.5.4).
ghost use Rattle.std.specs.Prelude.{◌≡◌, ◌<◌, ◌*◌, ◌^◌, length, option_copied};
ghost use Rattle.wasm_meaning.specs.Bytes.{page};
ghost use Rattle.wasm_meaning.specs.Linking.{first_refused, import_refusal as import_due, element_refusal as element_due, bytes_refusal as bytes_due, export_named, entry_name, least_of, first_pages, first_elements, link_refusal as link_due};

use crate::rules::{bytes_refusal, element_refusal, entry_refusal, import_refusal};
use wasm_meaning::{LinkRule, Unlinked};
use wasm_ops::{ByteSegment, ElementSegment, Export, FuncType, Import, Items, Limits, Module};
use wasm_validate::Valid;

/// The bytes of a page.
const PAGE: u64 = 65536;

fn imports_refusal(types: &Items<FuncType>, imports: &[Import]) -> Option<Unlinked>
    requires few { length imports.now < 2 ^ 32 }
    ensures { result ≡ first_refused (import_due types.now) 0 imports.now }
{
    let mut item = 0;
    for import in imports {
        if let Some(rule) = import_refusal(types, import) {
            return Some(Unlinked { rule, item });
        }
        item += 1;
    }
    None
}

fn elements_refusal(elements: u32, segments: &[ElementSegment]) -> Option<Unlinked>
    requires few { length segments.now < 2 ^ 32 }
    ensures { result ≡ first_refused (element_due elements) 0 segments.now }
{
    let mut item = 0;
    for segment in segments {
        if let Some(rule) = element_refusal(elements, segment) {
            return Some(Unlinked { rule, item });
        }
        item += 1;
    }
    None
}

fn segments_refusal(bytes: u64, segments: &[ByteSegment]) -> Option<Unlinked>
    requires few { length segments.now < 2 ^ 32 }
    ensures { result ≡ first_refused (bytes_due bytes) 0 segments.now }
{
    let mut item = 0;
    for segment in segments {
        if let Some(rule) = bytes_refusal(bytes, segment) {
            return Some(Unlinked { rule, item });
        }
        item += 1;
    }
    None
}

/// The export that is named `_start`.
pub(crate) fn start_export(exports: &[Export]) -> Option<&Export>
    ensures { option_copied result ≡ export_named entry_name exports.now }
{
    for export in exports {
        if export.name.as_str() == "_start" {
            return Some(export);
        }
    }
    None
}

fn least_of(all: &[Limits]) -> u32
    ensures { result ≡ least_of all.now }
{
    match all {
        [] => 0,
        [first, ..] => first.least,
    }
}

/// The pages that the memory has at first.
pub(crate) fn first_pages(module: &Module) -> u32
    ensures { result ≡ first_pages «module».now }
{
    least_of(module.memories.as_slice())
}

/// The elements that the table has at first.
pub(crate) fn first_elements(module: &Module) -> u32
    ensures { result ≡ first_elements «module».now }
{
    least_of(module.tables.as_slice())
}

// That the module breaks the rule, at no item of a list.
fn outside(rule: LinkRule) -> Unlinked
    ensures { result ≡ record { rule = rule; item = 0 } }
{
    Unlinked { rule, item: 0 }
}

/// What refuses a valid module first that is given so many pages.
#[tactic(auto, unfolding(wasm_meaning::specs::Linking::link_refusal))]
pub(crate) fn link_refusal(valid: &Valid, pages: u32) -> Option<Unlinked>
    ensures { result ≡ link_due valid.now pages }
{
    let module = valid.module();
    if let Some(why) = imports_refusal(&module.types, module.imports.as_slice()) {
        return Some(why);
    }
    if let Some(rule) = entry_refusal(valid, start_export(module.exports.as_slice())) {
        return Some(outside(rule));
    }
    let first = first_pages(module);
    if pages < first {
        return Some(outside(LinkRule::TooManyPages));
    }
    if let Some(why) = elements_refusal(first_elements(module), module.elements.as_slice()) {
        return Some(why);
    }
    if let Some(why) = segments_refusal(first as u64 * PAGE, module.segments.as_slice()) {
        return Some(why);
    }
    None
}
