//! Exports, whose names differ (WebAssembly Core 1.0, section 3.4.10).
ghost use Rattle.std.specs.Prelude.{◌≡◌, ◌<◌, ◌^◌, length, IfOk};
ghost use Rattle.wasm_meaning.specs.Validity.{next_export_rule, exports_walk as exports_due};
ghost use Rattle.wasm_meaning.specs.ValidityChecks.{each_item};
ghost use Rattle.wasm_ops.specs.WellFormed.{IsWellFormed};
ghost use Rattle.wasm_typing.specs.Outcome.{Tells};
ghost use Rattle.wasm_validate.specs.Names.{fingerprint_of, are_twins, AreKeys, IsFirstUsed, IsLeastTwin};
ghost use Rattle.wasm_validate.specs.Outcome.{Gives};

use crate::faults::ValidFault;
use crate::rules::{export_rule, outside};
use std::alloc::{AllocError, Global};
use wasm_meaning::Broken;
use wasm_ops::Export;
use wasm_typing::Indexed;

// What the hash FNV-1a of 64 bits begins with, and multiplies by.
const OFFSET_BASIS: u64 = 14695981039346656037;

const PRIME: u64 = 1099511628211;

// What a name is sorted by. The number, its hash, comes first and tells most names apart: to look into the names themselves, which lie all over the memory, would take more time than all else. The place is that of its export.
#[derive(PartialEq, Eq, PartialOrd, Ord, Drop)]
struct Key<'a> {
    number: u64,
    name: &'a str,
    place: u32,
}

// The hash FNV-1a of the name.
fn fingerprint(name: &str) -> u64
    ensures { result ≡ fingerprint_of name.now }
{
    name.bytes().fold(OFFSET_BASIS, |number: u64, byte| {
        (number ^ u64::from(byte)).wrapping_mul(PRIME)
    })
}

fn keys_of<'a>(alloc: Global, exports: &'a [Export]) -> Result<Vec<Key<'a>>, AllocError>
    requires few { length exports.now < 2 ^ 32 }
    ensures { IfOk result (λ keys. AreKeys exports.now keys.items) }
{
    let mut keys = Vec::with_capacity(alloc, exports.len())?;
    let mut place = 0;
    for export in exports {
        let name = export.name.as_str();
        let number = fingerprint(name);
        keys.push(Key {
            number,
            name,
            place,
        })?;
        place += 1;
    }
    Ok(keys)
}

fn are_twins(one: &Key<'_>, other: &Key<'_>) -> bool
    ensures { result ≡ are_twins one.now other.now }
{
    one.number == other.number && one.name == other.name
}

fn least_twin(keys: &[Key<'_>]) -> Option<u32>
    ensures { IsLeastTwin keys.now result }
{
    let mut least: Option<u32> = None;
    for behind in 1..keys.len() {
        let key = &keys[behind];
        if are_twins(&keys[behind - 1], key) {
            least = Some(least.unwrap_or(key.place).min(key.place));
        }
    }
    least
}

// The place of the first export that has the name of one before it. Names that are equal stand beside each other once they are sorted, so that none is compared with all others.
fn first_used(alloc: Global, exports: &[Export]) -> Result<Option<u32>, AllocError>
    requires few { length exports.now < 2 ^ 32 }
    ensures { IfOk result (λ first. IsFirstUsed exports.now first) }
{
    let mut keys = keys_of(alloc, exports)?;
    keys.sort_unstable();
    Ok(least_twin(keys.as_slice()))
}

// The first export that breaks a rule.
fn all_exports(whole: &Indexed, exports: &[Export], used: Option<u32>) -> Result<(), Broken>
    requires few { length exports.now < 2 ^ 32 }
    requires used { IsFirstUsed exports.now used }
    ensures { Tells (λ u. u) result (each_item (next_export_rule whole.now) exports.now) }
{
    let mut item = 0;
    for export in exports {
        if let Some(rule) = export_rule(whole, used == Some(item), export) {
            return Err(outside(rule, item));
        }
        item += 1;
    }
    Ok(())
}

#[tactic(auto, unfolding(wasm_meaning::specs::Validity::exports_walk))]
pub(crate) fn exports_walk(alloc: Global, whole: &Indexed) -> Result<(), ValidFault>
    requires formed { IsWellFormed whole.now }
    ensures { Gives (λ u. u) result (exports_due whole.now) }
{
    let exports = whole.module().exports.as_slice();
    let used = first_used(alloc, exports)?;
    all_exports(whole, exports, used)?;
    Ok(())
}
