//! Vectors (WebAssembly Core 1.0, section 5.1.3).
ghost use Rattle.std.specs.Prelude.{◌≡◌, [], IfOk};
ghost use Rattle.wasm_code.specs.Faults.{Gives};
ghost use Rattle.wasm_reader.specs.Syntax.{Syntax, items_from, kept, limited, number, vector_of, ◌⨾◌};

use crate::ReadFault;
use crate::parts::count;
use std::alloc::Global;
use wasm_ops::Cursor;

/// What a vector is made of: things of one kind. A value of the kind keeps what has to be known of those that came before.
pub(crate) trait ItemKind: Sized + Drop {
    /// One of them.
    type Item: Drop;

    /// How the next one is spelt.
    ghost syntax: { Self → Syntax Self.Item };

    /// What is known behind one more.
    ghost after: { Self → Self.Item → Self };

    /// The next one.
    fn next(&mut self, alloc: Global, cursor: &mut Cursor<'_>) -> Result<Self::Item, ReadFault>
        ensures read { Gives (λ item. (item, cursor.new)) result ((syntax self.old).read cursor.old) }
        ensures known { IfOk result (λ item. self.new ≡ after self.old item) };
}

/// So many things, one behind another.
pub(crate) fn items<K: ItemKind>(
    alloc: Global,
    kind: K,
    count: u32,
    cursor: &mut Cursor<'_>,
) -> Result<Vec<K::Item>, ReadFault>
    ensures { Gives (λ items. (items.items, cursor.new)) result (items_from count (λ so_far. K.syntax (kept K.after kind so_far)) [] cursor.old) }
{
    let mut kind = kind;
    let mut items = Vec::new(alloc);
    for _ in 0..count {
        items.push(kind.next(alloc, cursor)?)?;
    }
    Ok(items)
}

/// A vector: a count, and so many things.
pub(crate) fn vector<K: ItemKind>(
    alloc: Global,
    kind: K,
    cursor: &mut Cursor<'_>,
) -> Result<Vec<K::Item>, ReadFault>
    ensures { Gives (λ items. (items.items, cursor.new)) result ((vector_of number (λ so_far. K.syntax (kept K.after kind so_far))).read cursor.old) }
{
    let count = cursor.u32_leb()?;
    items(alloc, kind, count, cursor)
}

/// A vector of at most so many things, with those before them. Refused: `TooLarge` at its count.
pub(crate) fn vector_within<K: ItemKind>(
    alloc: Global,
    before: u64,
    most: u32,
    kind: K,
    cursor: &mut Cursor<'_>,
) -> Result<Vec<K::Item>, ReadFault>
    ensures { Gives (λ items. (items.items, cursor.new)) result ((vector_of (limited before most) (λ so_far. K.syntax (kept K.after kind so_far))).read cursor.old) }
{
    let count = count(before, most, cursor)?;
    items(alloc, kind, count, cursor)
}
