//! Labels, which count the open blocks outwards (WebAssembly Core 1.0, section 3.1.1).
ghost use Rattle.std.specs.Prelude.{◌≡◌, ◌∷◌, [], ◌++◌, map, length, slice_get, IsTrue};
ghost use Rattle.std.specs.List.{list_all};
ghost use Rattle.wasm_meaning.specs.Typing.{label_of, is_label, agrees, takes};
ghost use Rattle.wasm_meaning.specs.TypingOperands.{same_result};
ghost use Rattle.wasm_typing.specs.Scopes.{context_at};

use crate::frames::Frame;
use crate::scopes::Scope;
use crate::shapes::same_type;
use crate::walker::Walker;
use wasm_meaning::BlockKind;
use wasm_ops::ValType;

/// What a branch to the label of a block takes: a loop begins again.
pub(crate) fn label_of(kind: BlockKind, value: Option<ValType>) -> Option<ValType>
    ensures { result ≡ label_of kind value }
{
    match kind {
        BlockKind::LoopBody => None,
        BlockKind::BlockBody | BlockKind::ThenBranch | BlockKind::ElseBranch => value,
    }
}

/// Whether two labels take the same.
pub(crate) fn same_result(one: Option<ValType>, other: Option<ValType>) -> bool
    ensures { result ≡ same_result one other }
{
    match (one, other) {
        (None, None) => true,
        (Some(one), Some(other)) => same_type(one, other),
        _ => false,
    }
}

impl Walker {
    /// What a branch to the label takes, if the label encloses the operator.
    pub(crate) fn label(&self, scope: &Scope<'_>, label: u32) -> Option<Option<ValType>>
        ensures { result ≡ slice_get (context_at scope.now self.now).labels label }
    {
        let label = label as usize;
        let frames = self.frames.as_slice();
        if label < frames.len() {
            let frame = frames[frames.len() - 1 - label];
            Some(label_of(frame.kind, frame.result))
        } else if label == frames.len() {
            Some(scope.result)
        } else {
            None
        }
    }

    /// How many labels enclose the operator.
    fn label_count(&self, scope: &Scope<'_>) -> usize
        ensures { result ≡ length (context_at scope.now self.now).labels }
    {
        self.frames.len() + 1
    }

    /// Whether all labels enclose the operator.
    pub(crate) fn are_labels(&self, scope: &Scope<'_>, labels: &[u32]) -> bool
        ensures { result ≡ list_all (is_label (context_at scope.now self.now)) labels.now }
    {
        let count = self.label_count(scope);
        labels.iter().all(|label| (*label as usize) < count)
    }

    /// Whether a branch to each of the labels takes just this.
    pub(crate) fn all_agree(&self, scope: &Scope<'_>, due: Option<ValType>, labels: &[u32]) -> bool
        ensures { result ≡ list_all (agrees (context_at scope.now self.now) due) labels.now }
    {
        labels.iter().all(|label| match self.label(scope, *label) {
            Some(found) => same_result(due, found),
            None => false,
        })
    }
}
