//! `br_table` (WebAssembly Core 1.0, section 3.3.5.8).
ghost use Rattle.std.specs.Prelude.{◌≡◌, ◌+◌, ◌≤◌, take, drop, slice_get, option_copied, option_and_then};
ghost use Rattle.wasm_meaning.specs.Typing.{branch_table as branch_table_walk};
ghost use Rattle.wasm_ops.specs.declared.operators.Op.TheVariants as op;
ghost use Rattle.wasm_meaning.specs.Typing.{plain as plain_walk};
ghost use Rattle.wasm_typing.specs.Open.{height};
ghost use Rattle.wasm_typing.specs.Outcome.{Tells, Follows};
ghost use Rattle.wasm_typing.specs.Scopes.{context_at};

use crate::faults::BodyFault;
use crate::scopes::Scope;
use crate::walker::Walker;
use wasm_meaning::Rule;
use wasm_ops::ValType;

/// So many of the labels from a place on, as far as there are that many.
fn labels_from(targets: &[u32], from: u32, count: u32) -> &[u32]
    ensures { result.now ≡ take count (drop from targets.now) }
{
    let first = (from as usize).min(targets.len());
    let (_, behind) = targets.split_at(first);
    let (labels, _) = behind.split_at((count as usize).min(behind.len()));
    labels
}

impl Walker {
    /// What a branch to the label that stands at this place takes.
    fn default_label(&self, scope: &Scope<'_>, place: usize) -> Option<Option<ValType>>
        ensures { result ≡ option_and_then (slice_get (context_at scope.now self.now).labels) (slice_get scope.now.targets.now place) }
    {
        let label = scope.targets.get(place).copied()?;
        self.label(scope, label)
    }

    fn table_of(
        &mut self,
        scope: &Scope<'_>,
        labels: &[u32],
        default: usize,
    ) -> Result<(), BodyFault>
        ensures walked { Follows (λ u. self.new.now) result (branch_table_walk (context_at scope.now self.old) labels.now (slice_get scope.now.targets.now default) self.old.now) }
        ensures blocks { self.new.blocks ≡ self.old.blocks }
        ensures place { self.new.now.place ≡ self.old.now.place }
        ensures height { height self.new.now ≤ height self.old.now + 1 }
    {
        self.holds(Rule::LabelDepth, self.are_labels(scope, labels))?;
        let due = self.known(Rule::LabelDepth, self.default_label(scope, default))?;
        self.holds(Rule::BranchTypes, self.all_agree(scope, due, labels))?;
        self.take_off(Some(ValType::I32))?;
        self.branch(due)
    }

    /// `br_table`, whose labels stand among those of the body.
    pub(crate) fn br_table(
        &mut self,
        scope: &Scope<'_>,
        from: u32,
        count: u32,
    ) -> Result<(), BodyFault>
        ensures walked { Follows (λ u. self.new.now) result (plain_walk (context_at scope.now self.old) (op.BrTable from count) self.old.now) }
        ensures blocks { self.new.blocks ≡ self.old.blocks }
        ensures place { self.new.now.place ≡ self.old.now.place }
        ensures height { height self.new.now ≤ height self.old.now + 1 }
    {
        let labels = labels_from(scope.targets, from, count);
        self.table_of(scope, labels, from as usize + count as usize)
    }
}
